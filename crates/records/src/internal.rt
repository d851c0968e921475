// Store and fetch of one record in a lent slice of records.
ghost use Rattle.std.specs.Prelude.{◌≡◌, ◌+◌, ◌*◌, ◌≤◌, ◌<◌, length, get_or, set};
ghost use Rattle.blobs.specs.Patches.{record_length, patch_at};
ghost use Rattle.candidates.specs.Ring.{candidate_at};

use blobs::Blob;
use candidates::Candidate;

// Record j of the flat patch list, stored as record j of the slice.
pub fn store_patch(records: &mut [Blob], patches: &[u64], j: usize)
    requires { (j < length records.old) × (record_length * (j + 1) ≤ length patches.now) }
    ensures { records.new ≡ set records.old j (patch_at patches.now j) }
{
    records[j] = blobs::internal::blob_at(patches, j);
}

// Record i of the flat candidate lists, stored as record i of the slice.
pub fn store_candidate(records: &mut [Candidate], candidates: &[f64], blob_index: &[u32], i: usize)
    requires { (i < length records.old) × (4 * i + 3 < length candidates.now)
        × (i < length blob_index.now) }
    ensures { records.new ≡ set records.old i (candidate_at candidates.now
        blob_index.now i) }
{
    records[i] = candidates::internal::candidate_at(candidates, blob_index, i);
}

// The record at a place of the slice, whatever stands for one that the slice does not have.
pub fn fetch<T: Copy>(records: &[T], place: usize) -> T
    requires { place < length records.now }
    ensures { (none : T) → result ≡ get_or records.now place none }
{
    records[place]
}
