// The flat list of candidates: written, and read.
ghost use Rattle.std.specs.Prelude.{◌≡◌, ◌+◌, ◌*◌, ◌^◌, ◌≤◌, ◌<◌, length, set};
ghost use Rattle.candidates.specs.Ring.{CandidateList, candidate_at, center_at};
ghost use Rattle.candidates.specs.Bounds.{stored_record, Listable};
ghost use Rattle.blobs.specs.Patches.{patch_at};

use super::planes::Planes;
use super::ring_rule::candidate_of;
use super::{Candidate, Ring};
use blobs::internal::blob_at;
use frame::Point;

// Writes the record of patch j, after k others.
fn store(ring: Ring, j: usize, k: usize, candidates: &mut [f64], blob_index: &mut [u32])
    requires place_held { j < 2 ^ 32 }
    requires count_held { k < 2 ^ 32 }
    requires candidates_room { 4 * k + 4 ≤ length candidates.old }
    requires places_room { k < length blob_index.old }
    ensures stored { candidates.new ≡ stored_record ring k candidates.old }
    ensures placed { blob_index.new ≡ set blob_index.old k j }
{
    let i = 4 * k;
    candidates[i] = ring.center.x;
    candidates[i + 1] = ring.center.y;
    candidates[i + 2] = ring.score;
    candidates[i + 3] = ring.size;
    blob_index[k] = j as u32;
}

// The candidates among n patches, in patch order, and their number.
pub fn list(
    mask: &[u8],
    luma: &[f32],
    w: usize,
    h: usize,
    patches: &[u64],
    n: usize,
    candidates: &mut [f64],
    blob_index: &mut [u32],
) -> usize
    requires { Listable w h mask.now luma.now patches.now n candidates.old blob_index.old }
    ensures { CandidateList mask.now luma.now w h (patch_at patches.now) n
        candidates.old blob_index.old candidates.new blob_index.new
        result }
{
    let planes = Planes { w, h, mask, luma };
    let mut k = 0;
    for j in 0..n {
        if let Some(ring) = candidate_of(planes, blob_at(patches, j)) {
            store(ring, j, k, candidates, blob_index);
            k += 1;
        }
    }
    k
}

// Record i of the list.
pub fn candidate_at(candidates: &[f64], blob_index: &[u32], i: usize) -> Candidate
    requires { (4 * i + 3 < length candidates.now) × (i < length blob_index.now) }
    ensures { result ≡ candidate_at candidates.now blob_index.now i }
{
    let at = 4 * i;
    Candidate {
        center: center_at(candidates, i),
        score: candidates[at + 2],
        size: candidates[at + 3],
        blob_index: blob_index[i] as usize,
    }
}

// The centre in record i.
pub fn center_at(candidates: &[f64], i: usize) -> Point
    requires { 4 * i + 1 < length candidates.now }
    ensures { result ≡ center_at candidates.now i }
{
    let at = 4 * i;
    Point {
        x: candidates[at],
        y: candidates[at + 1],
    }
}
