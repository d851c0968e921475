// A record out of the two lists.
ghost use Rattle.std.specs.Prelude.{◌≡◌, ◌+◌, ◌*◌, ◌≤◌, length};
ghost use Rattle.book.specs.Layout.{record_at};

use super::{FIT_NUMBERS, FitRecord, HEAD_NUMBERS};

// Record j of the lists.
pub fn record_at(heads: &[u32], numbers: &[u64], j: usize) -> FitRecord
    requires { (3 * j + 3 ≤ length heads.now) × (13 * j + 13 ≤ length numbers.now) }
    ensures { result ≡ record_at heads.now numbers.now j }
{
    let at = HEAD_NUMBERS * j;
    let from = FIT_NUMBERS * j;
    let mut patterns = [0u64; 13];
    patterns.copy_from_slice(&numbers[from..from + FIT_NUMBERS]);
    FitRecord {
        panel: heads[at],
        camera: heads[at + 1],
        grade: heads[at + 2],
        numbers: patterns,
    }
}
