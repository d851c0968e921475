// The numbers of a line out of the flat list, and whether they can be printed.
ghost use Rattle.std.specs.Prelude.{◌≡◌, ◌*◌, ◌+◌, ◌≤◌, ◌<◌, length};
ghost use Rattle.page.specs.Text.{row_at};
ghost use Rattle.page.specs.Promises.{row_printable, every_printable};

use super::Row;
use super::amount::printable;
use candidates::internal::center_at;

// The numbers of candidate i.
pub fn row_at(candidates: &[f64], i: usize) -> Row
    requires { 4 * i + 3 < length candidates.now }
    ensures { result ≡ row_at candidates.now i }
{
    let center = center_at(candidates, i);
    let at = 4 * i;
    Row {
        x: center.x,
        y: center.y,
        size: candidates[at + 3],
        score: candidates[at + 2],
    }
}

// Whether each number of a line fits its columns.
fn row_printable(row: Row) -> bool
    ensures { result ≡ row_printable row }
{
    printable(row.x, 100, 9999999)
        & printable(row.y, 100, 9999999)
        & printable(row.size, 100, 999999)
        & printable(row.score, 1000, 9999)
}

// Whether that holds for each of the first `count` candidates.
pub fn every_printable(candidates: &[f64], count: usize) -> bool
    requires { 4 * count ≤ length candidates.now }
    ensures { result ≡ every_printable candidates.now count }
{
    for i in 0..count {
        if !row_printable(row_at(candidates, i)) {
            return false;
        }
    }
    true
}
