// Which patches of a list rectangles touch (requirements, 27).
#![tactic(auto)]

pub mod internal; // internal.rt: an answer read back
mod answers;
mod rectangles;
mod tally;
mod walk;

ghost use Rattle.std.specs.Prelude.{◌≡◌, OnOk, IfErr, length};
ghost use Rattle.frame.specs.Refusals.{number, number_of, lowest_of};
ghost use Rattle.windows.specs.Steps.{Fitting};
ghost use Rattle.windows.specs.Promises.{window_tests, Windowing};

use answers::put_windows;
use frame::Refusal;
use rectangles::every_rectangle;
use tally::NO_TALLY;
use walk::walk;

// So many rectangles one call takes.
pub const MOST_WINDOWS: usize = 64;
// So many numbers a rectangle has.
pub const RECTANGLE_LENGTH: usize = 4;
// So many numbers an answer has.
pub const WINDOW_LENGTH: usize = 3;
// Stands for no patch. An index taken from it by mistake is past every list.
pub const NO_PATCH: u64 = 18_446_744_073_709_551_615;

// Its first and last columns and rows, which belong to it.
#[derive(Clone, Copy)]
pub struct Rectangle {
    pub x0: u64,
    pub y0: u64,
    pub x1: u64,
    pub y1: u64,
}

// The answer for a rectangle: how many boxes share a pixel with it, and by their places in the list
// the first of these patches and the patch whose box centre is nearest.
#[derive(Clone, Copy)]
pub struct Window {
    pub count: u64,
    pub first: Option<usize>,
    pub nearest: Option<usize>,
}

// The tests of all that is handed in but the patches' boxes. The products 3 * k, 4 * k and 8 * n may
// not fit 64 bits, so the lengths are divided.
fn refused(
    patches: &[u64],
    n: usize,
    windows: &[u64],
    k: usize,
    answers: &[u64],
) -> Result<(), Refusal>
    ensures fitting { OnOk result (Fitting patches.now n windows.now k (length answers.now)) }
    ensures lowest { IfErr result (λ r. number r
        ≡ lowest_of (window_tests patches.now n windows.now k answers.now)) }
{
    if answers.len() / WINDOW_LENGTH < k
        || windows.len() / RECTANGLE_LENGTH < k
        || patches.len() / blobs::RECORD_LENGTH < n
    {
        return Err(Refusal::AreaShort);
    }
    if MOST_WINDOWS < k || !every_rectangle(windows, k) {
        return Err(Refusal::RectangleWrong);
    }
    Ok(())
}

// Answers k rectangles, four numbers each (x0, y0, x1, y1, both ends counted), over the first n
// records of a patch list: three numbers each at the start of `answers`, count, first and nearest.
// The list is gone through once. A box that is refused may stand last, so `answers` is written
// after the walk.
pub fn patch_windows(
    patches: &[u64],
    n: usize,
    windows: &[u64],
    k: usize,
    answers: &mut [u64],
) -> Result<(), Refusal>
    ensures { Windowing patches.now n windows.now k answers.old answers.new (number_of result) }
{
    refused(patches, n, windows, k, answers)?;
    let mut tallies = [NO_TALLY; MOST_WINDOWS];
    walk(patches, n, windows, k, &mut tallies)?;
    put_windows(&tallies[..k], answers);
    Ok(())
}
