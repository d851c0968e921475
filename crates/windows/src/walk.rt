// The walk over the list, once for all rectangles.
ghost use Rattle.std.specs.Prelude.{true, not, [], ◌∷◌, ◌≡◌, ℕ, ◌+◌, ◌*◌, ◌≤◌, ◌<◌, ◌^◌, length, replicate, slice_index_or, OnOk};
ghost use Rattle.base.specs.Loops.{filled};
ghost use Rattle.frame.specs.Refusals.{check, answer_for};
ghost use Rattle.blobs.specs.Patches.{record_length};
ghost use Rattle.windows.specs.Rectangles.{rectangle_length, rectangle_at, Valid, every_rectangle, every_box};
ghost use Rattle.windows.specs.Windows.{most_windows};
ghost use Rattle.windows.specs.Steps.{no_tally, met};
ghost use Rattle.windows.specs.Steps as steps;

use super::rectangles::{box_at, rectangle_at, valid};
use super::tally::Tally;
use super::{MOST_WINDOWS, Rectangle};
use frame::Refusal;

// Patch j, whose box is b, for the rectangle of each tally.
fn meet_all(b: Rectangle, j: usize, windows: &[u64], tallies: &mut [Tally])
    requires { (rectangle_length * length tallies.old ≤ length windows.now)
        × (every_rectangle windows.now (length tallies.old) ≡ true) × Valid b × (j + 1 < 2 ^ 64)
        × ((i : ℕ) → i < length tallies.old → (slice_index_or tallies.old i no_tally).count ≤ j) }
    ensures { tallies.new
        ≡ filled (λ i. met (rectangle_at windows.now i) b j (slice_index_or tallies.old i no_tally)) (length tallies.old)
        tallies.old }
{
    for (i, tally) in tallies.iter_mut().enumerate() {
        tally.meet(rectangle_at(windows, i), b, j);
    }
}

// The tallies of k rectangles over n patches, where the area holds none yet; refused where a box
// is. The area is the caller's: 64 tallies handed back by value would be copied.
pub fn walk(
    patches: &[u64],
    n: usize,
    windows: &[u64],
    k: usize,
    tallies: &mut [Tally; MOST_WINDOWS],
) -> Result<(), Refusal>
    requires { (record_length * n ≤ length patches.now) × (k ≤ most_windows)
        × (rectangle_length * k ≤ length windows.now) × (every_rectangle windows.now k ≡ true)
        × (tallies.old ≡ replicate most_windows no_tally) }
    ensures tested { result ≡ answer_for (check Refusal.RectangleWrong (not (every_box patches.now n)) ∷ []) tt }
    ensures told { OnOk result (tallies.new ≡ steps.tallies patches.now n windows.now k) }
{
    for j in 0..n {
        let b = box_at(patches, j);
        if !valid(b) {
            return Err(Refusal::RectangleWrong);
        }
        meet_all(b, j, windows, &mut tallies[..k]);
    }
    Ok(())
}
