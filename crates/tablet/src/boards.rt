// The mask with most patches.
ghost use Rattle.checkerboard.specs.Promises.{Drawing};

use super::answers::number_of;

// Draws the checkerboard of w by h pixels at the start of `mask`.
pub fn tablet_checkerboard(w: usize, h: usize, mask: &mut [u8]) -> u32
    ensures { Drawing w h mask.old mask.new result }
{
    number_of(checkerboard::checkerboard(w, h, mask))
}
