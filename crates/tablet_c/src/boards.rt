// The mask with most patches.
ghost use Rattle.checkerboard.specs.Promises.{Drawing};

// Draws the checkerboard of w by h pixels at the start of `mask`.
#[unsafe(no_mangle)]
pub extern "C" fn tablet_checkerboard(w: usize, h: usize, mask: &mut [u8]) -> u32
    ensures { Drawing w h mask.old mask.new result }
{
    tablet::tablet_checkerboard(w, h, mask)
}
