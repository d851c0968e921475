// The mask with most patches (requirements, 22): a patch record for every other pixel is no more
// than `blobs::label_blobs` may need.
#![tactic(auto)]

pub mod internal; // internal.rt: drawing without the tests, for the layers above

ghost use Rattle.std.specs.Prelude.{◌≡◌};
ghost use Rattle.frame.specs.Refusals.{number_of, lowest_of};
ghost use Rattle.checkerboard.specs.Promises.{board_tests, Drawing};

use frame::Refusal;

// The tests of the sides and of the mask's length.
fn refused(w: usize, h: usize, mask: usize) -> Result<(), Refusal>
    ensures { number_of result ≡ lowest_of (board_tests w h mask) }
{
    if frame::internal::sides_wrong(w, h) {
        return Err(Refusal::CaptureWrong);
    }
    if mask < w * h {
        return Err(Refusal::AreaShort);
    }
    Ok(())
}

// Draws at the start of `mask` the checkerboard of w by h pixels, a byte a pixel: 1 (dark) where
// column plus row is even, else 0. It has ⌈w·h/2⌉ patches, and no mask of that size has more.
pub fn checkerboard(w: usize, h: usize, mask: &mut [u8]) -> Result<(), Refusal>
    ensures { Drawing w h mask.old mask.new (number_of result) }
{
    refused(w, h, mask.len())?;
    internal::draw(w, h, mask);
    Ok(())
}
