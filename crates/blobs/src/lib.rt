// Patches of dark pixels.
#![tactic(auto)]

pub mod internal; // internal.rt: labelling without the tests, for the layers above
mod neighbours;
mod outline;
mod patch;
mod visit;

ghost use Rattle.std.specs.Prelude.{◌≡◌};
ghost use Rattle.frame.specs.Refusals.{number_of, lowest_of};
ghost use Rattle.blobs.specs.Areas.{patch_areas};
ghost use Rattle.blobs.specs.Promises.{patch_tests, labelled, Labelling};

use frame::Refusal;

// The record of a patch (requirements, 7.3 and 24).
#[derive(Clone, Copy)]
pub struct Blob {
    pub area: u64,
    pub sx: u64,
    pub sy: u64,
    pub x0: u64,
    pub y0: u64,
    pub x1: u64,
    pub y1: u64,
    pub outline: u64,
}

// So many numbers a record has in the flat list.
pub const RECORD_LENGTH: usize = 8;

// How many patches there are, and the most pixels that waited.
#[derive(Clone, Copy)]
pub struct Labelled {
    pub patches: usize,
    pub waited: usize,
}

// The tests of the sides and of the areas' lengths.
fn refused(
    w: usize,
    h: usize,
    mask: usize,
    seen: usize,
    waiting: usize,
    patches: usize,
) -> Result<(), Refusal>
    ensures { number_of result ≡ lowest_of (patch_tests w h mask seen waiting patches) }
{
    if frame::internal::sides_wrong(w, h) {
        return Err(Refusal::CaptureWrong);
    }
    let n = w * h;
    if mask != n {
        return Err(Refusal::CaptureWrong);
    }
    if seen < n || waiting < n || patches < RECORD_LENGTH * ((n + 1) / 2) {
        return Err(Refusal::AreaShort);
    }
    Ok(())
}

// Labels the patches of a mask of w by h pixels, a byte a pixel: any nonzero byte is dark. Marks
// go to `seen`, records of RECORD_LENGTH numbers to `patches`; `waiting` is work space.
pub fn label_blobs(
    mask: &[u8],
    w: usize,
    h: usize,
    seen: &mut [u8],
    waiting: &mut [u32],
    patches: &mut [u64],
) -> Result<Labelled, Refusal>
    ensures { Labelling mask.now w h
        (patch_areas seen.old waiting.old patches.old)
        (patch_areas seen.new waiting.new patches.new)
        (number_of result) (labelled result).patches (labelled result).waited }
{
    refused(w, h, mask.len(), seen.len(), waiting.len(), patches.len())?;
    Ok(internal::label(mask, w, h, seen, waiting, patches))
}
