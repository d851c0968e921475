// The way from a capture to the flat card.
#![tactic(auto)]

ghost use Rattle.frame.specs.Image.{image};
ghost use Rattle.candidates.specs.Lent.{areas_of, SameAreas};
ghost use Rattle.geometry.specs.Promises.{Warping, RecordWarping};
ghost use Rattle.geometry.specs.Rectification.{Rectification, lent};

use book::FitRecord;
use candidates::WorkAreas;
use fit::GeometryFit;
use fit_geometry::PictureFit;
use fit_geometry::internal::{fit_picture, refused_by_test};
use frame::{FrameSpec, Refusal};
use internal::{lay, scored, tested, warp, warp_tested};

pub mod internal;

// What `rectify` gives: the fit of the picture, and how many of the card's pixels were read at a
// position that is not inside the picture, where the reading is its edge's; 0 where it is refused.
#[derive(Clone, Copy)]
pub struct Rectified {
    pub picture: PictureFit,
    pub beyond: usize,
}

// Lays the canonical image out under a known fit: each pixel is the reading where the fit puts its
// centre. The answer is the number of pixels whose position was not inside the picture.
pub fn warp_with(
    capture: &[u8],
    w: usize,
    h: usize,
    frame: FrameSpec,
    fit: GeometryFit,
    canonical: &mut [u8],
) -> Result<usize, Refusal>
    ensures { Warping (image w h capture.now) frame fit canonical.old
        canonical.new result }
{
    let (capture, frame) = warp_tested(capture, w, h, frame, canonical)?;
    Ok(warp(capture, frame, fit, canonical))
}

// The same under the fit that a book's record keeps; its panel and camera are not looked at. A
// grade but 0 (scored) is refused, by 16 after 1, 2 and 4.
pub fn warp_record(
    capture: &[u8],
    w: usize,
    h: usize,
    frame: FrameSpec,
    kept: FitRecord,
    canonical: &mut [u8],
) -> Result<usize, Refusal>
    ensures { RecordWarping (image w h capture.now) frame kept canonical.old
        canonical.new result }
{
    let (capture, frame) = warp_tested(capture, w, h, frame, canonical)?;
    if kept.grade != 0 {
        return Err(Refusal::Unscored);
    }
    Ok(warp(capture, frame, kept.fit(), canonical))
}

// Finds the card in a capture and lays it flat. Refusals 1 to 10, and 16 for a fit whose kept trial
// is unscored; refused, the canonical image stays.
pub fn rectify(
    capture: &[u8],
    w: usize,
    h: usize,
    frame: FrameSpec,
    work: &mut WorkAreas,
    means: &mut [f64],
    canonical: &mut [u8],
) -> Rectified
    ensures rectification { Rectification (image w h capture.now) frame
        (lent (areas_of work.old) means.old canonical.old)
        (lent (areas_of work.new) means.new canonical.new)
        result.picture result.beyond }
    ensures same { SameAreas work.new work.old }
{
    let lengths = work.lengths();
    match tested(capture, w, h, frame, lengths, means.len(), canonical.len()) {
        Err(refusal) => Rectified {
            picture: refused_by_test(refusal),
            beyond: 0,
        },
        Ok((capture, frame)) => {
            let found = fit_picture(capture, frame, work, means);
            let picture = scored(found);
            let beyond = lay(capture, frame, picture, canonical);
            Rectified { picture, beyond }
        }
    }
}
