// Corners and lens search of a whole picture: geometry.rs, fit_geometry.
#![tactic(auto)]

ghost use Rattle.frame.specs.Image.{image};
ghost use Rattle.candidates.specs.Lent.{areas_of, SameAreas};
ghost use Rattle.fit_geometry.specs.Promises.{Fitting};

use candidates::{Counts, WorkAreas};
use fiducials::Places;
use frame::{FrameSpec, Refusal};
use search::Stage;

pub mod internal;

// The answer of fit_geometry: the corners' places in the patch list, or why it is refused; the
// search's last stage, with the kept trial, its fit and how many different lens terms were tried;
// how many patches and candidates there are, and the most pixels that waited. Where it is refused
// there is no fit, and the counts are those of the trials made.
#[derive(Clone, Copy)]
pub struct PictureFit {
    pub places: Result<Places, Refusal>,
    pub stage: Stage,
    pub counts: Counts,
}

// Finds the four fiducials and fits the whole geometry, canonical to capture, with the lens term.
// Refusals 1, 2, 3 (means too) and 5 to 10.
pub fn fit_geometry(
    capture: &[u8],
    w: usize,
    h: usize,
    frame: FrameSpec,
    work: &mut WorkAreas,
    means: &mut [f64],
) -> PictureFit
    ensures fitting { Fitting (image w h capture.now) frame (areas_of work.old) (areas_of work.new)
        means.old means.new result }
    ensures same { SameAreas work.new work.old }
{
    match internal::tested(capture, w, h, frame, work.lengths(), means.len()) {
        Ok((capture, frame)) => internal::fit_picture(capture, frame, work, means),
        Err(refusal) => internal::refused_by_test(refusal),
    }
}
