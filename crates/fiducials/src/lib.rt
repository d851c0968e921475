// The four corners.
#![tactic(auto)]

ghost use Rattle.frame.specs.Image.{image};
ghost use Rattle.frame.specs.Refusals.{number_of};
ghost use Rattle.candidates.specs.Lent.{areas_of, SameAreas};
ghost use Rattle.fiducials.specs.Answers.{places_of, quad_of};
ghost use Rattle.fiducials.specs.Promises.{Detection};

use candidates::internal::tested;
use candidates::{Counts, WorkAreas};
use frame::{FrameSpec, Quad, Refusal};
use internal::detect;

pub mod internal;
mod pick;
mod quadrilateral;

// Places in the patch list.
#[derive(Clone, Copy, Default)]
pub struct Places {
    pub tl: usize,
    pub tr: usize,
    pub br: usize,
    pub bl: usize,
}

// The four corners: their patches' centres and places.
#[derive(Clone, Copy)]
pub struct Corners {
    pub quad: Quad,
    pub places: Places,
}

// The corners, and how much the lists hold: the counts are 0 where 1 to 6 refuse.
#[derive(Clone, Copy)]
pub struct Detected {
    pub corners: Result<Corners, Refusal>,
    pub counts: Counts,
}

// Locates the four fiducials, in the order TL, TR, BR, BL.
pub fn detect_fiducials(
    capture: &[u8],
    w: usize,
    h: usize,
    frame: FrameSpec,
    work: &mut WorkAreas,
) -> Detected
    ensures detection { Detection (image w h capture.now) frame (areas_of work.old) (areas_of work.new)
        (number_of result.corners) result.counts.patches result.counts.candidates result.counts.waited
        (places_of result.corners) (quad_of result.corners) }
    ensures same { SameAreas work.new work.old }
{
    match tested(capture, w, h, frame, work.lengths()) {
        Ok((capture, frame)) => detect(capture, frame, work),
        Err(refusal) => Detected {
            corners: Err(refusal),
            counts: Counts::default(),
        },
    }
}
