// The whole look behind `fiducial_candidates`, for the crates above.
ghost use Rattle.candidates.specs.Lent.{areas_of, SameAreas};
ghost use Rattle.candidates.specs.Bounds.{Ready};
ghost use Rattle.candidates.specs.Promises.{Looked};
ghost use Rattle.view.specs.Views.{picture};

use super::list::list;
pub use super::list::{candidate_at, center_at};
pub use super::tests::{areas_short, picture_tested, smallest, tested};
use super::{Counts, WorkAreas};
use blobs::internal::label;
use frame::CheckedFrame;
use mask::internal::planes;
use view::RgbImage;

// Planes, patches and candidates of a capture, with how many there are and the most pixels waiting.
pub fn look(capture: RgbImage, frame: CheckedFrame, work: &mut WorkAreas) -> Counts
    requires { Ready (picture capture) frame.spec (areas_of work.old) }
    ensures looked { Looked (picture capture.entry) frame.spec (areas_of work.old) (areas_of work.new)
        result.patches result.candidates result.waited }
    ensures same { SameAreas work.new work.old }
{
    // Lent on together, since parts of two are read while a third is written.
    let lent = WorkAreas {
        luma: &mut *work.luma,
        integral: &mut *work.integral,
        mask: &mut *work.mask,
        seen: &mut *work.seen,
        waiting: &mut *work.waiting,
        patches: &mut *work.patches,
        candidates: &mut *work.candidates,
        blob_index: &mut *work.blob_index,
    };
    let WorkAreas {
        luma,
        integral,
        mask,
        seen,
        waiting,
        patches,
        candidates,
        blob_index,
    } = lent;
    let w = capture.w;
    let h = capture.h;
    let n = w * h;
    planes(capture, frame, luma, integral, mask);
    let labelled = label(&mask[..n], w, h, seen, waiting, patches);
    let k = list(
        &mask[..n],
        &luma[..n],
        w,
        h,
        patches,
        labelled.patches,
        candidates,
        blob_index,
    );
    Counts {
        patches: labelled.patches,
        candidates: k,
        waited: labelled.waited,
    }
}
