// What `rectify` calls with tested arguments.
ghost use Rattle.std.specs.Prelude.{◌≡◌, false, ◌≤◌, ltb, length, IfOk};
ghost use Rattle.frame.specs.Image.{image};
ghost use Rattle.view.specs.Views.{picture};
ghost use Rattle.frame.specs.Refusals.{number_of, lowest_of, frame_outside};
ghost use Rattle.candidates.specs.Areas.{picture_tests};
ghost use Rattle.candidates.specs.Lent.{areas_of, SameAreas};
ghost use Rattle.candidates.specs.Bounds.{Ready};
ghost use Rattle.fit.specs.Promises.{sampled_cells, MeansKept};
ghost use Rattle.search.specs.Stages.{searched};
ghost use Rattle.fit_geometry.specs.Promises as contracts;

use super::PictureFit;
use candidates::internal::{areas_short, picture_tested};
use candidates::{Counts, Lengths, WorkAreas};
use fiducials::Places;
use fiducials::internal::detect;
use fit::internal::sampled_cells;
use frame::{CheckedFrame, FrameSpec, Quad, Refusal};
use search::internal::{begin, result, search};
use search::{Outcome, Stage};
use view::RgbImage;

// Refusal 3 by the cell means; false where the frame is outside its limits: 1 goes before 3.
pub fn means_short(frame: FrameSpec, means: usize) -> bool
    ensures { frame_outside frame ≡ false → result ≡ ltb means (sampled_cells frame) }
{
    match CheckedFrame::new(frame) {
        Ok(frame) => means < sampled_cells(frame),
        Err(_) => false,
    }
}

// The capture and the frame of a call, or the lowest refusal of the tests of `fit_geometry`.
pub fn tested<'a>(
    capture: &'a [u8],
    w: usize,
    h: usize,
    frame: FrameSpec,
    lengths: Lengths,
    means: usize,
) -> Result<(RgbImage<'a>, CheckedFrame), Refusal>
    ensures number { number_of result ≡ lowest_of (picture_tests (image w h capture.entry.now) frame
        (contracts.fit_short (image w h capture.entry.now) frame lengths means) false) }
    ensures value { IfOk result (λ p. (picture p.0 ≡ image w h capture.entry.now) × (p.1.spec ≡ frame)) }
{
    let short = areas_short(w, h, lengths) | means_short(frame, means);
    picture_tested(capture, w, h, frame, short, false)
}

// Refused before the search, with these counts.
#[tactic(auto, unfolding(crate::specs::Promises::unsearched, search::specs::Turn::beginning))]
fn unsearched(refusal: Refusal, counts: Counts) -> PictureFit
    ensures { result ≡ contracts.unsearched refusal counts }
{
    PictureFit {
        places: Err(refusal),
        stage: result(begin()),
        counts,
    }
}

// Refused by a test.
#[tactic(auto, unfolding(crate::specs::Promises::refused_by_test))]
pub fn refused_by_test(refusal: Refusal) -> PictureFit
    ensures { result ≡ contracts.refused_by_test refusal }
{
    unsearched(refusal, Counts::default())
}

// The corners and the search's last stage; 10 where that keeps none.
#[tactic(auto, unfolding(crate::specs::Promises::searched_fit, search::specs::Stages::keeps))]
fn searched_fit(places: Places, stage: Stage, counts: Counts) -> PictureFit
    ensures { result ≡ contracts.searched_fit places stage counts }
{
    let places = match stage.kept {
        Outcome::NoHomography => Err(Refusal::NoHomography),
        Outcome::Graded(_) => Ok(places),
    };
    PictureFit {
        places,
        stage,
        counts,
    }
}

// The lens search, with an area of means that may be longer than it needs.
fn search_lent(capture: RgbImage, frame: CheckedFrame, quad: Quad, means: &mut [f64]) -> Stage
    requires { sampled_cells frame.spec ≤ length means.old }
    ensures { (result ≡ searched (picture capture.entry) frame.spec quad)
        × MeansKept frame.spec means.old means.new }
{
    let n = sampled_cells(frame);
    search(capture, frame, quad, &mut means[..n])
}

// Corners and lens search, past the tests.
pub fn fit_picture(
    capture: RgbImage,
    frame: CheckedFrame,
    work: &mut WorkAreas,
    means: &mut [f64],
) -> PictureFit
    requires { Ready (picture capture) frame.spec (areas_of work.old)
        × (sampled_cells frame.spec ≤ length means.old) }
    ensures past_tests { contracts.FitPastTests (picture capture.entry) frame.spec (areas_of work.old) (areas_of work.new)
        means.old means.new result }
    ensures same { SameAreas work.new work.old }
{
    let found = detect(capture, frame, work);
    match found.corners {
        Err(refusal) => unsearched(refusal, found.counts),
        Ok(corners) => {
            let stage = search_lent(capture, frame, corners.quad, means);
            searched_fit(corners.places, stage, found.counts)
        }
    }
}
