// Looks at a picture, over all work areas.
ghost use Rattle.std.specs.Prelude.{◌≡◌, ◌++◌, ◌≤◌, length};
ghost use Rattle.frame.specs.Image.{image};
ghost use Rattle.frame.specs.Refusals.{number_of};
ghost use Rattle.candidates.specs.Areas.{areas};
ghost use Rattle.candidates.specs.Promises.{counts_of};
ghost use Rattle.fiducials.specs.Answers.{places_of, quad_of};
ghost use Rattle.tablet.specs.Slices.{written, answered, told};
ghost use Rattle.tablet.specs.Layouts.{frame, list_numbers, place_numbers, quad_numbers};
ghost use Rattle.tablet.specs.Promises.{ListedOver, DetectedOver};

use super::answers::{capture_first, untouched};
use super::slices::{store, store_quad};
use candidates::{Counts, WorkAreas};
use fiducials::{Detected, Places};
use frame::{FrameSpec, Refusal};

// The number of an answer, with the counts of the lists where it is accepted.
#[tactic(auto, unfolding(crate::specs::Layouts::list_numbers))]
fn answer_listed(answer: Result<Counts, Refusal>, counts: &mut [u64]) -> u32
    requires { 3 ≤ length counts.old }
    ensures number { result ≡ number_of answer }
    ensures stored { counts.new ≡ answered result (list_numbers (counts_of answer).patches (counts_of answer).candidates
        (counts_of answer).waited) counts.old }
{
    match answer {
        Ok(found) => {
            store(
                counts,
                &[
                    found.patches as u64,
                    found.candidates as u64,
                    found.waited as u64,
                ],
            );
            0
        }
        Err(refusal) => refusal.number(),
    }
}

// Writes the counts of the lists and the corners' places.
#[tactic(auto, unfolding(crate::specs::Layouts::list_numbers, crate::specs::Layouts::place_numbers))]
fn store_detected(counts: &mut [u64], lists: Counts, places: Places)
    requires { 7 ≤ length counts.old }
    ensures { counts.new ≡ written (list_numbers lists.patches lists.candidates lists.waited ++ place_numbers places)
        counts.old }
{
    store(
        counts,
        &[
            lists.patches as u64,
            lists.candidates as u64,
            lists.waited as u64,
            places.tl as u64,
            places.tr as u64,
            places.br as u64,
            places.bl as u64,
        ],
    );
}

// The number of an answer, with counts and places unless a test refused, and the points where it
// is accepted.
#[tactic(auto, unfolding(crate::specs::Slices::told, fiducials::specs::Answers::no_places))]
fn answer_detected(found: Detected, counts: &mut [u64], points: &mut [f64]) -> u32
    requires counts_long { 7 ≤ length counts.old }
    requires points_long { 8 ≤ length points.old }
    ensures number { result ≡ number_of found.corners }
    ensures counted { counts.new ≡ told result (list_numbers found.counts.patches found.counts.candidates
        found.counts.waited ++ place_numbers (places_of found.corners)) counts.old }
    ensures stored { points.new ≡ answered result (quad_numbers (quad_of found.corners)) points.old }
{
    match found.corners {
        Ok(corners) => {
            store_detected(counts, found.counts, corners.places);
            store_quad(points, corners.quad);
            0
        }
        Err(refusal) => {
            let number = refusal.number();
            if untouched(number) {
                return number;
            }
            store_detected(counts, found.counts, Places::default());
            number
        }
    }
}

// Every bullseye-shaped patch in the picture.
pub fn tablet_fiducial_candidates(
    capture: &[u8],
    w: usize,
    h: usize,
    width: usize,
    height: usize,
    cell: usize,
    margin: usize,
    luma: &mut [f32],
    integral: &mut [f64],
    mask: &mut [u8],
    seen: &mut [u8],
    waiting: &mut [u32],
    patches: &mut [u64],
    candidates: &mut [f64],
    blob_index: &mut [u32],
    counts: &mut [u64],
) -> u32
    ensures { ListedOver (image w h capture.now) (frame width height cell margin)
        (areas luma.old integral.old mask.old seen.old
        waiting.old patches.old candidates.old blob_index.old)
        (areas luma.new integral.new mask.new seen.new waiting.new
        patches.new candidates.new blob_index.new)
        counts.old counts.new result }
{
    let frame = FrameSpec {
        width,
        height,
        cell,
        margin,
    };
    if counts.len() < 3 {
        return capture_first(capture, w, h, frame).number();
    }
    let mut work = WorkAreas {
        luma,
        integral,
        mask,
        seen,
        waiting,
        patches,
        candidates,
        blob_index,
    };
    let answer = candidates::fiducial_candidates(capture, w, h, frame, &mut work);
    answer_listed(answer, counts)
}

// The four fiducials, in the order TL, TR, BR, BL.
pub fn tablet_detect_fiducials(
    capture: &[u8],
    w: usize,
    h: usize,
    width: usize,
    height: usize,
    cell: usize,
    margin: usize,
    luma: &mut [f32],
    integral: &mut [f64],
    mask: &mut [u8],
    seen: &mut [u8],
    waiting: &mut [u32],
    patches: &mut [u64],
    candidates: &mut [f64],
    blob_index: &mut [u32],
    counts: &mut [u64],
    points: &mut [f64],
) -> u32
    ensures { DetectedOver (image w h capture.now) (frame width height cell margin)
        (areas luma.old integral.old mask.old seen.old
        waiting.old patches.old candidates.old blob_index.old)
        (areas luma.new integral.new mask.new seen.new waiting.new
        patches.new candidates.new blob_index.new)
        counts.old counts.new points.old points.new result }
{
    let frame = FrameSpec {
        width,
        height,
        cell,
        margin,
    };
    if counts.len() < 7 || points.len() < 8 {
        return capture_first(capture, w, h, frame).number();
    }
    let mut work = WorkAreas {
        luma,
        integral,
        mask,
        seen,
        waiting,
        patches,
        candidates,
        blob_index,
    };
    let found = fiducials::detect_fiducials(capture, w, h, frame, &mut work);
    answer_detected(found, counts, points)
}
