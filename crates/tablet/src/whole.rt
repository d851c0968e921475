// The whole way from capture to fit and card.
ghost use Rattle.std.specs.Prelude.{◌≡◌, ◌≤◌, length};
ghost use Rattle.frame.specs.Image.{image};
ghost use Rattle.candidates.specs.Areas.{areas};
ghost use Rattle.geometry.specs.Rectification.{lent};
ghost use Rattle.tablet.specs.Slices.{written};
ghost use Rattle.tablet.specs.Layouts.{frame};
ghost use Rattle.tablet.specs.Whole as whole;

use super::answers::{capture_first, outside_cell, untouched};
use super::slices::{store, store_fit};
use candidates::WorkAreas;
use fit::internal::{grade_number, score_of};
use fit_geometry::PictureFit;
use frame::FrameSpec;
use geometry::Rectified;
use search::Outcome;

// ---- the kept trial's numbers

// The kept trial's grade as a number: 0 scored, 1 outside, 2 too few, 3 none.
#[tactic(auto, unfolding(crate::specs::Whole::kept_number))]
fn kept_number(kept: Outcome) -> u64
    ensures { result ≡ whole.kept_number kept }
{
    match kept {
        Outcome::NoHomography => 3,
        Outcome::Graded(g) => grade_number(g),
    }
}

// The outside cell of the kept trial, else 0.
#[tactic(auto, unfolding(crate::specs::Whole::kept_cell))]
fn kept_cell(kept: Outcome) -> u64
    ensures { result ≡ whole.kept_cell kept }
{
    match kept {
        Outcome::NoHomography => 0,
        Outcome::Graded(g) => outside_cell(g),
    }
}

// The kept trial's score, −∞ where it has none.
#[tactic(auto, unfolding(crate::specs::Whole::kept_score))]
fn kept_score(kept: Outcome) -> f64
    ensures { result ≡ whole.kept_score kept }
{
    match kept {
        Outcome::NoHomography => f64::NEG_INFINITY,
        Outcome::Graded(g) => score_of(g),
    }
}

// ---- an answer into the slices

// Writes the eleven counts of an answer.
#[tactic(auto, unfolding(crate::specs::Whole::found_numbers, crate::specs::Layouts::list_numbers, crate::specs::Layouts::place_numbers, fiducials::specs::Answers::no_places))]
fn store_found(counts: &mut [u64], found: PictureFit)
    requires { 11 ≤ length counts.old }
    ensures { counts.new ≡ written (whole.found_numbers found) counts.old }
{
    let places = found.places.unwrap_or_default();
    let kept = found.stage.kept;
    store(
        counts,
        &[
            found.counts.patches as u64,
            found.counts.candidates as u64,
            found.counts.waited as u64,
            places.tl as u64,
            places.tr as u64,
            places.br as u64,
            places.bl as u64,
            found.stage.tried as u64,
            found.stage.homographies as u64,
            kept_number(kept),
            kept_cell(kept),
        ],
    );
}

// Writes the fit and its score as fourteen numbers.
fn store_scored(fit: &mut [f64], found: PictureFit)
    requires { 14 ≤ length fit.old }
    ensures { fit.new ≡ written (whole.scored_fit found) fit.old }
{
    store_fit(fit, found.stage.fit);
    fit[13] = kept_score(found.stage.kept);
}

// The number of an answer, with the counts unless a test refused and the fit where it is accepted.
#[tactic(auto, unfolding(crate::specs::Slices::told))]
fn tell(found: PictureFit, counts: &mut [u64], fit: &mut [f64]) -> u32
    requires counts_long { 11 ≤ length counts.old }
    requires fit_long { 14 ≤ length fit.old }
    ensures { whole.Told found (whole.found_numbers found) counts.old counts.new fit.old
        fit.new result }
{
    match found.places {
        Ok(_) => {
            store_found(counts, found);
            store_scored(fit, found);
            0
        }
        Err(refusal) => {
            let number = refusal.number();
            if untouched(number) {
                return number;
            }
            store_found(counts, found);
            number
        }
    }
}

// The same with the twelfth count, of an answer of `rectify`.
fn tell_flat(flat: Rectified, counts: &mut [u64], fit: &mut [f64]) -> u32
    requires counts_long { 12 ≤ length counts.old }
    requires fit_long { 14 ≤ length fit.old }
    ensures { whole.Told flat.picture (whole.flat_numbers flat.picture flat.beyond) counts.old
        counts.new fit.old fit.new result }
{
    let number = tell(flat.picture, counts, fit);
    if untouched(number) {
        return number;
    }
    counts[11] = flat.beyond as u64;
    number
}

// ---- the exported functions

// The fit alone.
pub fn tablet_fit_geometry(
    capture: &[u8],
    w: usize,
    h: usize,
    width: usize,
    height: usize,
    cell: usize,
    margin: usize,
    luma: &mut [f32],
    integral: &mut [f64],
    mask: &mut [u8],
    seen: &mut [u8],
    waiting: &mut [u32],
    patches: &mut [u64],
    candidates: &mut [f64],
    blob_index: &mut [u32],
    means: &mut [f64],
    counts: &mut [u64],
    fit: &mut [f64],
) -> u32
    ensures { whole.FittedOver (image w h capture.now) (frame width height cell margin)
        (areas luma.old integral.old mask.old seen.old
        waiting.old patches.old candidates.old blob_index.old)
        (areas luma.new integral.new mask.new seen.new waiting.new
        patches.new candidates.new blob_index.new)
        means.old means.new counts.old counts.new fit.old
        fit.new result }
{
    let frame = FrameSpec {
        width,
        height,
        cell,
        margin,
    };
    if counts.len() < 11 || fit.len() < 14 {
        return capture_first(capture, w, h, frame).number();
    }
    let mut work = WorkAreas {
        luma,
        integral,
        mask,
        seen,
        waiting,
        patches,
        candidates,
        blob_index,
    };
    let found = fit_geometry::fit_geometry(capture, w, h, frame, &mut work, means);
    tell(found, counts, fit)
}

// The flat card of a capture.
pub fn tablet_rectify(
    capture: &[u8],
    w: usize,
    h: usize,
    width: usize,
    height: usize,
    cell: usize,
    margin: usize,
    luma: &mut [f32],
    integral: &mut [f64],
    mask: &mut [u8],
    seen: &mut [u8],
    waiting: &mut [u32],
    patches: &mut [u64],
    candidates: &mut [f64],
    blob_index: &mut [u32],
    means: &mut [f64],
    canonical: &mut [u8],
    counts: &mut [u64],
    fit: &mut [f64],
) -> u32
    ensures { whole.FlattenedOver (image w h capture.now) (frame width height cell margin)
        (lent (areas luma.old integral.old mask.old seen.old
        waiting.old patches.old candidates.old blob_index.old)
        means.old canonical.old)
        (lent (areas luma.new integral.new mask.new seen.new
        waiting.new patches.new candidates.new blob_index.new)
        means.new canonical.new)
        counts.old counts.new fit.old fit.new result }
{
    let frame = FrameSpec {
        width,
        height,
        cell,
        margin,
    };
    if counts.len() < 12 || fit.len() < 14 {
        return capture_first(capture, w, h, frame).number();
    }
    let mut work = WorkAreas {
        luma,
        integral,
        mask,
        seen,
        waiting,
        patches,
        candidates,
        blob_index,
    };
    let flat = geometry::rectify(capture, w, h, frame, &mut work, means, canonical);
    tell_flat(flat, counts, fit)
}
