// Frames: cells, markers, and the smallest lengths of the slices.
ghost use Rattle.std.specs.Prelude.{◌≡◌, [], ◌∷◌};
ghost use Rattle.frame.specs.Frame.{cols, rows};
ghost use Rattle.frame.specs.Refusals.{answer_for, frame_tests};
ghost use Rattle.markers.specs.Promises.{cell_tests, Stamping};
ghost use Rattle.markers.specs.Layout.{marker_size, quiet_zone, margin_for, marker_centers};
ghost use Rattle.tablet.specs.Slices.{Answer};
ghost use Rattle.tablet.specs.Layouts.{frame, quad_numbers, length_numbers};
ghost use Rattle.tablet.specs.Tests.{cells_tests, marker_tests, center_tests, length_tests};

use super::answers::{frame_first, number_of};
use super::slices::{store, store_quad};
use frame::internal::sides_wrong;
use frame::{CheckedFrame, FrameSpec, Refusal};

// Every smallest length for a capture of w by h and a frame: the same that refusal 3 tests.
#[tactic(auto, unfolding(frame::specs::Refusals::lowest_of, crate::specs::Layouts::length_numbers, crate::specs::Layouts::area_lengths))]
pub fn tablet_lengths(
    w: usize,
    h: usize,
    width: usize,
    height: usize,
    cell: usize,
    margin: usize,
    lengths: &mut [u64],
) -> u32
    ensures { Answer (length_tests w h (frame width height cell margin) lengths.old) (length_numbers
        w h (frame width height cell margin)) lengths.old result lengths.new }
{
    let frame = FrameSpec {
        width,
        height,
        cell,
        margin,
    };
    let frame = match CheckedFrame::new(frame) {
        Ok(frame) => frame,
        Err(refusal) => return refusal.number(),
    };
    if sides_wrong(w, h) {
        return Refusal::CaptureWrong.number();
    }
    if lengths.len() < 11 {
        return Refusal::AreaShort.number();
    }
    let smallest = candidates::internal::smallest(w, h);
    let means = fit::internal::sampled_cells(frame);
    store(
        lengths,
        &[
            (3 * w * h) as u64,
            smallest.luma as u64,
            smallest.integral as u64,
            smallest.mask as u64,
            smallest.seen as u64,
            smallest.waiting as u64,
            smallest.patches as u64,
            smallest.candidates as u64,
            smallest.blob_index as u64,
            means as u64,
            (3 * width * height) as u64,
        ],
    );
    0
}

// Cells in a row, and in a column.
#[tactic(auto, unfolding(frame::specs::Refusals::answer_for, frame::specs::Refusals::frame_tests))]
fn cells(frame: FrameSpec) -> Result<[u64; 2], Refusal>
    ensures { result ≡ answer_for (frame_tests frame) (cols frame ∷ rows frame ∷ []) }
{
    let cols = frame.cols()?;
    let rows = frame.rows()?;
    Ok([cols as u64, rows as u64])
}

// The same into a slice.
#[tactic(auto, unfolding(frame::specs::Refusals::answer_for, frame::specs::Refusals::frame_tests, frame::specs::Refusals::lowest_of))]
pub fn tablet_grid(
    width: usize,
    height: usize,
    cell: usize,
    margin: usize,
    numbers: &mut [u64],
) -> u32
    ensures { Answer (cells_tests (frame width height cell margin) numbers.old)
        (cols (frame width height cell margin) ∷ rows (frame width height cell margin) ∷ []) numbers.old
        result numbers.new }
{
    let frame = FrameSpec {
        width,
        height,
        cell,
        margin,
    };
    let found = match cells(frame) {
        Ok(found) => found,
        Err(refusal) => return refusal.number(),
    };
    if numbers.len() < 2 {
        return Refusal::AreaShort.number();
    }
    store(numbers, &found);
    0
}

// Marker side, quiet zone and the margin for a cell.
#[tactic(auto, unfolding(frame::specs::Refusals::answer_for, markers::specs::Promises::cell_tests))]
fn marker_numbers(cell: usize) -> Result<[u64; 3], Refusal>
    ensures { result ≡ answer_for (cell_tests cell) (marker_size cell ∷ quiet_zone cell ∷ margin_for
        cell ∷ []) }
{
    let size = markers::marker_size(cell)?;
    let quiet = markers::quiet_zone(cell)?;
    let margin = markers::margin_for(cell)?;
    Ok([size as u64, quiet as u64, margin as u64])
}

// The same into a slice.
#[tactic(auto, unfolding(frame::specs::Refusals::answer_for, markers::specs::Promises::cell_tests, frame::specs::Refusals::lowest_of))]
pub fn tablet_marker_numbers(cell: usize, numbers: &mut [u64]) -> u32
    ensures { Answer (marker_tests cell numbers.old) (marker_size cell ∷ quiet_zone cell ∷ margin_for
        cell ∷ []) numbers.old result numbers.new }
{
    let found = match marker_numbers(cell) {
        Ok(found) => found,
        Err(refusal) => return refusal.number(),
    };
    if numbers.len() < 3 {
        return Refusal::AreaShort.number();
    }
    store(numbers, &found);
    0
}

// Canonical centres of the four markers.
#[tactic(auto, unfolding(frame::specs::Refusals::answer_for, markers::specs::Promises::layout_tests, frame::specs::Refusals::lowest_of))]
pub fn tablet_marker_centers(
    width: usize,
    height: usize,
    cell: usize,
    margin: usize,
    points: &mut [f64],
) -> u32
    ensures { Answer (center_tests (frame width height cell margin) points.old)
        (quad_numbers (marker_centers (frame width height cell margin))) points.old result
        points.new }
{
    let frame = FrameSpec {
        width,
        height,
        cell,
        margin,
    };
    if points.len() < 8 {
        return frame_first(frame).number();
    }
    match markers::marker_centers(frame) {
        Ok(centers) => {
            store_quad(points, centers);
            0
        }
        Err(refusal) => refusal.number(),
    }
}

// Draws the four markers into a picture of w by h pixels.
pub fn tablet_stamp_fiducials(
    image: &mut [u8],
    w: usize,
    h: usize,
    width: usize,
    height: usize,
    cell: usize,
    margin: usize,
) -> u32
    ensures { Stamping (record { w = w; h = h; bytes = image.old }) (frame width height cell margin)
        result image.new }
{
    let frame = FrameSpec {
        width,
        height,
        cell,
        margin,
    };
    number_of(markers::stamp_fiducials(image, w, h, frame))
}
