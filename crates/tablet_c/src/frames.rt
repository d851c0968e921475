// Frames: cells, markers, and the smallest lengths of the slices.
ghost use Rattle.std.specs.Prelude.{[], ◌∷◌};
ghost use Rattle.frame.specs.Frame.{cols, rows};
ghost use Rattle.markers.specs.Promises.{Stamping};
ghost use Rattle.markers.specs.Layout.{marker_size, quiet_zone, margin_for, marker_centers};
ghost use Rattle.tablet.specs.Slices.{Answer};
ghost use Rattle.tablet.specs.Layouts.{frame, quad_numbers, length_numbers};
ghost use Rattle.tablet.specs.Tests.{cells_tests, marker_tests, center_tests, length_tests};

// Every smallest length for a capture of w by h and a frame: the same that refusal 3 tests.
#[unsafe(no_mangle)]
pub extern "C" fn tablet_lengths(
    w: usize,
    h: usize,
    width: usize,
    height: usize,
    cell: usize,
    margin: usize,
    lengths: &mut [u64],
) -> u32
    ensures { Answer (length_tests w h (frame width height cell margin) lengths.old) (length_numbers
        w h (frame width height cell margin)) lengths.old result lengths.new }
{
    tablet::tablet_lengths(w, h, width, height, cell, margin, lengths)
}

// Cells in a row, and in a column.
#[unsafe(no_mangle)]
pub extern "C" fn tablet_grid(
    width: usize,
    height: usize,
    cell: usize,
    margin: usize,
    numbers: &mut [u64],
) -> u32
    ensures { Answer (cells_tests (frame width height cell margin) numbers.old)
        (cols (frame width height cell margin) ∷ rows (frame width height cell margin) ∷ []) numbers.old
        result numbers.new }
{
    tablet::tablet_grid(width, height, cell, margin, numbers)
}

// Marker side, quiet zone and the margin for a cell.
#[unsafe(no_mangle)]
pub extern "C" fn tablet_marker_numbers(cell: usize, numbers: &mut [u64]) -> u32
    ensures { Answer (marker_tests cell numbers.old) (marker_size cell ∷ quiet_zone cell ∷ margin_for
        cell ∷ []) numbers.old result numbers.new }
{
    tablet::tablet_marker_numbers(cell, numbers)
}

// Canonical centres of the four markers.
#[unsafe(no_mangle)]
pub extern "C" fn tablet_marker_centers(
    width: usize,
    height: usize,
    cell: usize,
    margin: usize,
    points: &mut [f64],
) -> u32
    ensures { Answer (center_tests (frame width height cell margin) points.old)
        (quad_numbers (marker_centers (frame width height cell margin))) points.old result
        points.new }
{
    tablet::tablet_marker_centers(width, height, cell, margin, points)
}

// Draws the four markers into a picture of w by h pixels.
#[unsafe(no_mangle)]
pub extern "C" fn tablet_stamp_fiducials(
    image: &mut [u8],
    w: usize,
    h: usize,
    width: usize,
    height: usize,
    cell: usize,
    margin: usize,
) -> u32
    ensures { Stamping (record { w = w; h = h; bytes = image.old }) (frame width height cell margin)
        result image.new }
{
    tablet::tablet_stamp_fiducials(image, w, h, width, height, cell, margin)
}
