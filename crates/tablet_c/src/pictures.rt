// Readings, luma, the flat image, and patches.
ghost use Rattle.std.specs.Prelude.{◌≡◌};
ghost use Rattle.frame.specs.Image.{image};
ghost use Rattle.sampling.specs.Luma.{luma_of};
ghost use Rattle.sampling.specs.Reading.{sample_at};
ghost use Rattle.blobs.specs.Areas.{patch_areas};
ghost use Rattle.tablet.specs.Slices.{Answer};
ghost use Rattle.tablet.specs.Layouts.{frame, colour_numbers};
ghost use Rattle.tablet.specs.Tests.{colour_tests};
ghost use Rattle.tablet.specs.Promises.{WarpedOver, RecordWarpedOver, LabelledOver};

// The colour of a capture at a position, and whether that is inside the picture.
#[unsafe(no_mangle)]
pub extern "C" fn tablet_bilinear(
    capture: &[u8],
    w: usize,
    h: usize,
    x: f64,
    y: f64,
    colour: &mut [u8],
) -> u32
    ensures { Answer (colour_tests (image w h capture.now) colour.old) (colour_numbers
        (sample_at (image w h capture.now) (record { x = x; y = y }))) colour.old result
        colour.new }
{
    tablet::tablet_bilinear(capture, w, h, x, y, colour)
}

// A pixel's luma, of its three bytes: there is nothing to refuse.
#[unsafe(no_mangle)]
pub extern "C" fn tablet_luma(r: u8, g: u8, b: u8) -> f32
    ensures { result ≡ luma_of r g b }
{
    tablet::tablet_luma(r, g, b)
}

// Lays the canonical image out under a fit of 13 numbers, and counts the pixels whose position was
// not inside the picture.
#[unsafe(no_mangle)]
pub extern "C" fn tablet_warp_with(
    capture: &[u8],
    w: usize,
    h: usize,
    width: usize,
    height: usize,
    cell: usize,
    margin: usize,
    fit: &[f64],
    canonical: &mut [u8],
    counts: &mut [u64],
) -> u32
    ensures { WarpedOver (image w h capture.now) (frame width height cell margin)
        fit.now canonical.old canonical.new counts.old counts.new
        result }
{
    tablet::tablet_warp_with(
        capture, w, h, width, height, cell, margin, fit, canonical, counts,
    )
}

// The same under a book's record: its grade, and the 13 bit patterns of its fit.
#[unsafe(no_mangle)]
pub extern "C" fn tablet_warp_record(
    capture: &[u8],
    w: usize,
    h: usize,
    width: usize,
    height: usize,
    cell: usize,
    margin: usize,
    grade: u32,
    numbers: &[u64],
    canonical: &mut [u8],
    counts: &mut [u64],
) -> u32
    ensures { RecordWarpedOver (image w h capture.now) (frame width height cell margin) grade
        numbers.now canonical.old canonical.new counts.old
        counts.new result }
{
    tablet::tablet_warp_record(
        capture, w, h, width, height, cell, margin, grade, numbers, canonical, counts,
    )
}

// Labels the patches of a mask.
#[unsafe(no_mangle)]
pub extern "C" fn tablet_label_blobs(
    mask: &[u8],
    w: usize,
    h: usize,
    seen: &mut [u8],
    waiting: &mut [u32],
    patches: &mut [u64],
    counts: &mut [u64],
) -> u32
    ensures { LabelledOver mask.now w h
        (patch_areas seen.old waiting.old patches.old)
        (patch_areas seen.new waiting.new patches.new)
        counts.old counts.new result }
{
    tablet::tablet_label_blobs(mask, w, h, seen, waiting, patches, counts)
}
