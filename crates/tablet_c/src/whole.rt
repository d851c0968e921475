// The whole way from capture to fit and card.
ghost use Rattle.frame.specs.Image.{image};
ghost use Rattle.candidates.specs.Areas.{areas};
ghost use Rattle.geometry.specs.Rectification.{lent};
ghost use Rattle.tablet.specs.Layouts.{frame};
ghost use Rattle.tablet.specs.Whole as whole;

// The fit alone.
#[unsafe(no_mangle)]
pub extern "C" fn tablet_fit_geometry(
    capture: &[u8],
    w: usize,
    h: usize,
    width: usize,
    height: usize,
    cell: usize,
    margin: usize,
    luma: &mut [f32],
    integral: &mut [f64],
    mask: &mut [u8],
    seen: &mut [u8],
    waiting: &mut [u32],
    patches: &mut [u64],
    candidates: &mut [f64],
    blob_index: &mut [u32],
    means: &mut [f64],
    counts: &mut [u64],
    fit: &mut [f64],
) -> u32
    ensures { whole.FittedOver (image w h capture.now) (frame width height cell margin)
        (areas luma.old integral.old mask.old seen.old
        waiting.old patches.old candidates.old blob_index.old)
        (areas luma.new integral.new mask.new seen.new waiting.new
        patches.new candidates.new blob_index.new)
        means.old means.new counts.old counts.new fit.old
        fit.new result }
{
    tablet::tablet_fit_geometry(
        capture, w, h, width, height, cell, margin, luma, integral, mask, seen, waiting, patches,
        candidates, blob_index, means, counts, fit,
    )
}

// The flat card of a capture.
#[unsafe(no_mangle)]
pub extern "C" fn tablet_rectify(
    capture: &[u8],
    w: usize,
    h: usize,
    width: usize,
    height: usize,
    cell: usize,
    margin: usize,
    luma: &mut [f32],
    integral: &mut [f64],
    mask: &mut [u8],
    seen: &mut [u8],
    waiting: &mut [u32],
    patches: &mut [u64],
    candidates: &mut [f64],
    blob_index: &mut [u32],
    means: &mut [f64],
    canonical: &mut [u8],
    counts: &mut [u64],
    fit: &mut [f64],
) -> u32
    ensures { whole.FlattenedOver (image w h capture.now) (frame width height cell margin)
        (lent (areas luma.old integral.old mask.old seen.old
        waiting.old patches.old candidates.old blob_index.old)
        means.old canonical.old)
        (lent (areas luma.new integral.new mask.new seen.new
        waiting.new patches.new candidates.new blob_index.new)
        means.new canonical.new)
        counts.old counts.new fit.old fit.new result }
{
    tablet::tablet_rectify(
        capture, w, h, width, height, cell, margin, luma, integral, mask, seen, waiting, patches,
        candidates, blob_index, means, canonical, counts, fit,
    )
}
