// Looks at a picture, over all work areas.
ghost use Rattle.frame.specs.Image.{image};
ghost use Rattle.candidates.specs.Areas.{areas};
ghost use Rattle.tablet.specs.Layouts.{frame};
ghost use Rattle.tablet.specs.Promises.{ListedOver, DetectedOver};

// Every bullseye-shaped patch in the picture.
#[unsafe(no_mangle)]
pub extern "C" fn tablet_fiducial_candidates(
    capture: &[u8],
    w: usize,
    h: usize,
    width: usize,
    height: usize,
    cell: usize,
    margin: usize,
    luma: &mut [f32],
    integral: &mut [f64],
    mask: &mut [u8],
    seen: &mut [u8],
    waiting: &mut [u32],
    patches: &mut [u64],
    candidates: &mut [f64],
    blob_index: &mut [u32],
    counts: &mut [u64],
) -> u32
    ensures { ListedOver (image w h capture.now) (frame width height cell margin)
        (areas luma.old integral.old mask.old seen.old
        waiting.old patches.old candidates.old blob_index.old)
        (areas luma.new integral.new mask.new seen.new waiting.new
        patches.new candidates.new blob_index.new)
        counts.old counts.new result }
{
    tablet::tablet_fiducial_candidates(
        capture, w, h, width, height, cell, margin, luma, integral, mask, seen, waiting, patches,
        candidates, blob_index, counts,
    )
}

// The four fiducials, in the order TL, TR, BR, BL.
#[unsafe(no_mangle)]
pub extern "C" fn tablet_detect_fiducials(
    capture: &[u8],
    w: usize,
    h: usize,
    width: usize,
    height: usize,
    cell: usize,
    margin: usize,
    luma: &mut [f32],
    integral: &mut [f64],
    mask: &mut [u8],
    seen: &mut [u8],
    waiting: &mut [u32],
    patches: &mut [u64],
    candidates: &mut [f64],
    blob_index: &mut [u32],
    counts: &mut [u64],
    points: &mut [f64],
) -> u32
    ensures { DetectedOver (image w h capture.now) (frame width height cell margin)
        (areas luma.old integral.old mask.old seen.old
        waiting.old patches.old candidates.old blob_index.old)
        (areas luma.new integral.new mask.new seen.new waiting.new
        patches.new candidates.new blob_index.new)
        counts.old counts.new points.old points.new result }
{
    tablet::tablet_detect_fiducials(
        capture, w, h, width, height, cell, margin, luma, integral, mask, seen, waiting, patches,
        candidates, blob_index, counts, points,
    )
}
