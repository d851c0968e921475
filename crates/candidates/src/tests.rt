// Refusals 1 to 6 of a call on a picture.
ghost use Rattle.std.specs.Prelude.{◌≡◌, false, ◌≤◌, IfOk};
ghost use Rattle.candidates.specs.Areas.{smallest, shorter, picture_tests};
ghost use Rattle.frame.specs.Image.{image};
ghost use Rattle.view.specs.Views.{picture};
ghost use Rattle.frame.specs.Refusals.{lowest_of, number_of};

use super::Lengths;
use frame::internal::capture_small;
use frame::{CheckedFrame, FrameSpec, Refusal};
use markers::internal::no_layout;
use view::RgbImage;

// The smallest lengths of the work areas for a picture w by h.
pub fn smallest(w: usize, h: usize) -> Lengths
    requires { (w ≤ 4096) × (h ≤ 4096) }
    ensures { result ≡ smallest w h }
{
    let n = w * h;
    Lengths {
        luma: n,
        integral: (w + 1) * (h + 1),
        mask: n,
        seen: n,
        waiting: n,
        patches: blobs::RECORD_LENGTH * ((n + 1) / 2),
        candidates: 4 * (n / 32),
        blob_index: n / 32,
    }
}

// Refusal 3.
pub fn shorter(l: Lengths, s: Lengths) -> bool
    ensures { result ≡ shorter l s }
{
    let planes = (l.luma < s.luma)
        | (l.integral < s.integral)
        | (l.mask < s.mask)
        | (l.seen < s.seen);
    planes
        | (l.waiting < s.waiting)
        | (l.patches < s.patches)
        | (l.candidates < s.candidates)
        | (l.blob_index < s.blob_index)
}

// The same of a picture w by h, with the sides held to their limit: beyond it 2 goes before 3.
pub fn areas_short(w: usize, h: usize, lengths: Lengths) -> bool
    ensures { w ≤ 4096 → h ≤ 4096 → result ≡ shorter lengths (smallest w h) }
{
    shorter(lengths, smallest(w.min(4096), h.min(4096)))
}

// The capture and the frame of a call on a picture, or the lowest refusal: short says that a work
// area is too short, wrong that the canonical image is of a wrong length (false where there is none).
pub fn picture_tested<'a>(
    capture: &'a [u8],
    w: usize,
    h: usize,
    frame: FrameSpec,
    short: bool,
    wrong: bool,
) -> Result<(RgbImage<'a>, CheckedFrame), Refusal>
    ensures number { number_of result ≡ lowest_of (picture_tests (image w h capture.entry.now) frame short wrong) }
    ensures value { IfOk result (λ p. (picture p.0 ≡ image w h capture.entry.now) × (p.1.spec ≡ frame)) }
{
    let frame = CheckedFrame::new(frame)?;
    let capture = RgbImage::new(capture, w, h)?;
    if short {
        return Err(Refusal::AreaShort);
    }
    if wrong {
        return Err(Refusal::CanonicalWrong);
    }
    if no_layout(frame) {
        return Err(Refusal::NoLayout);
    }
    if capture_small(w, h) {
        return Err(Refusal::CaptureSmall);
    }
    Ok((capture, frame))
}

// .. of a look at the picture.
pub fn tested<'a>(
    capture: &'a [u8],
    w: usize,
    h: usize,
    frame: FrameSpec,
    lengths: Lengths,
) -> Result<(RgbImage<'a>, CheckedFrame), Refusal>
    ensures number { number_of result ≡ lowest_of (picture_tests (image w h capture.entry.now) frame
        (shorter lengths (smallest w h)) false) }
    ensures value { IfOk result (λ p. (picture p.0 ≡ image w h capture.entry.now) × (p.1.spec ≡ frame)) }
{
    picture_tested(capture, w, h, frame, areas_short(w, h, lengths), false)
}
