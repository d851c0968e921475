// Making a view and reading through it.
ghost use Rattle.std.specs.Prelude.{◌≡◌, ◌<◌, false, true, MatchResult};
ghost use Rattle.frame.specs.Image.{image, px};
ghost use Rattle.frame.specs.Limits.{CaptureHeld};
ghost use Rattle.frame.specs.Refusals.{capture_wrong};
ghost use Rattle.view.specs.Views.{pixel_of, picture};
ghost use Rattle.frame.specs.declared.refusals.Refusal.TheVariants.{CaptureWrong};

use super::RgbImage;
use frame::{Refusal, Rgb};

pub fn new<'a>(data: &'a [u8], w: usize, h: usize) -> RgbImage<'a>
    requires { CaptureHeld (image w h «data».now) }
    ensures { (result.w ≡ w) × (result.h ≡ h) × (result.«data» ≡ «data».entry) }
{
    RgbImage { w, h, data }
}

impl<'a> RgbImage<'a> {
    // Refusal 2 where the bytes are no capture.
    pub fn new(data: &'a [u8], w: usize, h: usize) -> Result<RgbImage<'a>, Refusal>
        ensures { MatchResult result
            (λ v. (capture_wrong (image w h «data».entry.now) ≡ false) × (picture v ≡ image w h «data».entry.now))
            (λ r. (capture_wrong (image w h «data».entry.now) ≡ true) × (r ≡ CaptureWrong)) }
    {
        if frame::internal::capture_wrong(data, w, h) {
            return Err(Refusal::CaptureWrong);
        }
        Ok(new(data, w, h))
    }
}

pub fn px(v: RgbImage, x: usize, y: usize) -> Rgb
    requires { (x < v.w) × (y < v.h) }
    ensures { result ≡ px (picture v.entry) x y }
{
    frame::internal::px(v.data, v.w, v.h, x, y)
}

// A pixel of any bytes, numbers and place: refusal 2 where they are no capture, and None where the
// picture has no such pixel.
pub fn pixel_at(
    capture: &[u8],
    w: usize,
    h: usize,
    x: usize,
    y: usize,
) -> Result<Option<Rgb>, Refusal>
    ensures { result ≡ pixel_of (image w h capture.now) x y }
{
    let v = RgbImage::new(capture, w, h)?;
    if x >= w || y >= h {
        return Ok(None);
    }
    Ok(Some(px(v, x, y)))
}
