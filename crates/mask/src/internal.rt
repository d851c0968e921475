// The integral, the mean over a box and the adaptive black mask. Crates above call `planes` alone,
// once refusals 1 to 6 are ruled out.
ghost use Rattle.std.specs.Prelude.{◌≡◌, cond, List, ℕ, ◌+◌, ◌*◌, ◌-◌, ◌<◌, ◌≤◌, length, Float};
ghost use Rattle.base.specs.Loops.{filled};
ghost use Rattle.float.specs.Floats.{f64};
ghost use Rattle.view.specs.Views.{picture};
ghost use Rattle.mask.specs.Mask.{integral_entry, box_mean, is_dark, dark_entry};
ghost use Rattle.mask.specs.Mask as mask;
ghost use Rattle.mask.specs.Planes.{entry_at, BoxesHeld, Ready, Planes};

use float::internal::to_f64;
use frame::CheckedFrame;
use view::RgbImage;

// The first row is 0.
fn first_row(integral: &mut [f64], n: usize)
    requires { n ≤ length integral.old }
    ensures { integral.new ≡ filled (λ k. f64 0) n integral.old }
{
    integral[..n].fill(0.0);
}

// Row y + 1 of the integral, above which it is done.
fn integral_row(luma: &[f32], w: usize, h: usize, y: usize, integral: &mut [f64])
    requires { (w ≤ 4096) × (h ≤ 4096) × (y < h) × (length luma.now ≡ w * h)
        × ((w + 1) * (h + 1) ≤ length integral.old) }
    ensures { (l : List Float) → integral.old ≡ filled (integral_entry luma.now w)
        ((y + 1) * (w + 1)) l → integral.new ≡ filled (integral_entry luma.now w) ((y + 1 + 1) *
        (w + 1)) l }
{
    let s = w + 1;
    let base = (y + 1) * s;
    integral[base] = 0.0;
    let mut row = 0.0;
    for x in 0..w {
        let i = y * w + x;
        let up = y * s + (x + 1);
        let at = base + (x + 1);
        row += float::widen(luma[i]);
        integral[at] = integral[up] + row;
    }
}

// The sum of the luma above and to the left of each corner of a pixel.
fn integral_plane(luma: &[f32], w: usize, h: usize, integral: &mut [f64])
    requires { (w ≤ 4096) × (h ≤ 4096) × (length luma.now ≡ w * h) × ((w + 1) * (h + 1) ≤ length integral.old) }
    ensures { integral.new ≡ filled (integral_entry luma.now w) ((w + 1) * (h + 1))
        integral.old }
{
    first_row(integral, w + 1);
    for y in 0..h {
        integral_row(luma, w, h, y, integral);
    }
}

// A picture's luma plane and its integral, and the radius of the box whose mean tells what is dark.
#[derive(Clone, Copy)]
struct BoxMeans<'a> {
    w: usize,
    h: usize,
    radius: usize,
    luma: &'a [f32],
    integral: &'a [f64],
    ghost held: { BoxesHeld w h radius luma.now integral.now },
}

impl<'a> BoxMeans<'a> {
    // The mean luma of the box around column x and row y, clipped at the picture.
    fn box_mean(self, x: usize, y: usize) -> f32
        requires { (x < self.w) × (y < self.h) }
        ensures { result ≡ box_mean (entry_at self.entry.integral.now self.entry.w) self.entry.w self.entry.h
            self.entry.radius x y }
    {
        let integral = self.integral;
        let s = self.w + 1;
        let x0 = x.saturating_sub(self.radius);
        let x1 = self.w.min(x + self.radius + 1);
        let y0 = y.saturating_sub(self.radius);
        let y1 = self.h.min(y + self.radius + 1);
        let a = y1 * s + x1;
        let b = y0 * s + x1;
        let c = y1 * s + x0;
        let d = y0 * s + x0;
        let sum = integral[a] - integral[b] - integral[c] + integral[d];
        float::narrow(sum / to_f64((x1 - x0) * (y1 - y0)))
    }

    // 1 where the pixel is dark, else 0.
    fn dark(self, x: usize, y: usize) -> u8
        requires { (x < self.w) × (y < self.h) }
        ensures { result ≡ cond (is_dark self.entry.luma.now self.entry.w self.entry.h self.entry.radius x y) 1 0 }
    {
        let luma = self.luma;
        let i = y * self.w + x;
        let mean = self.box_mean(x, y);
        u8::from(luma[i] < mean - 8.0)
    }

    // Row y of the mask, above which it is done.
    fn mask_row(self, y: usize, mask: &mut [u8])
        requires { (y < self.h) × (self.w * self.h ≤ length mask.old) }
        ensures { (l : List ℕ) → mask.old ≡ filled (dark_entry self.entry.luma.now self.entry.w self.entry.h self.entry.radius) (y * self.entry.w) l
            → mask.new ≡ filled (dark_entry self.entry.luma.now self.entry.w self.entry.h self.entry.radius) ((y + 1) * self.entry.w) l }
    {
        let w = self.w;
        for x in 0..w {
            let i = y * w + x;
            mask[i] = self.dark(x, y);
        }
    }

    // The mask of the whole picture.
    fn adaptive_black_mask(self, mask: &mut [u8])
        requires { self.w * self.h ≤ length mask.old }
        ensures { mask.new ≡ filled (dark_entry self.entry.luma.now self.entry.w self.entry.h self.entry.radius) (self.entry.w * self.entry.h) mask.old }
    {
        for y in 0..self.h {
            self.mask_row(y, mask);
        }
    }
}

// m / 3, held to 8 .. a quarter of the shorter side.
fn radius(w: usize, h: usize, frame: CheckedFrame) -> usize
    requires { (w ≤ 4096) × (h ≤ 4096) }
    ensures { (result ≡ mask.radius w h frame.spec) × (result ≤ 4096) }
{
    let most = w.min(h) / 4;
    most.min(markers::internal::marker(frame) / 3).max(8)
}

// Luma, integral and mask of a capture.
pub fn planes(
    capture: RgbImage,
    frame: CheckedFrame,
    luma: &mut [f32],
    integral: &mut [f64],
    mask: &mut [u8],
)
    requires { Ready (picture capture) luma.old integral.old mask.old }
    ensures { Planes (picture capture.entry) frame.spec luma.old integral.old
        mask.old luma.new integral.new mask.new }
{
    let w = capture.w;
    let h = capture.h;
    let n = w * h;
    sampling::internal::luma_plane(capture, luma);
    integral_plane(&luma[..n], w, h, integral);
    let means = BoxMeans {
        w,
        h,
        radius: radius(w, h, frame),
        luma: &luma[..n],
        integral,
    };
    means.adaptive_black_mask(mask);
}
