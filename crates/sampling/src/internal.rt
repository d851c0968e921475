// What the layers above call without the public functions' tests.
ghost use Rattle.std.specs.Prelude.{◌≡◌, ◌*◌, ◌≤◌, length};
ghost use Rattle.base.specs.Loops.{filled};
ghost use Rattle.view.specs.Views.{picture};
ghost use Rattle.sampling.specs.Luma.{luma_at};
ghost use Rattle.sampling.specs.Reading.{neighbours_of, blended, bilinear, inside, sample_at};

use crate::{Neighbours, Sample};
use float::internal::to_f64;
use frame::{Point, Rgb};
use view::RgbImage;
use view::internal::px;

// The luma of each pixel.
pub fn luma_plane(capture: RgbImage, luma: &mut [f32])
    requires { capture.w * capture.h ≤ length luma.old }
    ensures { luma.new ≡ filled (luma_at (picture capture.entry)) (capture.entry.w * capture.entry.h) luma.old }
{
    let bytes = capture.data;
    for i in 0..capture.w * capture.h {
        let at = 3 * i;
        luma[i] = crate::luma(bytes[at], bytes[at + 1], bytes[at + 2]);
    }
}

// Where the coordinate t falls along a side of n pixels.
fn neighbours(n: usize, t: f64) -> Neighbours
    requires { (1 ≤ n) × (n ≤ 4096) }
    ensures { result ≡ neighbours_of n t }
{
    let c = float::clamp(t - 0.5, 0.0, to_f64(n) - 1.0);
    let first = float::to_usize(c);
    Neighbours {
        first,
        next: (first + 1).min(n - 1),
        part: c - to_f64(first),
    }
}

fn blend(tx: f64, ty: f64, a: u8, b: u8, c: u8, d: u8) -> u8
    ensures { result ≡ blended tx ty a b c d }
{
    let top = (a as f64) * (1.0 - tx) + (b as f64) * tx;
    let bot = (c as f64) * (1.0 - tx) + (d as f64) * tx;
    float::to_u8(float::clamp(top * (1.0 - ty) + bot * ty, 0.0, 255.0))
}

// The colour at p, by weights of the four pixels around it, truncated.
pub fn reading(capture: RgbImage, p: Point) -> Rgb
    ensures { result ≡ bilinear (picture capture.entry) p }
{
    let across = neighbours(capture.w, p.x);
    let down = neighbours(capture.h, p.y);
    let a = px(capture, across.first, down.first);
    let b = px(capture, across.next, down.first);
    let c = px(capture, across.first, down.next);
    let d = px(capture, across.next, down.next);
    let tx = across.part;
    let ty = down.part;
    Rgb {
        r: blend(tx, ty, a.r, b.r, c.r, d.r),
        g: blend(tx, ty, a.g, b.g, c.g, d.g),
        b: blend(tx, ty, a.b, b.b, c.b, d.b),
    }
}

// The position (x, y) is inside the picture; a NaN compares false.
pub fn inside(w: usize, h: usize, x: f64, y: f64) -> bool
    requires { (w ≤ 4096) × (h ≤ 4096) }
    ensures { result ≡ inside w h x y }
{
    (0.0 <= x) & (0.0 <= y) & (x < to_f64(w)) & (y < to_f64(h))
}

// The reading at p, and whether p is inside the picture.
pub fn sample(capture: RgbImage, p: Point) -> Sample
    ensures { result ≡ sample_at (picture capture.entry) p }
{
    Sample {
        colour: reading(capture, p),
        inside: inside(capture.w, capture.h, p.x, p.y),
    }
}
