// Radial (barrel and pincushion) distortion with one parameter, about the picture's centre.
//
// A lens moves a point along the ray from the centre. With r the distance of the pinhole's point
// and rd that of the observed one, both in units of norm (half the picture's diagonal),
//
//     rd = r (1 + k r^2)
//
// k > 0 is pincushion, k < 0 barrel, the usual sign of a webcam. distort computes this. undistort
// looks for the u with g(u) = u + k u^3 - rd = 0 by Newton's steps from u = rd,
//
//     u - g(u) / g'(u),    g'(u) = 1 + 3 k u^2,
//
// and divides by 1 + k u^2. Where k < 0, g rises only up to u = 1 / sqrt(-3 k): a point observed
// further out than rd = 2 / (3 sqrt(-3 k)), 0.861 at k = -0.2, has no preimage nearby, and the
// steps wander (docs/DIFFERENCES.md).
#![tactic(auto)]

pub mod internal;

ghost use Rattle.std.specs.Prelude.{◌≡◌};
ghost use Rattle.radial.specs.Lens as model;

use frame::{Point, Refusal};

#[derive(Clone, Copy)]
pub struct Radial {
    pub k: f64,
    pub cx: f64,
    pub cy: f64,
    pub norm: f64,
}

// At most six of Newton's steps on u + k u^3 = rd, from u = rd.
fn newton(k: f64, rd: f64) -> f64
    ensures { result ≡ model.newton 6 k rd rd }
{
    let mut u = rd;
    for _ in 0..6usize {
        let g = u + k * u * u * u - rd;
        let dg = 1.0 + 3.0 * k * u * u;
        if float::abs(dg) < 1e-12 {
            return u;
        }
        u = u - g / dg;
    }
    u
}

impl Radial {
    // The lens term k about the centre of a picture w by h; refusal 2 for a side outside 1 to
    // 4,096.
    pub fn new(w: usize, h: usize, k: f64) -> Result<Radial, Refusal>
        ensures { result ≡ model.new_lens w h k }
    {
        if frame::internal::sides_wrong(w, h) {
            return Err(Refusal::CaptureWrong);
        }
        Ok(internal::lens(w, h, k))
    }

    // Pinhole point to observed point.
    pub fn distort(self, p: Point) -> Point
        ensures { result ≡ model.distort self p }
    {
        if self.k == 0.0 {
            return p;
        }
        let dx = p.x - self.cx;
        let dy = p.y - self.cy;
        let r2 = (dx * dx + dy * dy) / (self.norm * self.norm);
        let f = 1.0 + self.k * r2;
        Point {
            x: self.cx + dx * f,
            y: self.cy + dy * f,
        }
    }

    // Observed point to pinhole point.
    pub fn undistort(self, p: Point) -> Point
        ensures { result ≡ model.undistort self p }
    {
        if self.k == 0.0 {
            return p;
        }
        let dx = p.x - self.cx;
        let dy = p.y - self.cy;
        let rd = float::sqrt(dx * dx + dy * dy) / self.norm;
        if rd < 1e-12 {
            return p;
        }
        let u = newton(self.k, rd);
        let f = 1.0 + self.k * u * u;
        Point {
            x: self.cx + dx / f,
            y: self.cy + dy / f,
        }
    }
}
