// A cell's taps, and means and variances of floats.
ghost use Rattle.std.specs.Prelude.{◌≡◌, ◌≤◌, ◌^◌, length};
ghost use Rattle.frame.specs.Image.{outside};
ghost use Rattle.sampling.specs.Reading as reading;
ghost use Rattle.fit.specs.Grid as spec;
ghost use Rattle.fit.specs.Taps as taps;

use crate::{GeometryFit, Grade};
use frame::{CheckedFrame, Point, Rgb};

// How many columns of cells are sampled: every third.
pub fn across(frame: CheckedFrame) -> usize
    ensures { (result ≡ spec.across frame.spec) × (result ≤ 1366) }
{
    (frame.cols() + 2) / 3
}

// How many rows are.
pub fn down(frame: CheckedFrame) -> usize
    ensures { (result ≡ spec.down frame.spec) × (result ≤ 1366) }
{
    (frame.rows() + 2) / 3
}

// Where the taps of a cell lie, as shares of the cell: the Rust's TAPS.
fn tap_share(n: usize) -> f64
    ensures { result ≡ spec.tap_share n }
{
    match n {
        0 => 0.3,
        1 => 0.5,
        _ => 0.7,
    }
}

// Where the fit puts tap i of the cell in column c and row r.
pub fn tap_place(frame: CheckedFrame, fit: GeometryFit, c: usize, r: usize, i: usize) -> Point
    requires { (c ≤ 4096) × (r ≤ 4096) }
    ensures { result ≡ spec.tap_place frame.spec fit c r i }
{
    let origin = frame::internal::cell_origin(frame, c, r);
    let cell = frame.spec.cell as f64;
    let p = Point {
        x: origin.x as f64 + tap_share(i % 3) * cell,
        y: origin.y as f64 + tap_share(i / 3) * cell,
    };
    fit.map(p)
}

// A coordinate is past the ends of a side of n pixels; a NaN compares false.
fn past(n: usize, t: f64) -> bool
    requires { n ≤ 4096 }
    ensures { result ≡ taps.past n t }
{
    (t < 0.0) | (t >= n as f64)
}

// A tap is outside the picture: what `bilinear` answers of it, except that a NaN coordinate alone
// puts no tap outside; the other one is still tested.
pub fn tap_outside(w: usize, h: usize, p: Point, inside: bool) -> bool
    requires { (w ≤ 4096) × (h ≤ 4096) × (inside ≡ reading.inside w h p.x p.y) }
    ensures { result ≡ outside w h p.x p.y }
{
    if inside {
        return false;
    }
    if p.x.is_nan() {
        return past(h, p.y);
    }
    if p.y.is_nan() {
        return past(w, p.x);
    }
    true
}

// A reading's luma, in f64.
pub fn luma(p: Rgb) -> f64
    ensures { result ≡ spec.luma64 p }
{
    0.299 * (p.r as f64) + 0.587 * (p.g as f64) + 0.114 * (p.b as f64)
}

pub fn mean(a: &[f64]) -> f64
    requires { length a.now ≤ 2 ^ 53 }
    ensures { result ≡ spec.mean (spec.listed a.now) (length a.now) }
{
    let mut sum = 0.0;
    for x in a {
        sum += *x;
    }
    sum / (a.len() as f64)
}

// The mean of the squares of their distances from m.
pub fn variance(a: &[f64], m: f64) -> f64
    requires { length a.now ≤ 2 ^ 53 }
    ensures { result ≡ spec.variance (spec.listed a.now) (length a.now) m }
{
    let mut sum = 0.0;
    for x in a {
        let d = *x - m;
        sum += d * d;
    }
    sum / (a.len() as f64)
}

// The grade of cells whose taps are all inside, of their means and of the sum of their variances.
pub fn grade_inside(means: &[f64], within: f64) -> Grade
    requires { length means.now ≤ 2 ^ 53 }
    ensures { result ≡ spec.grade_inside (length means.now) (spec.fisher_of
        (spec.listed means.now) within (length means.now)) }
{
    if means.len() < 16 {
        return Grade::TooFew;
    }
    Grade::Score(fisher(means, within))
}

// The ratio of the variance between cells to that within them, of their means and of the sum of
// their variances.
fn fisher(means: &[f64], within: f64) -> f64
    requires { length means.now ≤ 2 ^ 53 }
    ensures { result ≡ spec.fisher_of (spec.listed means.now) within (length means.now) }
{
    let between = variance(means, mean(means));
    between / (within / (means.len() as f64) + 1.0)
}
