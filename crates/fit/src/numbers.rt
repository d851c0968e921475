// A fit and a grade as numbers.
ghost use Rattle.std.specs.Prelude.{◌≡◌, ◌≤◌, length};
ghost use Rattle.fit.specs.Numbers.{matrix_of, fit_of, fit_numbers, grade_number};

use super::{GeometryFit, Grade};
use homography::Homography;
use radial::Radial;

// Nine numbers as a matrix, by rows.
pub fn matrix_of(l: &[f64]) -> Homography
    requires { 9 ≤ length l.now }
    ensures { result ≡ matrix_of l.now }
{
    let mut m = [0.0; 9];
    m.copy_from_slice(&l[..9]);
    Homography { m }
}

// Thirteen numbers as a fit: the matrix, then the lens.
pub fn fit_of(l: &[f64]) -> GeometryFit
    requires { 13 ≤ length l.now }
    ensures { result ≡ fit_of l.now }
{
    GeometryFit {
        h: matrix_of(l),
        radial: Radial {
            k: l[9],
            cx: l[10],
            cy: l[11],
            norm: l[12],
        },
    }
}

// A fit as thirteen numbers.
pub fn fit_numbers(fit: GeometryFit) -> [f64; 13]
    ensures { result ≡ fit_numbers fit }
{
    let m = fit.h.m;
    let l = fit.radial;
    [
        m[0], m[1], m[2], m[3], m[4], m[5], m[6], m[7], m[8], l.k, l.cx, l.cy, l.norm,
    ]
}

// The number of a grade.
pub fn grade_number(g: Grade) -> u64
    ensures { result ≡ grade_number g }
{
    match g {
        Grade::Score(_) => 0,
        Grade::Outside(_) => 1,
        Grade::TooFew => 2,
    }
}
