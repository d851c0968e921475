// 3x3 matrices and the homography of four points.
//
// A homography takes a point (x, y) to (u, v), with a third coordinate W that is divided out:
//
//     [ X ]   [ h0 h1 h2 ] [ x ]
//     [ Y ] = [ h3 h4 h5 ] [ y ],    u = X / W,   v = Y / W.
//     [ W ]   [ h6 h7 h8 ] [ 1 ]
//
// Only the ratios of the nine entries matter, so the last is set to 1, and eight are left. (A
// matrix whose last entry is 0 takes the origin to infinity, and is not found this way.) A point
// whose image is known gives two equations. Multiply u = X / W and v = Y / W by W:
//
//     h0 x + h1 y + h2 = u (h6 x + h7 y + 1)
//     h3 x + h4 y + h5 = v (h6 x + h7 y + 1)
//
// and bring the unknowns to the left: each is one row, linear in h0 .. h7,
//
//     [ x  y  1  0  0  0  -u x  -u y ] h = u
//     [ 0  0  0  x  y  1  -v x  -v y ] h = v.
//
// Four points give eight rows: the direct linear transform with last entry 1 (Hartley and
// Zisserman, Multiple View Geometry, 4.1). The rows, the elimination and the lines of the matrix
// are defined once, over any arithmetic. The contracts cite them over f64, where every result is
// rounded, and say what comes out to the bit. specs/Transform cites them over exact numbers, among
// them the rationals, of which every finite f64 is one: there the eight rows hold exactly when the
// matrix takes each point to its own target, and the matrix that the elimination gives, where it
// refuses no pivot, does so. proofs/Image shows that no entry of the rows is rounded where the
// coordinates are whole and small.
#![tactic(auto)]

mod solve;

ghost use Rattle.std.specs.Prelude.{◌≡◌, ◌<◌, [], ◌∷◌, ◌++◌};
ghost use Rattle.float.specs.Floats.{f64};
ghost use Rattle.homography.specs.Equations as dlt;
ghost use Rattle.homography.specs.Homography as mat;
ghost use Rattle.homography.specs.Inner as inner;

use frame::{Point, Quad, Refusal};

// Nine entries by rows: entry j of row i stands at i * 3 + j.
pub type Mat3 = [f64; 9];

// The entry in row i and column j of the product a b.
fn product_at(a: &Mat3, b: &Mat3, i: usize, j: usize) -> f64
    requires { (i < 3) × (j < 3) }
    ensures { result ≡ mat.product_at a.now b.now j i }
{
    let k = i * 3;
    a[k] * b[j] + a[k + 1] * b[3 + j] + a[k + 2] * b[6 + j]
}

// The matrix product a b.
pub fn mat3_mul(a: &Mat3, b: &Mat3) -> Mat3
    ensures { result ≡ mat.mat3_mul a.now b.now }
{
    let mut out = [0.0; 9];
    for n in 0..9 {
        out[n] = product_at(a, b, n / 3, n % 3);
    }
    out
}

// A plane-to-plane projective map.
#[derive(Clone, Copy)]
pub struct Homography {
    pub m: Mat3,
}

// What from_points and inverse give: the matrix beside the enum, and the identity where it is
// refused.
#[derive(Clone, Copy)]
pub struct Solved {
    pub verdict: Result<(), Refusal>,
    pub h: Homography,
}

impl Solved {
    fn found(h: Homography) -> Self
        ensures { result ≡ dlt.found h }
    {
        Self { verdict: Ok(()), h }
    }

    fn refused(refusal: Refusal) -> Self
        ensures { result ≡ dlt.refused refusal }
    {
        Self {
            verdict: Err(refusal),
            h: Homography::identity(),
        }
    }
}

// Row r of the equations.
fn set_row(a: &mut [f64; 72], r: usize, row: [f64; 9])
    requires { r < 8 }
    ensures { a.new ≡ inner.row_set r row a.old }
{
    a[r * 9..r * 9 + 9].copy_from_slice(&row);
}

// Both rows of the point i, which goes from p to q.
fn set_point(a: &mut [f64; 72], i: usize, p: Point, q: Point)
    requires { i < 4 }
    ensures { a.new ≡ inner.point_set i p q a.old }
{
    let Point { x, y } = p;
    let Point { x: u, y: v } = q;
    set_row(a, 2 * i, [x, y, 1.0, 0.0, 0.0, 0.0, -u * x, -u * y, u]);
    set_row(a, 2 * i + 1, [0.0, 0.0, 0.0, x, y, 1.0, -v * x, -v * y, v]);
}

// The eight equations.
fn equations(src: Quad, dst: Quad) -> [f64; 72]
    ensures { result ≡ dlt.equations src dst }
{
    let mut a = [0.0; 72];
    set_point(&mut a, 0, src.tl, dst.tl);
    set_point(&mut a, 1, src.tr, dst.tr);
    set_point(&mut a, 2, src.br, dst.br);
    set_point(&mut a, 3, src.bl, dst.bl);
    a
}

// The eight unknowns with 1 behind them.
fn with_one(t: [f64; 8]) -> Mat3
    ensures { result ≡ t ++ (f64 1 ∷ []) }
{
    let mut m = [1.0; 9];
    m[..8].copy_from_slice(&t);
    m
}

// The third coordinate that apply divides by: at w = 0 the point lies on the line that goes to
// infinity, and around it the quotient would be infinite or a NaN.
fn divisor(w: f64) -> f64
    ensures { result ≡ mat.divisor w }
{
    if float::abs(w) < 1e-12 { 1e-12 } else { w }
}

impl Homography {
    pub fn identity() -> Self
        ensures { result ≡ dlt.identity }
    {
        Self::from_mat([1.0, 0.0, 0.0, 0.0, 1.0, 0.0, 0.0, 0.0, 1.0])
    }

    pub fn from_mat(m: Mat3) -> Self
        ensures { result.m ≡ m }
    {
        Self { m }
    }

    // The homography that takes each point of src to that of dst; refusal 10 where the equations
    // have no pivot.
    pub fn from_points(src: Quad, dst: Quad) -> Solved
        ensures { result ≡ dlt.from_points src dst }
    {
        match solve::solve8(equations(src, dst)) {
            Some(unknowns) => Solved::found(Self::from_mat(with_one(unknowns))),
            None => Solved::refused(Refusal::NoHomography),
        }
    }

    // Row i times (x, y, 1).
    fn row_times(self, i: usize, p: Point) -> f64
        requires { i < 3 }
        ensures { result ≡ mat.row_times self i p }
    {
        let m = self.m;
        let k = i * 3;
        m[k] * p.x + m[k + 1] * p.y + m[k + 2]
    }

    // Where the matrix takes p.
    pub fn apply(self, p: Point) -> Point
        ensures { result ≡ mat.apply self p }
    {
        let w = divisor(self.row_times(2, p));
        Point {
            x: self.row_times(0, p) / w,
            y: self.row_times(1, p) / w,
        }
    }

    // The inverse: the transposed cofactors over the determinant, which is expanded along the first
    // row, so is the first entry of the product of the two; refusal 11 where its absolute value is
    // below 1e-12.
    pub fn inverse(self) -> Solved
        ensures { result ≡ mat.inverse self }
    {
        let c = cofactors(self.m);
        let det = product_at(&self.m, &c, 0, 0);
        if float::abs(det) < 1e-12 {
            return Solved::refused(Refusal::Singular);
        }
        Solved::found(Self::from_mat(quotients(c, det)))
    }
}

// The cofactors, transposed.
fn cofactors(m: Mat3) -> Mat3
    ensures { result ≡ mat.adjugate m }
{
    [
        m[4] * m[8] - m[5] * m[7],
        m[2] * m[7] - m[1] * m[8],
        m[1] * m[5] - m[2] * m[4],
        m[5] * m[6] - m[3] * m[8],
        m[0] * m[8] - m[2] * m[6],
        m[2] * m[3] - m[0] * m[5],
        m[3] * m[7] - m[4] * m[6],
        m[1] * m[6] - m[0] * m[7],
        m[0] * m[4] - m[1] * m[3],
    ]
}

// Every entry over d.
fn quotients(c: Mat3, d: f64) -> Mat3
    ensures { result ≡ mat.quotients c d }
{
    let mut out = c;
    for entry in &mut out {
        *entry /= d;
    }
    out
}

// The square of the distance between two points.
fn squared_distance(p: Point, q: Point) -> f64
    ensures { result ≡ mat.apart p q }
{
    let dx = p.x - q.x;
    let dy = p.y - q.y;
    dx * dx + dy * dy
}

// The root of the mean squared distance of four pairs of points.
pub fn rms_error(a: Quad, b: Quad) -> f64
    ensures { result ≡ mat.rms_error a b }
{
    let tl = squared_distance(a.tl, b.tl);
    let tr = squared_distance(a.tr, b.tr);
    let br = squared_distance(a.br, b.br);
    let bl = squared_distance(a.bl, b.bl);
    float::sqrt((0.0 + tl + tr + br + bl) / 4.0)
}
