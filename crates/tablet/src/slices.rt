// Numbers out of slices, and into them.
ghost use Rattle.std.specs.Prelude.{◌≡◌, ◌≤◌, length};
ghost use Rattle.tablet.specs.Slices.{written};
ghost use Rattle.tablet.specs.Layouts.{quad_of, lens_of, point_numbers, quad_numbers};
ghost use Rattle.fit.specs.Numbers.{lens_numbers, matrix_numbers, fit_numbers};

use fit::GeometryFit;
use fit::internal::fit_numbers;
use frame::{Point, Quad};
use homography::Mat3;
use radial::Radial;

// ---- out of a slice

// Eight numbers as four points, x and y of TL, TR, BR, BL.
#[tactic(auto, unfolding(crate::specs::Layouts::quad_of))]
pub fn quad(l: &[f64]) -> Quad
    requires { 8 ≤ length l.now }
    ensures { result ≡ quad_of l.now }
{
    Quad {
        tl: Point { x: l[0], y: l[1] },
        tr: Point { x: l[2], y: l[3] },
        br: Point { x: l[4], y: l[5] },
        bl: Point { x: l[6], y: l[7] },
    }
}

// Four numbers as a lens: k, cx, cy, norm.
#[tactic(auto, unfolding(crate::specs::Layouts::lens_of))]
pub fn lens(l: &[f64]) -> Radial
    requires { 4 ≤ length l.now }
    ensures { result ≡ lens_of l.now }
{
    Radial {
        k: l[0],
        cx: l[1],
        cy: l[2],
        norm: l[3],
    }
}

// ---- into a slice: the values go over its start

// Writes the values over the start of a slice.
#[tactic(auto, unfolding(crate::specs::Slices::written))]
pub fn store<T: Copy>(out: &mut [T], values: &[T])
    requires { length values.now ≤ length out.old }
    ensures { out.new ≡ written values.now out.old }
{
    out[..values.len()].copy_from_slice(values);
}

// Writes a point as two numbers.
#[tactic(auto, unfolding(crate::specs::Layouts::point_numbers))]
pub fn store_point(out: &mut [f64], p: Point)
    requires { 2 ≤ length out.old }
    ensures { out.new ≡ written (point_numbers p) out.old }
{
    store(out, &[p.x, p.y]);
}

// Writes four points as eight numbers, TL, TR, BR, BL.
#[tactic(auto, unfolding(crate::specs::Layouts::quad_numbers))]
pub fn store_quad(out: &mut [f64], q: Quad)
    requires { 8 ≤ length out.old }
    ensures { out.new ≡ written (quad_numbers q) out.old }
{
    store(
        out,
        &[
            q.tl.x, q.tl.y, q.tr.x, q.tr.y, q.br.x, q.br.y, q.bl.x, q.bl.y,
        ],
    );
}

// Writes a lens as four numbers.
#[tactic(auto, unfolding(fit::specs::Numbers::lens_numbers))]
pub fn store_lens(out: &mut [f64], l: Radial)
    requires { 4 ≤ length out.old }
    ensures { out.new ≡ written (lens_numbers l) out.old }
{
    store(out, &[l.k, l.cx, l.cy, l.norm]);
}

// Writes a matrix as nine numbers, by rows.
#[tactic(auto, unfolding(fit::specs::Numbers::matrix_numbers))]
pub fn store_matrix(out: &mut [f64], m: Mat3)
    requires { 9 ≤ length out.old }
    ensures { out.new ≡ written (matrix_numbers m) out.old }
{
    store(out, &m);
}

// Writes a fit as thirteen numbers: the matrix, then the lens.
#[tactic(auto, unfolding(fit::specs::Numbers::fit_numbers, fit::specs::Numbers::matrix_numbers, fit::specs::Numbers::lens_numbers))]
pub fn store_fit(out: &mut [f64], fit: GeometryFit)
    requires { 13 ≤ length out.old }
    ensures { out.new ≡ written (fit_numbers fit) out.old }
{
    store(out, &fit_numbers(fit));
}
