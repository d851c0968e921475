// The quadrilateral of four corners: which way it turns, and its area.
ghost use Rattle.std.specs.Prelude.{◌≡◌, ◌≤◌};
ghost use Rattle.fiducials.specs.Corners.{cross, orientation, one_way, term, quad_area, too_small};

use float::{abs, signum};
use frame::{Point, Quad};

fn cross(a: Point, b: Point, c: Point) -> f64
    ensures { result ≡ cross a b c }
{
    (b.x - a.x) * (c.y - a.y) - (b.y - a.y) * (c.x - a.x)
}

fn orientation(a: Point, b: Point, c: Point) -> f64
    ensures { result ≡ orientation a b c }
{
    signum(cross(a, b, c))
}

// The four signs agree.
pub fn one_way(q: Quad) -> bool
    ensures { result ≡ one_way q }
{
    let s = orientation(q.tl, q.tr, q.br);
    (s == s)
        & (orientation(q.tr, q.br, q.bl) == s)
        & (orientation(q.br, q.bl, q.tl) == s)
        & (orientation(q.bl, q.tl, q.tr) == s)
}

// One side's term of the area.
fn term(a: Point, b: Point) -> f64
    ensures { result ≡ term a b }
{
    a.x * b.y - b.x * a.y
}

fn area(q: Quad) -> f64
    ensures { result ≡ quad_area q }
{
    let sum = 0.0 + term(q.tl, q.tr) + term(q.tr, q.br) + term(q.br, q.bl) + term(q.bl, q.tl);
    0.5 * abs(sum)
}

pub fn too_small(w: usize, h: usize, q: Quad) -> bool
    requires { (w ≤ 4096) × (h ≤ 4096) }
    ensures { result ≡ too_small w h q }
{
    area(q) < 0.04 * (w * h) as f64
}
