// The candidate that lies furthest out toward a corner.
ghost use Rattle.std.specs.Prelude.{◌≡◌, ◌+◌, ◌*◌, ◌≤◌, ◌<◌, length};
ghost use Rattle.candidates.specs.Ring.{center_at};
ghost use Rattle.fiducials.specs.Corners.{pick_step, pick};
ghost use Rattle.fiducials.specs.Answers.{key_of};

use candidates::internal::center_at;
use frame::Point;

// The corners, in the order of a quadrilateral.
#[derive(Clone, Copy)]
pub enum Corner {
    TL,
    TR,
    BR,
    BL,
}

// The key to be least.
fn key(corner: Corner, p: Point) -> f64
    ensures { result ≡ key_of corner p }
{
    match corner {
        Corner::TL => p.x + p.y,
        Corner::TR => -(p.x - p.y),
        Corner::BR => -(p.x + p.y),
        Corner::BL => p.x - p.y,
    }
}

// Candidate i where it lies further out than `best`, and else `best`.
fn further(candidates: &[f64], corner: Corner, i: usize, best: usize) -> usize
    requires { (4 * i + 1 < length candidates.now) × (4 * best + 1 < length candidates.now) }
    ensures { result ≡ pick_step corner (center_at candidates.now) i best }
{
    let a = key(corner, center_at(candidates, i));
    let b = key(corner, center_at(candidates, best));
    if a < b { i } else { best }
}

// The candidate that lies furthest out toward a corner, and the first of equals.
pub fn pick(candidates: &[f64], k: usize, corner: Corner) -> usize
    requires { 4 * k ≤ length candidates.now }
    ensures { result ≡ pick corner (center_at candidates.now) k }
{
    let mut best = 0;
    for i in 0..k {
        best = further(candidates, corner, i, best);
    }
    best
}
