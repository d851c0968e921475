// What is known of a rectangle while the list is gone through.
ghost use Rattle.std.specs.Prelude.{◌≡◌, ◌+◌, ◌<◌, ◌^◌, cond, Some, None};
ghost use Rattle.std.specs.Option.{option_or};
ghost use Rattle.windows.specs.Rectangles.{Valid};
ghost use Rattle.windows.specs.Steps.{nearer, met, window_in};

use super::rectangles::{distance, touches};
use super::{Rectangle, Window};

// A patch, and how far its box centre is from the rectangle's.
#[derive(Clone, Copy)]
pub struct Near {
    pub patch: usize,
    pub distance: u64,
}

// The answer up to some patch, and the distance of the nearest.
#[derive(Clone, Copy)]
pub struct Tally {
    pub count: u64,
    pub first: Option<usize>,
    pub nearest: Option<Near>,
}

pub const NO_TALLY: Tally = Tally {
    count: 0,
    first: None,
    nearest: None,
};

// The first patch that is hit, once j has been looked at after it.
fn first_of(first: Option<usize>, hit: bool, j: usize) -> Option<usize>
    ensures { result ≡ option_or first (cond hit (Some j) None) }
{
    if first.is_none() & hit {
        Some(j)
    } else {
        first
    }
}

// The nearer of two, the earlier of equals.
fn nearer(kept: Option<Near>, near: Near) -> Option<Near>
    ensures { result ≡ nearer kept near }
{
    match kept {
        Some(old) if old.distance <= near.distance => kept,
        _ => Some(near),
    }
}

impl Tally {
    // Patch j, whose box is b, has been looked at for the rectangle r. Each field is stored in any
    // case: a branch that skips it is guessed wrong too often where there are many rectangles.
    pub fn meet(&mut self, r: Rectangle, b: Rectangle, j: usize)
        requires { Valid r × Valid b × (self.old.count + 1 < 2 ^ 64) }
        ensures { self.new ≡ met r b j self.old }
    {
        let hit = touches(r, b);
        let near = Near {
            patch: j,
            distance: distance(r, b),
        };
        *self = Tally {
            count: self.count + hit as u64,
            first: first_of(self.first, hit, j),
            nearest: nearer(self.nearest, near),
        };
    }

    // The answer alone.
    pub fn window(&self) -> Window
        ensures { result ≡ window_in self.now }
    {
        Window {
            count: self.count,
            first: self.first,
            nearest: self.nearest.map(|near| near.patch),
        }
    }
}
