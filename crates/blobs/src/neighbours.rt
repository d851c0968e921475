// The pixels that share an edge with a pixel.
ghost use Rattle.std.specs.Prelude.{◌≡◌, ◌%◌, ◌<◌, ◌≤◌};
ghost use Rattle.blobs.specs.Neighbours.{around};

// None where the picture ends.
#[derive(Clone, Copy)]
pub struct Neighbours {
    pub left: Option<usize>,
    pub right: Option<usize>,
    pub up: Option<usize>,
    pub down: Option<usize>,
}

// Those of the pixel p, whose column is x, in a mask of n pixels, w to a row.
pub fn around(n: usize, w: usize, p: usize, x: usize) -> Neighbours
    requires { (p < n) × (n ≤ 16777216) × (0 < w) × (w ≤ 4096) × (x ≡ p % w) }
    ensures { result ≡ around n w p }
{
    let left = if x > 0 { Some(p - 1) } else { None };
    let right = if x + 1 < w { Some(p + 1) } else { None };
    let up = p.checked_sub(w);
    let down = if p + w < n { Some(p + w) } else { None };
    Neighbours {
        left,
        right,
        up,
        down,
    }
}
