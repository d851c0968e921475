// The checkerboard, once refusals 2 and 3 are ruled out.
ghost use Rattle.std.specs.Prelude.{◌≡◌, List, ℕ, ◌+◌, ◌*◌, ◌≤◌, ◌<◌, length};
ghost use Rattle.base.specs.Loops.{filled};
ghost use Rattle.checkerboard.specs.Board.{square, square_at};

// The pixel in column x and row y.
fn square(x: usize, y: usize) -> u8
    requires { (x < 4096) × (y < 4096) }
    ensures { result ≡ square x y }
{
    if (x + y) % 2 == 0 { 1 } else { 0 }
}

fn draw_row(w: usize, h: usize, y: usize, mask: &mut [u8])
    requires { (w ≤ 4096) × (h ≤ 4096) × (y < h) × (w * h ≤ length mask.old) }
    ensures { (l : List ℕ) → mask.old ≡ filled (square_at w) (y * w) l
        → mask.new ≡ filled (square_at w) ((y + 1) * w) l }
{
    for x in 0..w {
        let i = y * w + x;
        mask[i] = square(x, y);
    }
}

pub fn draw(w: usize, h: usize, mask: &mut [u8])
    requires { (w ≤ 4096) × (h ≤ 4096) × (w * h ≤ length mask.old) }
    ensures { mask.new ≡ filled (square_at w) (w * h) mask.old }
{
    for y in 0..h {
        draw_row(w, h, y, mask);
    }
}
