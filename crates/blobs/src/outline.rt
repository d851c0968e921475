// The sides of a pixel that count in its patch's outline: those that face a light pixel or the
// picture's border.
ghost use Rattle.std.specs.Prelude.{◌≡◌, ◌%◌, ◌<◌, IfSome, length};
ghost use Rattle.blobs.specs.Patches.{sides};
ghost use Rattle.blobs.specs.Neighbours.{side_to};
ghost use Rattle.blobs.specs.Ready.{Pixel};

use super::neighbours::around;

// What a side at the picture's border counts.
const BORDER: u64 = 1;

// 1 where the side towards the pixel q counts, else 0.
fn side(mask: &[u8], q: Option<usize>) -> u64
    requires { IfSome q (λ i. i < length mask.now) }
    ensures { result ≡ side_to mask.now q }
{
    match q {
        Some(i) => (mask[i] == 0) as u64,
        None => BORDER,
    }
}

// How many of the four sides of the pixel p, whose column is x, count.
pub fn sides(mask: &[u8], w: usize, p: usize, x: usize) -> u64
    requires { Pixel mask.now w p × (x ≡ p % w) }
    ensures { result ≡ sides mask.now w p }
{
    let near = around(mask.len(), w, p, x);
    let left = side(mask, near.left);
    let right = side(mask, near.right);
    let up = side(mask, near.up);
    let down = side(mask, near.down);
    left + right + up + down
}
