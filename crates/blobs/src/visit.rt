// A flood's step: the dark neighbours of a pixel that are not yet marked go on the stack.
ghost use Rattle.std.specs.Prelude.{◌≡◌, ◌%◌, ◌≤◌, ◌<◌, IfSome, length};
ghost use Rattle.blobs.specs.Stack.{marking, stack_of, spread};
ghost use Rattle.blobs.specs.Neighbours.{visit_to};
ghost use Rattle.blobs.specs.Ready.{Stacked, Pixel};

use super::neighbours::around;

// Visits the pixel q: where it is dark and not yet marked, it is marked and goes on the stack.
fn visit(mask: &[u8], seen: &mut [u8], waiting: &mut [u32], top: usize, q: Option<usize>) -> usize
    requires stacked { Stacked mask.now seen.old waiting.old top }
    requires inside { IfSome q (λ i. i < length mask.now) × (length mask.now ≤ 16777216) }
    ensures visited { marking seen.new (stack_of waiting.new result)
        ≡ visit_to mask.now q (marking seen.old (stack_of waiting.old top)) }
    ensures stacked { Stacked mask.now seen.new waiting.new result }
{
    let Some(i) = q else { return top };
    if mask[i] == 0 || seen[i] != 0 {
        return top;
    }
    seen[i] = 1;
    waiting[top] = i as u32;
    top + 1
}

// The same for all four neighbours of p, whose column is x.
pub fn spread(
    mask: &[u8],
    seen: &mut [u8],
    waiting: &mut [u32],
    top: usize,
    w: usize,
    p: usize,
    x: usize,
) -> usize
    requires stacked { Stacked mask.now seen.old waiting.old top }
    requires pixel { Pixel mask.now w p × (x ≡ p % w) }
    ensures { marking seen.new (stack_of waiting.new result) ≡ spread mask.now w p
        (marking seen.old (stack_of waiting.old top)) }
{
    let near = around(mask.len(), w, p, x);
    let a = visit(mask, seen, waiting, top, near.left);
    let b = visit(mask, seen, waiting, a, near.right);
    let c = visit(mask, seen, waiting, b, near.up);
    visit(mask, seen, waiting, c, near.down)
}
