// A mask as text.
ghost use Rattle.std.specs.Prelude.{◌≡◌, ◌+◌, ◌*◌, ◌≤◌, ◌<◌, length, take};
ghost use Rattle.base.specs.Loops.{by_row};
ghost use Rattle.patch_text.specs.Text.{byte_at, mask_text};

use patch_text::internal::Size;

// Byte k of the text of a mask.
fn byte_at(mask: &[u8], size: Size, k: usize) -> u8
    requires { (size.w ≤ 64) × (size.h ≤ 64) × (length mask.now ≡ size.w * size.h) × (k < size.h * (size.w + 1)) }
    ensures { result ≡ by_row (size.w + 1) (byte_at size.w mask.now) k }
{
    let x = k % (size.w + 1);
    if x == size.w {
        return b'\n';
    }
    let y = k / (size.w + 1);
    if mask[y * size.w + x] == 0 {
        b'.'
    } else {
        b'#'
    }
}

// Writes the lines of a mask.
pub fn mask_text(mask: &[u8], size: Size, out: &mut [u8]) -> usize
    requires { (size.w ≤ 64) × (size.h ≤ 64) × (length mask.now ≡ size.w * size.h) × (4160 ≤ length out.old) }
    ensures { (take result out.new ≡ mask_text size.w size.h mask.now)
        × (result ≤ length out.new) }
{
    let n = size.h * (size.w + 1);
    for k in 0..n {
        out[k] = byte_at(mask, size, k);
    }
    n
}
