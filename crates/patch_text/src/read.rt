// A mask as text.
ghost use Rattle.std.specs.Prelude.{◌≡◌, ℕ, ◌+◌, ◌*◌, ◌≤◌, ◌<◌, length};
ghost use Rattle.base.specs.Loops.{every, filled};
ghost use Rattle.patch_text.specs.Steps.{FirstFeed, closed_length, placed, placed_at, pixel_of};
ghost use Rattle.patch_text.specs.Steps.{pixel_at, Measured};

// The sides of a mask.
#[derive(Clone, Copy)]
pub struct Size {
    pub w: usize,
    pub h: usize,
}

// The place of the first line feed, or the length where there is none.
pub fn line_length(text: &[u8]) -> usize
    ensures { FirstFeed text.now result }
{
    for (i, byte) in text.iter().enumerate() {
        if *byte == b'\n' {
            return i;
        }
    }
    text.len()
}

// The length of a text with its last line feed, which it may lack.
fn closed_length(text: &[u8]) -> usize
    requires { 1 ≤ length text.now }
    ensures { result ≡ closed_length text.now }
{
    let n = text.len();
    if text[n - 1] == b'\n' { n } else { n + 1 }
}

// Whether a byte may stand in column x: a line feed in column w, `#` or `.` elsewhere.
fn placed(w: usize, x: usize, byte: u8) -> bool
    ensures { result ≡ placed w x byte }
{
    if x == w {
        return byte == b'\n';
    }
    (byte == b'#') | (byte == b'.')
}

// Whether each byte may stand where it does, in lines of w letters.
fn lettered(text: &[u8], w: usize) -> bool
    requires { w ≤ 64 }
    ensures { result ≡ every (length text.now) (placed_at text.now w) }
{
    for (k, byte) in text.iter().enumerate() {
        if !placed(w, k % (w + 1), *byte) {
            return false;
        }
    }
    true
}

// The size of the mask that a text is, if it is one.
pub fn mask_size(text: &[u8]) -> Option<Size>
    ensures { Measured text.now result }
{
    let w = line_length(text);
    if w == 0 || w > 64 {
        return None;
    }
    let whole = closed_length(text);
    let h = whole / (w + 1);
    if whole % (w + 1) != 0 || h > 64 || !lettered(text, w) {
        return None;
    }
    Some(Size { w, h })
}

// 1 for `#`.
fn pixel(byte: u8) -> u8
    ensures { result ≡ pixel_of byte }
{
    if byte == b'#' { 1 } else { 0 }
}

// The mask that a text is.
pub fn fill(text: &[u8], size: Size, mask: &mut [u8])
    requires { (1 ≤ size.w) × (size.w ≤ 64) × (size.h ≤ 64) × (size.h * (size.w + 1) ≤ length text.now + 1)
        × (size.w * size.h ≤ length mask.old) }
    ensures { mask.new ≡ filled (pixel_at text.now size.w) (size.w * size.h) mask.old }
{
    let Size { w, h } = size;
    for i in 0..w * h {
        mask[i] = pixel(text[i / w * (w + 1) + i % w]);
    }
}
