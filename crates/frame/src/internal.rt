// What the crates above need and the requirements do not call public: pixels, tests of limits, and
// the functions behind the public ones.
ghost use Rattle.std.specs.Prelude.{◌≡◌, ℕ, ◌+◌, ◌*◌, ◌-◌, ◌^◌, ◌≤◌, ◌<◌, List, length};
ghost use Rattle.frame.specs.Image.{image, px, with_pixel, with_rect, outside};
ghost use Rattle.frame.specs.Frame.{cell_x, cell_y};
ghost use Rattle.frame.specs.Refusals.{side, cell_held, frame_outside, sides_wrong, capture_wrong, capture_small};

use super::{CheckedFrame, FrameSpec, Rgb};

// ---- tests

// A side is from 1 to 4,096.
fn side(n: usize) -> bool
    ensures { result ≡ side n }
{
    (1 <= n) & (n <= 4096)
}

// A cell is from 1 to 512.
pub fn cell_held(n: usize) -> bool
    ensures { result ≡ cell_held n }
{
    (1 <= n) & (n <= 512)
}

// Refusal 1.
pub fn frame_outside(frame: FrameSpec) -> bool
    ensures { result ≡ frame_outside frame }
{
    !(side(frame.width) & side(frame.height) & cell_held(frame.cell) & (frame.margin <= 4096))
}

// Refusal 2 of lone sides.
pub fn sides_wrong(w: usize, h: usize) -> bool
    ensures { result ≡ sides_wrong w h }
{
    !(side(w) & side(h))
}

// Refusal 2 of a capture.
pub fn capture_wrong(bytes: &[u8], w: usize, h: usize) -> bool
    ensures { result ≡ capture_wrong (image w h bytes.now) }
{
    if sides_wrong(w, h) {
        return true;
    }
    bytes.len() != 3 * w * h
}

// Refusal 6.
pub fn capture_small(w: usize, h: usize) -> bool
    ensures { (l : List ℕ) → result ≡ capture_small (image w h l) }
{
    (w < 32) | (h < 32)
}

// ---- the frame's cells

// The Rust's pair (x, y) of a cell's top left pixel.
#[derive(Clone, Copy)]
pub struct Origin {
    pub x: usize,
    pub y: usize,
}

pub fn cell_origin(frame: CheckedFrame, col: usize, row: usize) -> Origin
    requires { (col ≤ 4096) × (row ≤ 4096) }
    ensures { (result.x ≡ cell_x frame.spec col) × (result.y ≡ cell_y frame.spec row) }
{
    let spec = frame.spec;
    Origin {
        x: spec.margin + col * spec.cell,
        y: spec.margin + row * spec.cell,
    }
}

// ---- pixels

pub fn px(bytes: &[u8], w: usize, h: usize, x: usize, y: usize) -> Rgb
    requires { (x < w) × (y < h) × (w ≤ 4096) × (h ≤ 4096) × (length bytes.now ≡ 3 * w * h) }
    ensures { result ≡ px (image w h bytes.now) x y }
{
    let i = (y * w + x) * 3;
    Rgb {
        r: bytes[i],
        g: bytes[i + 1],
        b: bytes[i + 2],
    }
}

pub fn set(bytes: &mut [u8], w: usize, h: usize, x: usize, y: usize, c: Rgb)
    requires { (x < w) × (y < h) × (w ≤ 4096) × (h ≤ 4096) × (length bytes.old ≡ 3 * w * h) }
    ensures { bytes.new ≡ with_pixel (image w h bytes.old) x y c }
{
    let i = (y * w + x) * 3;
    bytes[i] = c.r;
    bytes[i + 1] = c.g;
    bytes[i + 2] = c.b;
}

// Columns x0 to x1 - 1 of row y.
fn fill_row(bytes: &mut [u8], w: usize, h: usize, x0: usize, x1: usize, y: usize, c: Rgb)
    requires { (x1 ≤ w) × (y < h) × (w ≤ 4096) × (h ≤ 4096) × (length bytes.old ≡ 3 * w * h) }
    ensures { bytes.new ≡ with_rect (image w h bytes.old) x0 y (x1 - x0) 1 c }
{
    for x in x0..x1 {
        set(bytes, w, h, x, y, c);
    }
}

// Clipped to the picture.
pub fn fill_rect(
    bytes: &mut [u8],
    w: usize,
    h: usize,
    x0: usize,
    y0: usize,
    width: usize,
    height: usize,
    c: Rgb,
)
    requires { (x0 + width < 2 ^ 64) × (y0 + height < 2 ^ 64) × (w ≤ 4096) × (h ≤ 4096) × (length bytes.old
        ≡ 3 * w * h) }
    ensures { bytes.new ≡ with_rect (image w h bytes.old) x0 y0 width height c }
{
    let x1 = (x0 + width).min(w);
    let y1 = (y0 + height).min(h);
    for y in y0..y1 {
        fill_row(bytes, w, h, x0, x1, y, c);
    }
}

// The place (x, y) is outside the picture; a NaN compares false.
pub fn outside(w: usize, h: usize, x: f64, y: f64) -> bool
    requires { (w ≤ 4096) × (h ≤ 4096) }
    ensures { result ≡ outside w h x y }
{
    (x < 0.0) | (y < 0.0) | (x >= w as f64) | (y >= h as f64)
}
