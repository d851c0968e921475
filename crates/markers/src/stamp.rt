// Painting the markers: sixteen squares, a later one over an earlier one.
ghost use Rattle.std.specs.Prelude.{◌≡◌, ◌*◌, ◌-◌, ◌≤◌, length};
ghost use Rattle.float.specs.Floats.{◌⊕◌};
ghost use Rattle.frame.specs.Image.{image, with_rect};
ghost use Rattle.markers.specs.Stamp.{end, bullseye, bullseyes, with_squares};

use super::MARKER_UNITS;
use frame::{BLACK, Quad, Rgb, WHITE};

// The column or row at which a side ends.
fn end(t: f64) -> usize
    ensures { result ≡ end t }
{
    float::to_usize(float::max(float::round(t), 0.0))
}

pub fn fill(bytes: &mut [u8], w: usize, h: usize, x: f64, y: f64, width: f64, height: f64, c: Rgb)
    requires { (w ≤ 4096) × (h ≤ 4096) × (length bytes.old ≡ 3 * w * h) }
    ensures { bytes.new ≡ with_rect (image w h bytes.old) (end x) (end y) (end (x ⊕ width)
        - end x) (end (y ⊕ height) - end y) c }
{
    let x0 = end(x);
    let y0 = end(y);
    let x1 = end(x + width);
    let y1 = end(y + height);
    frame::internal::fill_rect(
        bytes,
        w,
        h,
        x0,
        y0,
        x1.saturating_sub(x0),
        y1.saturating_sub(y0),
        c,
    );
}

// One marker of side m at (x, y): white out to its quiet zone q, then black ring, white ring and
// black dot.
fn stamp_marker(bytes: &mut [u8], w: usize, h: usize, m: f64, q: f64, x: f64, y: f64)
    requires { (w ≤ 4096) × (h ≤ 4096) × (length bytes.old ≡ 3 * w * h) }
    ensures { bytes.new ≡ with_squares (bullseye m q x y) (image w h bytes.old) }
{
    let u = m / MARKER_UNITS;
    fill(bytes, w, h, x - q, y - q, m + 2.0 * q, m + 2.0 * q, WHITE);
    fill(bytes, w, h, x, y, m, m, BLACK);
    fill(bytes, w, h, x + u, y + u, 4.0 * u, 4.0 * u, WHITE);
    fill(
        bytes,
        w,
        h,
        x + 2.0 * u,
        y + 2.0 * u,
        2.0 * u,
        2.0 * u,
        BLACK,
    );
}

// The four markers, TL, TR, BR, BL.
pub fn stamp_markers(bytes: &mut [u8], w: usize, h: usize, m: f64, q: f64, o: Quad)
    requires { (w ≤ 4096) × (h ≤ 4096) × (length bytes.old ≡ 3 * w * h) }
    ensures { bytes.new ≡ with_squares (bullseyes m q o) (image w h bytes.old) }
{
    stamp_marker(bytes, w, h, m, q, o.tl.x, o.tl.y);
    stamp_marker(bytes, w, h, m, q, o.tr.x, o.tr.y);
    stamp_marker(bytes, w, h, m, q, o.br.x, o.br.y);
    stamp_marker(bytes, w, h, m, q, o.bl.x, o.bl.y);
}
