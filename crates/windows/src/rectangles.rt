// Rectangles: handed in as four numbers, or the box of a patch; their test, whether two share a
// pixel, and how far their centres are apart.
ghost use Rattle.std.specs.Prelude.{◌≡◌, ◌*◌, ◌+◌, ◌≤◌, ◌<◌, length};
ghost use Rattle.blobs.specs.Patches.{record_length};
ghost use Rattle.windows.specs.Rectangles.{rectangle_length, rectangle_at, box_at, Valid, valid};
ghost use Rattle.windows.specs.Rectangles.{every_rectangle, touches, distance};

use super::{RECTANGLE_LENGTH, Rectangle};
use blobs::internal::blob_at;

// No end of a rectangle lies above it: a capture's last column and row are at most 4,095.
const LAST: u64 = 4095;

// Rectangle i of those handed in.
pub fn rectangle_at(windows: &[u64], i: usize) -> Rectangle
    requires { rectangle_length * (i + 1) ≤ length windows.now }
    ensures { result ≡ rectangle_at windows.now i }
{
    let at = RECTANGLE_LENGTH * i;
    Rectangle {
        x0: windows[at],
        y0: windows[at + 1],
        x1: windows[at + 2],
        y1: windows[at + 3],
    }
}

// The box of patch j.
pub fn box_at(patches: &[u64], j: usize) -> Rectangle
    requires { record_length * (j + 1) ≤ length patches.now }
    ensures { result ≡ box_at patches.now j }
{
    let b = blob_at(patches, j);
    Rectangle {
        x0: b.x0,
        y0: b.y0,
        x1: b.x1,
        y1: b.y1,
    }
}

// No end comes before its start or lies above 4,095.
pub fn valid(r: Rectangle) -> bool
    ensures { result ≡ valid r }
{
    (r.x0 <= r.x1) & (r.y0 <= r.y1) & (r.x1 <= LAST) & (r.y1 <= LAST)
}

// So it is with each of the first k rectangles.
pub fn every_rectangle(windows: &[u64], k: usize) -> bool
    requires { rectangle_length * k ≤ length windows.now }
    ensures { result ≡ every_rectangle windows.now k }
{
    for i in 0..k {
        if !valid(rectangle_at(windows, i)) {
            return false;
        }
    }
    true
}

// Neither ends before the other starts, in columns and in rows.
pub fn touches(r: Rectangle, b: Rectangle) -> bool
    ensures { result ≡ touches r b }
{
    (b.x0 <= r.x1) & (r.x0 <= b.x1) & (b.y0 <= r.y1) & (r.y0 <= b.y1)
}

// The squared distance of the centres, in doubled whole numbers: x0 + x1 is twice the middle
// column.
pub fn distance(r: Rectangle, b: Rectangle) -> u64
    requires { Valid r × Valid b }
    ensures { result ≡ distance r b }
{
    let dx = (r.x0 + r.x1).abs_diff(b.x0 + b.x1);
    let dy = (r.y0 + r.y1).abs_diff(b.y0 + b.y1);
    dx * dx + dy * dy
}
