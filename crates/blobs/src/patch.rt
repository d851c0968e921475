// The record of a patch: begun, grown by a pixel, and its numbers in the flat list.
ghost use Rattle.std.specs.Prelude.{◌≡◌, ◌+◌, ◌*◌, ◌≤◌, ◌<◌, ◌^◌, length};
ghost use Rattle.blobs.specs.Patches.{record_length, patch_at, stored};
ghost use Rattle.blobs.specs.Stack.{grow, no_blob};

use super::{Blob, RECORD_LENGTH};

// The record with one pixel more, s of whose sides count.
pub fn grow(b: Blob, x: u64, y: u64, s: u64) -> Blob
    requires { (b.area + 1 < 2 ^ 64) × (b.sx + x < 2 ^ 64) × (b.sy + y < 2 ^ 64)
        × (b.outline + s < 2 ^ 64) }
    ensures { result ≡ grow b x y s }
{
    Blob {
        area: b.area + 1,
        sx: b.sx + x,
        sy: b.sy + y,
        x0: b.x0.min(x),
        y0: b.y0.min(y),
        x1: b.x1.max(x),
        y1: b.y1.max(y),
        outline: b.outline + s,
    }
}

// A record that counts no pixel, with the box of the pixel a.
pub fn no_blob(w: usize, a: usize) -> Blob
    requires { 0 < w }
    ensures { result ≡ no_blob w a }
{
    let x = (a % w) as u64;
    let y = (a / w) as u64;
    Blob {
        area: 0,
        sx: 0,
        sy: 0,
        x0: x,
        y0: y,
        x1: x,
        y1: y,
        outline: 0,
    }
}

// Writes record j.
pub fn store(patches: &mut [u64], j: usize, b: Blob)
    requires { record_length * (j + 1) ≤ length patches.old }
    ensures { patches.new ≡ stored patches.old j b }
{
    let i = RECORD_LENGTH * j;
    patches[i] = b.area;
    patches[i + 1] = b.sx;
    patches[i + 2] = b.sy;
    patches[i + 3] = b.x0;
    patches[i + 4] = b.y0;
    patches[i + 5] = b.x1;
    patches[i + 6] = b.y1;
    patches[i + 7] = b.outline;
}

// Reads record j.
pub fn blob_at(patches: &[u64], j: usize) -> Blob
    requires { record_length * (j + 1) ≤ length patches.now }
    ensures { result ≡ patch_at patches.now j }
{
    let i = RECORD_LENGTH * j;
    Blob {
        area: patches[i],
        sx: patches[i + 1],
        sy: patches[i + 2],
        x0: patches[i + 3],
        y0: patches[i + 4],
        x1: patches[i + 5],
        y1: patches[i + 6],
        outline: patches[i + 7],
    }
}
