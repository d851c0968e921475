// The ring rule: shape, score, and the centre and size of a patch that passes.
ghost use Rattle.std.specs.Prelude.{◌≡◌, ◌^◌, ◌≤◌, ◌<◌};
ghost use Rattle.candidates.specs.Ring.{shaped, center, size_of};
ghost use Rattle.candidates.specs.Bounds.{BlobHeld};
ghost use Rattle.candidates.specs.OverPlanes.{PatchIn, ring_in};

use super::bullseye::verify_bullseye;
use super::planes::Planes;
use super::{Ring, VERIFY_THRESHOLD};
use blobs::Blob;
use frame::Point;

// Area, sides, aspect and fill keep their bounds.
fn shaped(w: usize, h: usize, b: Blob) -> bool
    requires sides { (w ≤ 4096) × (h ≤ 4096) }
    requires patch { BlobHeld w h b }
    ensures { result ≡ shaped w h b }
{
    let bw = b.x1 - b.x0 + 1;
    let bh = b.y1 - b.y0 + 1;
    let most = (w.min(h) / 4) as u64;
    let aspect = (bw as f64) / (bh as f64);
    let fill = (b.area as f64) / ((bw as f64) * (bh as f64));
    let sides = (32 <= b.area) & ((10 <= bw) & (bw <= most)) & ((10 <= bh) & (bh <= most));
    sides & ((0.5 <= aspect) & (aspect <= 2.0)) & ((0.20 <= fill) & (fill <= 0.85))
}

// A patch's centre: its pixels' mean place, from pixel numbers to pixel centres.
fn center(b: Blob) -> Point
    requires { (b.area ≤ 2 ^ 53) × (b.sx ≤ 2 ^ 53) × (b.sy ≤ 2 ^ 53) }
    ensures { result ≡ center b }
{
    let area = b.area as f64;
    Point {
        x: (b.sx as f64) / area + 0.5,
        y: (b.sy as f64) / area + 0.5,
    }
}

// Half the sum of the box sides.
fn size(b: Blob) -> f64
    requires { (b.x0 ≤ b.x1) × (b.x1 < 4096) × (b.y0 ≤ b.y1) × (b.y1 < 4096) }
    ensures { result ≡ size_of b }
{
    ((b.x1 - b.x0 + 1) as f64 + (b.y1 - b.y0 + 1) as f64) / 2.0
}

// The ring rule: centre, score and size of a patch that passes.
pub fn candidate_of(planes: Planes, blob: Blob) -> Option<Ring>
    requires { PatchIn planes blob }
    ensures { result ≡ ring_in planes.entry blob }
{
    if !shaped(planes.w, planes.h, blob) {
        return None;
    }
    let score = verify_bullseye(planes, blob);
    if VERIFY_THRESHOLD <= score {
        Some(Ring {
            center: center(blob),
            score,
            size: size(blob),
        })
    } else {
        None
    }
}
