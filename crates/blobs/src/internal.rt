// Labelling on areas that are long enough. The layers above call `label`.
ghost use Rattle.std.specs.Prelude.{◌≡◌, [], ◌+◌, ◌*◌, ◌/◌, ◌≤◌, ◌<◌, length, drop};
ghost use Rattle.base.specs.Loops.{table, turns};
ghost use Rattle.blobs.specs.Patches.{PatchOf, record_length, patch_at};
ghost use Rattle.blobs.specs.Stack.{flooding, flood, scanned, scan, unmarked};
ghost use Rattle.blobs.specs.Ready.{Ready, Sized};
ghost use Rattle.blobs.specs.Areas.{patch_areas};
ghost use Rattle.blobs.specs.Labels.{Labels};

use super::outline::sides;
pub use super::patch::blob_at;
use super::patch::{grow, no_blob, store};
use super::visit::spread;
use super::{Blob, Labelled};

// A flood's patch, and the most pixels that waited.
#[derive(Clone, Copy)]
pub struct Flooded {
    pub blob: Blob,
    pub waited: usize,
}

// Marks the patch of the pixel a, and measures it.
fn flood(mask: &[u8], seen: &mut [u8], waiting: &mut [u32], w: usize, a: usize) -> Flooded
    requires { Ready mask.now w seen.old a × (length waiting.old ≡ length mask.now) }
    ensures waited_after { flooding seen.new [] result.blob result.waited ≡ flood mask.now w a
        seen.old }
    ensures patch_of { PatchOf mask.now w a result.blob }
{
    let mut blob = no_blob(w, a);
    seen[a] = 1;
    waiting[0] = a as u32;
    let mut top: usize = 1;
    let mut waited: usize = 1;
    while top > 0 {
        let low = top - 1;
        let p = waiting[low] as usize;
        let x = p % w;
        let y = p / w;
        let s = sides(mask, w, p, x);
        blob = grow(blob, x as u64, y as u64, s);
        top = spread(mask, seen, waiting, low, w, p, x);
        waited = waited.max(top);
    }
    Flooded { blob, waited }
}

// The scan's step at the pixel i: a dark pixel that is not yet marked starts a patch.
fn scan(
    mask: &[u8],
    w: usize,
    h: usize,
    seen: &mut [u8],
    waiting: &mut [u32],
    patches: &mut [u64],
    i: usize,
    c: Labelled,
) -> Labelled
    requires sized { Sized mask.now w h × (length waiting.old ≡ length mask.now)
        × (record_length * ((length mask.now + 1) / 2) ≤ length patches.old) × (i < length mask.now) }
    requires waited_value { scanned seen.old (table (patch_at patches.old) c.patches) c.waited
        ≡ turns i (scan mask.now w) (unmarked mask.now) }
    ensures waited_after { scanned seen.new (table (patch_at patches.new) result.patches) result.waited
        ≡ scan mask.now w i (scanned seen.old (table (patch_at patches.old)
        c.patches) c.waited) }
    ensures patches_le_patches { (c.patches ≤ result.patches) × (drop (record_length * result.patches) patches.new
        ≡ drop (record_length * result.patches) patches.old) }
{
    if mask[i] == 0 || seen[i] != 0 {
        return c;
    }
    let f = flood(mask, seen, waiting, w, i);
    store(patches, c.patches, f.blob);
    Labelled {
        patches: c.patches + 1,
        waited: c.waited.max(f.waited),
    }
}

// Labels the patches, on marks and a waiting list as long as the mask.
fn label_exact(
    mask: &[u8],
    w: usize,
    h: usize,
    seen: &mut [u8],
    waiting: &mut [u32],
    patches: &mut [u64],
) -> Labelled
    requires { Sized mask.now w h × (length seen.old ≡ w * h) × (length waiting.old ≡ w * h)
        × (record_length * ((w * h + 1) / 2) ≤ length patches.old) }
    ensures { Labels mask.now w h
        (patch_areas seen.old waiting.old patches.old)
        (patch_areas seen.new waiting.new patches.new) result.patches result.waited }
{
    seen.fill(0);
    let mut c = Labelled {
        patches: 0,
        waited: 0,
    };
    for i in 0..mask.len() {
        c = scan(mask, w, h, seen, waiting, patches, i, c);
    }
    c
}

// Labels the patches of a mask of w by h pixels. What the areas held before does not matter, and
// what lies past their lengths stays.
pub fn label(
    mask: &[u8],
    w: usize,
    h: usize,
    seen: &mut [u8],
    waiting: &mut [u32],
    patches: &mut [u64],
) -> Labelled
    requires { Sized mask.now w h × (w * h ≤ length seen.old) × (w * h ≤ length waiting.old)
        × (record_length * ((w * h + 1) / 2) ≤ length patches.old) }
    ensures { Labels mask.now w h
        (patch_areas seen.old waiting.old patches.old)
        (patch_areas seen.new waiting.new patches.new) result.patches result.waited }
{
    let n = w * h;
    label_exact(mask, w, h, &mut seen[..n], &mut waiting[..n], patches)
}
