// The seventeen probes of a bullseye in a patch's box, and the share of them that agree.
ghost use Rattle.std.specs.Prelude.{◌≡◌, cond, [], ◌∷◌, ◌+◌, ◌≤◌, ◌<◌, ltb, length};
ghost use Rattle.std.specs.Bool.{beq};
ghost use Rattle.candidates.specs.Ring.{tallied, arms, share_of};
ghost use Rattle.candidates.specs.Bounds.{Sound};
ghost use Rattle.candidates.specs.OverPlanes.{ProbingIn, PatchIn, score_in};

use super::planes::Planes;
use super::{Probe, Tally};
use blobs::Blob;
use float::{to_usize, widen};
use frame::internal::outside;

// 1 where the mask's entry is as wanted.
fn agrees(entry: u8, dark: bool) -> u32
    ensures value { result ≡ cond (beq (ltb 0 entry) dark) 1 0 }
    ensures at_most_one { result ≤ 1 }
{
    ((0 < entry) == dark) as u32
}

// One probe, made at a pixel with the mask's entry and the luma.
fn tally(entry: u8, luma: f32, dark: bool, t: Tally) -> Tally
    requires sound { Sound t }
    requires few { t.made ≤ 16 }
    ensures { result ≡ tallied entry luma dark t }
{
    let hits = t.hits + agrees(entry, dark);
    let made = t.made + 1;
    let l = widen(luma);
    if dark {
        Tally {
            hits,
            made,
            dark_sum: t.dark_sum + l,
            darks: t.darks + 1,
            ..t
        }
    } else {
        Tally {
            hits,
            made,
            light_sum: t.light_sum + l,
            lights: t.lights + 1,
            ..t
        }
    }
}

// A probe; one outside the picture is skipped.
fn probe(planes: Planes, p: Probe, t: Tally) -> Tally
    requires sound { Sound t }
    requires few { t.made ≤ 16 }
    ensures { ProbingIn planes.entry (p ∷ []) t result }
{
    if outside(planes.w, planes.h, p.x, p.y) {
        return t;
    }
    let i = to_usize(p.y) * planes.w + to_usize(p.x);
    tally(planes.mask[i], planes.luma[i], p.dark, t)
}

// Probes one after the other.
fn probe_all(planes: Planes, probes: &[Probe], mut t: Tally) -> Tally
    requires sound { Sound t }
    requires few { t.made + length probes.now ≤ 17 }
    ensures { ProbingIn planes.entry probes.now t result }
{
    for p in probes {
        t = probe(planes, *p, t);
    }
    t
}

// The four probes at the fraction s of a box's half width.
fn arms(b: Blob, s: f64, dark: bool) -> [Probe; 4]
    requires { (b.x0 ≤ b.x1) × (b.x1 < 4096) × (b.y0 ≤ b.y1) × (b.y1 < 4096) }
    ensures { result ≡ arms b s dark }
{
    let cx = (b.x0 + b.x1) as f64 / 2.0;
    let cy = (b.y0 + b.y1) as f64 / 2.0;
    let dx = s * ((b.x1 - b.x0) as f64 / 2.0);
    let dy = s * ((b.y1 - b.y0) as f64 / 2.0);
    [
        Probe {
            x: cx + dx,
            y: cy,
            dark,
        },
        Probe {
            x: cx - dx,
            y: cy,
            dark,
        },
        Probe {
            x: cx,
            y: cy + dy,
            dark,
        },
        Probe {
            x: cx,
            y: cy - dy,
            dark,
        },
    ]
}

// The share of the probes that agreed, or 0.
fn share(t: Tally) -> f64
    ensures { result ≡ share_of t }
{
    if (t.made < 9) | (t.darks == 0) | (t.lights == 0) {
        return 0.0;
    }
    if t.light_sum / (t.lights as f64) - t.dark_sum / (t.darks as f64) < 30.0 {
        return 0.0;
    }
    t.hits as f64 / t.made as f64
}

// The share of the seventeen probes that agree with a bullseye in the patch's box.
pub fn verify_bullseye(planes: Planes, b: Blob) -> f64
    requires { PatchIn planes b }
    ensures { result ≡ score_in planes.entry b }
{
    let none = Tally {
        hits: 0,
        made: 0,
        dark_sum: 0.0,
        darks: 0,
        light_sum: 0.0,
        lights: 0,
    };
    let center = Probe {
        x: (b.x0 + b.x1) as f64 / 2.0,
        y: (b.y0 + b.y1) as f64 / 2.0,
        dark: true,
    };
    let middle = probe(planes, center, none);
    let dot = probe_all(planes, &arms(b, 0.167, true), middle);
    let white = probe_all(planes, &arms(b, 0.5, false), dot);
    let black = probe_all(planes, &arms(b, 0.833, true), white);
    share(probe_all(planes, &arms(b, 1.167, false), black))
}
