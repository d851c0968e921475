// The ring rule and the list of candidates.
#![tactic(auto)]

ghost use Rattle.std.specs.Prelude.{◌≡◌};
ghost use Rattle.frame.specs.Image.{image};
ghost use Rattle.frame.specs.Refusals.{number_of};
ghost use Rattle.candidates.specs.Areas.{lengths_of};
ghost use Rattle.candidates.specs.Lent.{areas_of, SameAreas};
ghost use Rattle.candidates.specs.Promises.{counts_of, Listing};

use frame::{FrameSpec, Point, Refusal};
use internal::{look, tested};

mod bullseye;
mod constants;
pub mod internal;
mod list;
mod planes;
mod ring_rule;
mod tests;

// Least share of the probes that must agree.
pub const VERIFY_THRESHOLD: f64 = 0.78;

// A patch that passed the ring rule; blob_index is its place in the patch list.
#[derive(Clone, Copy)]
pub struct Candidate {
    pub center: Point,
    pub score: f64,
    pub size: f64,
    pub blob_index: usize,
}

// What the ring rule says of a patch that passes.
#[derive(Clone, Copy)]
pub struct Ring {
    pub center: Point,
    pub score: f64,
    pub size: f64,
}

// A place to look at, and whether it should be dark.
#[derive(Clone, Copy)]
pub struct Probe {
    pub x: f64,
    pub y: f64,
    pub dark: bool,
}

// What the probes found: how many agreed, how many were made, and of those that should be dark and
// of the others the sum of the luma and the number.
#[derive(Clone, Copy)]
pub struct Tally {
    pub hits: u32,
    pub made: u32,
    pub dark_sum: f64,
    pub darks: u32,
    pub light_sum: f64,
    pub lights: u32,
}

// The lengths of the work areas, in entries.
#[derive(Clone, Copy)]
pub struct Lengths {
    pub luma: usize,
    pub integral: usize,
    pub mask: usize,
    pub seen: usize,
    pub waiting: usize,
    pub patches: usize,
    pub candidates: usize,
    pub blob_index: usize,
}

// The areas that are lent for a look at a picture.
#[derive(Drop)]
pub struct WorkAreas<'a> {
    pub luma: &'a mut [f32],
    pub integral: &'a mut [f64],
    pub mask: &'a mut [u8],
    pub seen: &'a mut [u8],
    pub waiting: &'a mut [u32],
    pub patches: &'a mut [u64],
    pub candidates: &'a mut [f64],
    pub blob_index: &'a mut [u32],
}

impl<'a> WorkAreas<'a> {
    pub fn lengths(&self) -> Lengths
        ensures { result ≡ lengths_of (areas_of self.now) }
    {
        Lengths {
            luma: self.luma.len(),
            integral: self.integral.len(),
            mask: self.mask.len(),
            seen: self.seen.len(),
            waiting: self.waiting.len(),
            patches: self.patches.len(),
            candidates: self.candidates.len(),
            blob_index: self.blob_index.len(),
        }
    }
}

// How many records the lists hold, and the most pixels that waited.
#[derive(Clone, Copy, Default)]
pub struct Counts {
    pub patches: usize,
    pub candidates: usize,
    pub waited: usize,
}

// Every bullseye-shaped patch in the picture.
pub fn fiducial_candidates(
    capture: &[u8],
    w: usize,
    h: usize,
    frame: FrameSpec,
    work: &mut WorkAreas,
) -> Result<Counts, Refusal>
    ensures listing { let counts = counts_of result in
        Listing (image w h capture.now) frame (areas_of work.old) (areas_of work.new)
        (number_of result) counts.patches counts.candidates counts.waited }
    ensures same { SameAreas work.new work.old }
{
    let (capture, frame) = tested(capture, w, h, frame, work.lengths())?;
    Ok(look(capture, frame, work))
}
