// The lens search: geometry.rs, fit_geometry.
#![tactic(auto)]

mod constants;
pub mod internal;
mod stages;

use fit::{GeometryFit, Grade};

// Largest lens term that is considered: below -1/3 the radial polynomial falls again within the
// picture, folds it onto itself and scores high there, and 0.20 covers any real camera.
pub const K_MAX: f64 = 0.20;

// A trial: no homography, or the grade of its fit. An enum of its own and no Option: the
// requirements ask for it.
#[derive(Clone, Copy)]
pub enum Outcome {
    NoHomography,
    Graded(Grade),
}

// One entry of a stage: its outcome, and its fit where it has a homography.
#[derive(Clone, Copy)]
pub struct Trial {
    pub outcome: Outcome,
    pub fit: GeometryFit,
}

// A stage of the lens search: the trial that it keeps, by its outcome and its fit, and the counts
// so far, those of earlier stages included: the different lens terms that each stage tried, and how
// many of them had a homography.
#[derive(Clone, Copy)]
pub struct Stage {
    pub kept: Outcome,
    pub fit: GeometryFit,
    pub tried: usize,
    pub homographies: usize,
}

// The lens search between two trials: the stage's number, the entry to be tried next, the k that
// the stage goes around, and the stage so far. One that has ended keeps all of them.
#[derive(Clone, Copy)]
pub struct Search {
    pub number: usize,
    pub entry: usize,
    pub center: f64,
    pub stage: Stage,
    pub ended: bool,
}
