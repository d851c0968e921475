// What the crates above call with tested arguments.
ghost use Rattle.std.specs.Prelude.{◌≡◌, length};
ghost use Rattle.view.specs.Views.{picture};
ghost use Rattle.fit.specs.Promises.{sampled_cells};
ghost use Rattle.search.specs.Stages as spec;
ghost use Rattle.search.specs.Turn as state;

use crate::{Outcome, Search, Stage, Trial, stages};
use fit::internal::{fitted, grade};
use frame::{CheckedFrame, Quad};
use view::RgbImage;

// The trial of a lens term.
#[tactic(auto, unfolding(crate::specs::Turn::trial_of, fit::specs::Fits::fitted_for, fit::specs::Fits::unfitted))]
fn trial(capture: RgbImage, frame: CheckedFrame, quad: Quad, k: f64, means: &mut [f64]) -> Trial
    requires { length means.old ≡ sampled_cells frame.spec }
    ensures { result ≡ state.trial_of (picture capture.entry) frame.spec quad k }
{
    let fitted = fitted(capture.w, capture.h, frame, quad, k);
    let outcome = match fitted.verdict {
        Ok(()) => Outcome::Graded(grade(capture, frame, fitted.fit, means)),
        Err(_) => Outcome::NoHomography,
    };
    Trial {
        outcome,
        fit: fitted.fit,
    }
}

// The search before its first trial.
pub fn begin() -> Search
    ensures { result ≡ state.beginning }
{
    Search {
        number: 0,
        entry: 0,
        center: 0.0,
        stage: stages::begun(0, 0),
        ended: false,
    }
}

// One trial more, unless the search has ended.
#[tactic(auto, using(crate::proofs::Cases::staged_trial), unfolding(crate::specs::Turn::turn_of))]
pub fn turn(
    capture: RgbImage,
    frame: CheckedFrame,
    quad: Quad,
    search: Search,
    means: &mut [f64],
) -> Search
    requires { state.Counting search × (length means.old ≡ sampled_cells frame.spec) }
    ensures { result ≡ state.turn_of (picture capture.entry) frame.spec quad search }
{
    if search.ended {
        return search;
    }
    let k = stages::k_at(search.number, search.center, search.entry);
    let counted = stages::fresh(search.number, search.center, search.entry);
    let trial = trial(capture, frame, quad, k, means);
    stages::advance(search, stages::keep(trial, counted, search.stage))
}

// What a search has kept and counted.
pub fn result(search: Search) -> Stage
    ensures { result ≡ search.stage }
{
    search.stage
}

// The lens search: turns until it ends.
pub fn search(capture: RgbImage, frame: CheckedFrame, quad: Quad, means: &mut [f64]) -> Stage
    requires { length means.old ≡ sampled_cells frame.spec }
    ensures { result ≡ spec.searched (picture capture.entry) frame.spec quad }
{
    let mut s = begin();
    while !s.ended {
        s = turn(capture, frame, quad, s, means);
    }
    result(s)
}
