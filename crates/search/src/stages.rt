// The stages of the lens search: their terms, and what a stage keeps.
ghost use Rattle.std.specs.Prelude.{◌≡◌, true, false, ◌+◌, ◌≤◌, ◌<◌};
ghost use Rattle.search.specs.Stages as spec;
ghost use Rattle.search.specs.Turn.{advanced};

use crate::{Outcome, Search, Stage, Trial};
use fit::Grade;
use fit::internal::score_of;

// A trial with this grade takes the place of the kept one: of none, and else only by scoring more.
#[tactic(auto, unfolding(crate::specs::Stages::replaces))]
fn replaces(kept: Outcome, g: Grade) -> bool
    ensures { result ≡ spec.replaces kept g }
{
    match kept {
        Outcome::NoHomography => true,
        Outcome::Graded(b) => score_of(b) < score_of(g),
    }
}

// The stage after one more trial, which adds `counted` to its counts.
#[tactic(auto, unfolding(crate::specs::Stages::staged))]
pub fn keep(trial: Trial, counted: usize, s: Stage) -> Stage
    requires { (counted ≤ 1) × (s.tried < 4294967295) × (s.homographies < 4294967295) }
    ensures { result ≡ spec.staged counted trial.outcome trial.fit s }
{
    let tried = s.tried + counted;
    match trial.outcome {
        Outcome::NoHomography => Stage { tried, ..s },
        Outcome::Graded(g) => {
            let homographies = s.homographies + counted;
            if replaces(s.kept, g) {
                return Stage {
                    kept: trial.outcome,
                    fit: trial.fit,
                    tried,
                    homographies,
                };
            }
            Stage {
                tried,
                homographies,
                ..s
            }
        }
    }
}

// K_STAGES: half span, step and number of entries of a stage.
fn span(number: usize) -> f64
    ensures { result ≡ spec.span number }
{
    match number {
        0 => crate::K_MAX,
        1 => 0.012,
        _ => 0.0015,
    }
}

fn step(number: usize) -> f64
    ensures { result ≡ spec.step number }
{
    match number {
        0 => 0.010,
        1 => 0.0012,
        _ => 0.0002,
    }
}

// Twice the span over the step, rounded, and one.
#[tactic(auto, using(crate::proofs::Entries::stage_lengths))]
fn entries(number: usize) -> usize
    ensures { result ≡ spec.entries number }
{
    match number {
        0 => 41,
        1 => 21,
        _ => 16,
    }
}

// The lens term of an entry.
pub fn k_at(number: usize, center: f64, entry: usize) -> f64
    requires { entry < 41 }
    ensures { result ≡ spec.k_at number center entry }
{
    let k = center - span(number) + step(number) * (entry as f64);
    float::clamp(k, -crate::K_MAX, crate::K_MAX)
}

// What an entry adds to the counts: 1, or 0 where an earlier entry of its stage has the same lens
// term. It is compared with every earlier one, so that nothing has to be known of how rounded sums
// rise.
pub fn fresh(number: usize, center: f64, entry: usize) -> usize
    requires { entry < 41 }
    ensures { (result ≡ spec.fresh number center entry) × (result ≤ 1) }
{
    let k = k_at(number, center, entry);
    for earlier in 0..entry {
        if k_at(number, center, earlier) == k {
            return 0;
        }
    }
    1
}

// A stage that keeps none yet, with the counts of the stages before.
pub fn begun(tried: usize, homographies: usize) -> Stage
    ensures { result ≡ spec.begun tried homographies }
{
    Stage {
        kept: Outcome::NoHomography,
        fit: fit::internal::no_fit(),
        tried,
        homographies,
    }
}

// A stage has kept a trial.
#[tactic(auto, unfolding(crate::specs::Stages::keeps))]
fn keeps(kept: Outcome) -> bool
    ensures { result ≡ spec.keeps kept }
{
    matches!(kept, Outcome::Graded(_))
}

// The search after an entry that left its stage as t.
#[tactic(auto, unfolding(crate::specs::Turn::advanced))]
pub fn advance(s: Search, t: Stage) -> Search
    requires { (s.number < 3) × (s.entry < 41) }
    ensures { result ≡ advanced s t }
{
    if s.entry + 1 < entries(s.number) {
        return Search {
            entry: s.entry + 1,
            stage: t,
            ended: false,
            ..s
        };
    }
    if keeps(t.kept) && s.number < 2 {
        return Search {
            number: s.number + 1,
            entry: 0,
            center: t.fit.radial.k,
            stage: begun(t.tried, t.homographies),
            ended: false,
        };
    }
    Search {
        stage: t,
        ended: true,
        ..s
    }
}
