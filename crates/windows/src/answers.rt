// The answers: three numbers a rectangle.
ghost use Rattle.std.specs.Prelude.{◌≡◌, ◌++◌, ◌*◌, ◌+◌, ◌≤◌, length, drop, slice_index_or};
ghost use Rattle.base.specs.Loops.{joined};
ghost use Rattle.windows.specs.Windows.{window_length, patch_number, patch_of, window_numbers, window_at};
ghost use Rattle.windows.specs.Steps.{no_tally, window_in};

use super::tally::Tally;
use super::{NO_PATCH, WINDOW_LENGTH, Window};

// The number that stands for a patch in an answer.
fn patch_number(patch: Option<usize>) -> u64
    ensures { result ≡ patch_number patch }
{
    match patch {
        Some(j) => j as u64,
        None => NO_PATCH,
    }
}

fn put_window(area: &mut [u64], window: Window)
    requires { length area.old ≡ window_length }
    ensures { area.new ≡ window_numbers window }
{
    area.copy_from_slice(&[
        window.count,
        patch_number(window.first),
        patch_number(window.nearest),
    ]);
}

// The answers of these tallies, from the start of the area.
pub fn put_windows(tallies: &[Tally], answers: &mut [u64])
    requires { window_length * length tallies.now ≤ length answers.old }
    ensures { answers.new
        ≡ joined (λ i. window_numbers (window_in (slice_index_or tallies.now i no_tally))) (length tallies.now)
        ++ drop (window_length * length tallies.now) answers.old }
{
    for (i, tally) in tallies.iter().enumerate() {
        let at = WINDOW_LENGTH * i;
        put_window(&mut answers[at..at + WINDOW_LENGTH], tally.window());
    }
}

// The patch that a number of an answer names.
fn patch_of(v: u64) -> Option<usize>
    ensures { result ≡ patch_of v }
{
    if v == NO_PATCH {
        return None;
    }
    Some(v as usize)
}

// Answer i of an area.
pub fn window_at(answers: &[u64], i: usize) -> Window
    requires { window_length * (i + 1) ≤ length answers.now }
    ensures { result ≡ window_at answers.now i }
{
    let at = WINDOW_LENGTH * i;
    Window {
        count: answers[at],
        first: patch_of(answers[at + 1]),
        nearest: patch_of(answers[at + 2]),
    }
}
