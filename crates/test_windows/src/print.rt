// An answer's lines, on standard output.
use console::Console;
use frame::Refusal;
use windows::Window;
use windows::internal::window_at;

pub(crate) fn labelled(console: &mut Console, label: &[u8], number: u64) {
    console.text(label);
    console.decimal(number);
    console.text(b"\n");
}

pub(crate) fn accepted(console: &mut Console, answers: &[u64; 256], k: usize) {
    console.text(b"accepted\n");
    each_window(console, answers, k);
    // 86 answers would be longer than the area: nothing is behind them.
    rest(console, answers, 3 * k.min(86));
}

pub(crate) fn refused(console: &mut Console, answers: &[u64; 256], refusal: Refusal) {
    labelled(console, b"refused ", refusal.number() as u64);
    rest(console, answers, 0);
}

// The area holds 85 answers.
fn each_window(console: &mut Console, answers: &[u64; 256], k: usize) {
    for i in 0..k.min(85) {
        one_window(console, window_at(answers, i));
    }
}

fn one_window(console: &mut Console, window: Window) {
    console.decimal(window.count);
    console.text(b" ");
    place_or_dash(console, window.first);
    console.text(b" ");
    place_or_dash(console, window.nearest);
    console.text(b"\n");
}

fn place_or_dash(console: &mut Console, patch: Option<usize>) {
    match patch {
        Some(j) => console.decimal(j as u64),
        None => console.text(b"-"),
    }
}

fn rest(console: &mut Console, answers: &[u64; 256], from: usize) {
    labelled(console, b"rest ", untouched(answers, from));
}

// How many entries from here on still are 9.
fn untouched(answers: &[u64; 256], from: usize) -> u64 {
    answers
        .iter()
        .skip(from)
        .filter(|entry| **entry == 9)
        .count() as u64
}
