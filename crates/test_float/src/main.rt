// Runs each float helper on outside vectors and compares by bit patterns. The vectors are Rust's
// own answers: host/vectors/src/bin/float.rs says what stdin holds, and how to make it again. For
// each helper its name and number of vectors are printed; at the first difference the program
// prints which vector, the arguments, the answer and what it should be, and stops.
#![tactic(auto)]

mod helper; // helper.rt: the float helpers, in the order of the vectors

ghost use Rattle.std.specs.Prelude.{◌≤◌};

use console::Console;
use helper::Helper;
use std::io;

fn main(rt: HostRuntime) -> io::Result<()> {
    let mut console = Console::new(rt);
    let mut buf = [0u8; 65536];
    let n = console.read_full(&mut buf);
    compare_all(&mut console, &buf[..n]);
    console.finish()
}

// The helpers in turn. The first words of b are their numbers of vectors.
fn compare_all(console: &mut Console, b: &[u8]) {
    let helpers = Helper::all();
    let mut at = helpers.len();
    for (i, helper) in helpers.iter().enumerate() {
        let n = vectors::word(b, i);
        let run = compare(b, *helper, at, n);
        console.text(helper.name());
        if run.agree < n {
            print_difference(console, b, *helper, run);
            return;
        }
        console.decimal(n);
        console.text(b"\n");
        at = run.at;
    }
    // a word past the end reads as 0, so the vectors must fill the input exactly
    if at != b.len() / 8 {
        console.text(b"the input has another length\n");
    }
}

// How many vectors agree, and the word where the next one starts.
#[derive(Clone, Copy)]
struct Run {
    agree: u64,
    at: usize,
}

// The helper's n vectors from word `at` on, up to the first that differs or that lies past any
// input.
fn compare(b: &[u8], helper: Helper, mut at: usize, n: u64) -> Run
    ensures { result.agree ≤ n }
{
    let step = helper.words();
    for agree in 0..n {
        if 1000000 < at || helper.answer(b, at) != vectors::word(b, at + step - 1) {
            return Run { agree, at };
        }
        at += step;
    }
    Run { agree: n, at }
}

// The vector that starts at word run.at: its number, its words, and the helper's own answer.
fn print_difference(console: &mut Console, b: &[u8], helper: Helper, run: Run) {
    console.text(b"differs at ");
    console.decimal(run.agree);
    console.text(b"\n");
    if run.at <= 1000000 {
        for k in 0..helper.words() {
            print_word(console, vectors::word(b, run.at + k));
        }
        print_word(console, helper.answer(b, run.at));
    }
}

// Writes w as 16 hexadecimal digits, on a line.
fn print_word(console: &mut Console, w: u64) {
    let line = vectors::hex_line(w);
    console.text(&line);
}
