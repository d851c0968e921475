// Asks each question of standard input which patches of a list rectangles touch, and prints of it:
// where it has a mask, `patches N`, how many label_blobs finds; `accepted` or `refused N`; where
// accepted, a line `count first nearest` for each rectangle, `-` for no patch; and `rest M`, how
// many entries of the answer area behind the answers still are 9. The expected output comes from
// host/vectors/src/bin/windows.rs, which says what stdin holds. Areas are not cleared between two
// questions, but for the answers.
#![tactic(auto)]

mod print; // print.rt: an answer's lines

ghost use Rattle.std.specs.Prelude.{◌≤◌};

use console::Console;
use frame::Refusal;
use std::io;

// The areas of a mask of 64 by 64 pixels, and more than the 64 rectangles and answers of a call, so
// that too many can be asked for.
#[derive(Drop)]
struct Areas {
    seen: [u8; 4096],
    waiting: [u32; 4096],
    patches: [u64; 16384],
    windows: [u64; 512],
    answers: [u64; 256],
}

fn main(rt: HostRuntime) -> io::Result<()> {
    let mut console = Console::new(rt);
    let mut input = [0u8; 65536];
    let n = console.read_full(&mut input);
    ask_all(&mut console, &input[..n]);
    console.finish()
}

// A question is seven words, the mask or the list, and the rectangles. Where the input ends early
// the last question has what is left of it.
fn ask_all(console: &mut Console, input: &[u8]) {
    let mut areas = Areas {
        seen: [9; 4096],
        waiting: [9; 4096],
        patches: [9; 16384],
        windows: [9; 512],
        answers: [9; 256],
    };
    let mut rest = input;
    while 56 <= rest.len() {
        let head = &rest[..56];
        let listed = (56 + list_bytes(head)).min(rest.len());
        let end = (listed + 8 * held(head, 4, 512)).min(rest.len());
        ask(
            console,
            head,
            &rest[56..listed],
            &rest[listed..end],
            &mut areas,
        );
        rest = &rest[end..];
    }
}

// ---- input

fn size_at(head: &[u8], i: usize) -> usize {
    vectors::word(head, i) as usize
}

// Word i, and no more than an area holds.
fn held(head: &[u8], i: usize, most: usize) -> usize
    ensures { result ≤ most }
{
    size_at(head, i).min(most)
}

// How long the mask is, or the list where the width is 0.
fn list_bytes(head: &[u8]) -> usize
    ensures { result ≤ 131072 }
{
    let w = size_at(head, 0);
    if w == 0 {
        return 8 * held(head, 2, 16384);
    }
    pixels(w, size_at(head, 1))
}

// w·h, and 0 where a side is above 64.
fn pixels(w: usize, h: usize) -> usize
    ensures { result ≤ 4096 }
{
    if w > 64 || h > 64 { 0 } else { w * h }
}

// The patches of the mask, or the list as it is handed in.
fn load_list(console: &mut Console, head: &[u8], list: &[u8], areas: &mut Areas) {
    let w = size_at(head, 0);
    if w == 0 {
        load(list, &mut areas.patches);
        return;
    }
    let answer = blobs::label_blobs(
        list,
        w,
        size_at(head, 1),
        &mut areas.seen,
        &mut areas.waiting,
        &mut areas.patches,
    );
    let patches = match answer {
        Ok(labelled) => labelled.patches,
        Err(_) => 0,
    };
    print::labelled(console, b"patches ", patches as u64);
}

// As many words as there are and the area holds, at its start.
fn load(words: &[u8], area: &mut [u64]) {
    let n = (words.len() / 8).min(area.len());
    for i in 0..n {
        area[i] = vectors::word(words, i);
    }
}

// ---- a question

fn ask(console: &mut Console, head: &[u8], list: &[u8], rectangles: &[u8], areas: &mut Areas) {
    load_list(console, head, list, areas);
    load(rectangles, &mut areas.windows);
    // A number that shows which entries the call leaves alone.
    areas.answers = [9; 256];
    match call(head, &areas.patches, &areas.windows, &mut areas.answers) {
        Ok(()) => print::accepted(console, &areas.answers, size_at(head, 5)),
        Err(refusal) => print::refused(console, &areas.answers, refusal),
    }
}

// The call that seven words describe, on as much of the areas as it is lent.
fn call(head: &[u8], patches: &[u64], windows: &[u64], answers: &mut [u64]) -> Result<(), Refusal> {
    let listed = held(head, 2, patches.len());
    let drawn = held(head, 4, windows.len());
    let room = held(head, 6, answers.len());
    windows::patch_windows(
        &patches[..listed],
        size_at(head, 3),
        &windows[..drawn],
        size_at(head, 5),
        &mut answers[..room],
    )
}
