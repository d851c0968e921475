// Labels each mask of standard input, and prints a line for it: width, height, how many patches it
// has, and the most pixels that waited. The expected output is the original's, with its own stack
// counted: host/vectors/src/bin/blobs.rs says what stdin holds, and how to make both again.
#![tactic(auto)]

ghost use Rattle.std.specs.Prelude.{◌≤◌};

use blobs::Labelled;
use console::Console;
use frame::Refusal;
use std::io;

// The areas of a mask of 64 by 64 pixels. They are lent: a struct that holds arrays is built beside
// them and copied.
#[derive(Drop)]
struct Areas<'a> {
    seen: &'a mut [u8],
    waiting: &'a mut [u32],
    patches: &'a mut [u64],
}

fn main(rt: HostRuntime) -> io::Result<()> {
    let mut console = Console::new(rt);
    let mut input = [0u8; 65536];
    let n = console.read_full(&mut input);
    label_all(&mut console, &input[..n]);
    console.finish()
}

// The areas are not cleared between two masks.
fn label_all(console: &mut Console, input: &[u8]) {
    let mut areas = Areas {
        seen: &mut [9; 4096],
        waiting: &mut [9; 4096],
        patches: &mut [9; 16384],
    };
    let mut rest = input;
    while 16 <= rest.len() {
        let w = vectors::word(rest, 0) as usize;
        let h = vectors::word(rest, 1) as usize;
        let end = (16 + pixels(w, h)).min(rest.len());
        label(console, &rest[16..end], w, h, &mut areas);
        rest = &rest[end..];
    }
}

// w·h, and 0 where a side is above 64.
fn pixels(w: usize, h: usize) -> usize
    ensures { result ≤ 4096 }
{
    if w > 64 || h > 64 { 0 } else { w * h }
}

fn label(console: &mut Console, mask: &[u8], w: usize, h: usize, areas: &mut Areas) {
    let answer = blobs::label_blobs(mask, w, h, areas.seen, areas.waiting, areas.patches);
    print(console, w);
    console.text(b" ");
    print(console, h);
    match answer {
        Ok(labelled) => found(console, labelled),
        Err(refusal) => refused(console, refusal),
    }
    console.text(b"\n");
}

fn found(console: &mut Console, labelled: Labelled) {
    console.text(b" ");
    print(console, labelled.patches);
    console.text(b" ");
    print(console, labelled.waited);
}

fn refused(console: &mut Console, refusal: Refusal) {
    console.text(b" refused ");
    console.decimal(refusal.number() as u64);
}

fn print(console: &mut Console, n: usize) {
    console.decimal(n as u64);
}
