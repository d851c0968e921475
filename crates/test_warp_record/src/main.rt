// Lays small cards out under book records, on outside vectors: each call of stdin is made, and its
// answer and all that the canonical image then holds are printed. The expected output is the
// original's `warp_with`, of the records' thirteen numbers: host/vectors/src/bin/warp_record.rs says
// what stdin and stdout hold, and how to make them again.
#![tactic(auto)]

use book::FitRecord;
use console::Console;
use frame::{FrameSpec, Refusal};
use std::io;

// A call at a time, to the end of stdin.
fn main(rt: HostRuntime) -> io::Result<()> {
    let mut console = Console::new(rt);
    let mut capture = [0u8; 1024];
    let mut canonical = [0u8; 1024];
    for _ in 0..1000usize {
        let mut head = [0u8; 176];
        let n = console.read_full(&mut head);
        if n < 176 {
            break;
        }
        call(&mut console, &head, &mut capture, &mut canonical);
    }
    console.finish()
}

// The call that 22 words describe, on as much of the areas as it is lent.
fn call(console: &mut Console, head: &[u8], capture: &mut [u8], canonical: &mut [u8]) {
    let bytes = size_at(head, 2).min(capture.len());
    let room = size_at(head, 8).min(canonical.len());
    answer(console, head, &mut capture[..bytes], &mut canonical[..room]);
}

fn answer(console: &mut Console, head: &[u8], capture: &mut [u8], canonical: &mut [u8]) {
    console.read_full(capture);
    cover(canonical);
    let frame = FrameSpec {
        width: size_at(head, 3),
        height: size_at(head, 4),
        cell: size_at(head, 5),
        margin: size_at(head, 6),
    };
    let beyond = geometry::warp_record(
        capture,
        size_at(head, 0),
        size_at(head, 1),
        frame,
        kept_in(head),
        canonical,
    );
    print(console, beyond);
    bytes(console, canonical);
}

fn size_at(head: &[u8], i: usize) -> usize {
    vectors::word(head, i) as usize
}

// The record of grade and patterns; its key changes nothing.
fn kept_in(head: &[u8]) -> FitRecord {
    let mut numbers = [0u64; 13];
    for (i, pattern) in numbers.iter_mut().enumerate() {
        *pattern = vectors::word(head, 9 + i);
    }
    FitRecord {
        panel: 7,
        camera: 3,
        grade: (vectors::word(head, 7) % 0x1_0000_0000) as u32,
        numbers,
    }
}

// What the canonical image holds before a call.
fn cover(canonical: &mut [u8]) {
    for (i, byte) in canonical.iter_mut().enumerate() {
        *byte = (i % 251) as u8;
    }
}

fn print(console: &mut Console, beyond: Result<usize, Refusal>) {
    match beyond {
        Ok(beyond) => {
            console.text(b"accepted ");
            console.decimal(beyond as u64);
        }
        Err(refusal) => {
            console.text(b"refused ");
            console.decimal(u64::from(refusal.number()));
        }
    }
}

fn bytes(console: &mut Console, b: &[u8]) {
    console.text(b" ");
    for byte in b {
        console.hex(u64::from(*byte), 2);
    }
    console.text(b"\n");
}
