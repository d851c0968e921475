// Joins books of fits on outside vectors: each call of stdin is made, and its answer and all that
// the target then holds are printed, a long target by its ends and a checksum.
// host/vectors/merge.py says what stdin and stdout hold, and how to make them again.
#![tactic(auto)]

mod print; // print.rt: answers and the target on lines

use console::Console;
use merge::internal::too_long;
use merge::merge_books;
use std::io;

// What a call does, by its first word: the joined length's limit is asked, or books are joined, the
// first with itself or with the second.
#[derive(Clone, Copy)]
enum Kind {
    Limit,
    Itself,
    Both,
}

impl From<u64> for Kind {
    fn from(word: u64) -> Kind {
        match word {
            1 => Kind::Limit,
            2 => Kind::Itself,
            _ => Kind::Both,
        }
    }
}

// A call at a time, to the end of stdin.
fn main(rt: HostRuntime) -> io::Result<()> {
    let mut console = Console::new(rt);
    let mut first = [0u8; 65536];
    let mut second = [0u8; 65536];
    let mut target = [0u8; 65536];
    for number in 0..10000usize {
        let mut head = [0u8; 32];
        let n = console.read_full(&mut head);
        if n < 32 {
            break;
        }
        print::labelled(&mut console, b"call ", number as u64);
        call(&mut console, &head, &mut first, &mut second, &mut target);
    }
    console.finish()
}

// The call that four words describe, on as much of the areas as it is lent.
fn call(
    console: &mut Console,
    head: &[u8],
    first: &mut [u8],
    second: &mut [u8],
    target: &mut [u8],
) {
    let n = size_at(head, 1).min(first.len());
    let m = size_at(head, 2).min(second.len());
    let room = size_at(head, 3).min(target.len());
    let first = &mut first[..n];
    let second = &mut second[..m];
    let target = &mut target[..room];
    match Kind::from(vectors::word(head, 0)) {
        Kind::Limit => print::labelled(console, b"long ", too_long(size_at(head, 1)) as u64),
        Kind::Itself => {
            load(console, first, second, target);
            print::answer(console, merge_books(first, first, target));
            print::target(console, target);
        }
        Kind::Both => {
            load(console, first, second, target);
            print::answer(console, merge_books(first, second, target));
            print::target(console, target);
        }
    }
}

fn size_at(head: &[u8], i: usize) -> usize {
    vectors::word(head, i) as usize
}

// Both books come from stdin, whether the second is joined or not.
fn load(console: &mut Console, first: &mut [u8], second: &mut [u8], target: &mut [u8]) {
    console.read_full(first);
    console.read_full(second);
    fill(target);
}

// Bytes that show which of them the call leaves alone.
fn fill(target: &mut [u8]) {
    for (k, byte) in target.iter_mut().enumerate() {
        *byte = ((7 * (k % 256) + 165) % 256) as u8;
    }
}
