// Runs the book of fits on outside vectors: each call of stdin is made, and its answer and all that
// its areas then hold are printed, a long area by its ends and a checksum.
// host/vectors/book.py says what stdin and stdout hold, and how to make them again.
#![tactic(auto)]

mod print; // print.rt: answers and areas on lines

use book::internal::{accepted, record_at};
use book::{read_book, record_of, write_book};
use console::Console;
use fit::{GeometryFit, Grade};
use homography::Homography;
use radial::Radial;
use std::io;

// What a call does, by its first word.
#[derive(Clone, Copy)]
enum Kind {
    Read,
    Write,
    Keep,
}

impl From<u64> for Kind {
    fn from(word: u64) -> Kind {
        match word {
            0 => Kind::Read,
            1 => Kind::Write,
            _ => Kind::Keep,
        }
    }
}

// A call at a time, to the end of stdin. The areas hold the longest book.
fn main(rt: HostRuntime) -> io::Result<()> {
    let mut console = Console::new(rt);
    let mut book = [0u8; 65536];
    let mut heads = [0u32; 1640];
    let mut numbers = [0u64; 7100];
    for number in 0..10000usize {
        let mut head = [0u8; 40];
        let n = console.read_full(&mut head);
        if n < 40 {
            break;
        }
        print::labelled(&mut console, b"call ", number as u64);
        call(&mut console, &head, &mut book, &mut heads, &mut numbers);
    }
    console.finish()
}

// The call that five words describe, on as much of the areas as it is lent.
fn call(
    console: &mut Console,
    head: &[u8],
    book: &mut [u8],
    heads: &mut [u32],
    numbers: &mut [u64],
) {
    let room = size_at(head, 2).min(book.len());
    let listed = size_at(head, 3).min(heads.len());
    let held = size_at(head, 4).min(numbers.len());
    answer(
        console,
        head,
        &mut book[..room],
        &mut heads[..listed],
        &mut numbers[..held],
    );
}

fn answer(
    console: &mut Console,
    head: &[u8],
    book: &mut [u8],
    heads: &mut [u32],
    numbers: &mut [u64],
) {
    let kind = Kind::from(vectors::word(head, 0));
    let n = size_at(head, 1);
    console.read_full(book);
    load(console, kind, heads, |word| (word % 0x1_0000_0000) as u32);
    load(console, kind, numbers, |word| word);
    match kind {
        Kind::Read => read(console, book, heads, numbers),
        Kind::Write => write(console, heads, numbers, n, book),
        Kind::Keep => keep(console, heads, numbers, n),
    }
}

// ---- input

fn size_at(b: &[u8], i: usize) -> usize {
    vectors::word(b, i) as usize
}

fn load<T: Copy, F: Fn(u64) -> T>(console: &mut Console, kind: Kind, list: &mut [T], narrow: F)
    requires { F.IsAlwaysCallable narrow }
{
    for (k, entry) in list.iter_mut().enumerate() {
        *entry = narrow(entry_before(console, kind, k));
    }
}

// What entry k of a list is before the call. A list to be read into is not on stdin.
fn entry_before(console: &mut Console, kind: Kind, k: usize) -> u64 {
    match kind {
        Kind::Read => 0xa5a5_a5a5_a5a5_0000 + (k % 0x1_0000) as u64,
        Kind::Write | Kind::Keep => next_word(console),
    }
}

fn next_word(console: &mut Console) -> u64 {
    let mut b = [0u8; 8];
    console.read_full(&mut b);
    vectors::word(&b, 0)
}

// ---- the calls

fn read(console: &mut Console, book: &[u8], heads: &mut [u32], numbers: &mut [u64]) {
    let answer = read_book(book, heads, numbers);
    print::answer(console, answer);
    print::heads(console, heads);
    print::numbers(console, numbers);
    print::alone(console, accepted(book));
    if let Ok(count) = answer {
        again(console, heads, numbers, count, book.len());
    }
}

// The book of what was read, in an area as long as the bytes were.
fn again(console: &mut Console, heads: &[u32], numbers: &[u64], count: usize, length: usize) {
    let mut area = [0xeeu8; 65536];
    let room = length.min(area.len());
    write(console, heads, numbers, count, &mut area[..room]);
}

fn write(console: &mut Console, heads: &[u32], numbers: &[u64], count: usize, book: &mut [u8]) {
    print::answer(console, write_book(heads, numbers, count, book));
    print::book(console, book);
}

// Record j as it stands in the lists, its fit, and the record that keeps the same floats.
fn keep(console: &mut Console, heads: &[u32], numbers: &[u64], j: usize) {
    if heads.len() / 3 <= j {
        return;
    }
    if numbers.len() / 13 <= j {
        return;
    }
    let record = record_at(heads, numbers, j);
    print::record(console, record);
    print::fit(console, record.fit());
    let fit = fit_of(record.numbers);
    print::record(
        console,
        record_of(record.panel, record.camera, grade_of(record.grade), fit),
    );
}

// A grade of this number. What else it holds has no place in a record.
fn grade_of(number: u32) -> Grade {
    match number {
        0 => Grade::Score(1.5),
        1 => Grade::Outside(40),
        _ => Grade::TooFew,
    }
}

// The floats of these patterns, each put into its place by name.
fn fit_of(patterns: [u64; 13]) -> GeometryFit {
    let mut m = [0.0; 9];
    for i in 0..9 {
        m[i] = vectors::double(patterns[i]);
    }
    let radial = Radial {
        k: vectors::double(patterns[9]),
        cx: vectors::double(patterns[10]),
        cy: vectors::double(patterns[11]),
        norm: vectors::double(patterns[12]),
    };
    GeometryFit {
        h: Homography { m },
        radial,
    }
}
