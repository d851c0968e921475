// Answers and areas on lines, on standard output.
use book::FitRecord;
use console::Console;
use fit::GeometryFit;
use frame::Refusal;
use vectors::sum::{self, Number};

pub(crate) fn labelled(console: &mut Console, label: &[u8], number: u64) {
    console.text(label);
    console.decimal(number);
    console.text(b"\n");
}

// Count or length, or what the call is refused for.
pub(crate) fn answer(console: &mut Console, answer: Result<usize, Refusal>) {
    match answer {
        Ok(n) => labelled(console, b"is ", n as u64),
        Err(refusal) => labelled(console, b"refused ", refusal.number() as u64),
    }
}

// What a book is refused for whatever it is read into, and 0 where it is not.
pub(crate) fn alone(console: &mut Console, answer: Result<usize, Refusal>) {
    let number = match answer {
        Ok(_) => 0,
        Err(refusal) => refusal.number(),
    };
    labelled(console, b"bytes ", number as u64);
}

// ---- records and fits

pub(crate) fn record(console: &mut Console, r: FitRecord) {
    heads(console, &[r.panel, r.camera, r.grade]);
    numbers(console, &r.numbers);
}

// The floats of a fit, each taken from its place by name.
pub(crate) fn fit(console: &mut Console, fit: GeometryFit) {
    let lens = fit.radial;
    console.text(b"fit");
    for x in fit.h.m {
        float(console, x);
    }
    for x in [lens.k, lens.cx, lens.cy, lens.norm] {
        float(console, x);
    }
    console.text(b"\n");
}

fn float(console: &mut Console, x: f64) {
    console.text(b" ");
    console.hex(vectors::bits(x), 16);
}

// ---- areas

pub(crate) fn heads(console: &mut Console, l: &[u32]) {
    console.text(b"heads");
    each(console, l, b" ", 8);
    console.text(b"\n");
}

pub(crate) fn numbers(console: &mut Console, l: &[u64]) {
    console.text(b"numbers");
    all_or_ends(console, l, b" ", 16);
    console.text(b"\n");
}

pub(crate) fn book(console: &mut Console, b: &[u8]) {
    console.text(b"book ");
    all_or_ends(console, b, b"", 2);
    console.text(b"\n");
}

// Each entry, or the first and the last of a long list, and the checksum of all of it.
fn all_or_ends<T: Copy + Into<u64> + Number>(
    console: &mut Console,
    l: &[T],
    before: &[u8],
    digits: usize,
) {
    if l.len() < 5000 {
        each(console, l, before, digits);
    } else {
        each(console, &l[..16], before, digits);
        each(console, &l[l.len() - 16..], before, digits);
        console.text(b" ");
        console.decimal(sum::of(l));
    }
}

fn each<T: Copy + Into<u64>>(console: &mut Console, l: &[T], before: &[u8], digits: usize) {
    for x in l {
        console.text(before);
        console.hex((*x).into(), digits);
    }
}
