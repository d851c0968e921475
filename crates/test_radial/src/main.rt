// Runs the functions of radial on outside vectors, the original's own answers:
// host/vectors/src/bin/radial.rs says what stdin and stdout hold, and how to make them again.
#![tactic(auto)]

use console::Console;
use frame::{Point, Refusal};
use radial::Radial;
use std::io;

// A record at a time, to the end of stdin.
fn main(rt: HostRuntime) -> io::Result<()> {
    let mut console = Console::new(rt);
    for _ in 0..10000usize {
        let mut record = [0u8; 56];
        let n = console.read_full(&mut record);
        if n < 56 {
            break;
        }
        answer(&mut console, &record);
    }
    console.finish()
}

fn answer(console: &mut Console, b: &[u8]) {
    match vectors::word(b, 0) {
        0 => print_lens(console, lens_at(b)),
        1 => print_point(console, radial_at(b).distort(point_at(b))),
        _ => print_point(console, radial_at(b).undistort(point_at(b))),
    }
}

// ---- arguments

fn float_at(b: &[u8], i: usize) -> f64 {
    vectors::double(vectors::word(b, i))
}

fn lens_at(b: &[u8]) -> Result<Radial, Refusal> {
    let w = vectors::word(b, 1) as usize;
    let h = vectors::word(b, 2) as usize;
    Radial::new(w, h, float_at(b, 3))
}

fn radial_at(b: &[u8]) -> Radial {
    let k = float_at(b, 1);
    let cx = float_at(b, 2);
    let cy = float_at(b, 3);
    let norm = float_at(b, 4);
    Radial { k, cx, cy, norm }
}

fn point_at(b: &[u8]) -> Point {
    let x = float_at(b, 5);
    let y = float_at(b, 6);
    Point { x, y }
}

// ---- answers

fn print_float(console: &mut Console, x: f64) {
    print_word(console, vectors::bits(x));
}

fn print_point(console: &mut Console, p: Point) {
    print_float(console, p.x);
    print_float(console, p.y);
}

// The refusal's number alone, or 0 and the lens.
fn print_lens(console: &mut Console, answer: Result<Radial, Refusal>) {
    match answer {
        Ok(lens) => {
            print_word(console, 0);
            print_float(console, lens.k);
            print_float(console, lens.cx);
            print_float(console, lens.cy);
            print_float(console, lens.norm);
        }
        Err(refusal) => print_word(console, refusal.number() as u64),
    }
}

// Writes w as 16 hexadecimal digits, on a line.
fn print_word(console: &mut Console, w: u64) {
    let line = vectors::hex_line(w);
    console.text(&line);
}
