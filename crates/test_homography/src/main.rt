// Runs the functions of homography on outside vectors, the original's own answers:
// host/vectors/src/bin/homography.rs says what stdin and stdout hold, and how to make them again.
#![tactic(auto)]

ghost use Rattle.std.specs.Prelude.{◌<◌};

use console::Console;
use frame::{Point, Quad};
use homography::{Homography, Mat3, Solved};
use std::io;

// A record at a time, to the end of stdin.
fn main(rt: HostRuntime) -> io::Result<()> {
    let mut console = Console::new(rt);
    for _ in 0..10000usize {
        let mut record = [0u8; 152];
        let n = console.read_full(&mut record);
        if n < 152 {
            break;
        }
        answer(&mut console, &record);
    }
    console.finish()
}

fn answer(console: &mut Console, b: &[u8]) {
    match vectors::word(b, 0) {
        0 => print_solved(console, Homography::from_points(quad(b, 1), quad(b, 9))),
        1 => print_solved(console, homography_at(b).inverse()),
        2 => print_point(console, homography_at(b).apply(point(b, 10))),
        3 => print_matrix(console, homography::mat3_mul(&matrix(b, 1), &matrix(b, 10))),
        _ => print_float(console, homography::rms_error(quad(b, 1), quad(b, 9))),
    }
}

// ---- arguments, from word i on

fn float_at(b: &[u8], i: usize) -> f64 {
    vectors::double(vectors::word(b, i))
}

fn point(b: &[u8], i: usize) -> Point
    requires { i < 20 }
{
    let x = float_at(b, i);
    let y = float_at(b, i + 1);
    Point { x, y }
}

fn quad(b: &[u8], i: usize) -> Quad
    requires { i < 10 }
{
    let tl = point(b, i);
    let tr = point(b, i + 2);
    let br = point(b, i + 4);
    let bl = point(b, i + 6);
    Quad { tl, tr, br, bl }
}

fn matrix(b: &[u8], i: usize) -> Mat3
    requires { i < 20 }
{
    let mut m = [0.0; 9];
    for j in 0..9 {
        m[j] = float_at(b, i + j);
    }
    m
}

fn homography_at(b: &[u8]) -> Homography {
    Homography::from_mat(matrix(b, 1))
}

// ---- answers

fn print_float(console: &mut Console, x: f64) {
    print_word(console, vectors::bits(x));
}

fn print_point(console: &mut Console, p: Point) {
    print_float(console, p.x);
    print_float(console, p.y);
}

fn print_matrix(console: &mut Console, m: Mat3) {
    for x in m {
        print_float(console, x);
    }
}

// The refusal's number, 0 where there is none, and the matrix.
fn print_solved(console: &mut Console, s: Solved) {
    match s.verdict {
        Ok(()) => print_word(console, 0),
        Err(refusal) => print_word(console, refusal.number() as u64),
    }
    print_matrix(console, s.h.m);
}

// Writes w as 16 hexadecimal digits, on a line.
fn print_word(console: &mut Console, w: u64) {
    let line = vectors::hex_line(w);
    console.text(&line);
}
