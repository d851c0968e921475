// Runs fit_for and grid_score on outside vectors, the original's own answers:
// host/vectors/src/bin/fit.rs says what stdin and stdout hold, and how to make them again.
#![tactic(auto)]

ghost use Rattle.std.specs.Prelude.{◌+◌, ◌≤◌, length};

use console::Console;
use fit::{Fitted, GeometryFit, Grade};
use frame::{FrameSpec, Point, Quad, Refusal};
use homography::Homography;
use radial::Radial;
use std::io;

// A record at a time, to the end of stdin.
fn main(rt: HostRuntime) -> io::Result<()> {
    let mut console = Console::new(rt);
    let mut capture = [0u8; 8192];
    for _ in 0..10000usize {
        let mut record = [0u8; 192];
        let n = console.read_full(&mut record);
        if n < 192 {
            break;
        }
        answer(&mut console, &record, &mut capture);
    }
    console.finish()
}

fn answer(console: &mut Console, b: &[u8], capture: &mut [u8; 8192]) {
    match vectors::word(b, 0) {
        0 => print_fitted(console, fit_at(b)),
        1 => print_score(console, score_at(b, capture)),
        _ => load(console, b, capture),
    }
}

// ---- arguments

fn size_at(b: &[u8], i: usize) -> usize {
    vectors::word(b, i) as usize
}

fn float_at(b: &[u8], i: usize) -> f64 {
    vectors::double(vectors::word(b, i))
}

fn point_at(b: &[u8], i: usize) -> Point
    requires { i ≤ 100 }
{
    Point {
        x: float_at(b, i),
        y: float_at(b, i + 1),
    }
}

fn frame_at(b: &[u8]) -> FrameSpec {
    FrameSpec {
        width: size_at(b, 3),
        height: size_at(b, 4),
        cell: size_at(b, 5),
        margin: size_at(b, 6),
    }
}

fn matrix_at(b: &[u8]) -> Homography {
    let mut m = [0.0; 9];
    for i in 0..9 {
        m[i] = float_at(b, 7 + i);
    }
    Homography { m }
}

fn geometry_at(b: &[u8]) -> GeometryFit {
    GeometryFit {
        h: matrix_at(b),
        radial: Radial {
            k: float_at(b, 16),
            cx: float_at(b, 17),
            cy: float_at(b, 18),
            norm: float_at(b, 19),
        },
    }
}

// The capture is read from behind the record.
fn load(console: &mut Console, b: &[u8], capture: &mut [u8]) {
    let n = size_at(b, 1);
    if n <= capture.len() {
        console.read_full(&mut capture[..n]);
    }
}

// ---- the calls

fn fit_at(b: &[u8]) -> Fitted {
    let points = Quad {
        tl: point_at(b, 7),
        tr: point_at(b, 9),
        br: point_at(b, 11),
        bl: point_at(b, 13),
    };
    fit::fit_for(
        size_at(b, 1),
        size_at(b, 2),
        frame_at(b),
        points,
        float_at(b, 15),
    )
}

fn score_at(b: &[u8], capture: &[u8]) -> Result<Grade, Refusal> {
    let mut means = [0.0; 1024];
    let bytes = size_at(b, 20);
    let n = size_at(b, 21);
    if bytes > capture.len() {
        return Err(Refusal::CaptureWrong);
    }
    if n > 1024 {
        return Err(Refusal::AreaShort);
    }
    fit::grid_score(
        &capture[..bytes],
        size_at(b, 1),
        size_at(b, 2),
        frame_at(b),
        geometry_at(b),
        &mut means[..n],
    )
}

// ---- answers

// Writes w as 16 hexadecimal digits, on a line.
fn print_word(console: &mut Console, w: u64) {
    let line = vectors::hex_line(w);
    console.text(&line);
}

fn print_float(console: &mut Console, x: f64) {
    print_word(console, vectors::bits(x));
}

fn print_geometry(console: &mut Console, fit: GeometryFit) {
    for x in fit.h.m {
        print_float(console, x);
    }
    let lens = fit.radial;
    print_float(console, lens.k);
    print_float(console, lens.cx);
    print_float(console, lens.cy);
    print_float(console, lens.norm);
}

fn print_refusal(console: &mut Console, refusal: Refusal) {
    print_word(console, refusal.number() as u64);
}

fn print_fitted(console: &mut Console, answer: Fitted) {
    match answer.verdict {
        Ok(()) => {
            print_word(console, 0);
            print_geometry(console, answer.fit);
        }
        Err(refusal) => print_refusal(console, refusal),
    }
}

// The original has one float: outside and too few are its −∞.
fn print_score(console: &mut Console, answer: Result<Grade, Refusal>) {
    match answer {
        Ok(grade) => {
            print_word(console, 0);
            print_grade(console, grade);
        }
        Err(refusal) => print_refusal(console, refusal),
    }
}

fn print_grade(console: &mut Console, g: Grade) {
    match g {
        Grade::Score(s) => {
            print_float(console, s);
            print_word(console, 0);
        }
        Grade::Outside(cell) => {
            print_float(console, f64::NEG_INFINITY);
            print_word(console, 1);
            print_word(console, cell as u64);
        }
        Grade::TooFew => {
            print_float(console, f64::NEG_INFINITY);
            print_word(console, 2);
        }
    }
}
