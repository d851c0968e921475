// Runs the lens search on outside vectors, over four points that are handed in:
// host/vectors/src/bin/search.rs says what stdin and stdout hold, and how to make them again.
#![tactic(auto)]

ghost use Rattle.std.specs.Prelude.{◌+◌, ◌≤◌};

use console::Console;
use fit::internal::sampled_cells;
use fit::{GeometryFit, Grade};
use frame::{CheckedFrame, FrameSpec, Point, Quad, Refusal};
use search::internal::search;
use search::{Outcome, Stage};
use std::io;
use view::RgbImage;

// A record at a time, to the end of stdin. The means are not cleared between two records.
fn main(rt: HostRuntime) -> io::Result<()> {
    let mut console = Console::new(rt);
    let mut capture = [0u8; 49152];
    let mut means = [0.0; 1024];
    for _ in 0..1000usize {
        let mut record = [0u8; 128];
        let n = console.read_full(&mut record);
        if n < 128 {
            break;
        }
        load(&mut console, &record, &mut capture);
        answer(&mut console, &record, &capture, &mut means);
    }
    console.finish()
}

// Reads the capture behind the record; none keeps the one before.
fn load(console: &mut Console, b: &[u8], capture: &mut [u8]) {
    let n = size_at(b, 0).min(capture.len());
    console.read_full(&mut capture[..n]);
}

fn answer(console: &mut Console, b: &[u8], capture: &[u8], means: &mut [f64]) {
    let n = size_at(b, 1).min(capture.len());
    let searched = searched(
        &capture[..n],
        size_at(b, 2),
        size_at(b, 3),
        frame_at(b),
        quad_at(b),
        means,
    );
    match searched {
        Ok(stage) => print_stage(console, stage),
        Err(refusal) => print_refusal(console, refusal),
    }
}

// The search, past the tests that its callers make.
fn searched(
    capture: &[u8],
    w: usize,
    h: usize,
    frame: FrameSpec,
    quad: Quad,
    means: &mut [f64],
) -> Result<Stage, Refusal> {
    let frame = CheckedFrame::new(frame)?;
    let capture = RgbImage::new(capture, w, h)?;
    let n = sampled_cells(frame);
    if means.len() < n {
        return Err(Refusal::AreaShort);
    }
    Ok(search(capture, frame, quad, &mut means[..n]))
}

// ---- arguments

fn size_at(b: &[u8], i: usize) -> usize {
    vectors::word(b, i) as usize
}

fn point_at(b: &[u8], i: usize) -> Point
    requires { i ≤ 100 }
{
    Point {
        x: vectors::double(vectors::word(b, i)),
        y: vectors::double(vectors::word(b, i + 1)),
    }
}

fn frame_at(b: &[u8]) -> FrameSpec {
    FrameSpec {
        width: size_at(b, 4),
        height: size_at(b, 5),
        cell: size_at(b, 6),
        margin: size_at(b, 7),
    }
}

fn quad_at(b: &[u8]) -> Quad {
    Quad {
        tl: point_at(b, 8),
        tr: point_at(b, 10),
        br: point_at(b, 12),
        bl: point_at(b, 14),
    }
}

// ---- answers

// Writes w as 16 hexadecimal digits, on a line.
fn print_word(console: &mut Console, w: u64) {
    let line = vectors::hex_line(w);
    console.text(&line);
}

fn print_float(console: &mut Console, x: f64) {
    print_word(console, vectors::bits(x));
}

fn print_refusal(console: &mut Console, refusal: Refusal) {
    print_word(console, u64::from(refusal.number()));
}

fn print_stage(console: &mut Console, s: Stage) {
    match s.kept {
        Outcome::NoHomography => {
            print_refusal(console, Refusal::NoHomography);
            print_counts(console, s.tried, s.homographies);
        }
        Outcome::Graded(g) => {
            print_word(console, 0);
            print_counts(console, s.tried, s.homographies);
            print_fit(console, s.fit);
            print_grade(console, g);
        }
    }
}

fn print_counts(console: &mut Console, tried: usize, homographies: usize) {
    print_word(console, tried as u64);
    print_word(console, homographies as u64);
}

fn print_fit(console: &mut Console, fit: GeometryFit) {
    for x in fit.h.m {
        print_float(console, x);
    }
    let lens = fit.radial;
    print_float(console, lens.k);
    print_float(console, lens.cx);
    print_float(console, lens.cy);
    print_float(console, lens.norm);
}

// The original has one float: outside and too few are its −∞.
fn print_grade(console: &mut Console, g: Grade) {
    match g {
        Grade::Score(s) => {
            print_float(console, s);
            print_word(console, 0);
        }
        Grade::Outside(cell) => {
            print_float(console, -1.0 / 0.0);
            print_word(console, 1);
            print_word(console, cell as u64);
        }
        Grade::TooFew => {
            print_float(console, -1.0 / 0.0);
            print_word(console, 2);
        }
    }
}
