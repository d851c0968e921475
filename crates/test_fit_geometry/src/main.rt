// Runs fit_geometry on outside vectors, the original's own answers: host/vectors/src/bin/fit.rs
// says what stdin and stdout hold, and how to make them again.
#![tactic(auto)]

use candidates::WorkAreas;
use console::Console;
use fiducials::Places;
use fit::{GeometryFit, Grade};
use fit_geometry::PictureFit;
use frame::{FrameSpec, Refusal};
use search::Outcome;
use std::io;

// A record at a time, to the end of stdin. The areas are those of a capture of 200 by 200, and are
// not cleared between two records.
fn main(rt: HostRuntime) -> io::Result<()> {
    let mut console = Console::new(rt);
    let mut capture = [0u8; 120000];
    let mut luma = [0.0f32; 40000];
    let mut integral = [0.0; 40401];
    let mut mask = [0u8; 40000];
    let mut seen = [0u8; 40000];
    let mut waiting = [0u32; 40000];
    let mut patches = [0u64; 160000];
    let mut candidates = [0.0; 5000];
    let mut blob_index = [0u32; 1250];
    let mut means = [0.0; 2048];
    for _ in 0..1000usize {
        let mut record = [0u8; 64];
        let n = console.read_full(&mut record);
        if n < 64 {
            break;
        }
        load(&mut console, &record, &mut capture);
        answer(
            &mut console,
            &record,
            &capture,
            &mut luma,
            &mut integral,
            &mut mask,
            &mut seen,
            &mut waiting,
            &mut patches,
            &mut candidates,
            &mut blob_index,
            &mut means,
        );
    }
    console.finish()
}

// Reads the capture behind the record.
fn load(console: &mut Console, b: &[u8], capture: &mut [u8]) {
    let bytes = size_at(b, 6).min(capture.len());
    console.read_full(&mut capture[..bytes]);
}

// Fits, and prints the answer.
fn answer(
    console: &mut Console,
    b: &[u8],
    capture: &[u8],
    luma: &mut [f32; 40000],
    integral: &mut [f64; 40401],
    mask: &mut [u8; 40000],
    seen: &mut [u8; 40000],
    waiting: &mut [u32; 40000],
    patches: &mut [u64; 160000],
    candidates: &mut [f64; 5000],
    blob_index: &mut [u32; 1250],
    means: &mut [f64],
) {
    let bytes = size_at(b, 6).min(capture.len());
    let cells = size_at(b, 7).min(means.len());
    let mut work = WorkAreas {
        luma,
        integral,
        mask,
        seen,
        waiting,
        patches,
        candidates,
        blob_index,
    };
    let r = fit_geometry::fit_geometry(
        &capture[..bytes],
        size_at(b, 0),
        size_at(b, 1),
        frame_at(b),
        &mut work,
        &mut means[..cells],
    );
    print(console, r);
}

// ---- arguments

fn size_at(b: &[u8], i: usize) -> usize {
    vectors::word(b, i) as usize
}

fn frame_at(b: &[u8]) -> FrameSpec {
    FrameSpec {
        width: size_at(b, 2),
        height: size_at(b, 3),
        cell: size_at(b, 4),
        margin: size_at(b, 5),
    }
}

// ---- answers

fn print_word(console: &mut Console, w: u64) {
    let line = vectors::hex_line(w);
    console.text(&line);
}

fn print_float(console: &mut Console, x: f64) {
    print_word(console, vectors::bits(x));
}

fn print(console: &mut Console, r: PictureFit) {
    match r.places {
        Ok(places) => {
            print_word(console, 0);
            print_counts(console, r.counts.patches, r.counts.candidates);
            print_places(console, places);
            print_fit(console, r.stage.fit);
            print_kept(console, r.stage.kept);
            print_counts(console, r.stage.tried, r.stage.homographies);
        }
        Err(refusal) => {
            print_word(console, u64::from(refusal.number()));
            if refusal == Refusal::FewCandidates {
                print_counts(console, r.counts.patches, r.counts.candidates);
            }
        }
    }
}

fn print_counts(console: &mut Console, a: usize, b: usize) {
    print_word(console, a as u64);
    print_word(console, b as u64);
}

fn print_places(console: &mut Console, p: Places) {
    print_counts(console, p.tl, p.tr);
    print_counts(console, p.br, p.bl);
}

fn print_fit(console: &mut Console, fit: GeometryFit) {
    for x in fit.h.m {
        print_float(console, x);
    }
    let lens = fit.radial;
    print_float(console, lens.k);
    print_float(console, lens.cx);
    print_float(console, lens.cy);
    print_float(console, lens.norm);
}

fn print_kept(console: &mut Console, o: Outcome) {
    match o {
        Outcome::NoHomography => print_word(console, 1),
        Outcome::Graded(g) => print_grade(console, g),
    }
}

// The original's float, in which outside and too few are −∞; then the grade, and an outside one's cell.
fn print_grade(console: &mut Console, g: Grade) {
    match g {
        Grade::Score(s) => {
            print_float(console, s);
            print_word(console, 0);
        }
        Grade::Outside(cell) => {
            print_float(console, -1.0 / 0.0);
            print_counts(console, 1, cell);
        }
        Grade::TooFew => {
            print_float(console, -1.0 / 0.0);
            print_word(console, 2);
        }
    }
}
