// An answer's lines, on standard output.
use crate::file::Sizes;
use blobs::RECORD_LENGTH;
use console::Console;
use fiducials::Places;
use fit::{GeometryFit, Grade};
use fit_geometry::PictureFit;
use frame::Refusal;
use geometry::Rectified;
use search::{Outcome, Stage};

// A word, numbers after it, and the line's end.
fn line(console: &mut Console, word: &[u8], numbers: &[u64]) {
    console.text(word);
    for n in numbers {
        console.text(b" ");
        console.decimal(*n);
    }
    console.text(b"\n");
}

// A word, and floats after it by their bits.
fn floats(console: &mut Console, word: &[u8], l: &[f64]) {
    console.text(word);
    for x in l {
        console.text(b" ");
        console.hex(vectors::bits(*x), 16);
    }
}

pub(crate) fn head(console: &mut Console, capture: usize, s: Sizes) {
    line(console, b"capture", &[capture as u64]);
    line(console, b"sides", &[s.w as u64, s.h as u64]);
    let f = s.frame;
    let numbers = [
        f.width as u64,
        f.height as u64,
        f.cell as u64,
        f.margin as u64,
    ];
    line(console, b"frame", &numbers);
}

// The rest of the block, as far as the answer of `rectify` goes.
pub(crate) fn answer(
    console: &mut Console,
    rectified: Rectified,
    s: Sizes,
    mask: &[u8],
    patches: &[u64],
    candidates: &[f64],
    blob_index: &[u32],
    canonical: &[u8],
) {
    let r = rectified.picture;
    let number = number_of(r.places);
    line(console, b"refusal", &[number]);
    if 0 < number && number < 7 {
        return;
    }
    first(console, b"mask", mask, s.pixels);
    patch_list(console, patches, r.counts.patches, r.counts.waited);
    candidate_list(console, candidates, blob_index, r.counts.candidates);
    if let Ok(places) = r.places {
        flat(console, places, r.stage);
        first(console, b"canonical", canonical, s.bytes);
        line(console, b"beyond", &[rectified.beyond as u64]);
    }
}

// The answer of `fit_geometry`.
pub(crate) fn fitted(console: &mut Console, r: PictureFit) {
    match r.places {
        Ok(places) => flat(console, places, r.stage),
        Err(_) => line(console, b"no fit", &[number_of(r.places)]),
    }
}

// A refusal's number, 0 of an acceptance.
fn number_of(places: Result<Places, Refusal>) -> u64 {
    match places {
        Ok(_) => 0,
        Err(refusal) => u64::from(refusal.number()),
    }
}

// A word, and the sum of the first n bytes.
fn first(console: &mut Console, word: &[u8], b: &[u8], n: usize) {
    let end = n.min(b.len());
    line(console, word, &[vectors::sum::of(&b[..end])]);
}

// The n patches, and the most pixels that waited.
fn patch_list(console: &mut Console, patches: &[u64], n: usize, waited: usize) {
    let end = RECORD_LENGTH * n.min(patches.len() / RECORD_LENGTH);
    let records = [n as u64, vectors::sum::of(&patches[..end])];
    line(console, b"patches", &records);
    line(console, b"waited", &[waited as u64]);
}

// The k candidates.
fn candidate_list(console: &mut Console, candidates: &[f64], blob_index: &[u32], k: usize) {
    line(console, b"candidates", &[k as u64]);
    for (record, place) in candidates.chunks_exact(4).zip(blob_index).take(k) {
        candidate(console, record, *place);
    }
}

fn candidate(console: &mut Console, record: &[f64], place: u32) {
    if let [x, rest @ ..] = record {
        console.hex(vectors::bits(*x), 16);
        floats(console, b"", rest);
        line(console, b"", &[u64::from(place)]);
    }
}

// Corners, fit and counts.
fn flat(console: &mut Console, p: Places, stage: Stage) {
    let corners = [p.tl as u64, p.tr as u64, p.br as u64, p.bl as u64];
    line(console, b"corners", &corners);
    geometry(console, stage.fit);
    kept(console, stage.kept);
    let counts = [stage.tried as u64, stage.homographies as u64];
    line(console, b"trials", &counts);
}

fn geometry(console: &mut Console, fit: GeometryFit) {
    floats(console, b"matrix", &fit.h.m);
    let lens = fit.radial;
    floats(console, b"\nlens", &[lens.k, lens.cx, lens.cy, lens.norm]);
    line(console, b"", &[]);
}

fn kept(console: &mut Console, outcome: Outcome) {
    match outcome {
        Outcome::NoHomography => line(console, b"grade none", &[]),
        Outcome::Graded(g) => grade(console, g),
    }
}

fn grade(console: &mut Console, g: Grade) {
    match g {
        Grade::Score(s) => {
            floats(console, b"grade scored", &[s]);
            line(console, b"", &[]);
        }
        Grade::Outside(cell) => line(console, b"grade outside", &[cell as u64]),
        Grade::TooFew => line(console, b"grade few", &[]),
    }
}
