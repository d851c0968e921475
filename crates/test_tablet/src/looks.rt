// The functions that look at the whole capture, each with areas of its own.
use super::print::{all_bytes, bytes, word, words};
use console::Console;

// The areas that each of them is lent.
#[derive(Drop)]
struct Areas {
    luma: [f32; 14337],
    integral: [f64; 14579],
    mask: [u8; 14336],
    seen: [u8; 14340],
    waiting: [u32; 14341],
    patches: [u64; 57350],
    candidates: [f64; 1799],
    blob_index: [u32; 456],
}

impl Areas {
    fn new() -> Areas {
        Areas {
            luma: [0.0; 14337],
            integral: [0.0; 14579],
            mask: [9; 14336],
            seen: [9; 14340],
            waiting: [9; 14341],
            patches: [9; 57350],
            candidates: [0.0; 1799],
            blob_index: [9; 456],
        }
    }

    // Entries by which each is known.
    fn print(&self, console: &mut Console) {
        words(console, &self.luma[1000..1002]);
        words(console, &self.integral[14575..14577]);
        bytes(console, &self.mask, 112);
        bytes(console, &self.seen, 112);
        words(console, &self.patches[..16]);
        words(console, &self.candidates[..16]);
        words(console, &self.blob_index[..4]);
    }
}

pub(crate) fn rectify(console: &mut Console, capture: &[u8; 43008]) {
    let mut areas = Areas::new();
    let mut means = [0.0; 29];
    let mut canonical = [9u8; 119808];
    let mut counts = [9u64; 12];
    let mut fit = [0.0; 14];
    let number = tablet::tablet_rectify(
        capture,
        128,
        112,
        208,
        192,
        8,
        48,
        &mut areas.luma,
        &mut areas.integral,
        &mut areas.mask,
        &mut areas.seen,
        &mut areas.waiting,
        &mut areas.patches,
        &mut areas.candidates,
        &mut areas.blob_index,
        &mut means,
        &mut canonical,
        &mut counts,
        &mut fit,
    );
    word(console, number);
    words(console, &counts);
    words(console, &fit);
    areas.print(console);
    bytes(console, &canonical, 936);
}

pub(crate) fn fit_geometry(console: &mut Console, capture: &[u8; 43008]) {
    let mut areas = Areas::new();
    let mut means = [0.0; 29];
    let mut counts = [9u64; 11];
    let mut fit = [0.0; 14];
    let number = tablet::tablet_fit_geometry(
        capture,
        128,
        112,
        208,
        192,
        8,
        48,
        &mut areas.luma,
        &mut areas.integral,
        &mut areas.mask,
        &mut areas.seen,
        &mut areas.waiting,
        &mut areas.patches,
        &mut areas.candidates,
        &mut areas.blob_index,
        &mut means,
        &mut counts,
        &mut fit,
    );
    word(console, number);
    words(console, &counts);
    words(console, &fit);
    areas.print(console);
}

pub(crate) fn detect_fiducials(console: &mut Console, capture: &[u8; 43008]) -> [f64; 8] {
    let mut areas = Areas::new();
    let mut counts = [9u64; 7];
    let mut points = [0.0; 8];
    let number = tablet::tablet_detect_fiducials(
        capture,
        128,
        112,
        208,
        192,
        8,
        48,
        &mut areas.luma,
        &mut areas.integral,
        &mut areas.mask,
        &mut areas.seen,
        &mut areas.waiting,
        &mut areas.patches,
        &mut areas.candidates,
        &mut areas.blob_index,
        &mut counts,
        &mut points,
    );
    word(console, number);
    words(console, &counts);
    words(console, &points);
    areas.print(console);
    points
}

pub(crate) fn fiducial_candidates(console: &mut Console, capture: &[u8; 43008]) {
    let mut areas = Areas::new();
    let mut counts = [9u64; 3];
    let number = tablet::tablet_fiducial_candidates(
        capture,
        128,
        112,
        208,
        192,
        8,
        48,
        &mut areas.luma,
        &mut areas.integral,
        &mut areas.mask,
        &mut areas.seen,
        &mut areas.waiting,
        &mut areas.patches,
        &mut areas.candidates,
        &mut areas.blob_index,
        &mut counts,
    );
    word(console, number);
    words(console, &counts);
    areas.print(console);
    label_blobs(console, &areas.mask);
    candidate_page(console, &areas.candidates);
}

// The patches of the mask that the call before left.
fn label_blobs(console: &mut Console, mask: &[u8; 14336]) {
    let mut seen = [9u8; 14340];
    let mut waiting = [9u32; 14341];
    let mut patches = [9u64; 57350];
    let mut counts = [9u64; 2];
    let number = tablet::tablet_label_blobs(
        mask,
        128,
        112,
        &mut seen,
        &mut waiting,
        &mut patches,
        &mut counts,
    );
    word(console, number);
    words(console, &counts);
    bytes(console, &seen, 112);
    words(console, &patches[..16]);
}

// The page of the candidates that the call before left, in an area that is longer.
fn candidate_page(console: &mut Console, candidates: &[f64; 1799]) {
    let mut page = [9u8; 224];
    word(
        console,
        tablet::tablet_candidate_page(candidates, 4, &mut page),
    );
    all_bytes(console, &page);
}
