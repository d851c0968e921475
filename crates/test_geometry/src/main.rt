// The whole path on stored captures: each of data/ is rectified, and its answer printed. The
// expected output is the original's answers: host/comparison/src/bin/captures.rs says what captures
// and answers hold, and makes them again (`captures all DIR`).
//   0, 1      the incident: a panel behind a grating, more than 256 patches before the lower right
//             ring's; the same without that ring
//   2 to 4    one accepted under a frame of 192 by 192, one refused by 7, one by 9
//   5 to 55   a sample of every kind, 27 of them accepted
//   56, 57    refused by 16: a kept trial with cells outside the picture, of which the first by row
//             is neither the first by column nor the last
//   58        refused by 16: too few cells
//   59, 60    one picture, by a frame with 15 sampled cells, and by one with 16: refused by 16, and
//             accepted
//   61 to 64  accepted, near the end of the lens terms' range: 61 different terms tried, with k =
//             0.20 kept; 67; 68; 77, of which the second stage alone repeats one
// After 16 the rest of the block is the answer of `fit_geometry`, which takes such a capture.
#![tactic(auto)]

mod file; // file.rt: a capture file
mod print; // print.rt: an answer's lines

use candidates::WorkAreas;
use console::Console;
use frame::Refusal;
use std::io;

fn main(rt: HostRuntime) -> io::Result<()> {
    let mut console = Console::new(rt);
    answer_all(&rt, &mut console, 65)?;
    console.finish()
}

// Rectifies the captures 0.cap, 1.cap .. of the folder that the program is run in, and prints each
// answer. The areas are those of a capture of 200 by 200 pixels under a frame of 600 by 600, and
// are not cleared between two captures.
fn answer_all(rt: &HostRuntime, console: &mut Console, count: usize) -> io::Result<()> {
    let mut head = [0u8; 48];
    let mut capture = [0u8; 120001];
    let mut luma = [0.0f32; 40000];
    let mut integral = [0.0; 40401];
    let mut mask = [0u8; 40000];
    let mut seen = [0u8; 40000];
    let mut waiting = [0u32; 40000];
    let mut patches = [0u64; 160000];
    let mut candidates = [0.0; 5000];
    let mut blob_index = [0u32; 1250];
    let mut means = [0.0; 2048];
    let mut canonical = [0u8; 1080000];
    for number in 0..count {
        let n = file::read(rt, number, &mut head, &mut capture)?;
        answer(
            console,
            number,
            &head,
            &capture[..n],
            &mut luma,
            &mut integral,
            &mut mask,
            &mut seen,
            &mut waiting,
            &mut patches,
            &mut candidates,
            &mut blob_index,
            &mut means,
            &mut canonical,
        );
    }
    Ok(())
}

// Rectifies one capture, and prints its answer.
fn answer(
    console: &mut Console,
    number: usize,
    head: &[u8; 48],
    capture: &[u8],
    luma: &mut [f32; 40000],
    integral: &mut [f64; 40401],
    mask: &mut [u8; 40000],
    seen: &mut [u8; 40000],
    waiting: &mut [u32; 40000],
    patches: &mut [u64; 160000],
    candidates: &mut [f64; 5000],
    blob_index: &mut [u32; 1250],
    means: &mut [f64; 2048],
    canonical: &mut [u8; 1080000],
) {
    let s = file::headed(head);
    print::head(console, number, s);
    let card: &mut [u8] = canonical;
    let mut work = WorkAreas {
        luma: &mut *luma,
        integral: &mut *integral,
        mask: &mut *mask,
        seen: &mut *seen,
        waiting: &mut *waiting,
        patches: &mut *patches,
        candidates: &mut *candidates,
        blob_index: &mut *blob_index,
    };
    let r = geometry::rectify(
        capture,
        s.w,
        s.h,
        s.frame,
        &mut work,
        means,
        &mut card[..s.bytes],
    );
    print::answer(console, r, s, mask, patches, candidates, blob_index, card);
    if let Err(Refusal::Unscored) = r.picture.places {
        let mut work = WorkAreas {
            luma,
            integral,
            mask,
            seen,
            waiting,
            patches,
            candidates,
            blob_index,
        };
        let fit = fit_geometry::fit_geometry(capture, s.w, s.h, s.frame, &mut work, means);
        print::fitted(console, fit);
    }
}
