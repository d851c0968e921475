// Calls every exported function by position, with no two numbers of a call alike, and prints what
// it answers and writes. Contracts name parameters, not their places: a library in which two have
// changed places still keeps its promises, and is caught here. The expected output is the
// original's: host/vectors/src/bin/tablet.rs says what stdin and stdout hold, and how to make them
// again.
#![tactic(auto)]

mod looks; // looks.rt: the functions that look at the whole capture
mod print; // print.rt: words on lines

use console::Console;
use print::{all_bytes, bytes, word, words};
use std::io;

fn main(rt: HostRuntime) -> io::Result<()> {
    let mut console = Console::new(rt);
    let mut capture = [0u8; 43008];
    console.read_full(&mut capture);
    looks::rectify(&mut console, &capture);
    looks::fit_geometry(&mut console, &capture);
    let points = looks::detect_fiducials(&mut console, &capture);
    looks::fiducial_candidates(&mut console, &capture);
    let fit = fit_for(&mut console, &points);
    grid_score(&mut console, &capture, &fit);
    // The card moved to the right, in part off the picture: an outside grade, with its cell.
    let mut moved = fit;
    moved[2] += 40.0;
    grid_score(&mut console, &capture, &moved);
    warp_with(&mut console, &capture, &fit);
    // A fit of NaNs: no position is inside.
    let none = [0.0 / 0.0; 13];
    warp_with(&mut console, &capture, &none);
    let numbers = patterns(&fit);
    warp_record(&mut console, &capture, 0, &numbers);
    warp_record(&mut console, &capture, 1, &numbers);
    bilinear(&mut console, &capture);
    luma(&mut console);
    lengths(&mut console);
    grid(&mut console);
    marker_numbers(&mut console);
    let centers = marker_centers(&mut console);
    stamp_fiducials(&mut console);
    let matrix = from_points(&mut console, &centers, &points);
    inverse(&mut console, &matrix);
    mat3_mul(&mut console, &matrix, &fit);
    apply(&mut console, &matrix);
    let lens = radial(&mut console);
    distort(&mut console, &lens);
    undistort(&mut console, &lens);
    rms_error(&mut console, &centers, &points);
    let book = write_book(&mut console);
    read_book(&mut console, &book);
    checkerboard(&mut console, 4, 9);
    checkerboard(&mut console, 4, 4097);
    checkerboard(&mut console, 4, 11);
    patch_windows(&mut console, 3, 2, 29);
    patch_windows(&mut console, 3, 3, 29);
    patch_windows(&mut console, 3, 2, 4096);
    console.finish()
}

// ---- fits and readings

fn fit_for(console: &mut Console, points: &[f64; 8]) -> [f64; 13] {
    let mut fit = [0.0; 13];
    word(
        console,
        tablet::tablet_fit_for(128, 112, 208, 192, 8, 48, points, 0.015, &mut fit),
    );
    words(console, &fit);
    fit
}

fn grid_score(console: &mut Console, capture: &[u8; 43008], fit: &[f64; 13]) {
    let mut means = [0.0; 29];
    let mut grade = [9u64; 2];
    let mut score = [0.0; 1];
    let number = tablet::tablet_grid_score(
        capture, 128, 112, 208, 192, 8, 48, fit, &mut means, &mut grade, &mut score,
    );
    word(console, number);
    words(console, &grade);
    words(console, &score);
}

fn warp_with(console: &mut Console, capture: &[u8; 43008], fit: &[f64; 13]) {
    let mut canonical = [5u8; 119808];
    let mut counts = [9u64; 1];
    let number = tablet::tablet_warp_with(
        capture,
        128,
        112,
        208,
        192,
        8,
        48,
        fit,
        &mut canonical,
        &mut counts,
    );
    word(console, number);
    words(console, &counts);
    bytes(console, &canonical, 936);
}

fn patterns(fit: &[f64; 13]) -> [u64; 13] {
    let mut numbers = [0u64; 13];
    for i in 0..13 {
        numbers[i] = vectors::bits(fit[i]);
    }
    numbers
}

fn warp_record(console: &mut Console, capture: &[u8; 43008], grade: u32, numbers: &[u64; 13]) {
    let mut canonical = [5u8; 119808];
    let mut counts = [9u64; 1];
    let number = tablet::tablet_warp_record(
        capture,
        128,
        112,
        208,
        192,
        8,
        48,
        grade,
        numbers,
        &mut canonical,
        &mut counts,
    );
    word(console, number);
    words(console, &counts);
    bytes(console, &canonical, 936);
}

fn bilinear(console: &mut Console, capture: &[u8; 43008]) {
    let mut colour = [0u8; 8];
    word(
        console,
        tablet::tablet_bilinear(capture, 128, 112, 40.25, 71.5, &mut colour),
    );
    bytes(console, &colour, 1);
}

fn luma(console: &mut Console) {
    word(console, tablet::tablet_luma(200, 31, 7));
}

// ---- frames

fn lengths(console: &mut Console) {
    let mut numbers = [0u64; 11];
    word(
        console,
        tablet::tablet_lengths(128, 112, 208, 192, 8, 48, &mut numbers),
    );
    words(console, &numbers);
}

fn grid(console: &mut Console) {
    let mut numbers = [0u64; 2];
    word(console, tablet::tablet_grid(208, 192, 8, 48, &mut numbers));
    words(console, &numbers);
}

fn marker_numbers(console: &mut Console) {
    let mut numbers = [0u64; 3];
    word(console, tablet::tablet_marker_numbers(10, &mut numbers));
    words(console, &numbers);
}

fn marker_centers(console: &mut Console) -> [f64; 8] {
    let mut points = [0.0; 8];
    word(
        console,
        tablet::tablet_marker_centers(208, 192, 8, 48, &mut points),
    );
    words(console, &points);
    points
}

fn stamp_fiducials(console: &mut Console) {
    let mut image = [7u8; 7920];
    word(
        console,
        tablet::tablet_stamp_fiducials(&mut image, 60, 44, 208, 192, 8, 48),
    );
    bytes(console, &image, 62);
}

// ---- matrices and lens

fn from_points(console: &mut Console, source: &[f64; 8], target: &[f64; 8]) -> [f64; 9] {
    let mut matrix = [0.0; 9];
    word(
        console,
        tablet::tablet_from_points(source, target, &mut matrix),
    );
    words(console, &matrix);
    matrix
}

fn inverse(console: &mut Console, matrix: &[f64; 9]) {
    let mut result = [0.0; 9];
    word(console, tablet::tablet_inverse(matrix, &mut result));
    words(console, &result);
}

fn mat3_mul(console: &mut Console, a: &[f64; 9], b: &[f64; 13]) {
    let mut result = [0.0; 9];
    word(console, tablet::tablet_mat3_mul(a, b, &mut result));
    words(console, &result);
}

fn apply(console: &mut Console, matrix: &[f64; 9]) {
    let mut point = [0.0; 2];
    word(
        console,
        tablet::tablet_apply(matrix, 31.0, 77.5, &mut point),
    );
    words(console, &point);
}

fn radial(console: &mut Console) -> [f64; 4] {
    let mut lens = [0.0; 4];
    word(console, tablet::tablet_radial(128, 112, 0.125, &mut lens));
    words(console, &lens);
    lens
}

fn distort(console: &mut Console, lens: &[f64; 4]) {
    let mut point = [0.0; 2];
    word(
        console,
        tablet::tablet_distort(lens, 31.0, 77.5, &mut point),
    );
    words(console, &point);
}

fn undistort(console: &mut Console, lens: &[f64; 4]) {
    let mut point = [0.0; 2];
    word(
        console,
        tablet::tablet_undistort(lens, 31.0, 77.5, &mut point),
    );
    words(console, &point);
}

fn rms_error(console: &mut Console, a: &[f64; 8], b: &[f64; 8]) {
    let mut result = [0.0; 1];
    word(console, tablet::tablet_rms_error(a, b, &mut result));
    words(console, &result);
}

// ---- books

// A book of one record, from lists that are longer.
fn write_book(console: &mut Console) -> [u8; 136] {
    let heads = [7u32, 3, 1, 9];
    let numbers = [
        0x0706_0504_0302_0100u64,
        0x1716_1514_1312_1110,
        0x2726_2524_2322_2120,
        0x3736_3534_3332_3130,
        0x4746_4544_4342_4140,
        0x5756_5554_5352_5150,
        0x6766_6564_6362_6160,
        0x7776_7574_7372_7170,
        0x8786_8584_8382_8180,
        0x9796_9594_9392_9190,
        0xa7a6_a5a4_a3a2_a1a0,
        0xb7b6_b5b4_b3b2_b1b0,
        0xc7c6_c5c4_c3c2_c1c0,
        0xd7d6_d5d4_d3d2_d1d0,
    ];
    let mut book = [9u8; 136];
    word(
        console,
        tablet::tablet_write_book(&heads, &numbers, 1, &mut book),
    );
    all_bytes(console, &book);
    book
}

// That record, into lists that are longer.
fn read_book(console: &mut Console, book: &[u8; 136]) {
    let mut heads = [9u32; 5];
    let mut numbers = [9u64; 15];
    word(
        console,
        tablet::tablet_read_book(book, &mut heads, &mut numbers),
    );
    words(console, &heads);
    words(console, &numbers);
}

// ---- masks

// In an area of 40 bytes: for 4 by 9 pixels it is longer, for 4 by 11 it is short.
fn checkerboard(console: &mut Console, w: usize, h: usize) {
    let mut mask = [9u8; 40];
    word(console, tablet::tablet_checkerboard(w, h, &mut mask));
    all_bytes(console, &mask);
}

// ---- patch lists

// The last row of the second rectangle is handed in. The areas are those of three patches, of two
// rectangles and a number more, and of two answers and a number more.
fn patch_windows(console: &mut Console, n: usize, k: usize, last: u64) {
    let patches = [
        11u64, 12, 13, 1, 2, 3, 4, 14, 21, 22, 23, 10, 20, 18, 25, 24, 31, 32, 33, 40, 5, 41, 6, 34,
    ];
    let windows = [3u64, 4, 13, 23, 19, 26, 27, last, 5];
    let mut answers = [9u64; 7];
    word(
        console,
        tablet::tablet_patch_windows(&patches, n, &windows, k, &mut answers),
    );
    words(console, &answers);
}
