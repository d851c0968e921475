// Runs the frame's and the markers' functions on the entries of its input, nine 64-bit words each
// (what to run, a picture's width, height and length, a frame's four numbers, a row), and prints
// what they answer. The expected output is the original's (host/vectors, markers).
#![tactic(auto)]

ghost use Rattle.std.specs.Prelude.{◌*◌, ◌<◌, ◌≤◌, length};

use console::Console;
use frame::{FrameSpec, Point, Quad, Refusal, Rgb};
use std::io;

fn number(console: &mut Console, n: usize) {
    console.decimal(n as u64);
}

fn refused(console: &mut Console, refusal: Refusal) {
    console.text(b"refused ");
    console.decimal(refusal.number() as u64);
}

fn print_number(console: &mut Console, answer: Result<usize, Refusal>) {
    match answer {
        Ok(n) => number(console, n),
        Err(refusal) => refused(console, refusal),
    }
}

fn print_frame(console: &mut Console, answer: Result<FrameSpec, Refusal>) {
    match answer {
        Ok(f) => {
            number(console, f.width);
            console.text(b" ");
            number(console, f.height);
            console.text(b" ");
            number(console, f.cell);
            console.text(b" ");
            number(console, f.margin);
        }
        Err(refusal) => refused(console, refusal),
    }
}

fn print_point(console: &mut Console, p: Point) {
    print_word(console, vectors::bits(p.x));
    print_word(console, vectors::bits(p.y));
}

fn print_quad(console: &mut Console, q: Quad) {
    print_point(console, q.tl);
    print_point(console, q.tr);
    print_point(console, q.br);
    print_point(console, q.bl);
}

fn print_rgb(console: &mut Console, c: Rgb) {
    console.text(b" ");
    number(console, c.r as usize);
    console.text(b" ");
    number(console, c.g as usize);
    console.text(b" ");
    number(console, c.b as usize);
}

fn constants(console: &mut Console) {
    number(console, FrameSpec::CALIB_ROWS);
    console.text(b" ");
    number(console, FrameSpec::HEADER_ROWS);
    console.text(b" ");
    number(console, markers::MARKER_MIN_PX);
    console.text(b" ");
    number(console, markers::MARKER_MAX_PX);
    print_rgb(console, frame::BLACK);
    print_rgb(console, frame::WHITE);
    console.text(b"\n");
    print_word(console, vectors::bits(markers::MARKER_UNITS));
}

fn sizes(console: &mut Console, cell: usize) {
    print_number(console, markers::marker_size(cell));
    console.text(b" ");
    print_number(console, markers::quiet_zone(cell));
    console.text(b" ");
    print_number(console, markers::margin_for(cell));
    console.text(b"\n");
}

fn made(console: &mut Console, width: usize, height: usize, cell: usize) {
    print_frame(console, FrameSpec::new(width, height, cell));
    console.text(b" ");
    print_frame(console, markers::frame_spec(width, height, cell));
    console.text(b"\n");
}

fn grid(console: &mut Console, f: FrameSpec) {
    print_number(console, f.cols());
    console.text(b" ");
    print_number(console, f.rows());
    console.text(b"\n");
}

fn centers(console: &mut Console, f: FrameSpec) {
    match markers::marker_centers(f) {
        Ok(q) => print_quad(console, q),
        Err(refusal) => {
            refused(console, refusal);
            console.text(b"\n");
        }
    }
}

// A picture with no black and no white.
fn pattern(picture: &mut [u8]) {
    for (i, byte) in picture.iter_mut().enumerate() {
        *byte = ((i % 251 * 31 + 7) % 251) as u8;
    }
}

fn next(s: u64, b: u8) -> u64
    requires { s < 4294967291 }
    ensures { result < 4294967291 }
{
    (s * 257 + b as u64 + 1) % 4294967291
}

fn checksum(picture: &[u8]) -> u64 {
    let mut s: u64 = 0;
    for byte in picture {
        s = next(s, *byte);
    }
    s
}

// # for a black pixel, . for a white one, + for any other
fn print_row(console: &mut Console, row: &[u8]) {
    for pixel in row.chunks_exact(3) {
        match pixel {
            [0, 0, 0] => console.text(b"#"),
            [255, 255, 255] => console.text(b"."),
            _ => console.text(b"+"),
        }
    }
    console.text(b"\n");
}

// The picture's row y, where it has one.
fn print_row_of(console: &mut Console, picture: &[u8], w: usize, h: usize, y: usize) {
    if 4096 < w || 4096 < y || h <= y {
        return;
    }
    if let Some(row) = picture.get(3 * w * y..3 * w * (y + 1)) {
        print_row(console, row);
    }
}

fn stamp(console: &mut Console, picture: &mut [u8], w: usize, h: usize, f: FrameSpec, y: usize) {
    pattern(picture);
    let answer = markers::stamp_fiducials(picture, w, h, f);
    match answer {
        Ok(()) => console.text(b"accepted"),
        Err(refusal) => refused(console, refusal),
    }
    console.text(b" ");
    console.decimal(checksum(picture));
    console.text(b"\n");
    if answer.is_ok() {
        print_row_of(console, picture, w, h, y);
    }
}

fn field(input: &[u8], entry: usize, k: usize) -> usize
    requires { (entry * 72 ≤ length input.now) × (k < 9) }
{
    vectors::word(input, entry * 9 + k) as usize
}

fn run(console: &mut Console, input: &[u8], entry: usize, picture: &mut [u8])
    requires { entry * 72 ≤ length input.now }
{
    let kind = field(input, entry, 0);
    let f = FrameSpec {
        width: field(input, entry, 4),
        height: field(input, entry, 5),
        cell: field(input, entry, 6),
        margin: field(input, entry, 7),
    };
    match kind {
        0 => sizes(console, f.cell),
        1 => made(console, f.width, f.height, f.cell),
        2 => grid(console, f),
        3 => centers(console, f),
        4 => {
            let w = field(input, entry, 1);
            let h = field(input, entry, 2);
            let len = field(input, entry, 3);
            if len <= picture.len() {
                stamp(
                    console,
                    &mut picture[..len],
                    w,
                    h,
                    f,
                    field(input, entry, 8),
                );
            }
        }
        5 => constants(console),
        _ => {}
    }
}

fn run_all(console: &mut Console, input: &[u8], picture: &mut [u8]) {
    for entry in 0..input.len() / 72 {
        run(console, input, entry, picture);
    }
}

fn main(rt: HostRuntime) -> io::Result<()> {
    let mut console = Console::new(rt);
    let mut input = [0u8; 65536];
    let n = console.read_full(&mut input);
    let mut picture = [0u8; 132000];
    run_all(&mut console, &input[..n], &mut picture);
    console.finish()
}

// Writes w as 16 hexadecimal digits, on a line.
fn print_word(console: &mut Console, w: u64) {
    let line = vectors::hex_line(w);
    console.text(&line);
}
