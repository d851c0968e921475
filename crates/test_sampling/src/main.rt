// Runs `bilinear` and `luma` on outside vectors, and prints each colour as six hexadecimal digits,
// with 1 behind it where its position is inside the picture, else 0, and each luma's pattern as
// eight. The expected output is the original's: host/vectors/src/bin/sampling.rs says what stdin
// holds, and how to make both again.
#![tactic(auto)]

use console::Console;
use frame::Refusal;
use sampling::Sample;
use std::io;

// The picture is 5 by 4, in 60 bytes; the places follow from this byte on,
const PLACES: usize = 64;

// and the pixels from this one on.
const PIXELS: usize = 6800;

fn main(rt: HostRuntime) -> io::Result<()> {
    let mut console = Console::new(rt);
    let mut buf = [0u8; 65536];
    let n = console.read_full(&mut buf);
    run(&mut console, &buf[..n]);
    console.finish()
}

fn run(console: &mut Console, b: &[u8]) {
    if PIXELS <= b.len() {
        let picture = &b[..60];
        examples(console);
        refusals(console, picture);
        places(console, picture, &b[PLACES..PIXELS]);
        lumas(console, &b[PIXELS..]);
    }
}

// Requirement 15.3: 0 and 255 side by side read at (1.0, 0.5) give 127.
fn examples(console: &mut Console) {
    let two: [u8; 6] = [0, 0, 0, 255, 255, 255];
    print(console, sampling::bilinear(&two, 2, 1, 1.0, 0.5));
}

// A side outside its limit, and a wrong length.
fn refusals(console: &mut Console, picture: &[u8]) {
    print(console, sampling::bilinear(picture, 0, 4, 1.0, 1.0));
    print(console, sampling::bilinear(picture, 5, 4097, 1.0, 1.0));
    print(console, sampling::bilinear(picture, 5, 3, 1.0, 1.0));
    print(console, sampling::bilinear(picture, 5, 5, 1.0, 1.0));
}

// A place is two words, x and y.
fn places(console: &mut Console, picture: &[u8], b: &[u8]) {
    for place in b.chunks_exact(16) {
        let x = vectors::double(vectors::word(place, 0));
        let y = vectors::double(vectors::word(place, 1));
        print(console, sampling::bilinear(picture, 5, 4, x, y));
    }
}

fn lumas(console: &mut Console, b: &[u8]) {
    for pixel in b.chunks_exact(3) {
        let y = sampling::luma(pixel[0], pixel[1], pixel[2]);
        console.hex(vectors::bits32(y) as u64, 8);
        console.text(b"\n");
    }
}

fn print(console: &mut Console, answer: Result<Sample, Refusal>) {
    match answer {
        Ok(sample) => {
            let colour = sample.colour;
            console.hex(colour.r as u64, 2);
            console.hex(colour.g as u64, 2);
            console.hex(colour.b as u64, 2);
            console.text(b" ");
            console.decimal(sample.inside as u64);
        }
        Err(refusal) => {
            console.text(b"refused ");
            console.decimal(refusal.number() as u64);
        }
    }
    console.text(b"\n");
}
