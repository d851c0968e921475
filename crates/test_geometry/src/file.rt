// A capture file: six words, and the capture's bytes.
ghost use Rattle.std.specs.Prelude.{◌≡◌, ◌*◌, ◌≤◌, ◌<◌};
ghost use Rattle.std.specs.Io.{ReadsAtMost};
ghost use Rattle.test_geometry.specs.Files.{HeadedBy};

use frame::FrameSpec;
use std::fs::File;
use std::{io, str};

// What the words say, with the number of pixels of the capture and of bytes of the canonical image.
#[derive(Clone, Copy)]
pub struct Sizes {
    pub w: usize,
    pub h: usize,
    pub frame: FrameSpec,
    pub pixels: usize,
    pub bytes: usize,
}

// Reads the file of this number, from 0 to 99: its six words, and its capture's bytes to the start
// of `capture`. Answers how many those are.
pub fn read(
    rt: &HostRuntime,
    number: usize,
    head: &mut [u8; 48],
    capture: &mut [u8; 120001],
) -> io::Result<usize>
    ensures { ReadsAtMost result capture.new }
{
    let mut file = open(rt, number)?;
    console::read_full(&mut file, head)?;
    console::read_full(&mut file, capture)
}

fn open(rt: &HostRuntime, number: usize) -> io::Result<File> {
    if number < 10 {
        let name = [digit(number), b'.', b'c', b'a', b'p'];
        return File::open(rt, str::from_utf8(&name).unwrap());
    }
    let name = [
        digit(number / 10 % 10),
        digit(number % 10),
        b'.',
        b'c',
        b'a',
        b'p',
    ];
    File::open(rt, str::from_utf8(&name).unwrap())
}

fn digit(n: usize) -> u8
    requires { n < 10 }
    ensures { result < 128 }
{
    b'0' + n as u8
}

// The words, by their bytes.
pub fn headed(head: &[u8]) -> Sizes
    ensures { HeadedBy head.now result }
{
    let w = vectors::word(head, 0) as usize;
    let h = vectors::word(head, 1) as usize;
    let width = vectors::word(head, 2) as usize;
    let height = vectors::word(head, 3) as usize;
    let frame = FrameSpec {
        width,
        height,
        cell: vectors::word(head, 4) as usize,
        margin: vectors::word(head, 5) as usize,
    };
    Sizes {
        w,
        h,
        frame,
        pixels: product(w, h, 200),
        bytes: 3 * product(width, height, 600),
    }
}

// a·b, and 0 where one of them is above `most`: no area here is large enough then.
fn product(a: usize, b: usize, most: usize) -> usize
    requires { most ≤ 4096 }
    ensures { result ≤ most * most }
{
    if a > most || b > most {
        return 0;
    }
    a * b
}
