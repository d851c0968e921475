// Answers each file of data/, in the order of `args`, as the program `patches` answers its standard
// input: by the same buffers and the same function. host/vectors/src/bin/patches.rs makes the
// files, and the expected output from the original's own answers and a count of outlines of its own.
#![tactic(auto)]

use std::env::{Env, FillError};
use std::fs::File;
use std::{io, str};

fn main(rt: HostRuntime) -> io::Result<()> {
    let count = arg_count(&rt);
    answer_all(&rt, count)
}

fn arg_count(rt: &HostRuntime) -> usize {
    for i in 0..usize::MAX {
        if let Err(FillError::NotPresent) = rt.arg(i, &mut []) {
            return i;
        }
    }
    usize::MAX
}

// Argument 0 is the program's own name.
fn answer_all(rt: &HostRuntime, count: usize) -> io::Result<()> {
    for i in 1..count {
        answer_file(rt, i)?;
    }
    Ok(())
}

// A file that cannot be opened is no input: for it nothing is printed.
fn answer_file(rt: &HostRuntime, i: usize) -> io::Result<()> {
    let mut name = [0u8; 4096];
    let length = rt.arg(i, &mut name).unwrap_or(0);
    let path = str::from_utf8(&name[..length]).unwrap_or("");
    let mut file = match File::open(rt, path) {
        Ok(file) => file,
        Err(e) => return eprintln!(rt; "{path}: {e}"),
    };
    let mut input = [0u8; patch_text::internal::INPUT_LENGTH];
    let n = console::read_full(&mut file, &mut input)?;
    let mut out = [0u8; patch_text::internal::OUTPUT_LENGTH];
    let k = patch_text::internal::answer(&input, n, &mut out);
    rt.write_all(&out[..k])
}
