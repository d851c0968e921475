// Reads a size, width, blank, height and line feed, from standard input and prints its
// checkerboard, the mask of that size with most patches, as lines of `#` and `.`, or `refused 2`
// (requirements, 22.5 to 22.8). Only this function reads and prints; what comes between is
// `checkerboard_text::internal::answer`.
#![tactic(auto)]

use std::io;

fn main(rt: HostRuntime) -> io::Result<()> {
    let mut input = [0u8; checkerboard_text::internal::INPUT_LENGTH];
    let n = console::read_full(&mut rt.stdin(), &mut input)?;
    let mut out = [0u8; checkerboard_text::internal::OUTPUT_LENGTH];
    let k = checkerboard_text::internal::answer(&input, n, &mut out);
    let written = rt.write_all(&out[..k]);
    if written.is_err() {
        rt.eprintln("most_patches: standard output cannot be written")?;
    }
    written
}
