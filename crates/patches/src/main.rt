// Reads a mask as lines of `#` and `.` from standard input and prints its patch list, or `refused
// 2` (requirements, 7.6 and 7.7). Only this function reads and prints; what comes between is
// `patch_text::internal::answer`.
#![tactic(auto)]

use std::io;

fn main(rt: HostRuntime) -> io::Result<()> {
    let mut input = [0u8; patch_text::internal::INPUT_LENGTH];
    let n = console::read_full(&mut rt.stdin(), &mut input)?;
    let mut out = [0u8; patch_text::internal::OUTPUT_LENGTH];
    let k = patch_text::internal::answer(&input, n, &mut out);
    let written = rt.write_all(&out[..k]);
    if written.is_err() {
        rt.eprintln("patches: standard output cannot be written")?;
    }
    written
}
