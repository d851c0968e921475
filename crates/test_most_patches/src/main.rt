// Answers each input of stdin as the program `most_patches` answers its standard input, by the same
// function, and has what it prints read as the program `patches` reads it.
// host/vectors/most_patches.py says what stdin and stdout hold, and how to make them again.
#![tactic(auto)]

ghost use Rattle.std.specs.Prelude.{◌≡◌, ◌++◌, min, length, take, drop};

use console::Console;
use std::io;

// An input at a time, to the end of stdin. None is longer than 255 bytes.
fn main(rt: HostRuntime) -> io::Result<()> {
    let mut console = Console::new(rt);
    let mut text = [0u8; 255];
    for _ in 0..10000usize {
        let mut head = [0u8; 2];
        let n = console.read_full(&mut head);
        if n < 2 {
            break;
        }
        call(&mut console, head[0], head[1] as usize, &mut text);
    }
    console.finish()
}

fn call(console: &mut Console, kind: u8, length: usize, text: &mut [u8]) {
    let n = length.min(text.len());
    answer(console, kind, &mut text[..n]);
}

fn answer(console: &mut Console, kind: u8, text: &mut [u8]) {
    console.read_full(text);
    let mut input = [0u8; checkerboard_text::internal::INPUT_LENGTH];
    let n = copy(text, &mut input);
    let mut out = [0u8; checkerboard_text::internal::OUTPUT_LENGTH];
    let k = checkerboard_text::internal::answer(&input, n, &mut out);
    if kind == b'm' {
        console.text(&out[..k]);
    } else {
        count(console, &out[..k]);
    }
}

// Prints the first line of what `patches` prints for a text.
fn count(console: &mut Console, text: &[u8]) {
    let mut input = [0u8; patch_text::internal::INPUT_LENGTH];
    let n = copy(text, &mut input);
    let mut out = [0u8; patch_text::internal::OUTPUT_LENGTH];
    let k = patch_text::internal::answer(&input, n, &mut out);
    print_line(console, &out[..k]);
}

fn print_line(console: &mut Console, text: &[u8]) {
    let end = (patch_text::internal::line_length(text) + 1).min(text.len());
    console.text(&text[..end]);
}

// Of a text as much as a program reads: as many bytes as fit, or all.
fn copy(text: &[u8], input: &mut [u8]) -> usize
    ensures { (result ≡ min (length text.now) (length input.old))
        × (input.new ≡ take result text.now ++ drop result input.old) }
{
    let n = text.len().min(input.len());
    input[..n].copy_from_slice(&text[..n]);
    n
}
