// An answer's lines, on standard output.
ghost use Rattle.std.specs.Prelude.{◌≤◌, length};

use console::Console;
use frame::Refusal;

// The call's number, the refusal's, and the page.
pub(crate) fn answer(
    console: &mut Console,
    number: usize,
    answer: Result<(), Refusal>,
    page: &[u8],
) {
    console.text(b"call ");
    console.decimal(number as u64);
    console.text(b": ");
    console.decimal(number_of(answer));
    console.text(b"\n");
    if page.len() < 5000 {
        console.text(page);
    } else {
        shorten(console, page);
    }
    console.text(b"\n");
}

// The refusal's number, or 0.
fn number_of(answer: Result<(), Refusal>) -> u64 {
    match answer {
        Ok(()) => 0,
        Err(refusal) => refusal.number() as u64,
    }
}

// First and last line of a long page, and the checksum of all of it.
fn shorten(console: &mut Console, page: &[u8])
    requires { 37 ≤ length page.now }
{
    let start = page.len() - 37;
    console.text(&page[..37]);
    console.text(&page[start..]);
    console.decimal(vectors::sum::of(page));
}
