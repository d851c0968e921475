// Answers and the target on lines, on standard output.
use console::Console;
use frame::Refusal;

pub(crate) fn labelled(console: &mut Console, label: &[u8], number: u64) {
    console.text(label);
    console.decimal(number);
    console.text(b"\n");
}

// The length of the joined book, or what the call is refused for.
pub(crate) fn answer(console: &mut Console, answer: Result<usize, Refusal>) {
    match answer {
        Ok(n) => labelled(console, b"is ", n as u64),
        Err(refusal) => labelled(console, b"refused ", refusal.number() as u64),
    }
}

// Each byte in hexadecimal, or the ends and the checksum of a long target.
pub(crate) fn target(console: &mut Console, b: &[u8]) {
    console.text(b"target ");
    if b.len() < 5000 {
        each(console, b);
    } else {
        each(console, &b[..16]);
        each(console, &b[b.len() - 16..]);
        console.text(b" ");
        console.decimal(vectors::sum::of(b));
    }
    console.text(b"\n");
}

fn each(console: &mut Console, b: &[u8]) {
    for byte in b {
        console.hex(u64::from(*byte), 2);
    }
}
