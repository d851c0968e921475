// Words on lines, 16 hexadecimal digits each.
ghost use Rattle.std.specs.Prelude.{◌≤◌};

use console::Console;

// A number that is printed as a word: its bits, a float's by its pattern.
pub(crate) trait Printed: Copy {
    fn bits(self) -> u64;
}

impl Printed for u64 {
    fn bits(self) -> u64 {
        self
    }
}

impl Printed for u32 {
    fn bits(self) -> u64 {
        u64::from(self)
    }
}

impl Printed for f64 {
    fn bits(self) -> u64 {
        vectors::bits(self)
    }
}

impl Printed for f32 {
    fn bits(self) -> u64 {
        u64::from(vectors::bits32(self))
    }
}

pub(crate) fn word<T: Printed>(console: &mut Console, n: T) {
    console.text(&vectors::hex_line(n.bits()));
}

pub(crate) fn words<T: Printed>(console: &mut Console, numbers: &[T]) {
    for n in numbers {
        word(console, *n);
    }
}

// n words of eight bytes, every sixteenth.
pub(crate) fn bytes(console: &mut Console, b: &[u8], n: usize)
    requires { n ≤ 1000 }
{
    for i in 0..n {
        word(console, vectors::word(b, 16 * i));
    }
}

// All words of eight bytes.
pub(crate) fn all_bytes(console: &mut Console, b: &[u8]) {
    for i in 0..b.len() / 8 {
        word(console, vectors::word(b, i));
    }
}
