// What the test programs share: 64-bit words read from a buffer, floats by their bit patterns, a
// word as a line of text, and checksums. A pattern is IEEE 754's; all NaNs are written as one.
#![tactic(auto)]

pub mod sum; // sum.rt: checksums

ghost use Rattle.std.specs.Prelude.{◌≡◌, ◌<◌};
ghost use Rattle.std.specs.Float.{binary32, binary64};
ghost use Rattle.std.specs.Float.Ieee.{of_bits, to_bits};
ghost use Rattle.vectors.specs.Words.{word_of, hex_digit_ascii, hex_line};

// Word i of b, the lowest byte first, and 0 where b is too short to hold it.
#[tactic(auto, unfolding(crate::specs::Words::word_of))]
pub fn word(b: &[u8], i: usize) -> u64
    ensures { result ≡ word_of b.now i }
{
    if i < b.len() / 8 {
        base::internal::little_endian(b, i * 8, 8)
    } else {
        0
    }
}

// The bit pattern of x, and 0x7ff8000000000000 for every NaN.
pub fn bits(x: f64) -> u64
    ensures { result ≡ to_bits binary64 x }
{
    float::to_bits(x)
}

// The bit pattern of x, and 0x7fc00000 for every NaN.
pub fn bits32(x: f32) -> u32
    ensures { result ≡ to_bits binary32 x }
{
    std::num::f32_to_bits_with_nan(x)
}

// The float that the pattern p stands for, a NaN's too.
pub fn double(p: u64) -> f64
    ensures { result ≡ of_bits binary64 p }
{
    float::from_bits(p)
}

pub fn single(p: u32) -> f32
    ensures { result ≡ of_bits binary32 p }
{
    std::num::f32_from_bits_with_nan(p)
}

// The 16 hexadecimal digits of w, in lower case, and a line feed.
pub fn hex_line(w: u64) -> [u8; 17]
    ensures { result ≡ hex_line w }
{
    let mut line = [b'\n'; 17];
    let mut rest = w;
    for i in (0..16).rev() {
        line[i] = hex_digit(rest % 16);
        rest /= 16;
    }
    line
}

fn hex_digit(d: u64) -> u8
    requires { d < 16 }
    ensures { result ≡ hex_digit_ascii d }
{
    if d < 10 {
        b'0' + d as u8
    } else {
        b'a' - 10 + d as u8
    }
}
