// A size as text.
ghost use Rattle.std.specs.Prelude.{◌≡◌, [], ◌∷◌, ◌≤◌, length};
ghost use Rattle.checkerboard_text.specs.Steps.{Digit, Side, blank_place, Measured};

use patch_text::internal::Size;

// The number that a byte is the digit of.
fn digit(byte: u8) -> Option<usize>
    ensures { Digit byte result }
{
    match byte {
        b'0'..=b'9' => Some((byte - b'0') as usize),
        _ => None,
    }
}

// The number from 1 to 9 that one byte spells.
fn one_digit(a: u8) -> Option<usize>
    ensures { Side (a ∷ []) result }
{
    let n = digit(a)?;
    if n == 0 { None } else { Some(n) }
}

// The number from 10 to 64 that two bytes spell.
fn two_digits(a: u8, b: u8) -> Option<usize>
    ensures { Side (a ∷ b ∷ []) result }
{
    let tens = digit(a)?;
    let ones = digit(b)?;
    let n = 10 * tens + ones;
    if tens == 0 || n > 64 { None } else { Some(n) }
}

// The number from 1 to 64 that is spelled without a zero in front.
fn side(digits: &[u8]) -> Option<usize>
    ensures { Side digits.now result }
{
    match digits {
        [a] => one_digit(*a),
        [a, b] => two_digits(*a, *b),
        _ => None,
    }
}

// Where the blank stands, if a text is a size: a side has one digit or two.
fn blank_place(text: &[u8]) -> usize
    requires { 2 ≤ length text.now }
    ensures { result ≡ blank_place text.now }
{
    if text[1] == b' ' { 1 } else { 2 }
}

// The size that a text is, if it is one.
pub fn board_size(text: &[u8]) -> Option<Size>
    ensures { Measured text.now result }
{
    let n = text.len();
    if n < 4 {
        return None;
    }
    let at = blank_place(text);
    if text[at] != b' ' || text[n - 1] != b'\n' {
        return None;
    }
    let w = side(&text[..at])?;
    let h = side(&text[at + 1..n - 1])?;
    Some(Size { w, h })
}
