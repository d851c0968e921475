// Numbers, lines and the page as text. Each function but the last fills the whole slice that it is
// lent.
ghost use Rattle.std.specs.Prelude.{◌≡◌, ◌++◌, [], ◌∷◌, ◌+◌, ◌-◌, ◌*◌, ◌^◌, ◌≤◌, length, drop};
ghost use Rattle.page.specs.Text.{columns, whole, field_of, line_of, page_text, line_length};
ghost use Rattle.page.specs.Steps.{letter_of, AllNarrow, Fitting};

use super::amount::units;
use super::rows::row_at;
use super::{LINE_LENGTH, Row};

// The last digit of q, or a blank where `pad` asks for one in the place of a zero in front.
fn letter(q: u64, pad: bool) -> u8
    ensures { result ≡ letter_of pad q }
{
    if pad & (q == 0) {
        return b' ';
    }
    b'0' + (q % 10) as u8
}

// The last digits of q, one a column, from the right.
fn put_columns(area: &mut [u8], mut q: u64, pad: bool)
    ensures { area.new ≡ columns (letter_of pad) (length area.old) q }
{
    for k in (0..area.len()).rev() {
        area[k] = letter(q, pad);
        q /= 10;
    }
}

// A whole number to the right, and the letter after it.
fn put_whole(area: &mut [u8], q: u64, after: u8)
    requires { 2 ≤ length area.old }
    ensures { area.new ≡ whole (length area.old - 1) q ++ (after ∷ []) }
{
    let n = area.len() - 2;
    put_columns(&mut area[..n], q / 10, true);
    area[n] = letter(q, false);
    area[n + 1] = after;
}

// An amount of q parts of 1 / scale, its point before the last `places` digits, and the letter
// after it.
fn put_field(area: &mut [u8], places: usize, scale: u64, q: u64, after: u8)
    requires { (places + 3 ≤ length area.old) × (scale ≡ 10 ^ places) }
    ensures { area.new ≡ field_of (length area.old - 1) places q ++ (after ∷ []) }
{
    let end = area.len() - 1;
    let start = end - places;
    put_whole(&mut area[..start], q / scale, b'.');
    put_columns(&mut area[start..end], q, false);
    area[end] = after;
}

// A candidate's line.
fn put_line(line: &mut [u8], rank: u64, row: Row)
    requires { (length line.old ≡ line_length) × AllNarrow row }
    ensures { line.new ≡ line_of rank row }
{
    put_whole(&mut line[..5], rank, b' ');
    put_field(&mut line[5..14], 2, 100, units(row.x, 100), b' ');
    put_field(&mut line[14..23], 2, 100, units(row.y, 100), b' ');
    put_field(&mut line[23..31], 2, 100, units(row.size, 100), b' ');
    put_field(&mut line[31..37], 3, 1000, units(row.score, 1000), b'\n');
}

// The lines of the first `count` candidates, from the start of the page.
pub fn put_lines(candidates: &[f64], count: usize, page: &mut [u8])
    requires { Fitting candidates.now count (length page.old) }
    ensures { page.new ≡ page_text candidates.now count ++
        drop (line_length * count) page.old }
{
    for i in 0..count {
        let row = row_at(candidates, i);
        let at = LINE_LENGTH * i;
        put_line(&mut page[at..at + LINE_LENGTH], (i + 1) as u64, row);
    }
}
