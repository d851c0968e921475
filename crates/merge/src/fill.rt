// Into the joined book's bytes.
ghost use Rattle.std.specs.Prelude.{◌≡◌, ◌++◌, ◌≤◌, length, drop};
ghost use Rattle.book.specs.Layout.{book_length};
ghost use Rattle.merge.specs.Merged.{size, joined_book};
ghost use Rattle.merge.specs.Steps.{Whole, Held, next_record};

use super::records::copy_record;
use super::walk::{Cursors, Side, next, pass};
use book::internal::put_header;
use book::{HEADER_LENGTH, RECORD_LENGTH};

// The next key's record: the first book's, where both have it.
fn put_next(first: &[u8], second: &[u8], at: Cursors, side: Side, area: &mut [u8])
    requires { Whole first.now second.now × Held first.now second.now at side × (length area.old ≡ 120) }
    ensures { area.new ≡ next_record first.now second.now at side }
{
    match side {
        Side::First | Side::Both => copy_record(first, at.first, area),
        Side::Second => copy_record(second, at.second, area),
    }
}

// The joined book of `count` records, from the start of the area.
pub fn put_joined(first: &[u8], second: &[u8], count: usize, target: &mut [u8])
    requires { Whole first.now second.now × (count ≡ size first.now second.now) × (book_length count ≤ length target.old)
        × (book_length count ≤ 4294967295) }
    ensures { target.new ≡ joined_book first.now second.now ++ drop (book_length count) target.old }
{
    put_header(&mut target[..16], count);
    let mut at = Cursors::default();
    for k in 0..count {
        let side = next(first, second, at);
        let start = HEADER_LENGTH + RECORD_LENGTH * k;
        put_next(
            first,
            second,
            at,
            side,
            &mut target[start..start + RECORD_LENGTH],
        );
        at = pass(at, side);
    }
}
