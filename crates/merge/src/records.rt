// A book's records by their bytes.
ghost use Rattle.std.specs.Prelude.{◌≡◌, ◌+◌, ◌^◌, ◌≤◌, ◌<◌, length};
ghost use Rattle.book.specs.Layout.{book_length, count_in};
ghost use Rattle.merge.specs.Merged.{record_in, same_record};

use book::internal::u32_at;
use book::{HEADER_LENGTH, RECORD_LENGTH};

// How many records the header says.
pub fn count(book: &[u8]) -> usize
    requires { 16 ≤ length book.now }
    ensures { (result ≡ count_in book.now) × (result < 2 ^ 32) }
{
    u32_at(book, 0) as usize
}

// Record i of the first book has the bytes of record j of the second. They are not compared as
// floats: two NaNs, or two zeros, may have different bits.
pub fn same_record(first: &[u8], i: usize, second: &[u8], j: usize) -> bool
    requires { (book_length (i + 1) ≤ length first.now) × (book_length (j + 1) ≤ length second.now) }
    ensures { result ≡ same_record (record_in first.now i) (record_in second.now j) }
{
    let at = HEADER_LENGTH + RECORD_LENGTH * i;
    let from = HEADER_LENGTH + RECORD_LENGTH * j;
    first[at..at + RECORD_LENGTH] == second[from..from + RECORD_LENGTH]
}

// Record j of a book, into an area of its length.
pub fn copy_record(book: &[u8], j: usize, area: &mut [u8])
    requires { (book_length (j + 1) ≤ length book.now) × (length area.old ≡ 120) }
    ensures { area.new ≡ record_in book.now j }
{
    let at = HEADER_LENGTH + RECORD_LENGTH * j;
    area.copy_from_slice(&book[at..at + RECORD_LENGTH]);
}
