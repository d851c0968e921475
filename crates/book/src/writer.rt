// Into a book's bytes. Each function but the last fills the whole slice that it is lent.
ghost use Rattle.std.specs.Prelude.{◌≡◌, ◌++◌, ◌*◌, ◌≤◌, length, drop};
ghost use Rattle.base.specs.Loops.{joined};
ghost use Rattle.book.specs.Layout.{book_length, header, number_bytes, record_bytes, book_bytes, record_at};
ghost use Rattle.book.specs.Steps.{Writable};

use super::records::record_at;
use super::{FitRecord, HEADER_LENGTH, RECORD_LENGTH};
use base::internal::put_little_endian;

// Numbers one after another, each in `width` bytes.
fn put_numbers(area: &mut [u8], width: usize, numbers: &[u64])
    requires { length area.old ≡ width * length numbers.now }
    ensures { area.new ≡ joined (number_bytes width numbers.now) (length numbers.now) }
{
    for i in 0..numbers.len() {
        let at = width * i;
        put_little_endian(&mut area[at..at + width], numbers[i]);
    }
}

// The header of a book of `count` records.
pub fn put_header(area: &mut [u8], count: usize)
    requires { (length area.old ≡ 16) × (book_length count ≤ 4294967295) }
    ensures { area.new ≡ header count }
{
    let total = HEADER_LENGTH + RECORD_LENGTH * count;
    let words = [
        count as u64,
        HEADER_LENGTH as u64,
        RECORD_LENGTH as u64,
        total as u64,
    ];
    put_numbers(area, 4, &words);
}

// A record.
fn put_record(area: &mut [u8], kept: FitRecord)
    requires { length area.old ≡ 120 }
    ensures { area.new ≡ record_bytes kept }
{
    let words = [kept.panel as u64, kept.camera as u64, kept.grade as u64, 0];
    put_numbers(&mut area[..16], 4, &words);
    put_numbers(&mut area[16..], 8, &kept.numbers);
}

// The book of the first `count` records of the lists, from the start of the area.
pub fn put_book(heads: &[u32], numbers: &[u64], count: usize, book: &mut [u8])
    requires { Writable (length heads.now) (length numbers.now) count (length book.old) }
    ensures { book.new ≡ book_bytes (record_at heads.now numbers.now) count ++
        drop (book_length count) book.old }
{
    put_header(&mut book[..16], count);
    for j in 0..count {
        let kept = record_at(heads, numbers, j);
        let at = HEADER_LENGTH + RECORD_LENGTH * j;
        put_record(&mut book[at..at + RECORD_LENGTH], kept);
    }
}
