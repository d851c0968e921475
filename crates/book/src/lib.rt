// A book of fits (requirements, 18): fits kept by panel and camera, in a fixed layout of bytes.
//
// The thirteen numbers of a record are bit patterns, u64 from the bytes to the lists and back: a
// NaN has many patterns, and an `f64` of the language does not say which.
#![tactic(auto)]

mod constants;
pub mod internal;
mod keys;
mod reader;
mod records;
mod tests;
mod writer;

ghost use Rattle.std.specs.Prelude.{◌≡◌};
ghost use Rattle.book.specs.Layout.{record_of, fit_in};
ghost use Rattle.book.specs.Promises.{Reading, Writing};

use fit::{GeometryFit, Grade};
use frame::Refusal;
use reader::{read_heads, read_numbers};
use tests::{readable, writable};
use writer::put_book;

// Bytes of the header.
pub const HEADER_LENGTH: usize = 16;
// Bytes of a record.
pub const RECORD_LENGTH: usize = 120;
// The total of one record more does not fit the header's u32.
pub const MOST_RECORDS: usize = 35_791_393;
// A record's numbers in the list of heads: panel, camera, grade.
pub const HEAD_NUMBERS: usize = 3;
// A record's numbers in the list of numbers: nine matrix entries by rows, k, cx, cy, norm.
pub const FIT_NUMBERS: usize = 13;

// A record of a book. The grade is 0 where the fit was scored, 1 where a tap was outside the
// picture, 2 where too few cells were sampled: a number, since lists that are not yet tested may
// hold any.
#[derive(Clone, Copy)]
pub struct FitRecord {
    pub panel: u32,
    pub camera: u32,
    pub grade: u32,
    pub numbers: [u64; 13],
}

// Reads a book into the two lists, and answers how many records it has. Refusals 14, 15, then 3.
pub fn read_book(book: &[u8], heads: &mut [u32], numbers: &mut [u64]) -> Result<usize, Refusal>
    ensures { Reading book.now heads.old numbers.old heads.new
        numbers.new result }
{
    let count = readable(book, heads, numbers)?;
    read_heads(book, count, heads);
    read_numbers(book, count, numbers);
    Ok(count)
}

// Writes the first `count` records of the two lists as a book, and answers its length in bytes.
// Refusals 3, 14 and 15.
pub fn write_book(
    heads: &[u32],
    numbers: &[u64],
    count: usize,
    book: &mut [u8],
) -> Result<usize, Refusal>
    ensures { Writing heads.now numbers.now count book.old
        book.new result }
{
    writable(heads, numbers, count, book)?;
    put_book(heads, numbers, count, book);
    Ok(HEADER_LENGTH + RECORD_LENGTH * count)
}

// The record that keeps a fit. A NaN of the fit, which has no pattern of its own, becomes
// 0x7ff8000000000000.
pub fn record_of(panel: u32, camera: u32, grade: Grade, fit: GeometryFit) -> FitRecord
    ensures { result ≡ record_of panel camera grade fit }
{
    FitRecord {
        panel,
        camera,
        grade: fit::internal::grade_number(grade) as u32,
        numbers: fit::internal::fit_numbers(fit).map(|x| float::to_bits(x)),
    }
}

impl FitRecord {
    // The fit that a record keeps. Every pattern of a NaN gives a NaN.
    pub fn fit(self) -> GeometryFit
        ensures { result ≡ fit_in self }
    {
        fit::internal::fit_of(&self.numbers.map(|p| float::from_bits(p)))
    }
}
