// What a book is refused for. A book is gone through before the first number is stored, so that a
// refusal changes nothing.
ghost use Rattle.std.specs.Prelude.{◌≡◌, ◌+◌, ◌*◌, ◌≤◌, length, OnOk};
ghost use Rattle.frame.specs.Refusals.{answer_for};
ghost use Rattle.book.specs.Layout.{book_length, count_in};
ghost use Rattle.book.specs.Promises.{header_wrong, record_held, records_held, grades_held, book_tests, read_tests, write_tests};
ghost use Rattle.book.specs.Steps.{Readable, Writable};

use super::keys::{key_at, key_in, keys_rise};
use super::reader::u32_at;
use super::{FIT_NUMBERS, HEAD_NUMBERS, HEADER_LENGTH, MOST_RECORDS, RECORD_LENGTH};
use frame::Refusal;

// ---- the bytes of a book

// Header or length is wrong. The total is a whole number, never one modulo 2^32.
fn header_wrong(book: &[u8]) -> bool
    ensures { result ≡ header_wrong book.now }
{
    if book.len() < HEADER_LENGTH {
        return true;
    }
    let count = u32_at(book, 0) as u64;
    let offset = u32_at(book, 4);
    let length = u32_at(book, 8);
    let total = u32_at(book, 12) as u64;
    (offset != 16) | (length != 120) | (total != 16 + 120 * count) | (book.len() as u64 != total)
}

// Grade and zero field of record j are right.
fn record_held(book: &[u8], j: usize) -> bool
    requires { book_length (j + 1) ≤ length book.now }
    ensures { result ≡ record_held book.now j }
{
    let at = HEADER_LENGTH + RECORD_LENGTH * j;
    let grade = u32_at(book, at + 8);
    let zero = u32_at(book, at + 12);
    (grade <= 2) & (zero == 0)
}

// .. of each of the first `count` records.
fn records_held(book: &[u8], count: usize) -> bool
    requires { book_length count ≤ length book.now }
    ensures { result ≡ records_held book.now count }
{
    for j in 0..count {
        if !record_held(book, j) {
            return false;
        }
    }
    true
}

// How many records a book has, or what it is refused for, whatever it is read into.
pub fn accepted(book: &[u8]) -> Result<usize, Refusal>
    ensures given { result ≡ answer_for (book_tests book.now) (count_in book.now) }
    ensures whole { OnOk result (length book.now ≡ book_length (count_in book.now)) }
{
    if header_wrong(book) {
        return Err(Refusal::Malformed);
    }
    let count = (book.len() - HEADER_LENGTH) / RECORD_LENGTH;
    if !records_held(book, count) {
        return Err(Refusal::Malformed);
    }
    if !keys_rise(count, |j| key_in(book, j)) {
        return Err(Refusal::KeysFall);
    }
    Ok(count)
}

// .. or what a call is refused for that reads it into these lists.
pub fn readable(book: &[u8], heads: &[u32], numbers: &[u64]) -> Result<usize, Refusal>
    ensures given { result ≡ answer_for (read_tests book.now heads.now numbers.now) (count_in book.now) }
    ensures held { OnOk result (Readable book.now (length heads.now) (length numbers.now)) }
{
    let count = accepted(book)?;
    if heads.len() / HEAD_NUMBERS < count {
        return Err(Refusal::AreaShort);
    }
    if numbers.len() / FIT_NUMBERS < count {
        return Err(Refusal::AreaShort);
    }
    Ok(count)
}

// ---- the lists of a book to be written

// Each of the first `count` grades is right.
fn grades_held(heads: &[u32], count: usize) -> bool
    requires { 3 * count ≤ length heads.now }
    ensures { result ≡ grades_held heads.now count }
{
    for j in 0..count {
        if 2 < heads[HEAD_NUMBERS * j + 2] {
            return false;
        }
    }
    true
}

// What a call that writes is refused for. The products 3 * count, 13 * count and 120 * count may
// not fit 64 bits, so the lengths are divided.
pub fn writable(heads: &[u32], numbers: &[u64], count: usize, book: &[u8]) -> Result<(), Refusal>
    ensures given { result ≡ answer_for (write_tests heads.now numbers.now count book.now) tt }
    ensures held { OnOk result (Writable (length heads.now) (length numbers.now) count
        (length book.now)) }
{
    if heads.len() / HEAD_NUMBERS < count {
        return Err(Refusal::AreaShort);
    }
    if numbers.len() / FIT_NUMBERS < count {
        return Err(Refusal::AreaShort);
    }
    if book.len() < HEADER_LENGTH {
        return Err(Refusal::AreaShort);
    }
    if (book.len() - HEADER_LENGTH) / RECORD_LENGTH < count {
        return Err(Refusal::AreaShort);
    }
    if MOST_RECORDS < count {
        return Err(Refusal::Malformed);
    }
    if !grades_held(heads, count) {
        return Err(Refusal::Malformed);
    }
    if !keys_rise(count, |j| key_at(heads, j)) {
        return Err(Refusal::KeysFall);
    }
    Ok(())
}
