// Out of a book's bytes.
ghost use Rattle.std.specs.Prelude.{◌≡◌, ℕ, ◌+◌, ◌*◌, ◌≤◌, ◌<◌, length};
ghost use Rattle.base.specs.Loops.{filled};
ghost use Rattle.book.specs.Layout.{u32_at, book_length, head_entry, number_entry};

use super::{FIT_NUMBERS, HEAD_NUMBERS, HEADER_LENGTH, RECORD_LENGTH};
use base::internal::little_endian;

// The u32 at place p.
pub fn u32_at(book: &[u8], p: usize) -> u32
    requires { p + 4 ≤ length book.now }
    ensures { result ≡ u32_at book.now p }
{
    little_endian(book, p, 4) as u32
}

// The first n entries of a list, entry i as `entry` reads it.
fn read_list<T: Copy, F: Fn(usize) -> T>(list: &mut [T], n: usize, entry: F)
    requires held { n ≤ length list.old }
    requires called { (i : ℕ) → i < n → F.pre entry i }
    ensures { (f : ℕ → T) → ((i : ℕ) (x : T) → i < n → F.post entry i x → x ≡ f i)
        → list.new ≡ filled f n list.old }
{
    for i in 0..n {
        list[i] = entry(i);
    }
}

// Panel, camera and grade of each record.
pub fn read_heads(book: &[u8], count: usize, heads: &mut [u32])
    requires { (length book.now ≡ book_length count) × (3 * count ≤ length heads.old) }
    ensures { heads.new ≡ filled (head_entry book.now) (3 * count) heads.old }
{
    read_list(heads, HEAD_NUMBERS * count, |i| {
        let at = HEADER_LENGTH + RECORD_LENGTH * (i / HEAD_NUMBERS);
        u32_at(book, at + 4 * (i % HEAD_NUMBERS))
    });
}

// The patterns of each record.
pub fn read_numbers(book: &[u8], count: usize, numbers: &mut [u64])
    requires { (length book.now ≡ book_length count) × (13 * count ≤ length numbers.old) }
    ensures { numbers.new ≡
        filled (number_entry book.now) (13 * count) numbers.old }
{
    read_list(numbers, FIT_NUMBERS * count, |i| {
        let at = HEADER_LENGTH + RECORD_LENGTH * (i / FIT_NUMBERS) + 16;
        little_endian(book, at + 8 * (i % FIT_NUMBERS), 8)
    });
}
