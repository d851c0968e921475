// The keys of records, and whether they rise.
ghost use Rattle.std.specs.Prelude.{◌≡◌, ℕ, ◌+◌, ◌*◌, ◌≤◌, ◌<◌, length};
ghost use Rattle.book.specs.Layout.{book_length, key_in, key_at};
ghost use Rattle.book.specs.Promises.{keys_rise};
ghost use Rattle.book.specs.declared.keys.Key as declared;

use super::reader::u32_at;
use super::{HEAD_NUMBERS, HEADER_LENGTH, RECORD_LENGTH};

// What a record stands under. The derived order is by panel, then by camera.
#[derive(Clone, Copy, PartialEq, Eq, PartialOrd, Ord)]
pub struct Key {
    pub panel: u32,
    pub camera: u32,
}

// The key of record j of a book.
pub fn key_in(book: &[u8], j: usize) -> Key
    requires { book_length (j + 1) ≤ length book.now }
    ensures { result ≡ key_in book.now j }
{
    let at = HEADER_LENGTH + RECORD_LENGTH * j;
    Key {
        panel: u32_at(book, at),
        camera: u32_at(book, at + 4),
    }
}

// The key of record j of the lists.
pub fn key_at(heads: &[u32], j: usize) -> Key
    requires { 3 * (j + 1) ≤ length heads.now }
    ensures { result ≡ key_at heads.now j }
{
    let at = HEAD_NUMBERS * j;
    Key {
        panel: heads[at],
        camera: heads[at + 1],
    }
}

// Each of `count` keys but the last is below the next.
pub fn keys_rise<F: Fn(usize) -> Key>(count: usize, key: F) -> bool
    requires { (j : ℕ) → j < count → F.pre key j }
    ensures { (f : ℕ → declared.Key) → ((j : ℕ) (k : declared.Key) → j < count → F.post key j k → k ≡ f j)
        → result ≡ keys_rise f count }
{
    for j in 1..count {
        let rises = key(j - 1) < key(j);
        if !rises {
            return false;
        }
    }
    true
}
