// Books of fits.
ghost use Rattle.book.specs.Promises.{Reading, Writing};
ghost use Rattle.merge.specs.Promises.{Merging};
ghost use Rattle.tablet.specs.Slices.{Answering};

// Reads a book of fits into two lists. The count of an accepted one is (book.len() - 16) / 120.
#[unsafe(no_mangle)]
pub extern "C" fn tablet_read_book(book: &[u8], heads: &mut [u32], numbers: &mut [u64]) -> u32
    ensures { Answering result (Reading book.now heads.old numbers.old heads.new numbers.new) }
{
    tablet::tablet_read_book(book, heads, numbers)
}

// Writes the first `count` records of two lists as a book of 16 + 120 * count bytes.
#[unsafe(no_mangle)]
pub extern "C" fn tablet_write_book(
    heads: &[u32],
    numbers: &[u64],
    count: usize,
    book: &mut [u8],
) -> u32
    ensures { Answering result (Writing heads.now numbers.now count book.old book.new) }
{
    tablet::tablet_write_book(heads, numbers, count, book)
}

// Joins two books. The joined book's length is the fourth number of its header.
#[unsafe(no_mangle)]
pub extern "C" fn tablet_merge_books(first: &[u8], second: &[u8], target: &mut [u8]) -> u32
    ensures { Answering result (Merging first.now second.now target.old target.new) }
{
    tablet::tablet_merge_books(first, second, target)
}
