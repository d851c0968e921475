// What the programs `patches` and `test_patches` run; for `most_patches` and its test program the
// text of a refusal, the length of a line and a mask's size.
ghost use Rattle.std.specs.Prelude.{◌≡◌, ◌≤◌, length, take};
ghost use Rattle.patch_text.specs.Text.{Answered, AnsweredWhole};

pub use crate::print::refused;
pub use crate::read::{Size, line_length};
use crate::{print, read};

// The largest mask is 64 by 64 pixels.
const MOST_PIXELS: usize = 64 * 64;
// What a program reads of its input: the 64 lines of 65 bytes of the largest mask and one byte
// more, by which longer input is told from the largest mask and refused.
pub const INPUT_LENGTH: usize = 64 * 65 + 1;
// The longest answer: three numbers and a record for every other pixel of the largest mask, each
// number at most 20 digits and the letter after it.
pub const OUTPUT_LENGTH: usize = 3 * 21 + 2048 * 168;

// Puts at the start of `out` what a program prints for its input, and answers how many bytes that
// is. The program has read `n` bytes of the input into the start of `input`: as many as fit, or
// all.
pub fn answer(input: &[u8; INPUT_LENGTH], n: usize, out: &mut [u8; OUTPUT_LENGTH]) -> usize
    requires { n ≤ length input.now }
    ensures answered_whole { AnsweredWhole input.now n (take result out.new) }
    ensures upper_bound { (result ≤ length out.new) × (result ≡ length (take result out.new)) }
{
    answer_text(&input[..n], out)
}

// The same for a text that is the whole input.
fn answer_text(text: &[u8], out: &mut [u8; OUTPUT_LENGTH]) -> usize
    ensures answered { Answered text.now (take result out.new) }
    ensures upper_bound { (result ≤ length out.new) × (result ≡ length (take result out.new)) }
{
    let Some(size) = read::mask_size(text) else {
        return print::refused(out);
    };
    let Size { w, h } = size;
    let mut mask = [0u8; MOST_PIXELS];
    let mut seen = [0u8; MOST_PIXELS];
    let mut waiting = [0u32; MOST_PIXELS];
    let mut patches = [0u64; blobs::RECORD_LENGTH * MOST_PIXELS / 2];
    read::fill(text, size, &mut mask);
    let labelled = blobs::label_blobs(
        &mask[..w * h],
        w,
        h,
        &mut seen,
        &mut waiting,
        &mut patches,
    ).unwrap();
    print::list(size, &patches, labelled.patches, out)
}
