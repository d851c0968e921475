// What the programs `most_patches` and `test_most_patches` run.
ghost use Rattle.std.specs.Prelude.{◌≡◌, ◌≤◌, length, take};
ghost use Rattle.checkerboard_text.specs.Text.{Answered, AnsweredWhole};

use crate::{print, read};

// What a program reads of its input: the six bytes of `64 64` and its line feed, and one byte more,
// by which longer input is told from it and refused.
pub const INPUT_LENGTH: usize = 7;
// The longest answer: 64 lines of 65 bytes.
pub const OUTPUT_LENGTH: usize = 64 * 65;

// Puts at the start of `out` what a program prints for its input, and answers how many bytes that
// is. The program has read `n` bytes of the input into the start of `input`: as many as fit, or
// all.
pub fn answer(input: &[u8; INPUT_LENGTH], n: usize, out: &mut [u8; OUTPUT_LENGTH]) -> usize
    requires { n ≤ length input.now }
    ensures answered_whole { AnsweredWhole input.now n (take result out.new) }
    ensures upper_bound { (result ≤ length out.new) × (result ≡ length (take result out.new)) }
{
    answer_text(&input[..n], out)
}

// The same for a text that is the whole input.
fn answer_text(text: &[u8], out: &mut [u8; OUTPUT_LENGTH]) -> usize
    ensures answered { Answered text.now (take result out.new) }
    ensures upper_bound { (result ≤ length out.new) × (result ≡ length (take result out.new)) }
{
    let Some(size) = read::board_size(text) else {
        return patch_text::internal::refused(out);
    };
    let mut mask = [0u8; 64 * 64];
    checkerboard::internal::draw(size.w, size.h, &mut mask);
    print::mask_text(&mask[..size.w * size.h], size, out)
}
