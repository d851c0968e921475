// What a page is refused for.
ghost use Rattle.std.specs.Prelude.{◌≡◌, OnOk, length};
ghost use Rattle.frame.specs.Refusals.{lowest_of, number_of};
ghost use Rattle.page.specs.Promises.{page_tests};
ghost use Rattle.page.specs.Steps.{Fitting};

use super::rows::every_printable;
use super::{LINE_LENGTH, MOST_CANDIDATES};
use frame::Refusal;

// The lowest refusal. The products 4 * count and 37 * count may not fit 64 bits, so the lengths are
// divided.
pub fn refused(candidates: &[f64], count: usize, page: &[u8]) -> Result<(), Refusal>
    ensures lowest { number_of result ≡ lowest_of (page_tests candidates.now count page.now) }
    ensures fitting { OnOk result (Fitting candidates.now count (length page.now)) }
{
    if candidates.len() / 4 < count {
        return Err(Refusal::AreaShort);
    }
    if page.len() / LINE_LENGTH < count {
        return Err(Refusal::PageShort);
    }
    if MOST_CANDIDATES < count {
        return Err(Refusal::Unprintable);
    }
    if !every_printable(candidates, count) {
        return Err(Refusal::Unprintable);
    }
    Ok(())
}
