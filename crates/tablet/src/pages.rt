// The candidate page for the bench printer.
ghost use Rattle.page.specs.Promises.{Paging};

use super::answers::number_of;

// Lays the first `count` candidates of a flat list out on lines at the start of `page`.
pub fn tablet_candidate_page(candidates: &[f64], count: usize, page: &mut [u8]) -> u32
    ensures { Paging candidates.now count page.old page.new result }
{
    number_of(page::candidate_page(candidates, count, page))
}
