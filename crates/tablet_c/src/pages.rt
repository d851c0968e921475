// The candidate page for the bench printer.
ghost use Rattle.page.specs.Promises.{Paging};

// Lays the first `count` candidates of a flat list out on lines at the start of `page`.
#[unsafe(no_mangle)]
pub extern "C" fn tablet_candidate_page(candidates: &[f64], count: usize, page: &mut [u8]) -> u32
    ensures { Paging candidates.now count page.old page.new result }
{
    tablet::tablet_candidate_page(candidates, count, page)
}
