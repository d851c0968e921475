// The candidate page for the bench printer (requirements, 17): what the detector saw, a line for
// each candidate.
#![tactic(auto)]

ghost use Rattle.frame.specs.Refusals.{number_of};
ghost use Rattle.page.specs.Promises.{Paging};

use frame::Refusal;
use tests::refused;
use text::put_lines;

mod amount;
mod constants;
mod rows;
mod tests;
mod text;

// A line of the page: 36 columns and a line feed.
pub const LINE_LENGTH: usize = 37;
// The ranks have four columns.
pub const MOST_CANDIDATES: usize = 9999;

// The numbers of a line, in the page's order.
#[derive(Clone, Copy)]
pub struct Row {
    pub x: f64,
    pub y: f64,
    pub size: f64,
    pub score: f64,
}

// Lays the first `count` candidates of a flat list out on lines at the start of `page`.
pub fn candidate_page(candidates: &[f64], count: usize, page: &mut [u8]) -> Result<(), Refusal>
    ensures { Paging candidates.now count page.old page.new (number_of result) }
{
    refused(candidates, count, page)?;
    put_lines(candidates, count, page);
    Ok(())
}
