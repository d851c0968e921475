// Two books of fits joined to one (requirements, 28).
//
// Both books are gone through twice, with a place in each: once to count the keys and to compare
// what they share, and only then to write, so that a refusal changes nothing.
#![tactic(auto)]

pub mod internal; // internal.rt: the limit of a joined book's length
mod fill;
mod plan;
mod records;
mod walk;

ghost use Rattle.merge.specs.Promises.{Merging};

use book::internal::accepted;
use book::{HEADER_LENGTH, RECORD_LENGTH};
use fill::put_joined;
use frame::Refusal;
use plan::{plan_of, too_long};

// Joins two books in `target`, each key once and rising, and answers the joined book's length in
// bytes. Refusals 14 and 15 of the first, 14 and 15 of the second, 3, then 18.
pub fn merge_books(first: &[u8], second: &[u8], target: &mut [u8]) -> Result<usize, Refusal>
    ensures { Merging first.now second.now target.old target.new result }
{
    accepted(first)?;
    accepted(second)?;
    let plan = plan_of(first, second);
    let length = HEADER_LENGTH + RECORD_LENGTH * plan.count;
    if target.len() < length {
        return Err(Refusal::AreaShort);
    }
    if plan.differs | too_long(plan.count) {
        return Err(Refusal::BooksDiffer);
    }
    put_joined(first, second, plan.count, target);
    Ok(length)
}
