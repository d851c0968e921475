// What is known of the joined book before it is written.
ghost use Rattle.std.specs.Prelude.{◌≡◌, ◌+◌, ◌^◌, ◌≤◌, ◌<◌, ltb};
ghost use Rattle.book.specs.Layout.{book_length};
ghost use Rattle.merge.specs.Merged.{differs, size};
ghost use Rattle.merge.specs.Steps.{Mergeable, Whole, Held, clash, counted};

use super::records::{count, same_record};
use super::walk::{Cursors, Side, next, pass};
use book::MOST_RECORDS;

// How many different keys there are, and whether a key has other bytes in the other book: the
// count is needed in both cases, since a short target is refused first.
#[derive(Clone, Copy, Default)]
pub struct Plan {
    pub count: usize,
    pub differs: bool,
}

// The joined book of so many records would be longer than its header can say.
pub fn too_long(count: usize) -> bool
    ensures { result ≡ ltb 4294967295 (book_length count) }
{
    MOST_RECORDS < count
}

// Both books have the next key, with different bytes.
fn clash(first: &[u8], second: &[u8], at: Cursors, side: Side) -> bool
    requires { Whole first.now second.now × Held first.now second.now at side }
    ensures { result ≡ clash first.now second.now at side }
{
    match side {
        Side::First | Side::Second => false,
        Side::Both => !same_record(first, at.first, second, at.second),
    }
}

// The plan with the next key in it.
fn count_key(first: &[u8], second: &[u8], at: Cursors, side: Side, p: Plan) -> Plan
    requires { Whole first.now second.now × Held first.now second.now at side × (p.count + 1 < 2 ^ 64) }
    ensures { result ≡ counted first.now second.now at side p }
{
    Plan {
        count: p.count + 1,
        differs: p.differs | clash(first, second, at, side),
    }
}

// The plan of the joined book.
pub fn plan_of(first: &[u8], second: &[u8]) -> Plan
    requires { Mergeable first.now second.now }
    ensures { (result.count ≡ size first.now second.now) × (result.differs ≡ differs first.now second.now)
        × (result.count < 2 ^ 33) }
{
    let firsts = count(first);
    let seconds = count(second);
    let mut at = Cursors::default();
    let mut p = Plan::default();
    while (at.first < firsts) | (at.second < seconds) {
        let side = next(first, second, at);
        p = count_key(first, second, at, side, p);
        at = pass(at, side);
    }
    p
}
