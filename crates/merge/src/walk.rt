// A walk through two books, by rising keys.
ghost use Rattle.std.specs.Prelude.{◌≡◌, ◌+◌, ◌^◌, ◌≤◌, ◌<◌};
ghost use Rattle.merge.specs.Steps.{Whole, Within, rest_of, side_of, passed};

use super::records::count;
use book::internal::key_in;
use std::cmp::Ordering;

// How many records of each book are passed.
#[derive(Clone, Copy, Default)]
pub struct Cursors {
    pub first: usize,
    pub second: usize,
}

// The books that the next key stands in.
#[derive(Clone, Copy)]
pub enum Side {
    First,
    Second,
    Both,
}

// Where the least key stands that is not passed.
pub fn next(first: &[u8], second: &[u8], at: Cursors) -> Side
    requires { Whole first.now second.now × Within first.now second.now at }
    ensures { result ≡ side_of (rest_of first.now at.first) (rest_of second.now at.second) }
{
    if at.first == count(first) {
        return Side::Second;
    }
    if at.second == count(second) {
        return Side::First;
    }
    match key_in(first, at.first).cmp(&key_in(second, at.second)) {
        Ordering::Less => Side::First,
        Ordering::Equal => Side::Both,
        Ordering::Greater => Side::Second,
    }
}

// Past the record that has this key, in each book that has one.
pub fn pass(at: Cursors, side: Side) -> Cursors
    requires { (at.first + 1 < 2 ^ 64) × (at.second + 1 < 2 ^ 64) }
    ensures { result ≡ passed at side }
{
    match side {
        Side::First => Cursors {
            first: at.first + 1,
            ..at
        },
        Side::Second => Cursors {
            second: at.second + 1,
            ..at
        },
        Side::Both => Cursors {
            first: at.first + 1,
            second: at.second + 1,
        },
    }
}
