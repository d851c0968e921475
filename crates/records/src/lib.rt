// Patch and candidate lists as lent slices of records, over the flat lists that the core writes: a
// slice is a copy that a caller asks for.
#![tactic(auto)]

pub mod internal; // internal.rt: store and fetch of one record
