// What every layer shares: definitions in specs/, their laws in proofs/, and numbers in bytes.
#![tactic(auto)]

pub mod internal;
