// The integral and the adaptive black mask (geometry.rs, "Fiducial detection").
#![tactic(auto)]

pub mod internal;
