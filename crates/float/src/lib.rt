// The float operations of the requirements (4), each as IEEE 754 and Rust have it. Every function
// takes every value, NaNs, infinities and both zeros too, and its contract is an equation with a
// definition of specs/.
#![tactic(auto)]

pub mod internal;
mod order;
mod pattern;
mod root;
mod rounding;
mod sign;
mod whole;
mod width;

pub use order::{clamp, max};
pub use pattern::{from_bits, to_bits};
pub use root::sqrt;
pub use rounding::round;
pub use sign::{abs, signum};
pub use whole::{to_u8, to_usize};
pub use width::{narrow, widen};
