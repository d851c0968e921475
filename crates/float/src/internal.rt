// What the crates above need and the requirements do not name: a count as a float.
pub use super::whole::to_f64;
