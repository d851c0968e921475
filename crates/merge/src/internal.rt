// What the crates above need and the requirements do not call public.
pub use super::plan::too_long;
