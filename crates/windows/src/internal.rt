// What crates above need and the requirements do not call public.
pub use super::answers::window_at;
