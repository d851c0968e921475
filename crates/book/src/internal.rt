// What the crates above need and the requirements do not call public.
pub use super::keys::{Key, key_in};
pub use super::reader::u32_at;
pub use super::records::record_at;
pub use super::tests::accepted;
pub use super::writer::put_header;
