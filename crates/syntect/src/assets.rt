//! Grammars and themes in one value, and texts that are shown with them in one call.
pub use syntect_buffer::below::assets::assets::{Assets, Shown};
pub use syntect_buffer::below::assets::builder::AssetsBuilder;
pub use syntect_buffer::below::assets::error::AssetsError;
pub use syntect_buffer::below::assets::format::{Colors, Format};
pub use syntect_buffer::below::assets::lines::PlainLine;
