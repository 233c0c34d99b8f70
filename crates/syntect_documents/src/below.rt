//! What stands below, as far as it is used here or passed on.

pub use syntect_assets::below::{base, easy, parsing, scope, style, theme, values, writers};

/// Of `syntect_assets`.
pub mod assets {
    pub use syntect_assets::{assets, builder, error, format, lines, screen};
}
