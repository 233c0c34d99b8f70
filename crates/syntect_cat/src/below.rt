//! What stands below, as far as it is used here or passed on.

pub use syntect_assets::below::{easy, grammar_limits, parsing, scope, theme, theme_files};

/// Of `syntect_base`.
pub mod base {
    pub use syntect_assets::below::base::{limits, lines, tree};
}

/// Of `syntect_assets`.
pub mod assets {
    pub use syntect_assets::{assets, builder, error, format, screen};
}
