//! What stands below, as far as it is used here or passed on.

pub use syntect_easy::below::{theme, theme_files, yaml};

/// Of `syntect_base`.
pub mod base {
    pub use syntect_easy::below::base::{loading, utils};
}

/// Of `syntect_scope`.
pub mod scope {
    pub use syntect_easy::below::scope::{repository, scope, stack};
}

/// Of `syntect_style`.
pub mod style {
    pub use syntect_easy::below::style::highlighter;
}
