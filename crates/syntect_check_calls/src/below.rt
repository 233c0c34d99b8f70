//! What stands below, as far as it is used here or passed on.

pub use syntect_metadata::below::{base, pattern_seek};

/// Of `syntect_count`.
pub mod count {
    pub use syntect_metadata::below::count::{count, meter};
}

/// Of `syntect_metadata`.
pub mod metadata {
    pub use syntect_metadata::{metadata, scoped};
}

/// Of `syntect_regex`.
pub mod regexes {
    pub use syntect_metadata::below::regexes::{regex, region};
}

/// Of `syntect_scope`.
pub mod scope {
    pub use syntect_operations::syntect_scope::{power, repository, scope, selector, stack};
}

/// Of `syntect_style`.
pub mod style {
    pub use syntect_style::{highlighter, state};
}

/// Of `syntect_theme`.
pub mod theme {
    pub use syntect_style::syntect_theme::{style, theme};
}

/// Of `syntect_theme_files`.
pub mod theme_files {
    pub use syntect_theme_files::{theme_load, theme_set};
}

/// Of `syntect_values`.
pub mod values {
    pub use syntect_operations::syntect_values::{seq, text};
}

/// Of `syntect_writers`.
pub mod writers {
    pub use syntect_writers::{escape, terminal};
}
