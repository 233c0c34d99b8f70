//! What stands below, as far as it is used here or passed on.

/// Of `syntect_base`.
pub mod base {
    pub use syntect_style::syntect_base::{loading, theme};
}

/// Of `syntect_scope`.
pub mod scope {
    pub use syntect_operations::syntect_scope::{power, repository, scope, selector, stack};
}

/// Of `syntect_theme`.
pub mod theme {
    pub use syntect_style::syntect_theme::{style, theme};
}

/// Of `syntect_values`.
pub mod values {
    pub use syntect_grammar_rewrite::syntect_values::{seq, table, text};
}
