//! What stands below, as far as it is used here or passed on.

pub use syntect_check_queries::below::regexes;

/// Of `syntect_base`.
pub mod base {
    pub use syntect_style::syntect_base::{loading, utils};
}

/// Of `syntect_check_queries`.
pub mod check_queries {
    pub use syntect_check_queries::{escapes, patterns, queries, searches};
}

/// Of `syntect_scope`.
pub mod scope {
    pub use syntect_operations::syntect_scope::{power, repository, scope, selector, stack};
}

/// Of `syntect_theme`.
pub mod theme {
    pub use syntect_style::syntect_theme::{style, theme};
}
