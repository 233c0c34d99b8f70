//! What stands below, as far as it is used here or passed on.

/// Of `syntect_pattern_table`.
pub mod pattern_table {
    pub use syntect_regex::below::pattern_table::starts;
}

/// Of `syntect_regex`.
pub mod regexes {
    pub use syntect_regex::{error, regex};
}

/// Of `syntect_scope`.
pub mod scope {
    pub use syntect_scope::{repository, scope, stack};
}

/// Of `syntect_values`.
pub mod values {
    pub use syntect_scope::syntect_values::{seq, table, text};
}
