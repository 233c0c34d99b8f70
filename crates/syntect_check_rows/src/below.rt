//! What stands below, as far as it is used here or passed on.

pub use syntect_check_shown::below::values;
pub use syntect_check_tables::below::regexes;
pub use syntect_easy::below::{base, parsing, scope, theme, theme_files};

/// Of `syntect_check_queries`.
pub mod check_queries {
    pub use syntect_check_tables::below::check_queries::escapes;
}
