//! What stands below, as far as it is used here or passed on.

pub use syntect_easy::below::{
    base, grammar_limits, parsing, scope, style, theme, theme_files, values, writers,
};

/// Of `syntect_easy`.
pub mod easy {
    pub use syntect_easy::{
        Error, LoadingError, easy, escape, explain, highlighting, html, laws, parsing, reading,
        util,
    };
}
