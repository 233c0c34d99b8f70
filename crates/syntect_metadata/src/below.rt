//! What stands below, as far as it is used here or passed on.

pub use syntect_regex::below::{count, pattern_seek, pattern_steps, pattern_word_ends};

/// Of `syntect_base`.
pub mod base {
    pub use syntect_base::theme;
}

/// Of `syntect_pattern_table`.
pub mod pattern_table {
    pub use syntect_regex::below::pattern_table::starts;
}

/// Of `syntect_regex`.
pub mod regexes {
    pub use syntect_regex::{error, regex, region};
}

/// Of `syntect_scope`.
pub mod scope {
    pub use syntect_base::syntect_scope::{power, repository, scope, selector};
}

/// Of `syntect_values`.
pub mod values {
    pub use syntect_base::syntect_values::{seq, table, text};
}
