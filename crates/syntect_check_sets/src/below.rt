//! What stands below, as far as it is used here or passed on.

pub use syntect_check_calls::below::{
    base, count, metadata, pattern_seek, regexes, style, theme, theme_files, writers,
};
pub use syntect_check_shown::below::{grammar, reading_state};

/// Of `syntect_check_calls`.
pub mod check_calls {
    pub use syntect_check_calls::{calls, given, marks};
}

/// Of `syntect_scope`.
pub mod scope {
    pub use syntect_check_calls::below::scope::{power, repository, selector, stack};
}

/// Of `syntect_values`.
pub mod values {
    pub use syntect_check_shown::below::values::{seq, text};
}
