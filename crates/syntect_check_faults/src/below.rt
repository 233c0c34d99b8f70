//! What stands below, as far as it is used here or passed on.

pub use syntect_check_sets::below::{check_calls, values};

/// Of `syntect_base`.
pub mod base {
    pub use syntect_easy::below::base::{settings, utils};
}

/// Of `syntect_parsing`.
pub mod parsing {
    pub use syntect_easy::below::parsing::parser;
}
