//! What stands below, as far as it is used here or passed on.

pub use syntect_check_tables::below::check_queries;

/// Of `syntect_easy`.
pub mod easy {
    pub use syntect_buffer::below::easy::{Error, easy, highlighting, parsing, util};
}

/// Of `syntect_base`.
pub mod base {
    pub use syntect_check_tables::below::base::utils;
}
