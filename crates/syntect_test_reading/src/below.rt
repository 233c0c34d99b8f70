//! What stands below, as far as it is used here or passed on.

pub use syntect_buffer::below::{scope, values};

/// Of `syntect_easy`.
pub mod easy {
    pub use syntect_buffer::below::easy::{Error, easy, highlighting, html, parsing, util};
}

/// Of `syntect_parsing`.
pub mod parsing {
    pub use syntect_buffer::below::parsing::{parser, syntax_definition, syntax_set};
}
