//! What stands below, as far as it is used here or passed on.

pub use syntect_reading_state::below::scope;

/// Of `syntect_grammar`.
pub mod grammar {
    pub use syntect_reading_state::below::grammar::{syntax_definition, syntax_set};
}

/// Of `syntect_reading_state`.
pub mod reading_state {
    pub use syntect_reading_state::syntax_definition;
}

/// Of `syntect_values`.
pub mod values {
    pub use syntect_values::{seq, table, text};
}
