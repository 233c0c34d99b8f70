//! What stands below, as far as it is used here or passed on.

pub use syntect_reading_state::below::{
    base, count, grammar, grammar_lists, pattern, pattern_steps, pattern_table, pattern_word_ends,
    regexes, values, yaml,
};

/// Of `syntect_pattern_seek`.
pub mod pattern_seek {
    pub use syntect_reading_state::below::pattern_seek::prospect;
}

/// Of `syntect_reading_state`.
pub mod reading_state {
    pub use syntect_reading_state::{names, opening, references, syntax_definition};
}

/// Of `syntect_scope`.
pub mod scope {
    pub use syntect_reading_state::below::scope::{scope, stack};
}
