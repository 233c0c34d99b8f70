//! What stands below, as far as it is used here or passed on.

pub use syntect_grammar::below::{
    count, grammar_lists, pattern, pattern_seek, pattern_steps, pattern_table, pattern_word_ends,
    scope, yaml,
};

/// Of `syntect_base`.
pub mod base {
    pub use syntect_grammar::below::base::limits;
}

/// Of `syntect_grammar`.
pub mod grammar {
    pub use syntect_grammar::{error, syntax_definition, syntax_set, yaml_load};
}

/// Of `syntect_regex`.
pub mod regexes {
    pub use syntect_grammar::below::regexes::{regex, region};
}

/// Of `syntect_values`.
pub mod values {
    pub use syntect_grammar::below::values::{seq, text};
}
