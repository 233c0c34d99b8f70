//! What stands below, as far as it is used here or passed on.

pub use syntect_grammar_limits::below::{
    pattern_seek, pattern_table, regexes, scope, values, yaml,
};

/// Of `syntect_base`.
pub mod base {
    pub use syntect_grammar_limits::below::base::{limits, loading, syntax};
}

/// Of `syntect_count`.
pub mod count {
    pub use syntect_grammar_limits::below::count::{count, meter, stop};
}

/// Of `syntect_grammar_loader`.
pub mod grammar_loader {
    pub use syntect_grammar_limits::below::grammar_loader::definition;
}

/// Of `syntect_metadata`.
pub mod metadata {
    pub use syntect_grammar_limits::below::metadata::{error, metadata, raw, scoped, set};
}
