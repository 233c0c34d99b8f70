//! What stands below, as far as it is used here or passed on.

pub use syntect_grammar_contexts::below::regexes;

/// Of `syntect_base`.
pub mod base {
    pub use syntect_base::{limits, loading, syntax, theme, tree, utils};
}

/// Of `syntect_grammar_rewrite`.
pub mod grammar_rewrite {
    pub use syntect_grammar_rewrite::lengths;
}

/// Of `syntect_pattern`.
pub mod pattern {
    pub use syntect_base::syntect_pattern::{anchor, laws};
}

/// Of `syntect_scope`.
pub mod scope {
    pub use syntect_base::syntect_scope::{repository, scope, stack};
}

/// Of `syntect_values`.
pub mod values {
    pub use syntect_grammar_rewrite::syntect_values::{seq, table, text};
}

/// Of `syntect_yaml`.
pub mod yaml {
    pub use syntect_yaml::{error, read, value};
}
