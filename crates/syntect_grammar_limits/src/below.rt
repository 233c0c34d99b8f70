//! What stands below, as far as it is used here or passed on.

pub use syntect_grammar::below::{
    count, grammar_loader, grammar_rewrite, metadata, pattern_seek, pattern_table, regexes, values,
};

/// Of `syntect_base`.
pub mod base {
    pub use syntect_grammar::below::base::{limits, loading, syntax, tree, utils};
}

/// Of `syntect_grammar`.
pub mod grammar {
    pub use syntect_grammar::laws;
}

/// Of `syntect_scope`.
pub mod scope {
    pub use syntect_grammar::below::scope::{repository, scope};
}

/// Of `syntect_yaml`.
pub mod yaml {
    pub use syntect_yaml::{error, read, value};
}
