//! What stands below, as far as it is used here or passed on.

pub use syntect_grammar_contexts::below::scope;

/// Of `syntect_grammar_contexts`.
pub mod grammar_contexts {
    pub use syntect_grammar_contexts::{context, context_names, error, syntax_reference};
}

/// Of `syntect_values`.
pub mod values {
    pub use syntect_grammar_contexts::below::values::{seq, text};
}
