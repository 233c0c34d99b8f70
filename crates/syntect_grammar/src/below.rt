//! What stands below, as far as it is used here or passed on.

pub use syntect_grammar_linker::below::{grammar_contexts, scope};
pub use syntect_grammar_loader::below::{base, grammar_rewrite, pattern, values, yaml};
pub use syntect_metadata::below::{
    count, pattern_seek, pattern_steps, pattern_table, pattern_word_ends, regexes,
};

/// Of `syntect_grammar_lists`.
pub mod grammar_lists {
    pub use syntect_grammar_lists::{flats, list};
}

/// Of `syntect_grammar_loader`.
pub mod grammar_loader {
    pub use syntect_grammar_loader::{definition, yaml_load, yaml_load_contexts, yaml_load_values};
}

/// Of `syntect_metadata`.
pub mod metadata {
    pub use syntect_metadata::{error, items, metadata, raw, scoped, set};
}
