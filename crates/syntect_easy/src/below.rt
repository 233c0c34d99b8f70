//! What stands below, as far as it is used here or passed on.

pub use syntect_grammar_limits::below::{grammar, metadata, regexes, values};

/// Of `syntect_base`.
pub mod base {
    pub use syntect_style::syntect_base::{
        limits, lines, loading, settings, syntax, theme, tree, utils,
    };
}

/// Of `syntect_count`.
pub mod count {
    pub use syntect_grammar_limits::below::count::count;
}

/// Of `syntect_grammar_limits`.
pub mod grammar_limits {
    pub use syntect_grammar_limits::{first_line_error, folder_error, folders, lenient};
}

/// Of `syntect_parsing`.
pub mod parsing {
    pub use syntect_parsing::{error, laws, parser, syntax_definition, syntax_set, within};
}

/// Of `syntect_scope`.
pub mod scope {
    pub use syntect_operations::syntect_scope::{power, repository, scope, selector, stack};
}

/// Of `syntect_style`.
pub mod style {
    pub use syntect_style::{highlighter, state};
}

/// Of `syntect_theme`.
pub mod theme {
    pub use syntect_style::syntect_theme::{style, theme};
}

/// Of `syntect_theme_files`.
pub mod theme_files {
    pub use syntect_theme_files::theme_set;
}

/// Of `syntect_writers`.
pub mod writers {
    pub use syntect_writers::{laws, spans, terminal};
}

/// Of `syntect_yaml`.
pub mod yaml {
    pub use syntect_grammar_limits::below::yaml::read;
}
