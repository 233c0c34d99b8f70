//! What stands below, as far as it is used here or passed on.

pub use syntect_grammar_limits::below::{base, grammar_loader, scope, values, yaml};
