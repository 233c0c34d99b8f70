//! Single steps of a search.
#![tactic(auto)]

pub mod anchor;
pub mod first;
pub mod past;
pub mod text;

pub use syntect_pattern;
pub use syntect_pattern_table;
pub use syntect_pattern_table::syntect_values;
