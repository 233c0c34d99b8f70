//! What can come after a word in which a match begins: where something else stands there, no match
//! begins in the word.
#![tactic(auto)]

pub mod ends;

pub use syntect_pattern_table;
pub use syntect_pattern_table::syntect_values;
