//! From the text of a pattern to its program.
#![tactic(auto)]

mod builder;
mod classes;
pub mod compiler;
mod needs;
mod reader;

pub use syntect_pattern;
pub use syntect_pattern_table;
pub use syntect_pattern_table::syntect_values;
