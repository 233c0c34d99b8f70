//! The plan of a pattern: its parts with what goes on after each,
//! by which a search needn't back up.
#![tactic(auto)]

pub mod cells;
pub mod facts;
pub mod order;
pub mod passes;
pub mod plan;
pub mod sight;
pub mod spelt;

pub use syntect_count;
pub use syntect_pattern_steps;
pub use syntect_pattern_steps::{syntect_pattern, syntect_pattern_table, syntect_values};
