//! Searches whose steps are bounded.
#![tactic(auto)]

pub mod depths;
pub mod prospect;
pub mod seek;

pub use syntect_pattern_backtrack;
pub use syntect_pattern_backtrack::{syntect_count, syntect_pattern_steps};
pub use syntect_pattern_compile;
pub use syntect_pattern_compile::{syntect_pattern, syntect_pattern_table};
pub use syntect_pattern_linear::syntect_pattern_plan;
