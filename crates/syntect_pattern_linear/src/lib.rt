//! A search whose steps are bounded by the pattern times the text.
#![tactic(auto)]

mod alike;
mod fill;
pub mod find;
pub mod ground;
mod known;
mod lead;
mod marking;
pub mod marks;
pub mod reach;
pub mod rows;
pub mod walk;

pub use syntect_pattern_plan;
pub use syntect_pattern_plan::{
    syntect_count, syntect_pattern, syntect_pattern_steps, syntect_pattern_table, syntect_values,
};
