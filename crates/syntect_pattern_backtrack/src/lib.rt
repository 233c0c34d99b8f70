//! The search of a pattern: a machine whose choices stand in lists of its own.
#![tactic(auto)]

mod back;
mod dead;
mod engine;
mod enter;
mod lines;
pub mod needed;
mod pass;
pub mod state;
mod stretch;
mod turns;

pub use syntect_count;
pub use syntect_pattern_steps;
pub use syntect_pattern_steps::{syntect_pattern, syntect_pattern_table};
