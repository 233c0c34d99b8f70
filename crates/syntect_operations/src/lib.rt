//! Operations of a line one after another: whether they are in order, the ranges and regions
//! between them, and their text for debugging.
#![tactic(auto)]

pub mod order;
pub mod print;
pub mod ranges;

pub use syntect_scope;
pub use syntect_scope::syntect_values;
