//! What is known of a pattern by itself: where it can match, and what its searches cost.
#![tactic(auto)]

pub mod check;
mod costs;
pub mod facts;
pub mod letters;
pub mod places;

pub use vulsangi_grammar;
