//! The styles that a theme gives.
//!
//! A `Highlighter` answers the style of a stack of scopes, and the highlight iterators cut a line
//! at the operations that a parser gave for it, each piece with the style of the stack at it.
#![tactic(auto)]

mod buckets;
mod contest;
pub mod cut;
pub mod highlighter;
mod kept;
pub mod laws;
mod others;
pub mod pieces;
mod ready;
mod scores;
pub mod state;

pub use syntect_theme;
pub use syntect_theme::{syntect_base, syntect_scope, syntect_values};
