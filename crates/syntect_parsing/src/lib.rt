//! How a line is read with grammars that are linked.
//!
//! A `ParseState` reads text line by line with a `SyntaxSet`.
//! The modules of grammars are those of `syntect_grammar`.
#![tactic(auto)]

pub mod below;
mod captures;
mod emit;
pub mod laws;
mod levels;
pub mod parser;
mod taken;
mod turn;
pub mod within;

pub use crate::below::grammar::{error, syntax_set, yaml_load};
pub use crate::below::reading_state::syntax_definition;
