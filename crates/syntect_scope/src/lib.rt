//! Scopes, the repository of their atoms, stacks of scopes, selectors and their scores.
//!
//! A scope names a piece of text, as `string.quoted.double.json`: up to eight atoms, from the
//! general to the particular. A repository numbers the atoms, so that a scope is a
//! short list of numbers.
#![tactic(auto)]

pub mod hook;
pub mod laws;
mod matching;
pub mod power;
mod print;
mod reading;
pub mod repository;
pub mod scope;
pub mod selector;
pub mod stack;

pub use syntect_values;
