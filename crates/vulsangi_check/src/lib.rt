//! What is wrong with grammars and themes, and where.
#![tactic(auto)]

pub mod check;
mod clears;
pub mod diagnose;
mod faults;
mod keys;
mod names;
mod proof;
mod variables;

pub use vulsangi_contexts::vulsangi_patterns::vulsangi_grammar;
