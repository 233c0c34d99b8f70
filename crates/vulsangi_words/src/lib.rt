//! The words of the program `vulsangi`, and what they ask for.
#![tactic(auto)]

pub mod form;
pub mod ranges;
pub mod words;
