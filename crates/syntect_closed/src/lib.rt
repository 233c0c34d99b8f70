//! What a set needs of the syntaxes that it holds: parts of it that no reference leads out of, sets
//! in which the other syntaxes stand as heads alone, and laws of both.
//!
//! A head is what finders ask for: name, scope, file extensions and first line. A set in which each
//! syntax that can be reached from some of them is whole reads these as the set of all does.
#![tactic(auto)]

pub mod laws;
