//! A folder of grammars of which the heads alone are read, and sets of those that a syntax can
//! reach.
//!
//! A head is what finders ask for: name, scope, file extensions and first line. The set for a
//! syntax has all syntaxes of the shelf at their places, but contexts of those alone to which
//! reading it can lead.
#![tactic(auto)]

pub mod below;
mod bodies;
mod gathering;
pub mod grammar;
mod head;
mod heads;
mod leads;
mod linking;
pub mod shelf;
pub mod shelf_builder;
