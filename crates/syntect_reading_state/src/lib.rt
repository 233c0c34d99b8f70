//! What reading keeps: how a context was opened, with the texts that its patterns are given, and
//! what a line remembers of the searches that were made in it.
#![tactic(auto)]

pub mod below;
pub mod hints;
pub mod losses;
mod match_iter;
pub mod memory;
pub mod names;
pub mod opening;
pub mod references;
pub mod substitutes;
pub mod syntax_definition;
