//! Patterns and their searches.
#![tactic(auto)]

pub mod below;
mod body;
mod compiled;
mod details;
mod edges;
pub mod error;
mod looks;
mod outline;
pub mod regex;
pub mod region;
