//! Queries to the pattern engine, and how long patterns and searches take.
#![tactic(auto)]

pub mod below;
pub mod escapes;
pub mod patterns;
pub mod queries;
pub mod searches;
