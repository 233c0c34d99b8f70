//! Grammars as their writers see them: their items with the places where they stand, what is looked
//! for in them, and reports of what is found.
#![tactic(auto)]

pub mod findings;
pub mod grammar;
pub mod nearest;
pub mod place;
pub mod report;
pub mod rules;
pub mod scan;
pub mod themes;

pub use syntect;
pub use syntect_yaml;
