//! The words of a pattern's text: its escapes, openings, quantifiers and the parts of its classes.
#![tactic(auto)]

pub mod escapes;
pub mod members;
mod names;
pub mod openings;
pub mod quantifiers;
pub mod text;
pub mod tokens;
