//! What patterns are: the tree that a text reads as, and what that matches.
#![tactic(auto)]

pub mod anchor;
pub mod character;
pub mod error;
pub mod folds;
pub mod laws;
pub mod letters;
pub mod named;
