//! What writers of grammars and themes ask: what is wrong with a grammar, whether it passes its
//! tests, and which scopes and rules gave a character its colour.
#![tactic(auto)]

pub mod origins;
pub mod run;
pub mod scopes;
pub mod tests;
