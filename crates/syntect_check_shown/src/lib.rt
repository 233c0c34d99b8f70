//! What grammars hold, as texts: each thing that a definition has on a line of its own, to be
//! compared with what is written, which syntaxes put back what they clear in order, and which
//! patterns are not searched in linear time.
#![tactic(auto)]

pub mod below;
pub mod definitions;
pub mod linear;
pub mod orderly;
