//! Contexts of grammars: their patterns, what references name, and the syntaxes of a set.
//!
//! A context has patterns that are tried in order; a match may open further contexts, put others in
//! the place of the top one, or leave it. A syntax of a set has its contexts in the
//! order of their names.
#![tactic(auto)]

pub mod below;
pub mod context;
pub mod context_names;
pub mod error;
mod substitution;
pub mod syntax_reference;
