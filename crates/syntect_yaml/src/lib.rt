//! The YAML of grammars: a text's one value, if it has one.
//!
//! A part of YAML is read, as its definition in `specs/` has it: block and flow maps and lists,
//! plain and quoted scalars, literal scalars and comments. Every other text has no value.
#![tactic(auto)]

mod block;
pub mod error;
mod flow;
mod keys;
mod literal;
mod place;
mod plain;
mod quoted;
pub mod read;
mod text;
pub mod value;
