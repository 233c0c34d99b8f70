//! Grammars as they were written, and how they are read from their text.
//!
//! A `SyntaxDefinition` has contexts by their names, each with patterns in order. The rules are
//! those of Sublime Text's syntax definitions.
#![tactic(auto)]

pub mod below;
pub mod definition;
pub mod files;
pub mod laws;
pub mod yaml_load;
pub mod yaml_load_contexts;
mod yaml_load_parts;
mod yaml_load_state;
pub mod yaml_load_values;
