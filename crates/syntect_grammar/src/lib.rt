//! Grammars and sets of them. A `SyntaxDefinition` is a grammar as its text has it: named contexts of
//! patterns in order. A `SyntaxSetBuilder` links them: a `SyntaxSet`, whose contexts have numbers.
#![tactic(auto)]

mod apart;
pub mod below;
pub mod error;
pub mod finders;
pub mod folders;
mod heads;
pub mod includes;
mod plain_text;
pub mod syntax_definition;
pub mod syntax_set;
mod syntaxes;
mod unlinked;
mod walk;

pub use syntect_grammar_loader::{laws, yaml_load};
