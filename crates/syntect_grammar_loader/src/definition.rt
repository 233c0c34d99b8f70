//! Grammars as they were written.
use crate::below::scope::scope::Scope;
use crate::below::values::seq::Seq;
use crate::below::values::table::Table;
use crate::below::values::text::Text;
use std::alloc::AllocError;
use syntect_grammar_contexts::context::Context;

/// A grammar as it was written.
#[derive(Clone, Drop, PartialEq, Eq)]
pub struct SyntaxDefinition {
    pub name: Text,
    pub file_extensions: Seq<Text>,
    /// The scope of all its text.
    pub scope: Scope,
    /// A pattern that the first line of a file in this syntax matches.
    pub first_line_match: Option<Text>,
    pub hidden: bool,
    pub variables: Table<Text, Text>,
    /// Contexts by name. Reading begins in `__start`.
    pub contexts: Table<Text, Context>,
}
