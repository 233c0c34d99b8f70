//! Syntaxes of a set.
ghost use Rattle.std.specs.Prelude.{◌≡◌, IfOk};
ghost use Rattle.syntect_grammar_contexts.specs.Contexts.{named_in};

use crate::below::values::seq::Seq;
use crate::below::values::table::Table;
use crate::below::values::text::Text;
use crate::context::{Context, ContextId};
use crate::context_names::ContextNames;
use std::alloc::{AllocError, Global};
use syntect_regex::regex::Regex;
use syntect_scope::scope::Scope;

/// A syntax of a set, of use with that set alone.
#[derive(Drop)]
pub struct SyntaxReference {
    pub name: Text,
    pub file_extensions: Seq<Text>,
    /// The scope of all its text.
    pub scope: Scope,
    /// A pattern that the first line of a file in this syntax matches.
    pub first_line_match: Option<Text>,
    pub hidden: bool,
    pub variables: Table<Text, Text>,
    /// Its place among the syntaxes of the set.
    pub index: usize,
    /// The names of its contexts.
    pub names: ContextNames,
    /// Its contexts, in the order of their names.
    pub contexts: Seq<Context>,
    /// The pattern of `first_line_match`, compiled.
    pub first_line: Option<Regex>,
}

impl Clone for SyntaxReference {
    ghost is_clone = { λ x y. y ≡ x };

    fn clone(&self) -> Result<SyntaxReference, AllocError> {
        Ok(SyntaxReference {
            name: self.name.clone()?,
            file_extensions: copied_texts(&self.file_extensions)?,
            scope: self.scope,
            first_line_match: copied_text(&self.first_line_match)?,
            hidden: self.hidden,
            variables: copied_variables(&self.variables)?,
            index: self.index,
            names: copied_names(&self.names)?,
            contexts: copied_contexts(&self.contexts)?,
            first_line: copied_pattern(self.contexts.allocator(), &self.first_line)?,
        })
    }
}

// What stands in a syntax, once more.

fn copied_texts(texts: &Seq<Text>) -> Result<Seq<Text>, AllocError>
    ensures { IfOk result (λ t. t ≡ texts.now) }
{
    texts.clone()
}

fn copied_names(names: &ContextNames) -> Result<ContextNames, AllocError>
    ensures { IfOk result (λ n. n ≡ names.now) }
{
    names.clone()
}

fn copied_variables(variables: &Table<Text, Text>) -> Result<Table<Text, Text>, AllocError>
    ensures { IfOk result (λ v. v ≡ variables.now) }
{
    variables.clone()
}

fn copied_contexts(contexts: &Seq<Context>) -> Result<Seq<Context>, AllocError>
    ensures { IfOk result (λ c. c ≡ contexts.now) }
{
    contexts.clone()
}

fn copied_text(text: &Option<Text>) -> Result<Option<Text>, AllocError>
    ensures { IfOk result (λ t. t ≡ text.now) }
{
    text.clone()
}

fn copied_pattern(alloc: Global, pattern: &Option<Regex>) -> Result<Option<Regex>, AllocError>
    ensures { IfOk result (λ p. p ≡ pattern.now) }
{
    match pattern {
        Some(pattern) => Ok(Some(pattern.clone(alloc)?)),
        None => Ok(None),
    }
}

/// The context of a name in the syntax of this index, whose contexts have these names.
pub fn context_named(index: usize, names: &ContextNames, name: &str) -> Option<ContextId>
    ensures { result ≡ named_in index names.now name.now }
{
    match names.number_of(name) {
        Some(context_index) => Some(ContextId {
            syntax_index: index,
            context_index,
        }),
        None => None,
    }
}

impl SyntaxReference {
    /// The number of its context of a name, if it has one.
    pub fn context_named(&self, name: &str) -> Option<ContextId>
        ensures { result ≡ named_in self.now.index self.now.names name.now }
    {
        context_named(self.index, &self.names, name)
    }
}
