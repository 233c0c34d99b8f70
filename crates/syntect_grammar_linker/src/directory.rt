//! Where references lead.
ghost use Rattle.std.specs.Prelude.{◌≡◌, ℕ, List, codes, unwrap_or, IfOk, None};
ghost use Rattle.std.specs.BTreeMap as tree;
ghost use Rattle.std.specs.Cmp.Lexicographic.{slice_cmp};
ghost use Rattle.std.specs.Ordering.{nat_cmp};
ghost use Rattle.std.specs.Option.{option_and_then, option_copied};
ghost use Rattle.syntect_grammar_linker.specs.References.{context_named, meant, last_that, has_scope, has_name, context_by, or_plain_text, link_of, linked_reference};
ghost use Rattle.syntect_grammar_linker.specs.Reached.{names_at};

use crate::below::scope::scope::Scope;
use crate::below::values::text::Text;
use std::alloc::{AllocError, Global};
use std::collections::BTreeMap;
use std::marker::Model;
use syntect_grammar_contexts::context::{ContextId, ContextReference};
use syntect_grammar_contexts::context_names::ContextNames;
use syntect_grammar_contexts::syntax_reference::{SyntaxReference, context_named};

/// The name that a reference means: `$top_level_main` is `main`.
fn meant(name: &str) -> &str
    ensures { result.now ≡ meant name.now }
{
    if name == "$top_level_main" {
        "main"
    } else {
        name
    }
}

/// A text that there may be.
fn text_of(text: &Option<Text>) -> Option<&str>
    ensures { option_copied result ≡ text.now }
{
    match text {
        Some(text) => Some(text.as_str()),
        None => None,
    }
}

/// The heads of the syntaxes that are linked, with the last one of each scope and of each name.
#[derive(Drop)]
pub(crate) struct Directory<'a> {
    heads: &'a [SyntaxReference],
    by_scope: BTreeMap<Scope, usize>,
    by_name: BTreeMap<&'a str, usize>,
    /// The names of the contexts of a syntax that isn't there.
    none: ContextNames,
}

impl<'a> Model for Directory<'a> {
    ghost use Rattle.std.specs.Prelude.{◌≡◌, ℕ, List, []};
    ghost use Rattle.std.specs.Cmp.Lexicographic.{slice_cmp};
    ghost use Rattle.std.specs.Ordering.{nat_cmp};
    ghost use Rattle.std.specs.BTreeMap as tree;
    ghost use Rattle.syntect_grammar_linker.specs.References.{last_that, has_scope, has_name};
    ghost use Rattle.syntect_grammar_contexts.specs.declared.syntax_reference.SyntaxReference.{SyntaxReference};

    ghost Value = { List SyntaxReference };

    ghost view = { λ a. a.heads.now };

    ghost invariant = { λ a. ((scope : List ℕ) → tree.get (slice_cmp nat_cmp) a.by_scope scope
        ≡ last_that (has_scope scope) a.heads.now)
        × ((name : List ℕ) → tree.get_by (λ k. slice_cmp nat_cmp name k.now) a.by_name
        ≡ last_that (has_name name) a.heads.now)
        × (a.none ≡ []) };
}

/// The last syntax of each scope.
fn last_by_scope(
    alloc: Global,
    heads: &[SyntaxReference],
) -> Result<BTreeMap<Scope, usize>, AllocError>
    ensures { IfOk result (λ m. (scope : List ℕ) → tree.get (slice_cmp nat_cmp) m scope
        ≡ last_that (has_scope scope) heads.now) }
{
    let mut places = BTreeMap::new(alloc);
    for (place, head) in heads.iter().enumerate() {
        places.insert(head.scope, place)?;
    }
    Ok(places)
}

/// The last syntax of each name.
fn last_by_name<'a>(
    alloc: Global,
    heads: &'a [SyntaxReference],
) -> Result<BTreeMap<&'a str, usize>, AllocError>
    ensures { IfOk result (λ m. (name : List ℕ)
        → tree.get_by (λ k. slice_cmp nat_cmp name k.now) m
        ≡ last_that (has_name name) heads.now) }
{
    let mut places = BTreeMap::new(alloc);
    for (place, head) in heads.iter().enumerate() {
        places.insert(head.name.as_str(), place)?;
    }
    Ok(places)
}

impl<'a> Directory<'a> {
    /// The tables of these heads.
    pub(crate) fn new(
        alloc: Global,
        heads: &'a [SyntaxReference],
    ) -> Result<Directory<'a>, AllocError>
        ensures { IfOk result (λ d. d ≡ heads.now) }
    {
        Ok(Directory {
            heads,
            by_scope: last_by_scope(alloc, heads)?,
            by_name: last_by_name(alloc, heads)?,
            none: ContextNames::new(alloc),
        })
    }

    /// The names of the contexts of a syntax.
    pub(crate) fn names(&self, index: usize) -> &ContextNames
        ensures { result.now ≡ names_at self.now index }
    {
        match self.heads.get(index) {
            Some(head) => &head.names,
            None => &self.none,
        }
    }

    /// The context of a name in the syntax of this index.
    pub(crate) fn context_named(&self, index: usize, name: &str) -> Option<ContextId>
        ensures { result ≡ context_named self.now index name.now }
    {
        let head = self.heads.get(index)?;
        context_named(index, &head.names, name)
    }

    /// The context of this name, else `main`, in the syntax of a place.
    fn context_at(&self, place: Option<usize>, sub_context: Option<&str>) -> Option<ContextId>
        ensures { result ≡ option_and_then (λ index.
            context_named self.now index
            (unwrap_or (option_copied sub_context.entry) (codes "main"))) place }
    {
        self.context_named(place?, sub_context.unwrap_or("main"))
    }

    /// The context of this name, else `main`, in the last syntax of a scope.
    fn by_scope(&self, scope: Scope, sub_context: Option<&str>) -> Option<ContextId>
        ensures { result ≡ context_by (has_scope scope) self.now (option_copied sub_context.entry) }
    {
        self.context_at(self.by_scope.get(&scope).copied(), sub_context)
    }

    /// The context of this name, else `main`, in the last syntax of a name.
    fn by_name(&self, name: &str, sub_context: Option<&str>) -> Option<ContextId>
        ensures { result ≡ context_by (has_name name.now) self.now
            (option_copied sub_context.entry) }
    {
        self.context_at(self.by_name.get(name).copied(), sub_context)
    }

    /// What was found, else `main` of plain text for a reference with a way out.
    fn or_plain_text(&self, with_escape: bool, found: Option<ContextId>) -> Option<ContextId>
        ensures { result ≡ or_plain_text self.now with_escape found }
    {
        match found {
            Some(id) => Some(id),
            None if with_escape => self.by_name("Plain Text", None),
            None => None,
        }
    }

    /// What a reference stands for in the syntax of this index.
    pub(crate) fn link_of(&self, index: usize, reference: &ContextReference) -> Option<ContextId>
        ensures { result ≡ link_of self.now index reference.now }
    {
        match reference {
            ContextReference::Named(name) | ContextReference::Inline(name) => {
                self.context_named(index, meant(name.as_str()))
            }
            ContextReference::ByScope {
                scope,
                sub_context,
                with_escape,
            } => {
                let found = self.by_scope(*scope, text_of(sub_context));
                self.or_plain_text(*with_escape, found)
            }
            ContextReference::File {
                name,
                sub_context,
                with_escape,
            } => {
                let found = self.by_name(name.as_str(), text_of(sub_context));
                self.or_plain_text(*with_escape, found)
            }
            ContextReference::Direct(id) => Some(*id),
        }
    }

    /// A reference, linked where it stands for something.
    pub(crate) fn link(&self, index: usize, reference: ContextReference) -> ContextReference
        ensures { result ≡ linked_reference self.now index reference }
    {
        match self.link_of(index, &reference) {
            Some(id) => ContextReference::Direct(id),
            None => reference,
        }
    }
}
