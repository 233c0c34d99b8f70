//! Contexts and their patterns.
//!
//! The rules are those of Sublime Text's syntax definitions. A context has patterns that are tried
//! in order; a match may open further contexts, put others in the place of the top one,
//! or leave it.
ghost use Rattle.std.specs.Prelude.{◌≡◌, ◌≤◌, ◌<◌, [], false, length, string_bytes, Option, Some, None, IfOk, IfErr, IfNone, IfSome};
ghost use Rattle.std.specs.Option.{option_copied, option_and_then};
ghost use Rattle.syntect_grammar_contexts.specs.Contexts.{target, match_of};
ghost use Rattle.syntect_grammar_contexts.specs.Errors.{IsUnresolved, IsMissing, IsBadIndex};
ghost use Rattle.syntect_grammar_contexts.specs.Substitution.{AreOnBoundaries, substituted};
ghost use Rattle.syntect_grammar_contexts.specs.declared.context.Context.{Context as AContext};
ghost use Rattle.syntect_grammar_contexts.specs.declared.context.ContextId.{ContextId as AnId};

use crate::below::values::seq::Seq;
use crate::below::values::text::Text;
use crate::error::ParsingError;
use crate::substitution::substituted;
use std::alloc::{AllocError, Global};
use syntect_regex::regex::Regex;
use syntect_regex::region::Region;
use syntect_scope::scope::Scope;
use syntect_scope::stack::ClearAmount;

/// The scopes of a match's groups: pairs of a group's number and its scopes. The order of the pairs
/// matters where groups cover the same bytes.
pub type CaptureMapping = Seq<(usize, Seq<Scope>)>;

/// Which context of a set: the place of its syntax among the syntaxes of the set, and its place in
/// the byte order of the names of that syntax's contexts.
#[derive(Clone, Copy, Debug, PartialEq, Eq, Hash)]
pub struct ContextId {
    pub syntax_index: usize,
    pub context_index: usize,
}

/// What an include, a push, a set or a `with_prototype` names.
#[derive(Clone, Debug, Drop, PartialEq, Eq)]
pub enum ContextReference {
    /// A context of the syntax itself, by its name.
    Named(Text),
    /// A context of the syntax that has this scope: the one of that name, or its `main`.
    /// `with_escape` marks the embedded reference of an `embed`, which always has a way out.
    ByScope {
        scope: Scope,
        sub_context: Option<Text>,
        with_escape: bool,
    },
    /// A context of the syntax that has this name: the one that `sub_context` names, or its `main`.
    /// `with_escape` is that of `ByScope`.
    File {
        name: Text,
        sub_context: Option<Text>,
        with_escape: bool,
    },
    /// A context without a name of its own, by the one that it was given.
    Inline(Text),
    /// A context of the set, found by linking.
    Direct(ContextId),
}

/// What a match does to the open contexts.
#[derive(Clone, Debug, Drop, PartialEq, Eq)]
pub enum MatchOperation {
    /// Opens these contexts, the last on top.
    Push(Seq<ContextReference>),
    /// Leaves the top context and opens these in its place.
    Set(Seq<ContextReference>),
    /// Leaves the top context.
    Pop,
    /// Leaves them as they are.
    None,
}

/// A pattern and what its match does.
#[derive(Drop, PartialEq, Eq)]
pub struct MatchPattern {
    /// Whether the pattern has back references into the match that opened its context.
    pub has_captures: bool,
    pub regex: Regex,
    /// The scopes of the matched text.
    pub scope: Seq<Scope>,
    /// Further scopes of the match's groups.
    pub captures: Option<CaptureMapping>,
    pub operation: MatchOperation,
    /// A context whose patterns stand before those of all contexts from the last opened one on.
    pub with_prototype: Option<ContextReference>,
}

/// An entry of a context.
#[derive(Clone, Drop, PartialEq, Eq)]
pub enum Pattern {
    Match(MatchPattern),
    /// The patterns of another context in this one's place.
    Include(ContextReference),
}

/// A context: the scopes that it gives to text, and its patterns in order.
#[derive(Clone, Drop, PartialEq, Eq)]
pub struct Context {
    /// The scopes of its text, the matches that open and leave it included.
    pub meta_scope: Seq<Scope>,
    /// The scopes of its text without those matches.
    pub meta_content_scope: Seq<Scope>,
    /// Whether it wants the prototype of its syntax.
    pub meta_include_prototype: bool,
    /// How many of the open scopes are cleared while it is open.
    pub clear_scopes: Option<ClearAmount>,
    /// The context whose patterns come before its own.
    pub prototype: Option<ContextId>,
    /// Whether a pattern of it has back references into the match that opens it.
    pub uses_backrefs: bool,
    pub patterns: Seq<Pattern>,
}

/// What holds contexts by their numbers, as a set of syntaxes does.
pub trait HoldsContexts {
    /// The context of a number, if it is held.
    ghost contexts: { Self → AnId → Option AContext };

    /// The context of a number, if it is held.
    fn context_of(&self, id: ContextId) -> Option<&Context>
        ensures { option_copied result ≡ contexts self.now id };
}

impl Context {
    /// A context without scopes and patterns. Takes no memory.
    pub fn new(alloc: Global, meta_include_prototype: bool) -> Context
        ensures { result ≡ record {
          meta_scope = [];
          meta_content_scope = [];
          meta_include_prototype = meta_include_prototype;
          clear_scopes = None;
          prototype = None;
          uses_backrefs = false;
          patterns = [];
        } }
    {
        Context {
            meta_scope: Seq::new(alloc),
            meta_content_scope: Seq::new(alloc),
            meta_include_prototype,
            clear_scopes: None,
            prototype: None,
            uses_backrefs: false,
            patterns: Seq::new(alloc),
        }
    }

    /// The match pattern at an index of the patterns. `BadMatchIndex` where an include stands
    /// there, or nothing.
    pub fn match_at(&self, index: usize) -> Result<&MatchPattern, ParsingError>
        ensures found { IfOk result (λ m. match_of self.now index ≡ Some m.now) }
        ensures bad { IfErr result (IsBadIndex self.now index) }
    {
        match self.patterns.as_slice().get(index) {
            Some(Pattern::Match(pattern)) => Ok(pattern),
            _ => Err(ParsingError::BadMatchIndex(index)),
        }
    }
}

impl ContextReference {
    /// What it stands for, if it is resolved.
    pub fn target(&self) -> Option<ContextId>
        ensures { result ≡ target self.now }
    {
        match self {
            ContextReference::Direct(id) => Some(*id),
            _ => None,
        }
    }

    /// The number of the context that it stands for. `UnresolvedContextReference` unless it was
    /// resolved by linking.
    pub fn id(&self) -> Result<ContextId, ParsingError>
        ensures found { IfOk result (λ id. target self.now ≡ Some id) }
        ensures refused { IfErr result (IsUnresolved self.now) }
    {
        match self {
            ContextReference::Direct(id) => Ok(*id),
            _ => Err(ParsingError::UnresolvedContextReference(self.clone()?)),
        }
    }

    /// The context that it stands for. `UnresolvedContextReference` unless it was resolved by
    /// linking, and `MissingContext` where the set lacks that context.
    pub fn resolve<'a, S: HoldsContexts>(
        &self,
        syntax_set: &'a S,
    ) -> Result<&'a Context, ParsingError>
        ensures found { IfOk result
            (λ c. option_and_then (S.contexts syntax_set.now) (target self.now) ≡ Some c.now) }
        ensures refused { IfErr result (IsMissing (S.contexts syntax_set.now) self.now) }
    {
        let id = self.id()?;
        match syntax_set.context_of(id) {
            Some(context) => Ok(context),
            None => Err(ParsingError::MissingContext(id)),
        }
    }
}

impl Clone for MatchPattern {
    ghost is_clone = { λ x y. y ≡ x };

    fn clone(&self) -> Result<MatchPattern, AllocError> {
        Ok(MatchPattern {
            has_captures: self.has_captures,
            regex: self.regex.clone(self.scope.allocator())?,
            scope: copied_scopes(&self.scope)?,
            captures: copied_captures(&self.captures)?,
            operation: copied_operation(&self.operation)?,
            with_prototype: copied_reference(&self.with_prototype)?,
        })
    }
}

// What stands in a pattern, once more.

fn copied_scopes(scopes: &Seq<Scope>) -> Result<Seq<Scope>, AllocError>
    ensures { IfOk result (λ s. s ≡ scopes.now) }
{
    scopes.clone()
}

fn copied_captures(captures: &Option<CaptureMapping>) -> Result<Option<CaptureMapping>, AllocError>
    ensures { IfOk result (λ c. c ≡ captures.now) }
{
    captures.clone()
}

fn copied_operation(operation: &MatchOperation) -> Result<MatchOperation, AllocError>
    ensures { IfOk result (λ o. o ≡ operation.now) }
{
    operation.clone()
}

fn copied_reference(
    reference: &Option<ContextReference>,
) -> Result<Option<ContextReference>, AllocError>
    ensures { IfOk result (λ r. r ≡ reference.now) }
{
    reference.clone()
}

impl MatchPattern {
    /// A pattern of these parts.
    pub fn new(
        alloc: Global,
        has_captures: bool,
        regex_str: String,
        scope: Seq<Scope>,
        captures: Option<CaptureMapping>,
        operation: MatchOperation,
        with_prototype: Option<ContextReference>,
    ) -> Result<MatchPattern, AllocError>
        ensures { IfOk result (λ m. m ≡ record {
          has_captures = has_captures;
          regex = string_bytes regex_str;
          scope = scope;
          captures = captures;
          operation = operation;
          with_prototype = with_prototype;
        }) }
    {
        Ok(MatchPattern {
            has_captures,
            regex: Regex::new(alloc, regex_str)?,
            scope,
            captures,
            operation,
            with_prototype,
        })
    }

    /// The pattern alone.
    pub fn regex(&self) -> &Regex
        ensures { result.now ≡ self.now.regex }
    {
        &self.regex
    }

    /// The pattern with the groups of a match in a text for its back references: a digit after a
    /// backslash that isn't itself escaped, and that backslash, give way to the escaped text of the
    /// group of that number, or to nothing where it was not set. The region's positions are byte
    /// positions between characters of the text.
    pub fn regex_with_refs(&self, region: &Region, text: &str) -> Result<Regex, AllocError>
        requires { AreOnBoundaries text.now region.now }
        ensures { IfOk result (λ r. r ≡ substituted self.now.regex region.now text.now) }
    {
        match self.text_with_refs(region, text, usize::MAX)? {
            Some(pattern) => Regex::ready(self.scope.allocator(), pattern),
            // no text has more bytes
            None => Err(AllocError),
        }
    }

    /// The text of the same pattern, if it has at most so many bytes.
    pub fn text_with_refs(
        &self,
        region: &Region,
        text: &str,
        most: usize,
    ) -> Result<Option<String>, AllocError>
        requires { AreOnBoundaries text.now region.now }
        ensures some { IfOk result (λ o. IfSome o (λ s.
            string_bytes s ≡ substituted self.now.regex region.now text.now)) }
        ensures few { IfOk result (λ o. IfSome o (λ s. length (string_bytes s) ≤ most)) }
        ensures none { IfOk result (λ o. IfNone o
            (most < length (substituted self.now.regex region.now text.now))) }
    {
        let alloc = self.scope.allocator();
        substituted(alloc, self.regex.regex_str(), region, text, most)
    }
}
