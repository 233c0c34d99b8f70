//! Linking: what contexts become in a set.
ghost use Rattle.std.specs.Prelude.{◌≡◌, ◌&&◌, not, map, IfOk, Some, None, if◌then◌else◌};
ghost use Rattle.std.specs.HashSet as marks;
ghost use Rattle.std.specs.List.{zip};
ghost use Rattle.std.specs.Option.{option_or};
ghost use Rattle.syntect_grammar_contexts.specs.Contexts.{count_contexts};
ghost use Rattle.syntect_grammar_contexts.specs.Contexts.{is_same};
ghost use Rattle.syntect_grammar_linker.specs.References.{linked_reference};
ghost use Rattle.syntect_grammar_linker.specs.Reached.{has_path_in, names_at, prototype_steps, is_marked_in_set};
ghost use Rattle.syntect_grammar_linker.specs.Gifts.{gifts_in, gifts_from, given_all, given_from};
ghost use Rattle.syntect_grammar_linker.specs.LinkedContexts.{linked_operation, linked_match, linked_pattern, context_with};
ghost use Rattle.syntect_grammar_contexts.specs.declared.context.ContextId.{ContextId};

use crate::below::values::seq::Seq;
use crate::directory::Directory;
use crate::reached::{marked_contexts, reached_from};
use std::alloc::{AllocError, Global};
use std::collections::HashSet;
use syntect_grammar_contexts::context::{
    Context, ContextId, ContextReference, MatchOperation, MatchPattern, Pattern,
};
use syntect_grammar_contexts::syntax_reference::SyntaxReference;

// What stands in a context, with its references linked.

fn link_references(
    alloc: Global,
    directory: &Directory<'_>,
    index: usize,
    references: Seq<ContextReference>,
) -> Result<Seq<ContextReference>, AllocError>
    ensures { IfOk result (λ rs. rs ≡ map (linked_reference directory.now index) references) }
{
    let mut linked = Vec::with_capacity(alloc, references.len())?;
    for reference in references.into_vec() {
        linked.push(directory.link(index, reference))?;
    }
    Ok(Seq::from_vec(linked))
}

fn link_operation(
    alloc: Global,
    directory: &Directory<'_>,
    index: usize,
    operation: MatchOperation,
) -> Result<MatchOperation, AllocError>
    ensures { IfOk result (λ o. o ≡ linked_operation directory.now index operation) }
{
    match operation {
        MatchOperation::Push(references) => Ok(MatchOperation::Push(link_references(
            alloc, directory, index, references,
        )?)),
        MatchOperation::Set(references) => Ok(MatchOperation::Set(link_references(
            alloc, directory, index, references,
        )?)),
        MatchOperation::Pop => Ok(MatchOperation::Pop),
        MatchOperation::None => Ok(MatchOperation::None),
    }
}

fn link_match(
    alloc: Global,
    directory: &Directory<'_>,
    index: usize,
    pattern: MatchPattern,
) -> Result<MatchPattern, AllocError>
    ensures { IfOk result (λ m. m ≡ linked_match directory.now index pattern) }
{
    let MatchPattern {
        has_captures,
        regex,
        scope,
        captures,
        operation,
        with_prototype,
    } = pattern;
    let with_prototype = match with_prototype {
        Some(reference) => Some(directory.link(index, reference)),
        None => None,
    };
    Ok(MatchPattern {
        has_captures,
        regex,
        scope,
        captures,
        operation: link_operation(alloc, directory, index, operation)?,
        with_prototype,
    })
}

fn link_pattern(
    alloc: Global,
    directory: &Directory<'_>,
    index: usize,
    pattern: Pattern,
) -> Result<Pattern, AllocError>
    ensures { IfOk result (λ p. p ≡ linked_pattern directory.now index pattern) }
{
    match pattern {
        Pattern::Match(m) => Ok(Pattern::Match(link_match(alloc, directory, index, m)?)),
        Pattern::Include(reference) => Ok(Pattern::Include(directory.link(index, reference))),
    }
}

/// A context with its references linked, with this prototype and this mark of back references.
fn link_context(
    alloc: Global,
    directory: &Directory<'_>,
    index: usize,
    gift: (Option<ContextId>, bool),
    context: Context,
) -> Result<Context, AllocError>
    ensures { IfOk result (λ c. c ≡ context_with directory.now index gift.0 gift.1 context) }
{
    let Context {
        meta_scope,
        meta_content_scope,
        meta_include_prototype,
        clear_scopes,
        prototype: _,
        uses_backrefs: _,
        patterns,
    } = context;
    let mut linked = Vec::with_capacity(alloc, patterns.len())?;
    for pattern in patterns.into_vec() {
        linked.push(link_pattern(alloc, directory, index, pattern)?)?;
    }
    let (prototype, uses_backrefs) = gift;
    Ok(Context {
        meta_scope,
        meta_content_scope,
        meta_include_prototype,
        clear_scopes,
        prototype,
        uses_backrefs,
        patterns: Seq::from_vec(linked),
    })
}

// Prototypes and marks.

/// The prototype of a context: its own, else that of its syntax if it wants it and isn't reached
/// from it.
fn prototype_of(
    id: ContextId,
    context: &Context,
    prototype: Option<ContextId>,
    reached: &HashSet<ContextId>,
) -> Option<ContextId>
    ensures { result ≡ option_or context.now.prototype
        (if context.now.meta_include_prototype && not (marks.contains is_same reached.now id)
        then prototype else None) }
{
    if context.prototype.is_some() {
        context.prototype
    } else if context.meta_include_prototype && !reached.contains(&id) {
        prototype
    } else {
        None
    }
}

/// What the prototype of a syntax reaches, if there is one.
fn reached_in(
    alloc: Global,
    directory: &Directory<'_>,
    bodies: &[Seq<Context>],
    index: usize,
    prototype: Option<ContextId>,
) -> Result<HashSet<ContextId>, AllocError>
    ensures { IfOk result (λ set. (p id : ContextId) → prototype ≡ Some p
        → marks.contains is_same set id
        ≡ has_path_in (prototype_steps bodies.now index (names_at directory.now index)) (is_same id)
        (count_contexts bodies.now) p) }
{
    match prototype {
        Some(id) => reached_from(alloc, bodies, index, directory.names(index), id),
        None => Ok(HashSet::new(alloc)),
    }
}

/// What the contexts of a syntax are given: their prototypes and their marks.
fn gifts_of(
    alloc: Global,
    directory: &Directory<'_>,
    bodies: &[Seq<Context>],
    marked: &HashSet<ContextId>,
    syntax_index: usize,
    contexts: &[Context],
) -> Result<Vec<(Option<ContextId>, bool)>, AllocError>
    requires { (id : ContextId)
        → marks.contains is_same marked.now id ≡ is_marked_in_set directory.now bodies.now id }
    ensures { IfOk result
        (λ v. v.items ≡ gifts_in directory.now bodies.now syntax_index 0 contexts.now) }
{
    let prototype = directory.context_named(syntax_index, "prototype");
    let reached = reached_in(alloc, directory, bodies, syntax_index, prototype)?;
    let mut gifts = Vec::with_capacity(alloc, contexts.len())?;
    for (context_index, context) in contexts.iter().enumerate() {
        let id = ContextId {
            syntax_index,
            context_index,
        };
        gifts.push((
            prototype_of(id, context, prototype, &reached),
            marked.contains(&id),
        ))?;
    }
    Ok(gifts)
}

/// What all contexts are given.
fn all_gifts(
    alloc: Global,
    directory: &Directory<'_>,
    bodies: &[Seq<Context>],
) -> Result<Vec<Seq<(Option<ContextId>, bool)>>, AllocError>
    ensures { IfOk result (λ v. v.items ≡ gifts_from directory.now bodies.now 0 bodies.now) }
{
    let marked = marked_contexts(alloc, directory, bodies)?;
    let mut gifts = Vec::with_capacity(alloc, bodies.len())?;
    for (index, body) in bodies.iter().enumerate() {
        let row = gifts_of(alloc, directory, bodies, &marked, index, body.as_slice())?;
        gifts.push(Seq::from_vec(row))?;
    }
    Ok(gifts)
}

// Syntaxes.

/// The contexts of a syntax, linked.
fn link_body(
    alloc: Global,
    directory: &Directory<'_>,
    index: usize,
    gifts: Seq<(Option<ContextId>, bool)>,
    body: Seq<Context>,
) -> Result<Seq<Context>, AllocError>
    ensures { IfOk result (λ cs. cs ≡ given_all directory.now index gifts body) }
{
    let mut linked = Vec::with_capacity(alloc, body.len())?;
    for (context, gift) in body.into_vec().into_iter().zip(gifts.into_vec()) {
        linked.push(link_context(alloc, directory, index, gift, context)?)?;
    }
    Ok(Seq::from_vec(linked))
}

/// The contexts of all syntaxes, linked with the heads of these: all that the syntaxes hold but
/// their contexts.
pub fn link_bodies(
    alloc: Global,
    heads: &[SyntaxReference],
    bodies: Vec<Seq<Context>>,
) -> Result<Vec<Seq<Context>>, AllocError>
    ensures { IfOk result (λ v. v.items ≡ given_from heads.now 0
        (zip bodies.items (gifts_from heads.now bodies.items 0 bodies.items))) }
{
    let directory = Directory::new(alloc, heads)?;
    let gifts = all_gifts(alloc, &directory, bodies.as_slice())?;
    let mut linked = Vec::with_capacity(alloc, bodies.len())?;
    for (body, row) in bodies.into_iter().zip(gifts) {
        let index = linked.len();
        linked.push(link_body(alloc, &directory, index, row, body)?)?;
    }
    Ok(linked)
}
