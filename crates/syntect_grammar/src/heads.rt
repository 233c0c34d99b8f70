//! Linking: what definitions become in a set.
ghost use Rattle.std.specs.Prelude.{◌≡◌, map, IfOk};
ghost use Rattle.syntect_grammar_linker.specs.Gifts.{put_together};
ghost use Rattle.syntect_grammar.specs.Link.{names_of, head_of, heads_from, body_of, linked_from};

use crate::below::grammar_contexts::context_names::ContextNames;
use crate::below::regexes::regex::Regex;
use crate::below::values::seq::Seq;
use crate::below::values::table::Table;
use crate::below::values::text::Text;
use crate::syntax_definition::{Context, SyntaxDefinition};
use crate::syntax_set::SyntaxReference;
use std::alloc::{AllocError, Global};
use syntect_grammar_linker::link::link_bodies;

/// The names of contexts, and the contexts, both in the order of the names.
fn split(
    alloc: Global,
    contexts: Table<Text, Context>,
) -> Result<(ContextNames, Vec<Context>), AllocError>
    ensures names { IfOk result (λ p. p.0 ≡ names_of contexts) }
    ensures contexts { IfOk result (λ p. p.1.items ≡ map (λ entry. entry.1) contexts) }
{
    let map = contexts.into_map();
    let mut names = Vec::with_capacity(alloc, map.len())?;
    let mut rest = Vec::with_capacity(alloc, map.len())?;
    for (name, context) in map {
        names.push(name)?;
        rest.push(context)?;
    }
    Ok((ContextNames::from_vec(names), rest))
}

/// The pattern of a text that there may be.
fn compiled(alloc: Global, text: &Option<Text>) -> Result<Option<Regex>, AllocError>
    ensures { IfOk result (λ r. r ≡ text.now) }
{
    match text {
        Some(text) => {
            let pattern = String::from_str(alloc, text.as_str())?;
            Ok(Some(Regex::new(alloc, pattern)?))
        }
        None => Ok(None),
    }
}

/// The head of the definition that stands at this index, and its contexts.
fn behead(
    alloc: Global,
    index: usize,
    definition: SyntaxDefinition,
) -> Result<(SyntaxReference, Seq<Context>), AllocError>
    ensures head { IfOk result (λ p. p.0 ≡ head_of index definition) }
    ensures body { IfOk result (λ p. p.1 ≡ body_of definition) }
{
    let SyntaxDefinition {
        name,
        file_extensions,
        scope,
        first_line_match,
        hidden,
        variables,
        contexts,
    } = definition;
    let (names, body) = split(alloc, contexts)?;
    let first_line = compiled(alloc, &first_line_match)?;
    let head = SyntaxReference {
        name,
        file_extensions,
        scope,
        first_line_match,
        hidden,
        variables,
        index,
        names,
        contexts: Seq::new(alloc),
        first_line,
    };
    Ok((head, Seq::from_vec(body)))
}

/// The heads and the contexts of definitions.
fn behead_all(
    alloc: Global,
    definitions: Seq<SyntaxDefinition>,
) -> Result<(Vec<SyntaxReference>, Vec<Seq<Context>>), AllocError>
    ensures heads { IfOk result (λ p. p.0.items ≡ heads_from 0 definitions) }
    ensures bodies { IfOk result (λ p. p.1.items ≡ map body_of definitions) }
{
    let mut heads = Vec::with_capacity(alloc, definitions.len())?;
    let mut bodies = Vec::with_capacity(alloc, definitions.len())?;
    for definition in definitions.into_vec() {
        let (head, body) = behead(alloc, heads.len(), definition)?;
        heads.push(head)?;
        bodies.push(body)?;
    }
    Ok((heads, bodies))
}

/// The syntaxes of these heads and contexts.
fn put_together(
    alloc: Global,
    heads: Vec<SyntaxReference>,
    bodies: Vec<Seq<Context>>,
) -> Result<Seq<SyntaxReference>, AllocError>
    ensures { IfOk result (λ ss. ss ≡ put_together heads.items bodies.items) }
{
    let mut syntaxes = Vec::with_capacity(alloc, heads.len())?;
    for (head, contexts) in heads.into_iter().zip(bodies) {
        let mut syntax = head;
        syntax.contexts = contexts;
        syntaxes.push(syntax)?;
    }
    Ok(Seq::from_vec(syntaxes))
}

/// The definitions, linked, each by its place.
#[tactic(auto, using(crate::proofs::HeadLaws::all_together))]
pub(crate) fn link_definitions(
    alloc: Global,
    definitions: Seq<SyntaxDefinition>,
) -> Result<Seq<SyntaxReference>, AllocError>
    ensures { IfOk result (λ ss. ss ≡ linked_from (heads_from 0 definitions)
        (map body_of definitions) 0 definitions) }
{
    let (heads, bodies) = behead_all(alloc, definitions)?;
    let linked = link_bodies(alloc, heads.as_slice(), bodies)?;
    put_together(alloc, heads, linked)
}
