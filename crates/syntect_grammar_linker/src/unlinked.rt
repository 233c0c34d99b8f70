//! What linking left unresolved.
ghost use Rattle.std.specs.Prelude.{◌≡◌, ◌++◌, ◌∷◌, [], map, string_bytes, encode_utf8_all, IfOk, OnOk};
ghost use Rattle.std.specs.BTreeSet.{insert_key};
ghost use Rattle.std.specs.Cmp.Lexicographic.{slice_cmp};
ghost use Rattle.std.specs.Ordering.{nat_cmp};
ghost use Rattle.std.specs.List.{flat_map};
ghost use Rattle.syntect_grammar_linker.specs.Unlinked.{quoted_char, between_quotes, quoted, truth_text, sub_context_text, elsewhere_text, by_scope_text, file_text, said, reference_text, unlinked_text, pushed_by, unlinked_among, unlinked_of, with_texts};

use crate::below::scope::repository::ScopeRepository;
use crate::below::values::text::Text;
use std::alloc::{AllocError, Global};
use std::collections::BTreeSet;
use syntect_grammar_contexts::context::{ContextReference, MatchOperation, Pattern};
use syntect_grammar_contexts::syntax_reference::SyntaxReference;

/// Appends a character of a text in quotes.
fn push_quoted(out: &mut String, c: char) -> Result<(), AllocError>
    ensures { OnOk result (string_bytes out.new
        ≡ string_bytes out.old ++ encode_utf8_all (quoted_char c)) }
{
    if c == '"' || c == '\\' {
        out.push('\\')?;
    }
    out.push(c)
}

/// A text as it stands between quotes.
fn between_quotes(alloc: Global, text: &str) -> Result<String, AllocError>
    ensures { IfOk result (λ t. string_bytes t ≡ between_quotes text.now) }
{
    let mut out = String::new(alloc);
    for c in text.chars() {
        push_quoted(&mut out, c)?;
    }
    Ok(out)
}

/// A text in quotes.
fn quoted(alloc: Global, text: &str) -> Result<String, AllocError>
    ensures { IfOk result (λ t. string_bytes t ≡ quoted text.now) }
{
    let inner = between_quotes(alloc, text)?;
    format!(in alloc; "\"{inner}\"")
}

fn sub_context_text(alloc: Global, name: &Option<Text>) -> Result<String, AllocError>
    ensures { IfOk result (λ t. string_bytes t ≡ sub_context_text name.now) }
{
    match name {
        None => String::from_str(alloc, "None"),
        Some(name) => {
            let name = quoted(alloc, name.as_str())?;
            format!(in alloc; "Some({name})")
        }
    }
}

fn truth_text(truth: bool) -> &'static str
    ensures { result.now ≡ truth_text truth }
{
    if truth { "true" } else { "false" }
}

/// The end of a reference into another syntax.
fn elsewhere_text(
    alloc: Global,
    sub_context: &Option<Text>,
    with_escape: bool,
) -> Result<String, AllocError>
    ensures { IfOk result (λ t. string_bytes t ≡ elsewhere_text sub_context.now with_escape) }
{
    let mut text = sub_context_text(alloc, sub_context)?;
    text.push_str(", with_escape: ")?;
    text.push_str(truth_text(with_escape))?;
    text.push_str(" }")?;
    Ok(text)
}

/// A reference by scope, by the text of its scope.
fn by_scope_text(
    alloc: Global,
    scope: &str,
    sub_context: &Option<Text>,
    with_escape: bool,
) -> Result<String, AllocError>
    ensures { IfOk result (λ t. string_bytes t
        ≡ by_scope_text scope.now sub_context.now with_escape) }
{
    let end = elsewhere_text(alloc, sub_context, with_escape)?;
    format!(in alloc; "ByScope {{ scope: <{scope}>, sub_context: {end}")
}

/// A reference by the name of a syntax.
fn file_text(
    alloc: Global,
    name: &str,
    sub_context: &Option<Text>,
    with_escape: bool,
) -> Result<String, AllocError>
    ensures { IfOk result (λ t. string_bytes t ≡ file_text name.now sub_context.now with_escape) }
{
    let name = quoted(alloc, name)?;
    let end = elsewhere_text(alloc, sub_context, with_escape)?;
    format!(in alloc; "File {{ name: {name}, sub_context: {end}")
}

/// A reference that isn't resolved.
fn reference_text(
    alloc: Global,
    repository: &ScopeRepository,
    reference: &ContextReference,
) -> Result<String, AllocError>
    ensures { IfOk result (λ t. string_bytes t ≡ reference_text repository.now reference.now) }
{
    match reference {
        ContextReference::Named(name) => {
            let name = quoted(alloc, name.as_str())?;
            format!(in alloc; "Named({name})")
        }
        ContextReference::Inline(name) => {
            let name = quoted(alloc, name.as_str())?;
            format!(in alloc; "Inline({name})")
        }
        ContextReference::ByScope {
            scope,
            sub_context,
            with_escape,
        } => {
            let scope = repository.to_string(*scope)?;
            by_scope_text(alloc, scope.as_str(), sub_context, *with_escape)
        }
        ContextReference::File {
            name,
            sub_context,
            with_escape,
        } => file_text(alloc, name.as_str(), sub_context, *with_escape),
        ContextReference::Direct(_) => Ok(String::new(alloc)),
    }
}

/// What is said of a syntax with this name and scope and a reference of it.
fn said(alloc: Global, name: &str, scope: &str, reference: &str) -> Result<String, AllocError>
    ensures { IfOk result (λ t. string_bytes t ≡ said name.now scope.now reference.now) }
{
    format!(in alloc;
        "Syntax '{name}' with scope '{scope}' has unresolved context reference {reference}"
    )
}

fn unlinked_text(
    alloc: Global,
    repository: &ScopeRepository,
    syntax: &SyntaxReference,
    reference: &ContextReference,
) -> Result<String, AllocError>
    ensures { IfOk result (λ t. string_bytes t
        ≡ unlinked_text repository.now syntax.now reference.now) }
{
    let scope = repository.to_string(syntax.scope)?;
    let reference = reference_text(alloc, repository, reference)?;
    said(
        alloc,
        syntax.name.as_str(),
        scope.as_str(),
        reference.as_str(),
    )
}

/// Puts a text into a set.
fn add_text(out: &mut BTreeSet<String>, text: String) -> Result<(), AllocError>
    ensures { IfOk result (λ _. map string_bytes out.new.keys
        ≡ insert_key (slice_cmp nat_cmp) (map string_bytes out.old.keys) (string_bytes text)) }
{
    out.insert(text)?;
    Ok(())
}

/// Puts what is said of a reference into a set, unless it is resolved.
fn add_reference(
    alloc: Global,
    repository: &ScopeRepository,
    syntax: &SyntaxReference,
    reference: &ContextReference,
    out: &mut BTreeSet<String>,
) -> Result<(), AllocError>
    ensures { IfOk result (λ _. map string_bytes out.new.keys
        ≡ with_texts (map string_bytes out.old.keys)
        (unlinked_among repository.now syntax.now (reference.now ∷ []))) }
{
    if reference.target().is_none() {
        let text = unlinked_text(alloc, repository, syntax, reference)?;
        add_text(out, text)?;
    }
    Ok(())
}

/// Puts what is said of each of these references into a set, unless it is resolved.
fn add_references(
    alloc: Global,
    repository: &ScopeRepository,
    syntax: &SyntaxReference,
    references: &[ContextReference],
    out: &mut BTreeSet<String>,
) -> Result<(), AllocError>
    ensures { IfOk result (λ _. map string_bytes out.new.keys
        ≡ with_texts (map string_bytes out.old.keys)
        (unlinked_among repository.now syntax.now references.now)) }
{
    for reference in references {
        add_reference(alloc, repository, syntax, reference, out)?;
    }
    Ok(())
}

/// What a pattern pushes or sets.
fn pushed_by(pattern: &Pattern) -> &[ContextReference]
    ensures { result.now ≡ pushed_by pattern.now }
{
    match pattern {
        Pattern::Match(m) => match &m.operation {
            MatchOperation::Push(references) => references.as_slice(),
            MatchOperation::Set(references) => references.as_slice(),
            MatchOperation::Pop => &[],
            MatchOperation::None => &[],
        },
        Pattern::Include(_) => &[],
    }
}

/// Puts what is said of each reference that patterns push or set into a set, unless it is resolved.
fn add_patterns(
    alloc: Global,
    repository: &ScopeRepository,
    syntax: &SyntaxReference,
    patterns: &[Pattern],
    out: &mut BTreeSet<String>,
) -> Result<(), AllocError>
    ensures { IfOk result (λ _. map string_bytes out.new.keys
        ≡ with_texts (map string_bytes out.old.keys)
        (unlinked_among repository.now syntax.now (flat_map pushed_by patterns.now))) }
{
    for pattern in patterns {
        add_references(alloc, repository, syntax, pushed_by(pattern), out)?;
    }
    Ok(())
}

/// Puts what is said of the references that the contexts of a syntax push or set into a set, but
/// for those that are resolved.
pub fn add_syntax(
    alloc: Global,
    repository: &ScopeRepository,
    syntax: &SyntaxReference,
    out: &mut BTreeSet<String>,
) -> Result<(), AllocError>
    ensures { IfOk result (λ _. map string_bytes out.new.keys
        ≡ with_texts (map string_bytes out.old.keys) (unlinked_of repository.now syntax.now)) }
{
    for context in syntax.contexts.as_slice() {
        add_patterns(alloc, repository, syntax, context.patterns.as_slice(), out)?;
    }
    Ok(())
}
