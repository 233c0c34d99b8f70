//! The head of a grammar: what finders ask for.
ghost use Rattle.std.specs.Prelude.{◌≡◌, ◌++◌, ℕ, List, [], codes, map, option_map, IfNone, IfOk, IfSome, IsTrue, IsUtf8, OnOk, Some};
ghost use Rattle.syntect_grammar.specs.syntect_scope.Repository.{scope_in};
ghost use Rattle.syntect_grammar.specs.syntect_grammar_loader.Loading as loading;
ghost use Rattle.syntect_grammar_limits.specs.syntect_grammar_loader.LoadingSteps.{Finds, KeepsAtoms};
ghost use Rattle.syntect_grammar_limits.specs.syntect_grammar_loader.LoadingValues.{at, text_in, truth_in};
ghost use Rattle.syntect_shelf.specs.Heads.{is_deep, IsFront, IsHeadIn, IsHeadOf, StaysDeep};
ghost use Rattle.syntect_yaml.specs.Node.{Node};
ghost use Rattle.syntect_yaml.specs.View.{view};
ghost use Rattle.syntect_yaml.specs.Yaml.{yaml_of};

use crate::below::base::syntax::ParseSyntaxError;
use crate::below::grammar_loader::definition::SyntaxDefinition;
use crate::below::grammar_loader::yaml_load_values::{list_at, map_of, text_at};
use crate::below::scope::repository::{ParseScopeError, ScopeRepository};
use crate::below::scope::scope::Scope;
use crate::below::values::seq::Seq;
use crate::below::values::table::Table;
use crate::below::values::text::Text;
use crate::below::yaml::error::ReadError;
use crate::below::yaml::read::read;
use crate::below::yaml::value::Yaml;
use memchr::{memchr, memmem};
use std::alloc::{AllocError, Global};
use std::str;

/// Whether what stands on a line from its first column on is no key: the line is blank, a comment,
/// or deeper.
fn is_deep(line: &[u8]) -> bool
    ensures { result ≡ is_deep line.now }
{
    matches!(line.first(), None | Some(b' ' | b'#' | b'\r' | b'\n'))
}

/// Whether each line but the first is so.
fn stays_deep(text: &[u8]) -> bool
    ensures { IsTrue result → StaysDeep text.now }
{
    let mut rest = text;
    'lines: while let Some(feed) = memchr(b'\n', rest) {
        let (_, from) = rest.split_at(feed);
        rest = from.split_at(1).1;
        if !is_deep(rest) {
            return false;
        }
    }
    true
}

/// What comes before the contexts of a text, where nothing comes after them.
fn before_contexts(text: &[u8]) -> Option<&[u8]>
    ensures { IfSome result (λ front. IsFront text.now front.now) }
{
    let at = memmem::find(text, b"\ncontexts:")?;
    let (before, from) = text.split_at(at);
    if stays_deep(from.split_at(1).1) {
        Some(before)
    } else {
        None
    }
}

/// Adds the texts of a list.
fn add_texts(alloc: Global, texts: &mut Seq<Text>, items: Option<&[Yaml]>) -> Result<(), AllocError>
    ensures { OnOk result (texts.new ≡ texts.old
        ++ loading.texts_in (option_map (λ v. map view v.now) items.entry)) }
{
    let Some(values) = items else {
        return Ok(());
    };
    for item in values {
        if let Some(text) = item.as_str() {
            texts.push(Text::from_str(alloc, text)?)?;
        }
    }
    Ok(())
}

/// The endings of the names of files in the syntax.
fn extensions_of(alloc: Global, value: &Yaml) -> Result<Seq<Text>, AllocError>
    ensures { IfOk result (λ texts. texts ≡ loading.extensions (view value.now)) }
{
    let mut texts = Seq::new(alloc);
    add_texts(alloc, &mut texts, list_at(value, "file_extensions"))?;
    add_texts(alloc, &mut texts, list_at(value, "hidden_file_extensions"))?;
    Ok(texts)
}

/// The name of the syntax.
fn name_of(alloc: Global, value: &Yaml, fallback: Option<&str>) -> Result<Text, AllocError>
    ensures { IfOk result (λ name. name ≡ loading.name_of (view value.now)
        (option_map (λ t. t.now) fallback.entry)) }
{
    match (text_at(value, "name"), fallback) {
        (Some(name), _) | (None, Some(name)) => Text::from_str(alloc, name),
        (None, None) => Text::from_str(alloc, "Unnamed"),
    }
}

/// The pattern of a first line, as it stands.
fn first_line_of(alloc: Global, value: &Yaml) -> Result<Option<Text>, AllocError>
    ensures { IfOk result (λ text. text ≡ at text_in (codes "first_line_match") (view value.now)) }
{
    match text_at(value, "first_line_match") {
        Some(text) => Ok(Some(Text::from_str(alloc, text)?)),
        None => Ok(None),
    }
}

/// The truth value at a key.
fn truth_at(value: &Yaml, key: &str) -> Option<bool>
    ensures { result ≡ at truth_in key.now (view value.now) }
{
    match value.get(key) {
        Some(v) => v.as_bool(),
        None => None,
    }
}

/// Whether the syntax is hidden.
fn is_hidden(value: &Yaml) -> bool
    ensures { result ≡ loading.is_hidden (view value.now) }
{
    match truth_at(value, "hidden") {
        Some(hidden) => hidden,
        None => false,
    }
}

/// The text of the grammar's scope.
fn scope_text_of(value: &Yaml) -> Result<&str, ParseSyntaxError>
    ensures { Finds (λ t. t.now) result (loading.scope_text_at (view value.now)) }
{
    let Some(scope) = value.get("scope") else {
        return Err(ParseSyntaxError::MissingMandatoryKey("scope"));
    };
    match scope.as_str() {
        Some(text) => Ok(text),
        None => Err(ParseSyntaxError::TypeMismatch),
    }
}

/// The scope of a text in the repository.
#[tactic(auto, using(crate::proofs::HeadLaws::keeps_built))]
fn scope_of(text: &str, repository: &mut ScopeRepository) -> Result<Scope, ParseSyntaxError>
    ensures ok { IfOk result (λ scope. scope ≡ scope_in repository.new text.now) }
    ensures kept { KeepsAtoms repository.old repository.new }
{
    match repository.build(text) {
        Ok(scope) => Ok(scope),
        Err(ParseScopeError::Memory) => Err(ParseSyntaxError::Memory),
        Err(e) => Err(ParseSyntaxError::InvalidScope(e)),
    }
}

/// The head of a scope and of a value, as a definition without variables and contexts.
fn head_with(
    alloc: Global,
    value: &Yaml,
    fallback: Option<&str>,
    scope: Scope,
) -> Result<SyntaxDefinition, AllocError>
    ensures { IfOk result (λ d. d ≡ loading.defined (view value.now) []
        (option_map (λ t. t.now) fallback.entry) scope []) }
{
    Ok(SyntaxDefinition {
        name: name_of(alloc, value, fallback)?,
        file_extensions: extensions_of(alloc, value)?,
        scope,
        first_line_match: first_line_of(alloc, value)?,
        hidden: is_hidden(value),
        variables: Table::new(alloc),
        contexts: Table::new(alloc),
    })
}

/// The head that a value has.
fn head_of_value(
    alloc: Global,
    value: &Yaml,
    fallback: Option<&str>,
    repository: &mut ScopeRepository,
) -> Result<SyntaxDefinition, ParseSyntaxError>
    ensures ok { IfOk result (IsHeadOf (view value.now) (option_map (λ t. t.now) fallback.entry)
        repository.new) }
    ensures kept { KeepsAtoms repository.old repository.new }
{
    if map_of(value).is_none() {
        return Err(ParseSyntaxError::TypeMismatch);
    }
    let text = match scope_text_of(value) {
        Ok(text) => text,
        Err(e) => return Err(e),
    };
    let scope = match scope_of(text, repository) {
        Ok(scope) => scope,
        Err(e) => return Err(e),
    };
    Ok(head_with(alloc, value, fallback, scope)?)
}

/// The head of a grammar's text.
fn head_of_text(
    alloc: Global,
    text: &str,
    fallback: Option<&str>,
    repository: &mut ScopeRepository,
) -> Result<SyntaxDefinition, ParseSyntaxError>
    ensures ok { IfOk result (λ d. (v : Node) × (yaml_of text.now ≡ Some (Some v))
        × IsHeadOf v (option_map (λ t. t.now) fallback.entry) repository.new d) }
    ensures kept { KeepsAtoms repository.old repository.new }
{
    let value = match read(alloc, text) {
        Ok(Some(value)) => value,
        Ok(None) => return Err(ParseSyntaxError::EmptyFile),
        Err(ReadError::NoValue) => return Err(ParseSyntaxError::InvalidYaml),
        Err(ReadError::Memory) => return Err(ParseSyntaxError::Memory),
    };
    head_of_value(alloc, &value, fallback, repository)
}

/// The value of what comes before the contexts of a text, if nothing comes after them and if that
/// has one by itself.
fn front_value(alloc: Global, text: &[u8]) -> Result<Option<Yaml>, AllocError>
    ensures { IfOk result (λ value. IfSome value (λ v. (front : List ℕ)
        × IsFront text.now front × (yaml_of front ≡ Some (Some (view v))))) }
{
    let Some(before) = before_contexts(text) else {
        return Ok(None);
    };
    let Ok(front) = str::from_utf8(before) else {
        return Ok(None);
    };
    match read(alloc, front) {
        Ok(value) => Ok(value),
        Err(ReadError::NoValue) => Ok(None),
        Err(ReadError::Memory) => Err(AllocError),
    }
}

/// The head of the grammar of these bytes, of which no more is read than what comes before the
/// contexts, where that is enough. None where more has to be read, and the bytes are no text.
#[tactic(auto, using(crate::proofs::HeadLaws::front_head, crate::proofs::HeadLaws::whole_head))]
pub(crate) fn head_of_bytes(
    alloc: Global,
    bytes: &[u8],
    fallback: Option<&str>,
    repository: &mut ScopeRepository,
) -> Result<Option<SyntaxDefinition>, ParseSyntaxError>
    ensures ok { IfOk result (λ head. IfSome head (IsHeadIn bytes.now
        (option_map (λ t. t.now) fallback.entry) repository.new)) }
    ensures no_text { IfOk result (λ head. IfNone head (¬ (IsUtf8 bytes.now))) }
    ensures kept { KeepsAtoms repository.old repository.new }
{
    if let Some(value) = front_value(alloc, bytes)? {
        let head = head_of_value(alloc, &value, fallback, repository)?;
        return Ok(Some(head));
    }
    let Ok(text) = str::from_utf8(bytes) else {
        return Ok(None);
    };
    let head = head_of_text(alloc, text, fallback, repository)?;
    Ok(Some(head))
}
