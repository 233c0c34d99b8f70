//! Contexts and what stands in them.
ghost use Rattle.std.specs.Prelude.{◌≡◌, ◌∷◌, [], ◌&&◌, map, option_map, is_some, string_bytes, IfOk, codes};
ghost use Rattle.syntect_grammar_loader.specs.LoadingContexts as contexts;
ghost use Rattle.syntect_grammar_loader.specs.LoadingContexts.{context};
ghost use Rattle.syntect_grammar_loader.specs.LoadingSteps.{Finds, Gives, KeepsAtoms};
ghost use Rattle.syntect_grammar_rewrite.specs.Testing.{tested_text};
ghost use Rattle.syntect_yaml.specs.View.{view};

use crate::below::regexes::regex::Regex;
use crate::below::scope::stack::ClearAmount;
use crate::below::values::seq::Seq;
use crate::below::values::text::Text;
use crate::yaml_load_parts::{Compiled, captures, expression, scopes_or, text_reference};
use crate::yaml_load_state::Reading;
use crate::yaml_load_values::{
    ahead_items, escape_items, is_none, is_several, list_at, list_of, map_at, map_of, number_at,
    text_at, truth_at,
};
use std::alloc::{AllocError, Global};
use syntect_base::syntax::ParseSyntaxError;
use syntect_grammar_contexts::context::{
    CaptureMapping, Context, ContextReference, MatchOperation, MatchPattern, Pattern,
};
use syntect_grammar_rewrite::references::refers_back;
use syntect_yaml::value::Yaml;

/// How many scopes a number clears.
fn amount(number: i64) -> ClearAmount
    ensures { result ≡ contexts.amount number }
{
    if number < 0 {
        ClearAmount::TopN(usize::MAX)
    } else {
        ClearAmount::TopN(number as usize)
    }
}

/// What an item clears.
fn cleared(map: &Yaml) -> Option<ClearAmount>
    ensures { result ≡ contexts.clear_amount (view map.now) }
{
    match number_at(map, "clear_scopes") {
        Some(number) => Some(amount(number)),
        None => match truth_at(map, "clear_scopes") {
            Some(true) => Some(ClearAmount::All),
            _ => None,
        },
    }
}

/// Whether an item sets something.
pub fn is_setting(map: &Yaml) -> bool
    ensures { result ≡ contexts.is_setting (view map.now) }
{
    text_at(map, "meta_scope").is_some()
        || text_at(map, "meta_content_scope").is_some()
        || truth_at(map, "meta_include_prototype").is_some()
        || cleared(map).is_some()
}

/// Whether a context wants its prototype, perhaps set anew.
fn wants_prototype(map: &Yaml, before: bool) -> bool
    ensures { result ≡ contexts.wants_prototype (view map.now) before }
{
    match truth_at(map, "meta_include_prototype") {
        Some(wants) => wants,
        None => before,
    }
}

/// What a context clears, perhaps set anew.
fn clearing(map: &Yaml, before: Option<ClearAmount>) -> Option<ClearAmount>
    ensures { result ≡ contexts.or_else (contexts.clear_amount (view map.now)) before }
{
    match cleared(map) {
        Some(amount) => Some(amount),
        None => before,
    }
}

/// The context with what an item sets.
fn set(
    alloc: Global,
    reading: &mut Reading,
    context: Context,
    map: &Yaml,
) -> Result<Context, ParseSyntaxError>
    ensures value { Gives (λ c. c) result reading.new
        (contexts.set context (view map.now) reading.old) }
    ensures kept { KeepsAtoms reading.old.repository reading.new.repository }
{
    let Context {
        meta_scope,
        meta_content_scope,
        meta_include_prototype,
        clear_scopes,
        prototype,
        uses_backrefs,
        patterns,
    } = context;
    let meta_scope = scopes_or(alloc, reading, text_at(map, "meta_scope"), meta_scope)?;
    let contents = text_at(map, "meta_content_scope");
    let meta_content_scope = scopes_or(alloc, reading, contents, meta_content_scope)?;
    Ok(Context {
        meta_scope,
        meta_content_scope,
        meta_include_prototype: wants_prototype(map, meta_include_prototype),
        clear_scopes: clearing(map, clear_scopes),
        prototype,
        uses_backrefs,
        patterns,
    })
}

/// The context with one more include.
fn with_include(mut context: Context, reference: ContextReference) -> Result<Context, AllocError>
    ensures { IfOk result (λ c. c ≡ contexts.with_include context reference) }
{
    context.patterns.push(Pattern::Include(reference))?;
    Ok(context)
}

/// The context with one more match.
fn with_match(mut context: Context, pattern: MatchPattern) -> Result<Context, AllocError>
    ensures { IfOk result (λ c. c ≡ contexts.with_match context pattern) }
{
    context.uses_backrefs |= pattern.has_captures;
    context.patterns.push(Pattern::Match(pattern))?;
    Ok(context)
}

/// The pattern of a match.
fn pattern_of(alloc: Global, reading: &Reading, map: &Yaml) -> Result<Compiled, ParseSyntaxError>
    ensures value { Finds (λ e. string_bytes e.text) result
        (contexts.pattern_at (view map.now) reading.now) }
    ensures tested { IfOk result (λ e. e.tested ≡ tested_text (string_bytes e.text)) }
{
    let Some(value) = map.get("match") else {
        return Err(ParseSyntaxError::MissingMandatoryKey("match"));
    };
    let Some(raw) = value.as_str() else {
        return Err(ParseSyntaxError::TypeMismatch);
    };
    expression(alloc, reading, raw)
}

/// The captures of a pattern, if there is a map of them.
fn captures_at(
    alloc: Global,
    reading: &mut Reading,
    map: &Yaml,
    tested: &Regex,
) -> Result<Option<CaptureMapping>, ParseSyntaxError>
    ensures value { Gives (λ c. c) result reading.new
        (contexts.captures_at (view map.now) tested.now reading.old) }
    ensures kept { KeepsAtoms reading.old.repository reading.new.repository }
{
    match map_at(map, "captures") {
        Some(entries) => Ok(Some(captures(alloc, reading, tested, entries)?)),
        None => Ok(None),
    }
}

/// The pattern itself. It is compiled only where something else was tested in its place.
fn regex_of(alloc: Global, expression: Compiled) -> Result<Regex, AllocError>
    ensures { IfOk result (λ r. r ≡ string_bytes expression.text) }
{
    let Compiled { text, tested } = expression;
    if tested.regex_str() == text.as_str() {
        return Ok(tested);
    }
    Regex::new(alloc, text)
}

/// A context inside of another, where contexts nest less deep than this; its name.
#[cycle(contexts)]
pub(crate) fn context(
    alloc: Global,
    reading: &mut Reading,
    room: usize,
    wants_prototype: bool,
    items: &[Yaml],
) -> Result<Text, ParseSyntaxError>
    ensures value { Gives (λ t. t) result reading.new
        (context room wants_prototype (map view items.now) reading.old) }
    ensures kept { KeepsAtoms reading.old.repository reading.new.repository }
{
    if room == 0 {
        return Err(ParseSyntaxError::TypeMismatch);
    }
    let name = reading.begin(alloc)?;
    named_context(alloc, reading, room - 1, name, wants_prototype, items)
}

/// A context of this name, in which contexts nest less deep than this.
#[cycle(contexts)]
#[tactic(auto, using(crate::proofs::LoadingLaws::each_fails, crate::proofs::LoadingLaws::each_next))]
pub(crate) fn named_context(
    alloc: Global,
    reading: &mut Reading,
    room: usize,
    name: Text,
    wants_prototype: bool,
    items: &[Yaml],
) -> Result<Text, ParseSyntaxError>
    ensures value { Gives (λ t. t) result reading.new
        (contexts.named_context (context room) name wants_prototype
        (map view items.now) reading.old) }
    ensures kept { KeepsAtoms reading.old.repository reading.new.repository }
{
    let mut context = Context::new(alloc, wants_prototype);
    for value in items {
        context = match item(alloc, reading, room, context, value) {
            Ok(context) => context,
            Err(e) => return Err(e),
        };
    }
    context.patterns.shrink_to_fit();
    reading.keep(name, context)
}

/// The context with one more of its items.
#[cycle(contexts)]
fn item(
    alloc: Global,
    reading: &mut Reading,
    room: usize,
    so_far: Context,
    value: &Yaml,
) -> Result<Context, ParseSyntaxError>
    ensures value { Gives (λ c. c) result reading.new
        (contexts.item (context room) so_far (view value.now) reading.old) }
    ensures kept { KeepsAtoms reading.old.repository reading.new.repository }
{
    if map_of(value).is_none() {
        return Err(ParseSyntaxError::TypeMismatch);
    }
    if is_setting(value) {
        return set(alloc, reading, so_far, value);
    }
    match value.get("include") {
        Some(named) => {
            let found = reference(alloc, reading, room, false, named)?;
            Ok(with_include(so_far, found)?)
        }
        None => {
            let found = match_pattern(alloc, reading, room, value)?;
            Ok(with_match(so_far, found)?)
        }
    }
}

/// What a value refers to.
#[cycle(contexts)]
fn reference(
    alloc: Global,
    reading: &mut Reading,
    room: usize,
    with_escape: bool,
    value: &Yaml,
) -> Result<ContextReference, ParseSyntaxError>
    ensures value { Gives (λ r. r) result reading.new
        (contexts.reference (context room) with_escape (view value.now) reading.old) }
    ensures kept { KeepsAtoms reading.old.repository reading.new.repository }
{
    if let Some(text) = value.as_str() {
        return text_reference(alloc, reading, with_escape, text);
    }
    match list_of(value) {
        Some(items) => Ok(ContextReference::Inline(context(alloc, reading, room, true, items)?)),
        None => Err(ParseSyntaxError::TypeMismatch),
    }
}

/// One more reference.
#[cycle(contexts)]
fn add_reference(
    alloc: Global,
    reading: &mut Reading,
    room: usize,
    mut found: Seq<ContextReference>,
    value: &Yaml,
) -> Result<Seq<ContextReference>, ParseSyntaxError>
    ensures value { Gives (λ r. r) result reading.new
        (contexts.add_reference (context room) found (view value.now) reading.old) }
    ensures kept { KeepsAtoms reading.old.repository reading.new.repository }
{
    let one = reference(alloc, reading, room, false, value)?;
    found.push(one)?;
    Ok(found)
}

/// What a push or a set names.
#[cycle(contexts)]
#[tactic(auto, using(crate::proofs::LoadingLaws::each_fails, crate::proofs::LoadingLaws::each_next))]
fn references(
    alloc: Global,
    reading: &mut Reading,
    room: usize,
    value: &Yaml,
) -> Result<Seq<ContextReference>, ParseSyntaxError>
    ensures value { Gives (λ r. r) result reading.new
        (contexts.references (context room) (view value.now) reading.old) }
    ensures kept { KeepsAtoms reading.old.repository reading.new.repository }
{
    if is_none(value) {
        return Err(ParseSyntaxError::TypeMismatch);
    }
    let mut found = Seq::new(alloc);
    if !is_several(value) {
        return add_reference(alloc, reading, room, found, value);
    }
    let items = match list_of(value) {
        Some(items) => items,
        None => &[],
    };
    for one in items {
        found = match add_reference(alloc, reading, room, found, one) {
            Ok(found) => found,
            Err(e) => return Err(e),
        };
    }
    Ok(found)
}

/// What an `embed` pushes.
#[cycle(contexts)]
fn embedded(
    alloc: Global,
    reading: &mut Reading,
    room: usize,
    map: &Yaml,
    value: &Yaml,
) -> Result<MatchOperation, ParseSyntaxError>
    ensures value { Gives (λ o. o) result reading.new
        (contexts.embedded (context room) (view map.now) (view value.now) reading.old) }
    ensures kept { KeepsAtoms reading.old.repository reading.new.repository }
{
    let Some(escape) = map.get("escape") else {
        return Err(ParseSyntaxError::MissingMandatoryKey("escape"));
    };
    let items = escape_items(alloc, map, escape)?;
    let out = context(alloc, reading, room, true, items.as_slice())?;
    let inside = reference(alloc, reading, room, true, value)?;
    let mut found = Seq::new(alloc);
    found.push(ContextReference::Inline(out))?;
    found.push(inside)?;
    Ok(MatchOperation::Push(found))
}

/// What a match does.
#[cycle(contexts)]
fn operation(
    alloc: Global,
    reading: &mut Reading,
    room: usize,
    map: &Yaml,
) -> Result<MatchOperation, ParseSyntaxError>
    ensures value { Gives (λ o. o) result reading.new
        (contexts.operation (context room) (view map.now) reading.old) }
    ensures kept { KeepsAtoms reading.old.repository reading.new.repository }
{
    if map.get("pop").is_some() {
        return Ok(MatchOperation::Pop);
    }
    if let Some(value) = map.get("push") {
        return Ok(MatchOperation::Push(references(alloc, reading, room, value)?));
    }
    if let Some(value) = map.get("set") {
        return Ok(MatchOperation::Set(references(alloc, reading, room, value)?));
    }
    match map.get("embed") {
        Some(value) => embedded(alloc, reading, room, map, value),
        None => Ok(MatchOperation::None),
    }
}

/// A `with_prototype`, or one that leaves ahead of the `escape`.
#[cycle(contexts)]
fn with_prototype(
    alloc: Global,
    reading: &mut Reading,
    room: usize,
    map: &Yaml,
) -> Result<Option<ContextReference>, ParseSyntaxError>
    ensures value { Gives (λ p. p) result reading.new
        (contexts.with_prototype (context room) (view map.now) reading.old) }
    ensures kept { KeepsAtoms reading.old.repository reading.new.repository }
{
    if let Some(items) = list_at(map, "with_prototype") {
        let name = context(alloc, reading, room, false, items)?;
        return Ok(Some(ContextReference::Inline(name)));
    }
    let Some(escape) = map.get("escape") else {
        return Ok(None);
    };
    let Some(text) = escape.as_str() else {
        return Err(ParseSyntaxError::TypeMismatch);
    };
    let items = ahead_items(alloc, text)?;
    let name = context(alloc, reading, room, false, items.as_slice())?;
    Ok(Some(ContextReference::Inline(name)))
}

/// A match.
#[cycle(contexts)]
fn match_pattern(
    alloc: Global,
    reading: &mut Reading,
    room: usize,
    map: &Yaml,
) -> Result<MatchPattern, ParseSyntaxError>
    ensures value { Gives (λ p. p) result reading.new
        (contexts.match (context room) (view map.now) reading.old) }
    ensures kept { KeepsAtoms reading.old.repository reading.new.repository }
{
    let pattern = pattern_of(alloc, reading, map)?;
    let none = Seq::new(alloc);
    let scope = scopes_or(alloc, reading, text_at(map, "scope"), none)?;
    let captures = captures_at(alloc, reading, map, &pattern.tested)?;
    let operation = operation(alloc, reading, room, map)?;
    let with_prototype = with_prototype(alloc, reading, room, map)?;
    let has_captures = map.get("pop").is_some() && refers_back(pattern.text.as_str());
    Ok(MatchPattern {
        has_captures,
        regex: regex_of(alloc, pattern)?,
        scope,
        captures,
        operation,
        with_prototype,
    })
}
