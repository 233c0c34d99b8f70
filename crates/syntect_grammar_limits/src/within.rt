//! Definitions within limits.
ghost use Rattle.std.specs.Prelude.{◌≡◌, map, option_map, IfOk, IsErr};
ghost use Rattle.syntect_grammar_limits.specs.Limited as limited;
ghost use Rattle.syntect_grammar_limits.specs.Limited.{Counts, LoadsWithin, left_of};
ghost use Rattle.syntect_grammar_limits.specs.syntect_grammar_loader.Loading.{definition_of, loaded};
ghost use Rattle.syntect_grammar_limits.specs.syntect_grammar_loader.LoadingSteps.{KeepsAtoms};
ghost use Rattle.syntect_yaml.specs.View.{view, entry_view};

use crate::below::base::limits::{LimitReached, Limits, LoadWithinError, PatternPlace};
use crate::below::base::syntax::ParseSyntaxError;
use crate::below::grammar_loader::definition::SyntaxDefinition;
use crate::below::grammar_loader::yaml_load::{DEEPEST, definition, variables_of};
use crate::below::grammar_loader::yaml_load_values::{list_of, map_at};
use crate::below::grammar_rewrite::lengths::counted_len;
use crate::below::scope::repository::ScopeRepository;
use crate::below::values::seq::Seq;
use crate::below::values::table::Table;
use crate::below::values::text::Text;
use crate::patterns::add_item;
use std::alloc::{AllocError, Global};
use syntect_yaml::error::ReadError;
use syntect_yaml::read::read;
use syntect_yaml::value::{Scalar, Yaml};

/// The limits, and the variables that a grammar has.
#[derive(Drop)]
struct Counting {
    limits: Limits,
    variables: Table<Text, Text>,
}

/// The refusal of a pattern.
fn reached(
    alloc: Global,
    is_pattern: bool,
    context: &str,
    item: usize,
    pattern: &Text,
) -> Result<LimitReached, AllocError>
    ensures { IfOk result (λ r. r ≡ limited.reached_at is_pattern
        (record { context = context.now; item = item; pattern = pattern.now })) }
{
    let place = PatternPlace {
        context: Text::from_str(alloc, context)?,
        item,
        pattern: pattern.clone()?,
    };
    if is_pattern {
        Ok(LimitReached::Pattern(place))
    } else {
        Ok(LimitReached::Patterns(place))
    }
}

/// What a pattern leaves of the bytes that all may have.
fn count_pattern(
    alloc: Global,
    counting: &Counting,
    context: &str,
    item: usize,
    left: usize,
    pattern: &Text,
) -> Result<usize, LoadWithinError>
    ensures { Counts result (limited.count_pattern counting.now.limits counting.now.variables
        context.now item left pattern.now) }
{
    let most = counting.limits.pattern.min(left);
    match counted_len(alloc, pattern.as_str(), &counting.variables, most)? {
        Some(n) => Ok(left - n),
        None => {
            let is_pattern = counting.limits.pattern <= left;
            let r = reached(alloc, is_pattern, context, item, pattern)?;
            Err(LoadWithinError::LimitReached(r))
        }
    }
}

/// What patterns leave.
fn count_patterns(
    alloc: Global,
    counting: &Counting,
    context: &str,
    item: usize,
    left: usize,
    patterns: &[Text],
) -> Result<usize, LoadWithinError>
    ensures { Counts result (limited.count_each
        (limited.count_pattern counting.now.limits counting.now.variables context.now item)
        left patterns.now) }
{
    let mut left = left;
    for pattern in patterns {
        left = match count_pattern(alloc, counting, context, item, left, pattern) {
            Ok(left) => left,
            Err(e) => return Err(e),
        };
    }
    Ok(left)
}

/// What the patterns of an item leave.
fn count_item(
    alloc: Global,
    counting: &Counting,
    context: &str,
    item: usize,
    left: usize,
    value: &Yaml,
) -> Result<usize, LoadWithinError>
    ensures { Counts result (limited.count_item counting.now.limits counting.now.variables
        context.now item left (view value.now)) }
{
    let mut patterns = Seq::new(alloc);
    add_item(alloc, &mut patterns, DEEPEST, value)?;
    count_patterns(alloc, counting, context, item, left, patterns.as_slice())
}

/// What the patterns of a context leave.
fn count_items(
    alloc: Global,
    counting: &Counting,
    context: &str,
    left: usize,
    items: &[Yaml],
) -> Result<usize, LoadWithinError>
    ensures { Counts result (limited.count_items counting.now.limits counting.now.variables
        context.now 0 left (map view items.now)) }
{
    let mut left = left;
    for (item, value) in items.iter().enumerate() {
        left = match count_item(alloc, counting, context, item, left, value) {
            Ok(left) => left,
            Err(e) => return Err(e),
        };
    }
    Ok(left)
}

/// What the patterns of a context leave, if it has a name and is a list.
fn count_context(
    alloc: Global,
    counting: &Counting,
    left: usize,
    name: Option<&str>,
    items: Option<&[Yaml]>,
) -> Result<usize, LoadWithinError>
    ensures { Counts result (limited.count_context counting.now.limits counting.now.variables
        left (option_map (λ t. t.now) name.entry)
        (option_map (λ v. map view v.now) items.entry)) }
{
    match (name, items) {
        (Some(name), Some(items)) => count_items(alloc, counting, name, left, items),
        _ => Ok(left),
    }
}

/// What the patterns of all contexts leave.
fn count_contexts(
    alloc: Global,
    counting: &Counting,
    left: usize,
    entries: &[(Scalar, Yaml)],
) -> Result<usize, LoadWithinError>
    ensures { Counts result (limited.count_each
        (limited.count_entry counting.now.limits counting.now.variables) left
        (map entry_view entries.now)) }
{
    let mut left = left;
    for entry in entries {
        left = match count_context(alloc, counting, left, entry.0.as_str(), list_of(&entry.1)) {
            Ok(left) => left,
            Err(e) => return Err(e),
        };
    }
    Ok(left)
}

/// Whether patterns may have any number of bytes.
fn lets_all(limits: &Limits) -> bool
    ensures { result ≡ limited.lets_all limits.now }
{
    limits.pattern == usize::MAX && limits.patterns == usize::MAX
}

/// What the patterns of a value leave.
fn count_value(alloc: Global, limits: &Limits, value: &Yaml) -> Result<usize, LoadWithinError>
    ensures { Counts result (limited.left_of_value limits.now (view value.now)) }
{
    if lets_all(limits) {
        return Ok(limits.patterns);
    }
    let Some(entries) = map_at(value, "contexts") else {
        return Ok(limits.patterns);
    };
    let counting = Counting {
        limits: *limits,
        variables: variables_of(alloc, value)?,
    };
    count_contexts(alloc, &counting, limits.patterns, entries)
}

/// The definition of a value, where nothing passes a limit.
fn definition_within(
    alloc: Global,
    value: &Yaml,
    lines_include_newline: bool,
    fallback_name: Option<&str>,
    repository: &mut ScopeRepository,
    limits: &Limits,
) -> Result<SyntaxDefinition, LoadWithinError>
    ensures value { LoadsWithin (limited.left_of_value limits.now (view value.now))
        (definition_of (view value.now) lines_include_newline
        (option_map (λ t. t.now) fallback_name.entry) repository.old) result repository.new }
    ensures unchanged { IsErr (limited.left_of_value limits.now (view value.now))
        → repository.new ≡ repository.old }
    ensures kept { KeepsAtoms repository.old repository.new }
{
    match count_value(alloc, limits, value) {
        Ok(_) => {}
        Err(e) => return Err(e),
    }
    match definition(
        alloc,
        value,
        lines_include_newline,
        fallback_name,
        repository,
    ) {
        Ok(d) => Ok(d),
        Err(e) => Err(LoadWithinError::Refused(e)),
    }
}

/// The definition of a grammar's text as `load_from_str` answers it, where it keeps within limits.
///
/// Where it doesn't, `LimitReached` says which limit it would pass first, and at which pattern. The
/// text's bytes are counted before it is read, and those of a pattern with its variables expanded
/// before it is, with those of all patterns before it. It counts those that a grammar without a
/// fault has, also after its first fault, and takes no more memory for it than the text takes. The
/// repository is as it was then.
///
/// What is counted is a pattern with its variables expanded. Then brackets are named by categories
/// and the ends of lines are written, which makes a text at most six times as long, and references
/// to groups have their places marked while the pattern is tested, which makes it at most eight
/// times as long.
pub fn load_from_str_within(
    alloc: Global,
    s: &str,
    lines_include_newline: bool,
    fallback_name: Option<&str>,
    repository: &mut ScopeRepository,
    limits: &Limits,
) -> Result<SyntaxDefinition, LoadWithinError>
    ensures value { LoadsWithin (left_of limits.now s.now)
        (loaded s.now lines_include_newline
        (option_map (λ t. t.now) fallback_name.entry) repository.old)
        result repository.new }
    ensures unchanged { IsErr (left_of limits.now s.now)
        → repository.new ≡ repository.old }
    ensures kept { KeepsAtoms repository.old repository.new }
{
    if s.len() > limits.text {
        return Err(LoadWithinError::LimitReached(LimitReached::Text));
    }
    let value = match read(alloc, s) {
        Ok(Some(value)) => value,
        Ok(None) => return Err(LoadWithinError::Refused(ParseSyntaxError::EmptyFile)),
        Err(ReadError::NoValue) => {
            return Err(LoadWithinError::Refused(ParseSyntaxError::InvalidYaml));
        }
        Err(ReadError::Memory) => {
            return Err(LoadWithinError::Refused(ParseSyntaxError::Memory));
        }
    };
    definition_within(
        alloc,
        &value,
        lines_include_newline,
        fallback_name,
        repository,
        limits,
    )
}
