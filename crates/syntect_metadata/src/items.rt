//! What is said of the lines in a scope.
ghost use Rattle.std.specs.Prelude.{◌≡◌, ◌≢◌, length, IfOk, IfErr, Ok, Some, option_map, is_some};
ghost use Rattle.std.specs.List.{list_any};
ghost use Rattle.std.specs.Option.{ok_or};
ghost use Rattle.serde_json.specs.Find.{get, as_bool, as_str};
ghost use Rattle.serde_json.specs.View.{view, members_view};
ghost use Rattle.syntect_metadata.specs.Items as items;
ghost use Rattle.syntect_metadata.specs.Sets.{Refuses};
ghost use Rattle.syntect_metadata.specs.declared.error.MetadataError.{MetadataError};

use crate::below::values::table::Table;
use crate::below::values::text::Text;
use crate::error::MetadataError;
use serde_json::{Map, Value};
use std::alloc::{AllocError, Global};
use std::collections::BTreeMap;
use syntect_regex::regex::Regex;

/// What is said of the lines in a scope.
#[derive(Clone, PartialEq, Eq)]
pub struct MetadataItems {
    /// The line after one that this matches is indented by one more.
    pub increase_indent_pattern: Option<Regex>,
    /// A line that this matches is indented by one less.
    pub decrease_indent_pattern: Option<Regex>,
    /// The one line after one that this matches is indented by one more.
    pub bracket_indent_next_line_pattern: Option<Regex>,
    /// The line after one that this matches is not indented by one more.
    pub disable_indent_next_line_pattern: Option<Regex>,
    /// A line that this matches is not looked at.
    pub unindented_line_pattern: Option<Regex>,
    /// Whether lines are indented up to an open parenthesis.
    pub indent_parens: Option<bool>,
    /// Variables by their names.
    pub shell_variables: Table<Text, Text>,
    /// The mark of comments that go to the end of their line.
    pub line_comment: Option<Text>,
    /// The marks of comments that have two: of the start and of the end.
    pub block_comment: Option<(Text, Text)>,
}

/// Written out, so that crates above call it and needn't prove each part's drop again.
impl Drop for MetadataItems {
    fn drop(self) {
        let MetadataItems {
            increase_indent_pattern: _,
            decrease_indent_pattern: _,
            bracket_indent_next_line_pattern: _,
            disable_indent_next_line_pattern: _,
            unindented_line_pattern: _,
            indent_parens: _,
            shell_variables: _,
            line_comment: _,
            block_comment: _,
        } = self;
    }
}

/// Two patterns that there may be.
#[derive(Drop)]
pub(crate) struct Pair {
    pub first: Option<Regex>,
    pub second: Option<Regex>,
}

/// The patterns among items.
#[derive(Drop)]
pub(crate) struct Patterns {
    /// By which lines are indented more and less.
    pub indents: Pair,
    /// By which the next line is indented, or is not.
    pub next_line: Pair,
    pub unindented: Option<Regex>,
}

/// The variables among items, and what they say of comments.
#[derive(Drop)]
pub(crate) struct Comments {
    pub variables: Table<Text, Text>,
    pub line: Option<Text>,
    pub block: Option<(Text, Text)>,
}

/// Items of their parts.
fn items_with(patterns: Patterns, indent_parens: Option<bool>, comments: Comments) -> MetadataItems
    ensures { result ≡ items.items_with patterns indent_parens comments }
{
    let Patterns {
        indents,
        next_line,
        unindented,
    } = patterns;
    let Pair {
        first: increase,
        second: decrease,
    } = indents;
    let Pair {
        first: bracket,
        second: disable,
    } = next_line;
    let Comments {
        variables,
        line,
        block,
    } = comments;
    MetadataItems {
        increase_indent_pattern: increase,
        decrease_indent_pattern: decrease,
        bracket_indent_next_line_pattern: bracket,
        disable_indent_next_line_pattern: disable,
        unindented_line_pattern: unindented,
        indent_parens,
        shell_variables: variables,
        line_comment: line,
        block_comment: block,
    }
}

impl MetadataItems {
    /// Equal items.
    pub fn clone(&self, alloc: Global) -> Result<MetadataItems, AllocError>
        ensures { IfOk result (λ items. items ≡ self.now) }
    {
        let patterns = self.patterns(alloc)?;
        let comments = self.comments()?;
        Ok(items_with(patterns, self.indent_parens, comments))
    }

    /// Equal patterns.
    fn patterns(&self, alloc: Global) -> Result<Patterns, AllocError>
        ensures { IfOk result (λ patterns. patterns ≡ items.patterns_in self.now) }
    {
        let indents = copied_pair(
            alloc,
            &self.increase_indent_pattern,
            &self.decrease_indent_pattern,
        )?;
        let next_line = copied_pair(
            alloc,
            &self.bracket_indent_next_line_pattern,
            &self.disable_indent_next_line_pattern,
        )?;
        let unindented = copied(alloc, &self.unindented_line_pattern)?;
        Ok(Patterns {
            indents,
            next_line,
            unindented,
        })
    }

    /// Equal variables and marks.
    fn comments(&self) -> Result<Comments, AllocError>
        ensures { IfOk result (λ comments. comments ≡ items.comments_in self.now) }
    {
        let variables = self.shell_variables.clone()?;
        let line = self.line_comment.clone()?;
        let block = self.block_comment.clone()?;
        Ok(Comments {
            variables,
            line,
            block,
        })
    }
}

/// An equal pattern, if there is one.
fn copied(alloc: Global, pattern: &Option<Regex>) -> Result<Option<Regex>, AllocError>
    ensures { IfOk result (λ p. p ≡ pattern.now) }
{
    match pattern {
        Some(pattern) => Ok(Some(pattern.clone(alloc)?)),
        None => Ok(None),
    }
}

/// Two equal patterns.
fn copied_pair(
    alloc: Global,
    first: &Option<Regex>,
    second: &Option<Regex>,
) -> Result<Pair, AllocError>
    ensures { IfOk result (λ p. p ≡ items.pair first.now second.now) }
{
    let first = copied(alloc, first)?;
    let second = copied(alloc, second)?;
    Ok(Pair { first, second })
}

/// Whether an object has the key of a pattern.
fn has_pattern_key(settings: &Value) -> bool
    ensures { result ≡ list_any (λ key. is_some (get key (view settings.now))) items.pattern_keys }
{
    settings.get("increaseIndentPattern").is_some()
        || settings.get("decreaseIndentPattern").is_some()
        || settings.get("bracketIndentNextLinePattern").is_some()
        || settings.get("disableIndentNextLinePattern").is_some()
        || settings.get("unIndentedLinePattern").is_some()
}

/// Whether an object has one of the keys that are read.
pub(crate) fn has_known_key(settings: &Value) -> bool
    ensures { result ≡ items.has_known_key (view settings.now) }
{
    settings.get("shellVariables").is_some()
        || settings.get("indentParens").is_some()
        || has_pattern_key(settings)
}

/// The pattern of a key, which may be missing or null.
fn pattern(alloc: Global, key: &str, settings: &Value) -> Result<Option<Regex>, MetadataError>
    ensures ok { IfOk result (λ p. items.pattern_at key.now (view settings.now) ≡ Ok p) }
    ensures err { IfErr result (Refuses (items.pattern_at key.now (view settings.now))) }
{
    let Some(value) = settings.get(key) else {
        return Ok(None);
    };
    if value.is_null() {
        return Ok(None);
    }
    match value.as_str() {
        Some(text) => {
            let text = String::from_str(alloc, text)?;
            Ok(Some(Regex::new(alloc, text)?))
        }
        None => Err(MetadataError::BadItems),
    }
}

/// The patterns of two keys.
fn two_patterns(
    alloc: Global,
    first: &str,
    second: &str,
    settings: &Value,
) -> Result<Pair, MetadataError>
    ensures ok { IfOk result (λ p. items.pair_at first.now second.now (view settings.now) ≡ Ok p) }
    ensures err { IfErr result (Refuses (items.pair_at first.now second.now (view settings.now))) }
{
    let first = match pattern(alloc, first, settings) {
        Ok(first) => first,
        Err(e) => return Err(e),
    };
    match pattern(alloc, second, settings) {
        Ok(second) => Ok(Pair { first, second }),
        Err(e) => Err(e),
    }
}

/// The patterns of an object.
fn patterns_of(alloc: Global, settings: &Value) -> Result<Patterns, MetadataError>
    ensures ok { IfOk result (λ p. items.patterns_of (view settings.now) ≡ Ok p) }
    ensures err { IfErr result (Refuses (items.patterns_of (view settings.now))) }
{
    let indents = match two_patterns(
        alloc,
        "increaseIndentPattern",
        "decreaseIndentPattern",
        settings,
    ) {
        Ok(indents) => indents,
        Err(e) => return Err(e),
    };
    let next_line = match two_patterns(
        alloc,
        "bracketIndentNextLinePattern",
        "disableIndentNextLinePattern",
        settings,
    ) {
        Ok(next_line) => next_line,
        Err(e) => return Err(e),
    };
    match pattern(alloc, "unIndentedLinePattern", settings) {
        Ok(unindented) => Ok(Patterns {
            indents,
            next_line,
            unindented,
        }),
        Err(e) => Err(e),
    }
}

/// A truth value, which may be missing or null.
fn truth(value: Option<&Value>) -> Result<Option<bool>, MetadataError>
    ensures { result ≡ items.optional as_bool (option_map (λ v. view v.now) value.entry) }
{
    let Some(value) = value else {
        return Ok(None);
    };
    if value.is_null() {
        return Ok(None);
    }
    match value.as_bool() {
        Some(truth) => Ok(Some(truth)),
        None => Err(MetadataError::BadItems),
    }
}

/// The members of an object whose values are texts.
#[tactic(auto, using(crate::proofs::TextLaws::nothing_read, crate::proofs::TextLaws::spoils, crate::proofs::TextLaws::all_texts))]
fn texts(alloc: Global, members: &Map<String, Value>) -> Result<Table<Text, Text>, MetadataError>
    ensures ok { IfOk result (λ texts.
        ok_or (items.texts_in (members_view members.now.entries)) MetadataError.BadItems
        ≡ Ok texts) }
    ensures err { IfErr result (Refuses
        (ok_or (items.texts_in (members_view members.now.entries)) MetadataError.BadItems)) }
{
    let mut texts = BTreeMap::new(alloc);
    for (name, value) in members.iter() {
        let Some(text) = value.as_str() else {
            return Err(MetadataError::BadItems);
        };
        let name = Text::from_str(alloc, name.as_str())?;
        let text = Text::from_str(alloc, text)?;
        texts.insert(name, text)?;
    }
    Ok(Table::from_map(texts))
}

/// The variables of an object, which may be missing.
fn variables(alloc: Global, value: Option<&Value>) -> Result<Table<Text, Text>, MetadataError>
    ensures ok { IfOk result (λ vars.
        items.variables_at (option_map (λ v. view v.now) value.entry) ≡ Ok vars) }
    ensures err { IfErr result (Refuses
        (items.variables_at (option_map (λ v. view v.now) value.entry))) }
{
    let Some(value) = value else {
        return Ok(Table::new(alloc));
    };
    match value.as_object() {
        Some(members) => texts(alloc, members),
        None => Err(MetadataError::BadItems),
    }
}

/// The text of a variable.
fn variable<'a>(name: &str, variables: Option<&'a Value>) -> Option<&'a str>
    ensures { option_map (λ s. s.now) result
        ≡ items.variable name.now (option_map (λ v. view v.now) variables.entry) }
{
    match variables {
        Some(variables) => variables.get(name).and_then(Value::as_str),
        None => None,
    }
}

/// The mark of a comment that goes to the end of its line: one that has no mark of its end.
fn line_mark<'a>(variables: Option<&'a Value>, start: &str, end: &str) -> Option<&'a str>
    ensures { option_map (λ s. s.now) result
        ≡ items.line_mark (option_map (λ v. view v.now) variables.entry) start.now end.now }
{
    if variable(end, variables).is_some() {
        return None;
    }
    variable(start, variables)
}

/// The marks of a comment that has both.
fn block_marks<'a>(
    variables: Option<&'a Value>,
    start: &str,
    end: &str,
) -> Option<(&'a str, &'a str)>
    ensures { option_map (λ p. (p.0.now, p.1.now)) result
        ≡ items.block_marks (option_map (λ v. view v.now) variables.entry) start.now end.now }
{
    let start = variable(start, variables)?;
    let end = variable(end, variables)?;
    Some((start, end))
}

/// The mark of comments that go to the end of their line.
fn line_comment(alloc: Global, variables: Option<&Value>) -> Result<Option<Text>, AllocError>
    ensures { IfOk result (λ mark. mark
        ≡ items.line_comment (option_map (λ v. view v.now) variables.entry)) }
{
    let first = line_mark(variables, "TM_COMMENT_START", "TM_COMMENT_END");
    let second = line_mark(variables, "TM_COMMENT_START_2", "TM_COMMENT_END_2");
    let third = line_mark(variables, "TM_COMMENT_START_3", "TM_COMMENT_END_3");
    match first.or(second).or(third) {
        Some(mark) => Ok(Some(Text::from_str(alloc, mark)?)),
        None => Ok(None),
    }
}

/// The marks of comments that have two.
fn block_comment(
    alloc: Global,
    variables: Option<&Value>,
) -> Result<Option<(Text, Text)>, AllocError>
    ensures { IfOk result (λ marks. marks
        ≡ items.block_comment (option_map (λ v. view v.now) variables.entry)) }
{
    let first = block_marks(variables, "TM_COMMENT_START", "TM_COMMENT_END");
    let second = block_marks(variables, "TM_COMMENT_START_2", "TM_COMMENT_END_2");
    let third = block_marks(variables, "TM_COMMENT_START_3", "TM_COMMENT_END_3");
    match first.or(second).or(third) {
        Some((start, end)) => {
            let start = Text::from_str(alloc, start)?;
            let end = Text::from_str(alloc, end)?;
            Ok(Some((start, end)))
        }
        None => Ok(None),
    }
}

/// The variables of an object, and what they say of comments.
fn comments_of(alloc: Global, settings: &Value) -> Result<Comments, MetadataError>
    ensures ok { IfOk result (λ c. items.comments_at (get items.variables_key (view settings.now))
        ≡ Ok c) }
    ensures err { IfErr result (Refuses
        (items.comments_at (get items.variables_key (view settings.now)))) }
{
    let value = settings.get("shellVariables");
    let variables = match variables(alloc, value) {
        Ok(variables) => variables,
        Err(e) => return Err(e),
    };
    let line = line_comment(alloc, value)?;
    let block = block_comment(alloc, value)?;
    Ok(Comments {
        variables,
        line,
        block,
    })
}

/// What an object says. A value of a wrong kind is `BadItems`, and keys that aren't known are not
/// looked at.
pub(crate) fn items(alloc: Global, settings: &Value) -> Result<MetadataItems, MetadataError>
    ensures ok { IfOk result (λ i. items.items_of (view settings.now) ≡ Ok i) }
    ensures err { IfErr result (Refuses (items.items_of (view settings.now))) }
{
    let patterns = match patterns_of(alloc, settings) {
        Ok(patterns) => patterns,
        Err(e) => return Err(e),
    };
    let indent_parens = match truth(settings.get("indentParens")) {
        Ok(indent_parens) => indent_parens,
        Err(e) => return Err(e),
    };
    match comments_of(alloc, settings) {
        Ok(comments) => Ok(items_with(patterns, indent_parens, comments)),
        Err(e) => Err(e),
    }
}
