//! The parts of a context: patterns, captures and references by text.
ghost use Rattle.std.specs.Prelude.{◌≡◌, ◌==◌, [], map, option_map, string_bytes, IfOk, slice_get};
ghost use Rattle.std.specs.List.{slice_split};
ghost use Rattle.syntect_grammar_loader.specs.LoadingParts as parts;
ghost use Rattle.syntect_grammar_loader.specs.LoadingSteps.{Finds, Gives, KeepsAtoms, perhaps};
ghost use Rattle.syntect_grammar_loader.specs.LoadingValues as values;
ghost use Rattle.syntect_grammar_rewrite.specs.Testing.{tested_text};
ghost use Rattle.syntect_yaml.specs.Node.{number_of};
ghost use Rattle.syntect_yaml.specs.View.{entry_view};

use crate::below::regexes::error::PatternError;
use crate::below::regexes::regex::Regex;
use crate::below::scope::scope::Scope;
use crate::below::values::seq::Seq;
use crate::below::values::text::Text;
use crate::yaml_load_state::Reading;
use std::alloc::{AllocError, Global};
use syntect_base::syntax::ParseSyntaxError;
use syntect_grammar_contexts::context::{CaptureMapping, ContextReference};
use syntect_grammar_rewrite::references::tested;
use syntect_grammar_rewrite::rewrite::rewrite;
use syntect_yaml::value::{Scalar, Yaml};

/// The scopes of a text that may stand there.
pub(crate) fn scopes_or(
    alloc: Global,
    reading: &mut Reading,
    text: Option<&str>,
    otherwise: Seq<Scope>,
) -> Result<Seq<Scope>, ParseSyntaxError>
    ensures value { Gives (λ s. s) result reading.new
        (perhaps parts.scopes otherwise (option_map (λ t. t.now) text.entry) reading.old) }
    ensures kept { KeepsAtoms reading.old.repository reading.new.repository }
{
    match text {
        Some(text) => reading.scopes(alloc, text),
        None => Ok(otherwise),
    }
}

/// The text of a pattern after its rewrites, and what is tested in its place.
#[derive(Drop)]
pub(crate) struct Compiled {
    pub(crate) text: String,
    pub(crate) tested: Regex,
}

/// The pattern that a text stands for.
pub(crate) fn expression(
    alloc: Global,
    reading: &Reading,
    raw: &str,
) -> Result<Compiled, ParseSyntaxError>
    ensures value { Finds (λ e. string_bytes e.text) result (parts.expression raw.now reading.now) }
    ensures tested { IfOk result (λ e. e.tested ≡ tested_text (string_bytes e.text)) }
{
    let text = rewrite(
        alloc,
        raw,
        &reading.variables,
        reading.lines_include_newline,
    )?;
    let tested = Regex::new(alloc, tested(alloc, text.as_str())?)?;
    match tested.group(0) {
        Some(_) => Ok(Compiled { text, tested }),
        None => Err(ParseSyntaxError::RegexCompileError(
            String::from_str(alloc, tested.regex_str())?,
            PatternError::NotAPattern,
        )),
    }
}

/// The natural number that a key is.
fn natural(number: Option<i64>) -> Option<usize>
    ensures { result ≡ parts.natural number }
{
    match number {
        Some(n) if n >= 0 => Some(n as usize),
        _ => None,
    }
}

/// The group of a capture's key, where it counts.
fn capture_group(tested: &Regex, key: &Scalar) -> Option<usize>
    ensures { result ≡ parts.capture_group tested.now key.now }
{
    let Some(number) = natural(key.as_i64()) else {
        return None;
    };
    match tested.group(number) {
        Some(false) => Some(number),
        _ => None,
    }
}

/// One more capture, where it counts.
fn add_capture(
    alloc: Global,
    reading: &mut Reading,
    mut found: CaptureMapping,
    group: Option<usize>,
    text: Option<&str>,
) -> Result<CaptureMapping, ParseSyntaxError>
    ensures value { Gives (λ c. c) result reading.new
        (parts.add_capture found group (option_map (λ t. t.now) text.entry) reading.old) }
    ensures kept { KeepsAtoms reading.old.repository reading.new.repository }
{
    match (group, text) {
        (Some(group), Some(text)) => {
            let scopes = reading.scopes(alloc, text)?;
            found.push((group, scopes))?;
            Ok(found)
        }
        _ => Ok(found),
    }
}

/// The captures of a pattern.
#[tactic(auto, using(crate::proofs::LoadingLaws::each_fails, crate::proofs::LoadingLaws::each_next))]
pub(crate) fn captures(
    alloc: Global,
    reading: &mut Reading,
    tested: &Regex,
    entries: &[(Scalar, Yaml)],
) -> Result<CaptureMapping, ParseSyntaxError>
    ensures value { Gives (λ c. c) result reading.new
        (parts.captures tested.now (map entry_view entries.now) reading.old) }
    ensures kept { KeepsAtoms reading.old.repository reading.new.repository }
{
    let mut found = Seq::new(alloc);
    for entry in entries {
        let group = capture_group(tested, &entry.0);
        found = match add_capture(alloc, reading, found, group, entry.1.as_str()) {
            Ok(found) => found,
            Err(e) => return Err(e),
        };
    }
    found.shrink_to_fit();
    Ok(found)
}

/// The parts of a text between its marks.
fn parts_of(alloc: Global, text: &str) -> Result<Vec<&str>, AllocError>
    ensures { IfOk result (λ v. map (λ x. x.now) v.items ≡ slice_split (λ b. b == 35) text.now) }
{
    text.split('#').collect(alloc)
}

/// The parts of a path.
fn parts_of_path(alloc: Global, path: &str) -> Result<Vec<&str>, AllocError>
    ensures { IfOk result (λ v. map (λ x. x.now) v.items ≡ slice_split (λ b. b == 47) path.now) }
{
    path.split('/').collect(alloc)
}

/// How a reference by scope begins.
const SCOPE_MARK: &str = "scope:";

/// How the name of a grammar's file ends.
const FILE_ENDING: &str = ".sublime-syntax";

/// Whether the name is that of a grammar's file.
fn is_file(name: &str) -> bool
    ensures { result ≡ values.is_file name.now }
{
    name.ends_with(FILE_ENDING)
}

/// What comes after the mark of a scope.
fn scope_text(name: &str) -> Option<&str>
    ensures { option_map (λ t. t.now) result ≡ values.scope_text name.now }
{
    name.strip_prefix(SCOPE_MARK)
}

/// The text without the ending of a file, unless nothing is left.
#[tactic(auto, using(crate::proofs::LoadingLaws::no_ending))]
fn without_ending(text: &str) -> &str
    ensures { result.now ≡ values.without_ending text.now }
{
    if text.len() <= FILE_ENDING.len() {
        return text;
    }
    match text.strip_suffix(FILE_ENDING) {
        Some(rest) => rest,
        None => text,
    }
}

/// The last of some parts.
fn last_of<'a>(parts: &[&'a str]) -> &'a str
    ensures { result.now ≡ values.last_of [] (map (λ x. x.now) parts.now) }
{
    let mut last = "";
    for part in parts {
        last = *part;
    }
    last
}

/// The name of the syntax that a file holds.
fn file_name(alloc: Global, path: &str) -> Result<Text, AllocError>
    ensures { IfOk result (λ t. t ≡ values.file_name path.now) }
{
    let parts = parts_of_path(alloc, path)?;
    Text::from_str(alloc, without_ending(last_of(parts.as_slice())))
}

/// What a text without its marks refers to.
fn named_reference(
    alloc: Global,
    reading: &mut Reading,
    name: &str,
    sub_context: Option<Text>,
    with_escape: bool,
) -> Result<ContextReference, ParseSyntaxError>
    ensures value { Gives (λ r. r) result reading.new
        (parts.named_reference with_escape name.now sub_context reading.old) }
    ensures kept { KeepsAtoms reading.old.repository reading.new.repository }
{
    if let Some(text) = scope_text(name) {
        let scope = reading.scope(text)?;
        return Ok(ContextReference::ByScope {
            scope,
            sub_context,
            with_escape,
        });
    }
    if is_file(name) {
        return Ok(ContextReference::File {
            name: file_name(alloc, name)?,
            sub_context,
            with_escape,
        });
    }
    Ok(ContextReference::Named(Text::from_str(alloc, name)?))
}

/// What a text refers to.
pub(crate) fn text_reference(
    alloc: Global,
    reading: &mut Reading,
    with_escape: bool,
    text: &str,
) -> Result<ContextReference, ParseSyntaxError>
    ensures value { Gives (λ r. r) result reading.new
        (parts.text_reference with_escape text.now reading.old) }
    ensures kept { KeepsAtoms reading.old.repository reading.new.repository }
{
    let parts = parts_of(alloc, text)?;
    let name = match parts.first() {
        Some(name) => *name,
        None => "",
    };
    let sub_context = match parts.get(1) {
        Some(part) => Some(Text::from_str(alloc, part)?),
        None => None,
    };
    named_reference(alloc, reading, name, sub_context, with_escape)
}
