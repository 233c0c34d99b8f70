//! Broken inputs, each of which has to be answered: grammars, themes, metadata, patterns and texts.
use crate::below::base::settings::settings_of;
use crate::below::base::utils::files_below;
use crate::below::check_calls::given::theme_of;
use crate::broken::{below, broken};
use crate::given::LINE;
use serde_json::{Map, Value};
use std::alloc::{AllocError, Global};
use std::path::Path;
use std::rt::Files;
use std::{fs, io, str};
use syntect_check_sets::set_given::set_of;
use syntect_easy::highlighting::{Theme, ThemeSet};
use syntect_easy::html::{highlighted_html_for_reader, highlighted_html_for_string};
use syntect_easy::parsing::{
    MetadataError, MetadataSet, ParseSyntaxError, ParsingError, PatternError, Regex,
    ScopeRepository, SyntaxDefinition, SyntaxSet, SyntaxSetBuilder,
};
use syntect_easy::{Error, LoadingError};

/// How inputs were answered.
#[derive(Clone, Copy)]
struct Counts {
    inputs: u32,
    accepted: u32,
    refused: u32,
}

/// Whether a page is accepted; none if it is refused for another reason than a
/// reference that leads nowhere.
fn of_page(page: Result<String, Error>) -> Option<bool> {
    match page {
        Ok(_) => Some(true),
        Err(Error::ParsingError(ParsingError::UnresolvedContextReference(_))) => Some(false),
        Err(_) => None,
    }
}

/// The set of a definition.
fn made_of(
    alloc: Global,
    definition: SyntaxDefinition,
    repository: &mut ScopeRepository,
) -> Option<SyntaxSet> {
    let mut builder = SyntaxSetBuilder::new(alloc);
    builder.add(definition).ok()?;
    builder.build(alloc, repository).ok()
}

/// Reads a line by the first syntax of a set.
fn read_by(alloc: Global, set: &SyntaxSet) -> Option<bool> {
    let syntax = set.syntaxes().first()?;
    let theme = Theme::default(alloc);
    of_page(highlighted_html_for_string(alloc, LINE, set, syntax, &theme))
}

/// Reads a line by a definition.
fn read(
    alloc: Global,
    definition: SyntaxDefinition,
    repository: &mut ScopeRepository,
) -> Option<bool> {
    let set = made_of(alloc, definition, repository)?;
    read_by(alloc, &set)
}

/// Whether a grammar is accepted, and a line by it; none if it isn't refused for what it says.
fn of_grammar(alloc: Global, text: &str) -> Option<bool> {
    let mut repository = ScopeRepository::new(alloc);
    match SyntaxDefinition::load_from_str(alloc, text, true, None, &mut repository) {
        Ok(definition) => read(alloc, definition, &mut repository),
        Err(ParseSyntaxError::Memory) => None,
        Err(_) => Some(false),
    }
}

fn of_theme(alloc: Global, bytes: &[u8]) -> Option<bool> {
    let mut repository = ScopeRepository::new(alloc);
    let mut reader = bytes;
    match ThemeSet::load_from_reader(alloc, &mut reader, &mut repository) {
        Ok(_) => Some(true),
        Err(LoadingError::ReadSettings(_) | LoadingError::ParseTheme(_)) => Some(false),
        Err(_) => None,
    }
}

/// Whether bytes are settings that make a set of metadata.
fn of_settings(alloc: Global, bytes: &[u8]) -> Option<bool> {
    match settings_of(alloc, bytes) {
        Ok(Value::Object(settings)) => of_object(alloc, settings),
        _ => Some(false),
    }
}

/// Whether settings make a set of metadata.
fn of_object(alloc: Global, settings: Map<String, Value>) -> Option<bool> {
    let mut repository = ScopeRepository::new(alloc);
    let selector = String::from_str(alloc, "source").ok()?;
    match MetadataSet::from_raw(alloc, (selector, settings), &mut repository) {
        Ok(_) => Some(true),
        Err(MetadataError::Memory) => None,
        Err(_) => Some(false),
    }
}

/// Whether a text is a pattern, and a search by it is answered.
fn of_pattern(alloc: Global, text: &str) -> Option<bool> {
    match Regex::try_compile(alloc, text) {
        None => {
            let regex = Regex::new(alloc, String::from_str(alloc, text).ok()?).ok()?;
            let found = regex.search(alloc, LINE, 0, LINE.len(), None);
            found.ok().map(|_| true)
        }
        Some(PatternError::NotAPattern) => Some(false),
        Some(_) => None,
    }
}

/// Whether bytes have a page, which they have where they are a text.
fn of_text(alloc: Global, bytes: &[u8], set: &SyntaxSet, theme: &Theme) -> Option<bool> {
    let syntax = set.syntaxes().first()?;
    let is_text = str::from_utf8(bytes).is_ok();
    match highlighted_html_for_reader(alloc, bytes, set, syntax, theme) {
        Err(Error::Io(_)) if !is_text => Some(false),
        Ok(_) if !is_text => None,
        page => of_page(page),
    }
}

/// Whether an input of the kind that a file's name ends with is accepted; none if it has no answer
/// of those it may have.
fn accepted(
    alloc: Global,
    path: &str,
    bytes: &[u8],
    set: &SyntaxSet,
    theme: &Theme,
) -> Option<bool> {
    if path.ends_with(".json") {
        return of_theme(alloc, bytes);
    }
    if path.ends_with(".tmPreferences") {
        return of_settings(alloc, bytes);
    }
    match str::from_utf8(bytes) {
        Ok(text) if path.ends_with(".yaml") => of_grammar(alloc, text),
        Ok(text) if path.ends_with(".regex") => of_pattern(alloc, text),
        _ => of_text(alloc, bytes, set, theme),
    }
}

/// A file's bytes with up to four faults.
fn input(bytes: &Vec<u8>, seed: &mut u64) -> Result<Vec<u8>, AllocError> {
    let mut input = broken(bytes, seed)?;
    for _ in 0..below(seed, 4) {
        input = broken(&input, seed)?;
    }
    Ok(input)
}

/// A set and a theme for texts.
#[derive(Drop)]
struct Given {
    set: SyntaxSet,
    theme: Theme,
}

fn make_given(alloc: Global) -> Given {
    let mut repository = ScopeRepository::new(alloc);
    let set = set_of(alloc, &mut repository);
    let theme = theme_of(alloc, &mut repository);
    Given { set, theme }
}

/// The name of a file.
fn name_of(path: &str) -> &str {
    path.rsplit('/').next().unwrap_or(path)
}

/// Writes an input into a folder, if there is one, before it is tried: one that ends the program
/// stays there.
fn keep(rt: &(impl AllocGlobal + Files), keep: &str, name: &str, input: &[u8]) -> io::Result<()> {
    if keep.is_empty() {
        return Ok(());
    }
    let path = format!(in rt.alloc(); "{keep}/{name}")?;
    fs::write(rt, path.as_str(), input)
}

/// Keeps an input that was not answered, and tells its number.
fn keep_unanswered(
    rt: &(impl Eprint + AllocGlobal + Files),
    folder: &str,
    (path, number): (&str, u32),
    input: &[u8],
) -> io::Result<()> {
    eprintln!(rt; "{path}: input {number} is not answered")?;
    let name = format!(in rt.alloc(); "{number}-{}", name_of(path))?;
    keep(rt, folder, name.as_str(), input)
}

/// Tries an input, and counts how it is answered.
fn try_input(
    rt: &(impl Eprint + AllocGlobal + Files),
    (path, folder): (&str, &str),
    input: &[u8],
    given: &Given,
    counts: &mut Counts,
) -> io::Result<()> {
    keep(rt, folder, name_of(path), input)?;
    match accepted(rt.alloc(), path, input, &given.set, &given.theme) {
        Some(true) => counts.accepted = counts.accepted.saturating_add(1),
        Some(false) => counts.refused = counts.refused.saturating_add(1),
        None => keep_unanswered(rt, folder, (path, counts.inputs), input)?,
    }
    counts.inputs = counts.inputs.saturating_add(1);
    Ok(())
}

/// Tries so many inputs that are made of a file's bytes.
fn try_bytes(
    rt: &(impl Eprint + AllocGlobal + Files),
    (path, folder): (&str, &str),
    bytes: &Vec<u8>,
    (inputs, seed): (u32, &mut u64),
    given: &Given,
) -> io::Result<Counts> {
    let mut counts = Counts {
        inputs: 0,
        accepted: 0,
        refused: 0,
    };
    for _ in 0..inputs {
        let input = input(bytes, seed)?;
        try_input(rt, (path, folder), input.as_slice(), given, &mut counts)?;
    }
    Ok(counts)
}

/// Prints how many inputs were answered, and elsewhere how. Answers whether all were.
fn print_counts(rt: &(impl Print + Eprint), path: &str, counts: Counts) -> io::Result<bool> {
    let Counts {
        inputs,
        accepted,
        refused,
    } = counts;
    let answered = accepted.saturating_add(refused);
    println!(rt; "{path}: {inputs} broken inputs, {answered} answered")?;
    eprintln!(rt; "{path}: {accepted} accepted, {refused} refused")?;
    Ok(answered == inputs)
}

/// Tries so many broken inputs of a file. Answers whether each was answered.
fn try_file(
    rt: &(impl Print + Eprint + AllocGlobal + Files),
    (path, kept): (&str, &str),
    (inputs, seed): (u32, &mut u64),
) -> io::Result<bool> {
    let bytes = fs::read(rt, path)?;
    let given = make_given(rt.alloc());
    let counts = try_bytes(rt, (path, kept), &bytes, (inputs, seed), &given)?;
    print_counts(rt, path, counts)
}

/// Tries so many broken inputs of each file of a folder, from a seed. In the second folder, if it
/// has a name, the input stands that is being tried, under the name of its file, and each that was
/// not answered, under its number too. Answers whether each was answered.
pub fn try_broken(
    rt: &(impl Print + Eprint + AllocGlobal + Files),
    (folder, kept): (&str, &str),
    inputs: u32,
    seed: u32,
) -> io::Result<bool> {
    let Ok(paths) = files_below(rt, rt.alloc(), Path::new(folder)) else {
        return Ok(false);
    };
    let mut seed = u64::from(seed);
    let mut all = true;
    for path in paths.as_slice() {
        all &= try_file(rt, (path.as_str(), kept), (inputs, &mut seed))?;
    }
    Ok(all)
}

/// Prints how the bytes of a file are answered, as an input of the kind that its name ends with.
/// Answers whether they are.
pub fn show_input(rt: &(impl Print + AllocGlobal + Files), path: &str) -> io::Result<bool> {
    let bytes = fs::read(rt, path)?;
    let given = make_given(rt.alloc());
    let accepted = accepted(rt.alloc(), path, bytes.as_slice(), &given.set, &given.theme);
    println!(rt; "{path}: {accepted:?}")?;
    Ok(accepted.is_some())
}

/// Whether a text loads as a grammar, or is refused for what it says.
fn loads(alloc: Global, text: &str) -> bool {
    let mut repository = ScopeRepository::new(alloc);
    let loaded = SyntaxDefinition::load_from_str(alloc, text, true, None, &mut repository);
    !matches!(loaded, Err(ParseSyntaxError::Memory))
}

/// Whether each front of a grammar's text, from the empty one to the whole, loads or is refused for
/// what it says.
pub fn fronts_answered(rt: &(impl AllocGlobal + Files), path: &str) -> io::Result<bool> {
    let text = fs::read_to_string(rt, path)?;
    let mut all = true;
    for end in 0..=text.len() {
        if let Some(front) = text.as_str().get(..end) {
            all &= loads(rt.alloc(), front);
        }
    }
    Ok(all)
}
