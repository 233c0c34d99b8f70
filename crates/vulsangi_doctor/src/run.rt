//! What the program does for writers of grammars and themes, with what it prints.
use crate::origins::marked;
use crate::scopes::{Reading, add_scopes, explain, told};
use crate::tests::{header_of, run, stack_at};
use std::alloc::Global;
use std::fs;
use std::path::Path;
use std::rt::Files;
use syntect::Error;
use syntect::assets::{Assets, AssetsError};
use syntect::highlighting::Theme;
use syntect::parsing::{
    FindWithinError, GhostCount, ScopeStack, SyntaxReference, find_syntax_by_first_line_within,
};
use syntect::util::LinesWithEndings;

/// The text of a file.
fn text_in(rt: &(impl AllocGlobal + Files), path: &str) -> Result<String, AssetsError> {
    match fs::read_to_string(rt, path) {
        Ok(text) => Ok(text),
        Err(e) => Err(AssetsError::NotRead(format!(in rt.alloc(); "{path}: {e}")?)),
    }
}

/// The syntax of a test: that of the grammar's file which it names, or else of its own name.
fn syntax_of_test<'a>(
    assets: &'a Assets,
    grammar: &str,
    path: &str,
) -> Option<&'a SyntaxReference> {
    let file = match grammar.rsplit_once('/') {
        Some((_, file)) => file,
        None => grammar,
    };
    let name = file.strip_suffix(".sublime-syntax").unwrap_or(file);
    match assets.set.find_syntax_by_name(name) {
        Some(syntax) => Some(syntax),
        None => assets.set.find_syntax_by_file_name(Path::new(path)),
    }
}

/// Runs a test of a grammar, prints what is otherwise than it says, and answers whether nothing is.
fn run_test(
    rt: &(impl AllocGlobal + Files + Print),
    assets: &mut Assets,
    path: &str,
) -> Result<bool, AssetsError> {
    let text = text_in(rt, path)?;
    let first = text.as_str().lines().next().unwrap_or("");
    let Some((token, grammar)) = header_of(first) else {
        println!(rt; "{path}:1:1: no SYNTAX TEST \"FILE\" in the first line")?;
        return Ok(false);
    };
    let Some(syntax) = syntax_of_test(assets, grammar, path) else {
        println!(rt; "{path}:1:1: no grammar {grammar}")?;
        return Ok(false);
    };
    let syntax = syntax.clone()?;
    let outcome = run(rt.alloc(), assets, &syntax, path, text.as_str(), token)?;
    let (looked, wrong) = (outcome.looked, outcome.wrong);
    println!(rt;
        "{}{path}: {looked} columns, {wrong} of them wrong",
        outcome.told
    )?;
    if looked == 0 {
        println!(rt; "{path}: no comment says which scopes a line has")?;
    }
    Ok(wrong == 0 && looked > 0)
}

/// Runs the tests in a folder: the files whose names begin with `syntax_test`.
fn run_folder(
    rt: &(impl AllocGlobal + Files + Print),
    assets: &mut Assets,
    folder: &str,
) -> Result<bool, AssetsError> {
    let mut all = true;
    for entry in fs::read_dir(&(rt, rt.alloc()), folder)? {
        let entry = entry?;
        if entry
            .path()
            .file_name()
            .unwrap_or("")
            .starts_with("syntax_test")
        {
            all &= run_test(rt, assets, entry.path().as_str())?;
        }
    }
    Ok(all)
}

/// Runs tests of grammars, by their files or their folders, and answers whether all pass.
pub fn run_tests(
    rt: &(impl AllocGlobal + Files + Print),
    assets: &mut Assets,
    files: &[&str],
) -> Result<bool, AssetsError> {
    let mut all = true;
    for file in files {
        let is_folder = fs::metadata(rt, *file).is_ok_and(|about| about.is_dir());
        all &= if is_folder {
            run_folder(rt, assets, *file)?
        } else {
            run_test(rt, assets, *file)?
        };
    }
    Ok(all)
}

/// A path, and after it the numbers of a line and a column, from 1, where they are named.
fn place_in(text: &str) -> (&str, Option<(u64, usize)>) {
    let Some((path, last)) = text.rsplit_once(':') else {
        return (text, None);
    };
    let Ok(last) = last.parse::<u64>() else {
        return (text, None);
    };
    if let Some((file, line)) = path.rsplit_once(':') {
        if let Ok(line) = line.parse::<u64>() {
            return (file, Some((line, last as usize)));
        }
    }
    (path, Some((last, 1)))
}

/// Prints the stretches of each line of a text with their scopes, by their first and last columns.
fn print_all(
    rt: &(impl AllocGlobal + Print),
    assets: &Assets,
    syntax: &SyntaxReference,
    text: &str,
) -> Result<(), AssetsError> {
    let alloc = rt.alloc();
    let mut reading = Reading::new(alloc, syntax)?;
    let mut number = 0u64;
    for line in LinesWithEndings::from(text) {
        number = number.saturating_add(1);
        for run in reading
            .line(alloc, (&assets.set, &assets.limits), line)?
            .as_slice()
        {
            let scopes = told(alloc, &run.scopes, &assets.repository)?;
            let before = line.get(..run.from).unwrap_or("").chars().count();
            let inside = line.get(run.from..run.to).unwrap_or("").chars().count();
            let (first, last) = (before.saturating_add(1), before.saturating_add(inside));
            println!(rt; "{number}:{first}-{last} {scopes}")?;
        }
    }
    Ok(())
}

/// The syntax of a text: by the name of its file, or by its first line within the limits, or else
/// plain text.
pub fn syntax_of_file<'a>(
    rt: &impl AllocGlobal,
    assets: &'a Assets,
    path: &str,
    text: &str,
) -> Result<&'a SyntaxReference, AssetsError> {
    if let Some(syntax) = assets.set.find_syntax_by_file_name(Path::new(path)) {
        return Ok(syntax);
    }
    let (set, limits, mut count) = (&assets.set, &assets.limits, GhostCount::none());
    let line = text.lines().next().unwrap_or("");
    match find_syntax_by_first_line_within(rt.alloc(), set, line, limits, &mut count) {
        Ok(Some(syntax)) => return Ok(syntax),
        Err(FindWithinError::Refused(e)) => return Err(AssetsError::from(e)),
        _ => {}
    }
    match set.find_syntax_plain_text() {
        Some(syntax) => Ok(syntax),
        None => Err(AssetsError::from(Error::NoSyntax)),
    }
}

/// What is told of a place of a text, by its line and its column from 1; none where nothing stands.
fn told_at(
    alloc: Global,
    assets: &mut Assets,
    theme: &Theme,
    syntax: &SyntaxReference,
    text: &str,
    (line, column): (u64, usize),
) -> Result<Option<String>, AssetsError> {
    let column = column.saturating_sub(1);
    let by = (&assets.set, &assets.limits);
    let Some(stack) = stack_at(alloc, by, syntax, text, line, column)? else {
        return Ok(None);
    };
    let (set, marks) = marked(alloc, assets)?;
    let syntax = set.syntaxes().get(syntax.index).unwrap_or(syntax);
    let marked = match stack_at(alloc, (&set, &assets.limits), syntax, text, line, column)? {
        Some(marked) => marked,
        None => ScopeStack::new(alloc),
    };
    let mut out = String::new(alloc);
    add_scopes(&stack, &marked, &marks, &assets.repository, &mut out)?;
    explain(alloc, &stack, theme, &assets.repository, &mut out)?;
    Ok(Some(out))
}

/// Prints the scopes of a text, or, of the place that is named as FILE:LINE:COLUMN, the scopes with
/// the entries of grammars that gave them, the style, and the rules of the theme that gave it.
/// Answers whether there is such a place.
pub fn print_scopes(
    rt: &(impl AllocGlobal + Files + Print + Eprint),
    assets: &mut Assets,
    theme: &Theme,
    place: &str,
) -> Result<bool, AssetsError> {
    let (path, place) = place_in(place);
    let text = text_in(rt, path)?;
    let syntax = syntax_of_file(rt, assets, path, text.as_str())?.clone()?;
    let Some((line, column)) = place else {
        print_all(rt, assets, &syntax, text.as_str())?;
        return Ok(true);
    };
    let told = told_at(
        rt.alloc(),
        assets,
        theme,
        &syntax,
        text.as_str(),
        (line, column),
    )?;
    match &told {
        Some(told) => print!(rt; "{told}")?,
        None => eprintln!(rt; "vulsangi: {path}:{line}:{column}: nothing stands there")?,
    }
    Ok(told.is_some())
}
