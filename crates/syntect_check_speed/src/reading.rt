//! How long the grammars of a folder, and the lines of a file, take.
use std::alloc::Global;
use std::path::Path;
use std::process::ExitCode;
use std::rt::{Clock, Files};
use std::time::Instant;
use std::{fs, io};
use syntect_easy::easy::HighlightLines;
use syntect_easy::highlighting::{Theme, ThemeSet};
use syntect_easy::html::highlighted_html_for_string;
use syntect_easy::parsing::{
    ParseState, ScopeRepository, SyntaxReference, SyntaxSet, SyntaxSetBuilder,
};
use syntect_easy::util::LinesWithEndings;

/// Why there is nothing to time.
fn fault(text: &'static str) -> io::Error {
    io::Error::new(io::ErrorKind::Other, text)
}

/// The set of the plain text syntax and the grammars of a folder, for lines with their line feeds.
fn set_with_plain_text(
    files: &impl Files,
    alloc: Global,
    folder: &str,
    repository: &mut ScopeRepository,
) -> Option<SyntaxSet> {
    let mut builder = SyntaxSetBuilder::new(alloc);
    builder.add_plain_text_syntax(alloc, repository).ok()?;
    builder
        .add_from_folder(files, alloc, Path::new(folder), true, repository)
        .ok()?;
    builder.build(alloc, repository).ok()
}

/// The syntax of a file: that of its name or first line, else plain text.
fn syntax_of_file<'a>(
    files: &impl Files,
    alloc: Global,
    set: &'a SyntaxSet,
    path: &str,
) -> Option<&'a SyntaxReference> {
    match set
        .find_syntax_for_file(files, alloc, Path::new(path))
        .ok()?
    {
        Some(syntax) => Some(syntax),
        None => set.find_syntax_plain_text(),
    }
}

/// Reads the lines of a text.
fn parse_lines(
    alloc: Global,
    text: &str,
    set: &SyntaxSet,
    syntax: &SyntaxReference,
) -> Option<usize> {
    let mut state = ParseState::new(alloc, syntax).ok()?;
    let mut count = 0usize;
    for line in LinesWithEndings::from(text) {
        let operations = state.parse_line(alloc, line, set).ok()?;
        count = count.saturating_add(operations.len());
    }
    Some(count)
}

/// Highlights the lines of a text.
fn highlight_lines(
    alloc: Global,
    text: &str,
    set: &SyntaxSet,
    syntax: &SyntaxReference,
    theme: &Theme,
) -> Option<usize> {
    let mut lines = HighlightLines::new(alloc, syntax, theme).ok()?;
    let mut count = 0usize;
    for line in LinesWithEndings::from(text) {
        let pieces = lines.highlight_line(alloc, line, set).ok()?;
        count = count.saturating_add(pieces.len());
    }
    Some(count)
}

/// The least times of some rounds over a text, in microseconds.
struct Least {
    parse: u128,
    highlight: u128,
    page: u128,
}

/// How long a page of a text takes, in microseconds.
fn page_time(
    rt: &(impl AllocGlobal + Clock),
    text: &str,
    set: &SyntaxSet,
    syntax: &SyntaxReference,
    theme: &Theme,
) -> io::Result<u128> {
    let start = Instant::now(rt)?;
    match highlighted_html_for_string(rt.alloc(), text, set, syntax, theme) {
        Ok(_) => Ok(start.elapsed(rt)?.as_micros()),
        Err(_) => Err(fault("a line was refused")),
    }
}

/// Reads and highlights a text so many rounds, and makes pages of it. The least time of each,
/// in microseconds.
fn least_times(
    rt: &(impl AllocGlobal + Clock),
    text: &str,
    set: &SyntaxSet,
    syntax: &SyntaxReference,
    theme: &Theme,
    rounds: u32,
) -> io::Result<Least> {
    let (mut parse, mut highlight, mut page) = (u128::MAX, u128::MAX, u128::MAX);
    for _ in 0..rounds {
        let start = Instant::now(rt)?;
        let read = parse_lines(rt.alloc(), text, set, syntax);
        parse = parse.min(start.elapsed(rt)?.as_micros());
        let start = Instant::now(rt)?;
        let shown = highlight_lines(rt.alloc(), text, set, syntax, theme);
        highlight = highlight.min(start.elapsed(rt)?.as_micros());
        if read.is_none() || shown.is_none() {
            return Err(fault("a line was refused"));
        }
        page = page.min(page_time(rt, text, set, syntax, theme)?);
    }
    Ok(Least {
        parse,
        highlight,
        page,
    })
}

/// Prints how long a file's lines take to be read, to be highlighted in a theme, and to be shown as
/// a page.
fn time_lines(
    rt: &(impl Print + AllocGlobal + Files + Clock),
    set: &SyntaxSet,
    theme: &Theme,
    path: &str,
    rounds: u32,
) -> io::Result<ExitCode> {
    let text = fs::read_to_string(rt, path)?;
    let Some(syntax) = syntax_of_file(rt, rt.alloc(), set, path) else {
        return Err(fault("no syntax fits the file"));
    };
    let Least {
        parse,
        highlight,
        page,
    } = least_times(rt, text.as_str(), set, syntax, theme, rounds)?;
    println!(rt; "parse {parse} us, with styles {highlight} us, as a page {page} us")?;
    Ok(ExitCode::SUCCESS)
}

/// Prints how long loading has taken since a start, in microseconds.
fn print_load(rt: &(impl Print + Clock), start: Instant) -> io::Result<()> {
    let load = start.elapsed(rt)?.as_micros();
    println!(rt; "load {load} us")
}

/// Loads and links the grammars of a folder, and prints how long that takes, in microseconds.
fn timed_set(
    rt: &(impl Print + AllocGlobal + Files + Clock),
    folder: &str,
    repository: &mut ScopeRepository,
) -> io::Result<Option<SyntaxSet>> {
    let start = Instant::now(rt)?;
    let set = set_with_plain_text(rt, rt.alloc(), folder, repository);
    print_load(rt, start)?;
    Ok(set)
}

/// Prints how long the grammars of a folder take to be loaded and linked, and a file's lines to be
/// read, to be highlighted in a theme, and to be shown as a page: the least of so many rounds,
/// in microseconds.
pub fn time_file(
    rt: &(impl Print + AllocGlobal + Files + Clock),
    folder: &str,
    theme: &str,
    path: &str,
    rounds: u32,
) -> io::Result<ExitCode> {
    let mut repository = ScopeRepository::new(rt.alloc());
    let set = timed_set(rt, folder, &mut repository)?;
    let theme = ThemeSet::get_theme(rt, rt.alloc(), Path::new(theme), &mut repository);
    match (set, theme) {
        (Some(set), Ok(theme)) => time_lines(rt, &set, &theme, path, rounds),
        _ => Err(fault("the grammars or the theme cannot be loaded")),
    }
}
