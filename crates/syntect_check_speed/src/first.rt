//! Text files, highlighted by the contexts and the theme of the first line's example.
use std::alloc::Global;
use std::process::ExitCode;
use std::rt::{Clock, Files};
use std::time::Instant;
use std::{fs, io};
use syntect_easy::easy::HighlightLines;
use syntect_easy::highlighting::{Style, Theme, ThemeSet};
use syntect_easy::parsing::{ScopeRepository, SyntaxDefinition, SyntaxSet, SyntaxSetBuilder};

/// The contexts of the first line's example, as a grammar.
const GRAMMAR: &str =
    "name: T\nscope: source.t\ncontexts:\n  main:\n    - {match: A, scope: scope.a.first, push: a}\n    - {match: '[a-z]+', scope: scope.other}\n  a:\n    - {match: a+, scope: scope.a.rest}\n    - {match: b, scope: scope.b, pop: true}\n";

/// Its rule.
const THEME: &str =
    r##"{"settings":[{"settings":{}},{"scope":"scope.b","settings":{"foreground":"#010101"}}]}"##;

/// The set of the grammar.
fn first_line_set(alloc: Global, repository: &mut ScopeRepository) -> Option<SyntaxSet> {
    let loaded = SyntaxDefinition::load_from_str(alloc, GRAMMAR, false, None, repository);
    let definition = loaded.ok()?;
    let mut builder = SyntaxSetBuilder::new(alloc);
    builder.add(definition).ok()?;
    builder.build(alloc, repository).ok()
}

/// The set and the theme of the first line's example.
fn first_line(alloc: Global) -> Option<(SyntaxSet, Theme)> {
    let mut repository = ScopeRepository::new(alloc);
    let set = first_line_set(alloc, &mut repository)?;
    let mut bytes = THEME.as_bytes();
    let theme = ThemeSet::load_from_reader(alloc, &mut bytes, &mut repository).ok()?;
    Some((set, theme))
}

/// Adds a line for each piece of a line of text: the number of the line, the piece's bytes in it,
/// and its colour.
fn write_pieces(number: usize, pieces: &[(Style, &str)], out: &mut String) -> Option<()> {
    let mut from = 0usize;
    for (style, part) in pieces {
        let to = from.checked_add(part.len())?;
        let color = style.foreground;
        let (r, g, b) = (color.r, color.g, color.b);
        writeln!(out, "{number}:{from}..{to} #{r:02x}{g:02x}{b:02x}").ok()?;
        from = to;
    }
    Some(())
}

/// Highlights the lines of a text, and adds their pieces.
fn write_lines(
    alloc: Global,
    text: &str,
    set: &SyntaxSet,
    theme: &Theme,
    out: &mut String,
) -> Option<()> {
    let mut lines = HighlightLines::new(alloc, set.syntaxes().first()?, theme).ok()?;
    let mut number = 0usize;
    for line in text.split_inclusive('\n') {
        number = number.checked_add(1)?;
        let pieces = lines.highlight_line(alloc, line, set).ok()?;
        write_pieces(number, pieces.as_slice(), out)?;
    }
    Some(())
}

/// What is printed of a text.
fn description(alloc: Global, text: &str) -> Option<String> {
    let (set, theme) = first_line(alloc)?;
    let mut out = String::new(alloc);
    write_lines(alloc, text, &set, &theme, &mut out)?;
    Some(out)
}

/// Prints the pieces of a file's lines, once all are known. The status is 1 if the file can't be
/// read or is no text.
pub fn show(rt: &(impl Print + Eprint + AllocGlobal + Files), path: &str) -> io::Result<ExitCode> {
    let Ok(text) = fs::read_to_string(rt, path) else {
        eprintln!(rt; "syntect_bench: cannot read {path}")?;
        return Ok(ExitCode::from(1));
    };
    match description(rt.alloc(), text.as_str()) {
        Some(out) => {
            print!(rt; "{out}")?;
            Ok(ExitCode::SUCCESS)
        }
        None => {
            eprintln!(rt; "syntect_bench: cannot highlight {path}")?;
            Ok(ExitCode::from(1))
        }
    }
}

/// Highlights the lines of a text, and counts them.
fn run(alloc: Global, text: &str, set: &SyntaxSet, theme: &Theme) -> Option<u64> {
    let syntax = set.syntaxes().first()?;
    let mut lines = HighlightLines::new(alloc, syntax, theme).ok()?;
    let mut count = 0u64;
    for line in text.split_inclusive('\n') {
        let pieces = lines.highlight_line(alloc, line, set).ok()?;
        if !pieces.is_empty() {
            count = count.checked_add(1)?;
        }
    }
    Some(count)
}

/// A number a second, from a number and nanoseconds.
fn a_second(number: u64, nanos: u64) -> u64 {
    let scaled = u128::from(number) * 1_000_000_000;
    match u64::try_from(scaled / u128::from(nanos.max(1))) {
        Ok(rate) => rate,
        Err(_) => u64::MAX,
    }
}

/// How long a run over a text took, in nanoseconds, and how many lines it has;
/// none where a line is refused.
fn timed_run(
    rt: &(impl AllocGlobal + Clock),
    text: &str,
    set: &SyntaxSet,
    theme: &Theme,
) -> io::Result<Option<(u64, u64)>> {
    let start = Instant::now(rt)?;
    let Some(lines) = run(rt.alloc(), text, set, theme) else {
        return Ok(None);
    };
    let nanos = start.elapsed(rt)?.as_nanos();
    Ok(Some((u64::try_from(nanos).unwrap_or(u64::MAX), lines)))
}

/// How long each of some runs over a text took, in nanoseconds and in order, and how many lines a
/// run has; none where a line is refused.
fn times(
    rt: &(impl AllocGlobal + Clock),
    text: &str,
    set: &SyntaxSet,
    theme: &Theme,
    rounds: u32,
) -> io::Result<Option<(Vec<u64>, u64)>> {
    let mut all = Vec::new(rt.alloc());
    let mut lines = 0;
    for _ in 0..rounds {
        let Some((nanos, count)) = timed_run(rt, text, set, theme)? else {
            return Ok(None);
        };
        all.push(nanos)?;
        lines = count;
    }
    all.sort()?;
    Ok(Some((all, lines)))
}

/// Prints lines and bytes a second, by the least and by the median of times that are in order.
fn print_rates(rt: &impl Print, all: &[u64], lines: u64, bytes: u64) -> io::Result<ExitCode> {
    for (name, place) in [("least", 0), ("median", all.len() / 2)] {
        if let Some(nanos) = all.get(place) {
            let line_rate = a_second(lines, *nanos);
            let megabytes = a_second(bytes, *nanos) / 1_000_000;
            println!(rt; "{name}: {line_rate} lines/s, {megabytes} MB/s")?;
        }
    }
    Ok(ExitCode::SUCCESS)
}

/// Prints lines and bytes a second of a text over some runs.
fn time_text(
    rt: &(impl Print + Eprint + AllocGlobal + Clock),
    text: &str,
    rounds: u32,
) -> io::Result<ExitCode> {
    let timed = match first_line(rt.alloc()) {
        Some((set, theme)) => times(rt, text, &set, &theme, rounds)?,
        None => None,
    };
    match timed {
        Some((all, lines)) => print_rates(rt, all.as_slice(), lines, text.len() as u64),
        None => {
            eprintln!(rt; "syntect_bench: cannot highlight the text")?;
            Ok(ExitCode::from(1))
        }
    }
}

/// Prints lines and bytes a second of a file over some runs, by the least and by the median time.
pub fn time(
    rt: &(impl Print + Eprint + AllocGlobal + Files + Clock),
    path: &str,
    rounds: u32,
) -> io::Result<ExitCode> {
    match fs::read_to_string(rt, path) {
        Ok(text) => time_text(rt, text.as_str(), rounds),
        Err(_) => {
            eprintln!(rt; "syntect_bench: cannot read {path}")?;
            Ok(ExitCode::from(1))
        }
    }
}
