//! Styles of scope stacks by a theme's file: what they are, and how long they take.
use crate::below::scope::repository::ScopeRepository;
use crate::below::scope::scope::Scope;
use crate::below::scope::stack::ScopeStack;
use crate::below::style::highlighter::Highlighter;
use crate::below::theme::style::{Color, Style};
use crate::below::theme::theme::Theme;
use crate::below::theme_files::theme_set::ThemeSet;
use std::alloc::Global;
use std::path::Path;
use std::process::ExitCode;
use std::rt::{Clock, Files};
use std::time::Instant;
use std::{fs, io};

/// How many scopes the stack has that is styled.
const SCOPES: usize = 64;

/// How often it is styled.
const ROUNDS: u32 = 1000;

/// The scopes of the stack, again and again.
const NAMES: [&str; 4] = [
    "meta.function.rust",
    "meta.block.rust",
    "meta.group.rust",
    "string.quoted.double.rust",
];

/// Adds a colour by its four parts, two hexadecimal digits each.
fn push_color(out: &mut String, color: Color) -> Option<()> {
    let Color { r, g, b, a } = color;
    write!(out, "{r:02x}{g:02x}{b:02x}{a:02x} ").ok()
}

/// Adds a line for the style of the stack that a line of text names.
fn describe(
    alloc: Global,
    highlighter: &Highlighter<'_>,
    line: &str,
    repository: &mut ScopeRepository,
    out: &mut String,
) -> Option<()> {
    let stack = ScopeStack::from_text(alloc, line, repository).ok()?;
    let style = highlighter.style_for_stack(stack.as_slice()).ok()?;
    let Style {
        foreground,
        background,
        font_style,
    } = style;
    push_color(out, foreground)?;
    push_color(out, background)?;
    writeln!(out, "{}", font_style.bits()).ok()
}

/// The styles of the stacks in the lines of a text, by a theme's file.
fn descriptions(rt: &(impl AllocGlobal + Files), path: &str, text: &str) -> Option<String> {
    let alloc = rt.alloc();
    let mut repository = ScopeRepository::new(alloc);
    let theme = ThemeSet::get_theme(rt, alloc, Path::new(path), &mut repository).ok()?;
    let highlighter = Highlighter::new(alloc, &theme).ok()?;
    let mut out = String::new(alloc);
    for line in text.lines() {
        describe(alloc, &highlighter, line, &mut repository, &mut out)?;
    }
    Some(out)
}

/// Says that a file or a folder can't be read.
pub(crate) fn cannot_read(rt: &impl Eprint, path: &str) -> io::Result<ExitCode> {
    eprintln!(rt; "syntect_bench: cannot read {path}")?;
    Ok(ExitCode::from(1))
}

/// Prints the style of each stack in a file: a line of it names the scopes of a stack, with blanks
/// between, and has as its answer the foreground, the background and the number of the flags. The
/// status is 1 if something can't be read.
pub fn show_styles(
    rt: &(impl Print + Eprint + AllocGlobal + Files),
    theme: &str,
    stacks: &str,
) -> io::Result<ExitCode> {
    let Ok(text) = fs::read_to_string(rt, stacks) else {
        return cannot_read(rt, stacks);
    };
    match descriptions(rt, theme, text.as_str()) {
        Some(out) => {
            print!(rt; "{out}")?;
            Ok(ExitCode::SUCCESS)
        }
        None => {
            eprintln!(rt; "syntect_bench: cannot style {stacks} by {theme}")?;
            Ok(ExitCode::from(1))
        }
    }
}

/// A deep stack.
fn deep_stack(alloc: Global, repository: &mut ScopeRepository) -> Option<ScopeStack> {
    let mut stack = ScopeStack::from_text(alloc, "source.rust", repository).ok()?;
    for name in NAMES.iter().cycle().take(SCOPES - 1) {
        stack.push(repository.build(name).ok()?).ok()?;
    }
    Some(stack)
}

/// Prints a time over a number of rounds, in microseconds a round.
fn print_time(rt: &impl Print, name: &str, nanos: u128, rounds: u32) -> io::Result<()> {
    let nanos = nanos / u128::from(rounds.max(1));
    let (micros, rest) = (nanos / 1000, nanos % 1000);
    println!(rt; "{name}: {micros}.{rest:03} us")
}

/// Styles a stack again and again by a theme, and prints how long that takes.
fn time_stack(
    rt: &(impl Print + AllocGlobal + Clock),
    theme: &Theme,
    stack: &[Scope],
) -> io::Result<ExitCode> {
    let start = Instant::now(rt)?;
    let highlighter = Highlighter::new(rt.alloc(), theme)?;
    print_time(rt, "highlighter", start.elapsed(rt)?.as_nanos(), 1)?;
    let start = Instant::now(rt)?;
    let mut plain = 0u32;
    for _ in 0..ROUNDS {
        if highlighter.style_for_stack(stack)? == highlighter.get_default() {
            plain = plain.saturating_add(1);
        }
    }
    print_time(rt, "style", start.elapsed(rt)?.as_nanos(), ROUNDS)?;
    println!(rt; "{SCOPES} scopes, {plain} styles of {ROUNDS} are the default")?;
    Ok(ExitCode::SUCCESS)
}

/// Prints how long it takes to make a theme ready, and to style a deep stack. The status is 1 if
/// the file has no theme.
pub fn time_styles(
    rt: &(impl Print + Eprint + AllocGlobal + Files + Clock),
    path: &str,
) -> io::Result<ExitCode> {
    let alloc = rt.alloc();
    let mut repository = ScopeRepository::new(alloc);
    let theme = ThemeSet::get_theme(rt, alloc, Path::new(path), &mut repository);
    let stack = deep_stack(alloc, &mut repository);
    match (&theme, &stack) {
        (Ok(theme), Some(stack)) => time_stack(rt, theme, stack.as_slice()),
        _ => cannot_read(rt, path),
    }
}
