//! Literal scalars.
ghost use Rattle.std.specs.Prelude.{◌≡◌, ◌++◌, ◌<◌, ◌≤◌, ℕ, length, IfOk, OnOk};
ghost use Rattle.std.specs.Str.{IsCharBoundary};
ghost use Rattle.syntect_yaml.specs.Reading.{Reads};
ghost use Rattle.syntect_yaml.specs.Lines.{first};
ghost use Rattle.syntect_yaml.specs.Literal as literal;

use crate::error::Refusal;
use crate::place::is_marker;
use crate::text::{Class, after_line, byte_at, ends_line, line_tail, run_len, skip, split_run};
use std::alloc::{AllocError, Global};
use syntect_values::text::Text;

/// The column of the first line that isn't blank.
fn text_column(text: &str) -> Option<usize>
    ensures { (n : ℕ) → length text.now < n → result ≡ literal.text_column n text.now }
{
    let mut rest = text;
    'lines: while !rest.is_empty() {
        let line = split_run(rest, Class::Space).1;
        if !ends_line(line.as_bytes()) {
            return Some(run_len(rest.as_bytes(), Class::Space));
        }
        rest = after_line(rest);
    }
    None
}

/// Whether a line belongs to the text from a column on.
#[tactic(auto, unfolding(crate::specs::Literal::belongs))]
fn belongs(text: &str, column: usize) -> bool
    ensures { result ≡ literal.belongs column text.now }
{
    let depth = run_len(text.as_bytes(), Class::Space);
    let line = split_run(text, Class::Space).1;
    ends_line(line.as_bytes()) || (column <= depth && !(column == 0 && is_marker(text)))
}

/// How long the line is.
#[tactic(auto, unfolding(crate::specs::Literal::line_len))]
fn line_len(text: &str) -> usize
    ensures len { result ≡ literal.line_len text.now }
    ensures boundary { IsCharBoundary text.now result }
{
    let bytes = text.as_bytes();
    let n = run_len(bytes, Class::InLine);
    if byte_at(bytes, n) == b'\n' && byte_at(bytes, n.saturating_sub(1)) == b'\r' {
        n.saturating_sub(1)
    } else {
        n
    }
}

/// Adds a line without its indentation.
#[tactic(auto, unfolding(crate::specs::Literal::line_text))]
fn push_line(out: &mut Text, text: &str, column: usize) -> Result<(), AllocError>
    ensures { OnOk result (out.new ≡ out.old ++ literal.line_text column text.now) }
{
    let depth = run_len(text.as_bytes(), Class::Space).min(column);
    let line = text.split_at(depth).1;
    out.push_str(line.split_at(line_len(line)).0)?;
    if byte_at(line.as_bytes(), run_len(line.as_bytes(), Class::InLine)) == b'\n' {
        out.push_str("\n")?;
    }
    Ok(())
}

/// The lines of a text that begins at a column, and what follows them.
fn lines(alloc: Global, text: &str, column: usize) -> Result<(Text, &str), Refusal>
    ensures value { (n : ℕ) → length text.now < n
        → Reads (λ t. t) result (literal.lines column n text.now) }
    ensures within { IfOk result (λ p. length p.1.now ≤ length text.now) }
{
    let mut out = Text::new(alloc);
    let mut rest = text;
    'lines: while !rest.is_empty() && belongs(rest, column) {
        push_line(&mut out, rest, column)?;
        rest = after_line(rest);
    }
    Ok((out, rest))
}

/// The text without line feeds at its end.
fn stripped(text: Text) -> Text
    ensures { result ≡ literal.stripped text }
{
    let mut string = text.into_string();
    let n = string.as_str().trim_end_matches('\n').len();
    string.truncate(n);
    Text::from_string(string)
}

/// The text with the end that a header asks for.
fn chomped(text: Text, mark: u8) -> Result<Text, AllocError>
    ensures { IfOk result (λ t. t ≡ literal.chomped mark text) }
{
    if mark == b'+' {
        return Ok(text);
    }
    let mut text = stripped(text);
    if mark != b'-' && !text.is_empty() {
        text.push_str("\n")?;
    }
    Ok(text)
}

/// The text from the line below a header on.
fn text_below(alloc: Global, text: &str, mark: u8, least: usize) -> Result<(Text, &str), Refusal>
    ensures value { Reads (λ t. t) result (literal.text mark least text.now) }
    ensures within { IfOk result (λ p. length p.1.now ≤ length text.now) }
{
    match text_column(text) {
        Some(column) if least <= column => {
            let (inside, rest) = lines(alloc, text, column)?;
            Ok((chomped(inside, mark)?, rest))
        }
        _ => Ok((Text::new(alloc), text)),
    }
}

/// A literal scalar from its `|` on, and what follows its lines.
#[tactic(auto, unfolding(crate::specs::Literal::literal))]
pub(crate) fn literal(alloc: Global, text: &str, least: usize) -> Result<(Text, &str), Refusal>
    requires { first text.now ≡ 124 }
    ensures value { Reads (λ t. t) result (literal.literal least text.now) }
    ensures within { IfOk result (λ p. length p.1.now < length text.now) }
{
    let mark = byte_at(text.as_bytes(), 1);
    let header = if mark == b'+' || mark == b'-' { 2 } else { 1 };
    match line_tail(skip(text, header), false) {
        Some(below) => text_below(alloc, below, mark, least),
        None => Err(Refusal::At(text.len())),
    }
}
