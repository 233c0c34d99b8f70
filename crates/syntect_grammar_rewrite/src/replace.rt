//! The names of brackets in a text, each replaced by the categories that it stands for.
ghost use Rattle.std.specs.Prelude.{◌≡◌, ◌<◌, ◌==◌, ◌++◌, IfOk, MatchOption, IfSome, string_bytes, length, drop, slice_index, ◌-◌};
ghost use Rattle.std.specs.List.{starts_with};
ghost use Rattle.syntect_grammar_rewrite.specs.Replacing as replacing;
ghost use Rattle.syntect_grammar_rewrite.specs.Views.{IsWord, IsNoWord};

use crate::signs::{char_len, first, skip};
use std::alloc::{AllocError, Global};

/// Whether the text begins with a word.
#[inline]
pub(crate) fn begins(text: &str, word: &str) -> bool
    ensures { result ≡ starts_with ◌==◌ text.now word.now }
{
    text.as_bytes().starts_with(word.as_bytes())
}

/// What replaces the bracket's name at the front of a text. Each has nine bytes.
fn bracket(text: &str) -> Option<&'static str>
    ensures cases { MatchOption result (IsNoWord replacing.brackets text.now)
        (λ w. IsWord replacing.brackets text.now 9 w.now) }
    ensures last { MatchOption result (result ≡ result) (λ w. slice_index text.now 8 ≡ 93) }
{
    // most characters are settled by this one look
    if first(text) != b'[' {
        None
    } else if begins(text, "[:alpha:]") {
        Some("\\p{L}")
    } else if begins(text, "[:alnum:]") {
        Some("\\p{L}\\p{N}")
    } else if begins(text, "[:lower:]") {
        Some("\\p{Ll}")
    } else if begins(text, "[:upper:]") {
        Some("\\p{Lu}")
    } else if begins(text, "[:digit:]") {
        Some("\\p{Nd}")
    } else {
        None
    }
}

/// What replaces the bracket's name at the front of a text, and what follows that name.
fn word(text: &str) -> Option<(&'static str, &str)>
    ensures cases { MatchOption result (IsNoWord replacing.brackets text.now) (λ w.
        IsWord replacing.brackets text.now (length text.now - length w.1.now) w.0.now) }
    ensures rest { IfSome result (λ w. w.1.now ≡ drop (length text.now - length w.1.now) text.now) }
{
    let written = bracket(text)?;
    Some((written, skip(text, 9)))
}

/// What is written for the name at the front of a text, or else the first character, and what
/// follows that.
fn next_part(text: &str) -> (&str, &str)
    requires { 0 < length text.now }
    ensures turn { replacing.with_replacements replacing.brackets text.now ≡ result.0.now
        ++ replacing.with_replacements replacing.brackets result.1.now }
    ensures shorter { length result.1.now < length text.now }
{
    match word(text) {
        Some(found) => found,
        None => text.split_at(char_len(text)),
    }
}

/// The text with the name of each bracket replaced.
pub(crate) fn replaced(alloc: Global, text: &str) -> Result<String, AllocError>
    ensures { IfOk result
        (λ s. string_bytes s ≡ replacing.with_replacements replacing.brackets text.now) }
{
    if !text.as_bytes().contains(&b'[') {
        return String::from_str(alloc, text);
    }
    let mut out = String::new(alloc);
    let mut rest = text;
    'words: while !rest.is_empty() {
        let (written, after) = next_part(rest);
        out.push_str(written)?;
        rest = after;
    }
    Ok(out)
}
