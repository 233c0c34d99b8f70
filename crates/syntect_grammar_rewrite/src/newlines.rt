//! The ends of lines in a pattern's text.
ghost use Rattle.std.specs.Prelude.{◌≡◌, ◌++◌, ◌<◌, IfOk, OnOk, string_bytes, length, drop};
ghost use Rattle.syntect_grammar_rewrite.specs.Newlines as newlines;
ghost use Rattle.syntect_grammar_rewrite.specs.Tokens.{plain};
ghost use Rattle.syntect_grammar_rewrite.specs.Views.{token_of, IsLineToken};

use crate::classes::{Token, is_newline, token_at};
use crate::replace::begins;
use crate::signs::{first, skip};
use std::alloc::{AllocError, Global};

/// Adds a token as it is written for lines that have their newline.
fn push_anchored(out: &mut String, token: &str) -> Result<(), AllocError>
    ensures { OnOk result (string_bytes out.new
        ≡ string_bytes out.old ++ newlines.anchored_token (plain token.now)) }
{
    if first(token) == b'$' {
        out.push_str("(?m:$)")
    } else {
        out.push_str(token)
    }
}

/// A text for lines that have their newline.
pub(crate) fn anchored(alloc: Global, text: &str) -> Result<String, AllocError>
    ensures { IfOk result (λ s. string_bytes s ≡ newlines.anchored text.now) }
{
    if !text.as_bytes().contains(&b'$') {
        return String::from_str(alloc, text);
    }
    let mut out = String::new(alloc);
    let mut rest = text;
    'tokens: while !rest.is_empty() {
        let (token, after) = rest.split_at(token_at(rest).len);
        push_anchored(&mut out, token)?;
        rest = after;
    }
    Ok(out)
}

/// Adds a token, after which a byte stands, as it is written for lines that have no newline.
fn push_ended(
    out: &mut String,
    token: &str,
    takes_newline: bool,
    after: u8,
) -> Result<(), AllocError>
    ensures { OnOk result (string_bytes out.new
        ≡ string_bytes out.old ++ newlines.ended_token
        (token_of takes_newline token.now) after) }
{
    if takes_newline {
        if after == b'?' {
            return out.push_str(token);
        }
        out.push_str("(?:")?;
        out.push_str(token)?;
        out.push_str("|$)")
    } else if is_newline(token) && after != b'?' && after != b'+' && after != b'*' {
        out.push_str("$")
    } else {
        out.push_str(token)
    }
}

/// The first token of a text for lines that have no newline, whether it is a class that takes a
/// newline, and what follows it. `(?:\n)?` is one token, and is the end of the text
/// that may be missing.
#[tactic(auto, using(crate::proofs::NewlineLaws::optional_token, crate::proofs::NewlineLaws::other_token))]
fn line_token(text: &str) -> (&str, bool, &str)
    requires { 0 < length text.now }
    ensures token { IsLineToken text.now result.0.now result.1 }
    ensures rest { result.2.now ≡ drop (newlines.line_token_len text.now) text.now }
    ensures shorter { length result.2.now < length text.now }
{
    if begins(text, "(?:\\n)?") {
        return ("(?:$|)", false, skip(text, 7));
    }
    let Token { len, takes_newline } = token_at(text);
    let (token, after) = text.split_at(len);
    (token, takes_newline, after)
}

/// A text for lines that have no newline.
pub(crate) fn ended(alloc: Global, text: &str) -> Result<String, AllocError>
    ensures { IfOk result (λ s. string_bytes s ≡ newlines.ended text.now) }
{
    let mut out = String::new(alloc);
    let mut rest = text;
    'tokens: while !rest.is_empty() {
        let (token, takes_newline, after) = line_token(rest);
        push_ended(&mut out, token, takes_newline, first(after))?;
        rest = after;
    }
    Ok(out)
}
