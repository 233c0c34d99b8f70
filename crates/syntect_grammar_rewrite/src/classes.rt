//! Classes in brackets, and the tokens of a text.
ghost use Rattle.std.specs.Prelude.{◌≡◌, ◌≤◌, ◌<◌, ◌+◌, ◌-◌, ◌^◌, ◌==◌, ◌&&◌, ◌||◌, IsCharBoundary, length, slice_index};
ghost use Rattle.syntect_grammar_rewrite.specs.Cutting as cutting;
ghost use Rattle.syntect_grammar_rewrite.specs.Tokens as tokens;

use crate::signs::{byte_at, first, sign_len, skip};

/// The first token of a text: how many bytes it has, and whether it is a class
/// that takes a newline.
#[derive(Clone, Copy)]
pub(crate) struct Token {
    pub len: usize,
    pub takes_newline: bool,
}

/// How many bytes open a class.
fn opening_len(bytes: &[u8]) -> usize
    requires { slice_index bytes.now 0 ≡ 91 }
    ensures len { result ≡ tokens.opening_len bytes.now }
    ensures some { 0 < result }
    ensures there { 0 < slice_index bytes.now (result - 1) }
    ensures ascii { slice_index bytes.now (result - 1) < 128 }
{
    let n = if byte_at(bytes, 1) == b'^' { 2 } else { 1 };
    if byte_at(bytes, n) == b']' { n + 1 } else { n }
}

/// Whether a sign is `\n`.
pub(crate) fn is_newline(sign: &str) -> bool
    ensures { result ≡ tokens.is_newline sign.now }
{
    first(sign) == b'\\' && byte_at(sign.as_bytes(), 1) == b'n'
}

/// Whether a sign closes a class, within which so many others are open.
fn closes(depth: usize, sign: &str) -> bool
    ensures { result ≡ tokens.closes depth sign.now }
{
    depth == 0 && first(sign) == b']'
}

/// Whether a newline was found, or a sign is one of the class's own.
fn finds_newline(found: bool, depth: usize, sign: &str) -> bool
    ensures { result ≡ (found || (depth == 0 && tokens.is_newline sign.now)) }
{
    found || (depth == 0 && is_newline(sign))
}

/// How many classes within a class are open after a sign.
fn open_after(depth: usize, sign: &str) -> usize
    requires { depth + 1 < 2 ^ 64 }
    ensures value { result ≡ tokens.open_after depth sign.now }
    ensures within { result ≤ depth + 1 }
{
    match first(sign) {
        b'[' => depth + 1,
        b']' => depth.saturating_sub(1),
        _ => depth,
    }
}

/// The rest of a class: how many of these bytes belong to it, and whether `\n` is one
/// of its own members.
fn rest_of_class(text: &str) -> Token
    ensures len { result.len ≡ tokens.rest_len 0 (cutting.signs text.now) }
    ensures newline { result.takes_newline ≡ tokens.has_newline 0 (cutting.signs text.now) }
    ensures boundary { IsCharBoundary text.now result.len }
{
    let mut depth = 0;
    let mut len = 0;
    let mut rest = text;
    let mut takes_newline = false;
    'signs: while !rest.is_empty() {
        let (sign, after) = rest.split_at(sign_len(rest));
        len += sign.len();
        takes_newline = finds_newline(takes_newline, depth, sign);
        if closes(depth, sign) {
            return Token { len, takes_newline };
        }
        depth = open_after(depth, sign);
        rest = after;
    }
    Token { len, takes_newline }
}

/// The class at the front.
#[tactic(auto, unfolding(crate::specs::Tokens::class_len, crate::specs::Tokens::takes_newline))]
fn class(text: &str) -> Token
    requires { slice_index text.now 0 ≡ 91 }
    ensures len { result.len ≡ tokens.class_len text.now }
    ensures newline { result.takes_newline ≡ tokens.takes_newline text.now }
    ensures boundary { IsCharBoundary text.now result.len }
    ensures some { 0 < result.len }
{
    let opening = opening_len(text.as_bytes());
    let rest = rest_of_class(skip(text, opening));
    Token {
        len: opening + rest.len,
        takes_newline: byte_at(text.as_bytes(), 1) != b'^' && rest.takes_newline,
    }
}

/// The first token.
#[tactic(auto, unfolding(crate::specs::Tokens::token_len))]
pub(crate) fn token_at(text: &str) -> Token
    ensures len { result.len ≡ tokens.token_len text.now }
    ensures newline { result.takes_newline ≡ tokens.class_takes_newline text.now }
    ensures boundary { IsCharBoundary text.now result.len }
    ensures some { 0 < length text.now → 0 < result.len }
{
    if first(text) == b'[' {
        return class(text);
    }
    Token {
        len: sign_len(text),
        takes_newline: false,
    }
}
