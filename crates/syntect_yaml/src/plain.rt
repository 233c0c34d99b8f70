//! Plain scalars.
ghost use Rattle.std.specs.Prelude.{◌≡◌, ◌≤◌, false, length, drop, IfOk};
ghost use Rattle.std.specs.Str.{IsCharBoundary};
ghost use Rattle.syntect_yaml.specs.Reading.{Reads, Shortens};
ghost use Rattle.syntect_yaml.specs.Scalars as scalars;

use crate::error::Refusal;
use crate::text::{byte_at, ends_line, is_white};
use crate::value::Scalar;
use std::alloc::{AllocError, Global};
use syntect_values::text::Text;

/// What follows the first byte.
#[inline]
pub(crate) fn after_first(bytes: &[u8]) -> &[u8]
    ensures { result.now ≡ drop 1 bytes.now }
{
    match bytes.split_first() {
        Some((_, rest)) => rest,
        None => bytes,
    }
}

/// Whether something stands here that is no white space.
#[inline]
fn is_visible(bytes: &[u8]) -> bool
    ensures { result ≡ scalars.is_visible bytes.now }
{
    !(ends_line(bytes) || is_white(byte_at(bytes, 0)))
}

/// Whether the byte is a mark of flow maps and lists.
#[inline]
fn is_flow_mark(byte: u8) -> bool
    ensures { result ≡ scalars.is_flow_mark byte }
{
    matches!(byte, b',' | b'[' | b']' | b'{' | b'}')
}

/// Whether the byte means something else where a scalar could begin.
fn is_sign(byte: u8) -> bool
    ensures { result ≡ scalars.is_sign byte }
{
    matches!(
        byte,
        b'[' | b']'
            | b'{'
            | b'}'
            | b','
            | b'#'
            | b'&'
            | b'*'
            | b'!'
            | b'|'
            | b'>'
            | b'\''
            | b'"'
            | b'%'
            | b'@'
            | b'`'
    )
}

/// Whether a plain scalar may begin here.
#[tactic(auto, unfolding(crate::specs::Scalars::begins_plain))]
fn begins_plain(bytes: &[u8]) -> bool
    ensures { result ≡ scalars.begins_plain bytes.now }
{
    let byte = byte_at(bytes, 0);
    is_visible(bytes)
        && !is_sign(byte)
        && (!matches!(byte, b'-' | b'?' | b':') || is_visible(after_first(bytes)))
}

/// Whether a `:` before this ends a key.
#[inline]
pub(crate) fn ends_key(bytes: &[u8], flow: bool) -> bool
    ensures { result ≡ scalars.ends_key flow bytes.now }
{
    ends_line(bytes) || byte_at(bytes, 0) == b' ' || (flow && is_flow_mark(byte_at(bytes, 0)))
}

/// Whether a plain scalar ends before this.
#[tactic(auto, unfolding(crate::specs::Scalars::ends_plain))]
#[inline]
fn ends_plain(bytes: &[u8], flow: bool, spaced: bool) -> bool
    ensures { result ≡ scalars.ends_plain flow spaced bytes.now }
{
    let byte = byte_at(bytes, 0);
    ends_line(bytes)
        || (spaced && byte == b'#')
        || (flow && is_flow_mark(byte))
        || (byte == b':' && ends_key(after_first(bytes), flow))
}

/// How long the plain scalar is.
fn plain_len(text: &str, flow: bool) -> usize
    ensures len { result ≡ scalars.plain_len flow false text.now }
    ensures boundary { IsCharBoundary text.now result }
{
    let bytes = text.as_bytes();
    let mut spaced = false;
    let mut end = 0;
    'bytes: for at in 0..bytes.len() {
        if ends_plain(&bytes[at..], flow, spaced) {
            return end;
        }
        let byte = bytes[at];
        if !is_white(byte) {
            end = at + 1;
        }
        spaced = byte == b' ';
    }
    end
}

/// The number that a text writes.
fn number_of(text: &str) -> Option<i64>
    ensures { result ≡ scalars.number_of text.now }
{
    match text.parse::<i64>() {
        Ok(n) => Some(n),
        Err(_) => None,
    }
}

/// What a plain scalar of this text is.
#[tactic(auto, unfolding(crate::specs::Scalars::kind))]
fn kind(alloc: Global, text: &str) -> Result<Scalar, AllocError>
    ensures { IfOk result (λ s. s ≡ scalars.kind text.now) }
{
    if text == "true" {
        Ok(Scalar::Truth(true))
    } else if text == "false" {
        Ok(Scalar::Truth(false))
    } else if text == "null" || text == "~" {
        Ok(Scalar::Null)
    } else {
        match number_of(text) {
            Some(n) => Ok(Scalar::Number(n)),
            None => Ok(Scalar::Text(Text::from_str(alloc, text)?)),
        }
    }
}

/// A plain scalar and what follows it.
#[tactic(auto, unfolding(crate::specs::Scalars::plain))]
pub(crate) fn plain(alloc: Global, text: &str, flow: bool) -> Result<(Scalar, &str), Refusal>
    ensures value { Reads (λ s. s) result (scalars.plain flow text.now) }
    ensures shorter { Shortens text.now result }
{
    let n = plain_len(text, flow);
    if !begins_plain(text.as_bytes()) || n == 0 {
        return Err(Refusal::At(text.len()));
    }
    let (front, rest) = text.split_at(n);
    Ok((kind(alloc, front)?, rest))
}
