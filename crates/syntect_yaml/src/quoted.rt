//! Quoted scalars, and scalars of any kind on one line.
ghost use Rattle.std.specs.Prelude.{◌≡◌, ◌<◌, ◌≤◌, ℕ, length, take, option_map, IfSome, IfNone, IfOk, ◌^◌};
ghost use Rattle.std.specs.Str.Parse.{IsNumeral, digits_value};
ghost use Rattle.syntect_yaml.specs.Reading.{Reads, Shortens};
ghost use Rattle.syntect_yaml.specs.Scalars as scalars;

use crate::error::Refusal;
use crate::plain::{after_first, ends_key, plain};
use crate::text::{Class, byte_at, first, run_len, skip, split_run};
use crate::value::Scalar;
use std::alloc::Global;
use syntect_values::text::Text;

/// The text from inside single quotes on.
fn single(alloc: Global, text: &str) -> Result<(Text, &str), Refusal>
    ensures value { (n : ℕ) → length text.now < n
        → Reads (λ t. t) result (scalars.single n text.now) }
    ensures shorter { Shortens text.now result }
{
    let mut out = Text::new(alloc);
    let mut rest = text;
    'pieces: loop {
        let (front, after) = split_run(rest, Class::Single);
        out.push_str(front)?;
        if first(after) != b'\'' {
            return Err(Refusal::At(after.len()));
        }
        if byte_at(after.as_bytes(), 1) != b'\'' {
            return Ok((out, skip(after, 1)));
        }
        out.push_str("'")?;
        rest = skip(after, 2);
    }
}

/// The character that one after a backslash stands for.
fn escaped(byte: u8) -> Option<char>
    ensures { result ≡ scalars.escaped byte }
{
    match byte {
        b'\\' | b'"' | b'/' | b' ' => Some(char::from(byte)),
        b'n' => Some('\n'),
        b't' => Some('\t'),
        b'r' => Some('\r'),
        b'0' => Some('\0'),
        b'a' => Some('\u{7}'),
        b'b' => Some('\u{8}'),
        b'e' => Some('\u{1b}'),
        b'f' => Some('\u{c}'),
        b'v' => Some('\u{b}'),
        _ => None,
    }
}

/// How many digits follow the letter of an escape.
fn digit_count(byte: u8) -> usize
    ensures count { result ≡ scalars.digit_count byte }
    ensures few { result ≤ 8 }
{
    match byte {
        b'x' => 2,
        b'u' => 4,
        b'U' => 8,
        _ => 0,
    }
}

/// The number that digits write.
fn hex_number(digits: &str) -> Option<u32>
    requires { IsNumeral 16 digits.now }
    ensures value { IfSome result (λ n. n ≡ digits_value 16 digits.now) }
    ensures large { IfNone result (2 ^ 32 ≤ digits_value 16 digits.now) }
{
    u32::from_str_radix(digits, 16).ok()
}

/// The character of a number of `n` hexadecimal digits.
#[tactic(auto, unfolding(crate::specs::Scalars::hex_character))]
fn hex_character(text: &str, n: usize) -> Option<(char, &str)>
    requires { 0 < n }
    ensures value { option_map (λ p. (p.0, p.1.now)) result ≡ scalars.hex_character n text.now }
    ensures within { IfSome result (λ p. length p.1.now ≤ length text.now) }
{
    if run_len(text.as_bytes(), Class::Hex) < n {
        return None;
    }
    let (digits, rest) = text.split_at(n);
    let c = char::from_u32(hex_number(digits)?)?;
    Some((c, rest))
}

/// The character that comes after a backslash.
#[tactic(auto, unfolding(crate::specs::Scalars::escape))]
fn escape(text: &str) -> Option<(char, &str)>
    ensures value { option_map (λ p. (p.0, p.1.now)) result ≡ scalars.escape text.now }
    ensures within { IfSome result (λ p. length p.1.now ≤ length text.now) }
{
    let byte = first(text);
    let count = digit_count(byte);
    if count > 0 {
        return hex_character(skip(text, 1), count);
    }
    let c = escaped(byte)?;
    Some((c, skip(text, 1)))
}

/// The text from inside double quotes on.
fn double(alloc: Global, text: &str) -> Result<(Text, &str), Refusal>
    ensures value { (n : ℕ) → length text.now < n
        → Reads (λ t. t) result (scalars.double n text.now) }
    ensures shorter { Shortens text.now result }
{
    let mut out = Text::new(alloc);
    let mut rest = text;
    'pieces: loop {
        let (front, after) = split_run(rest, Class::Double);
        out.push_str(front)?;
        if first(after) == b'"' {
            return Ok((out, skip(after, 1)));
        }
        if first(after) != b'\\' {
            return Err(Refusal::At(after.len()));
        }
        let Some((c, behind)) = escape(skip(after, 1)) else {
            return Err(Refusal::At(after.len()));
        };
        out.push(c)?;
        rest = behind;
    }
}

/// A scalar on one line, and what follows it.
#[tactic(auto, unfolding(crate::specs::Scalars::scalar))]
pub(crate) fn scalar(alloc: Global, text: &str, flow: bool) -> Result<(Scalar, &str), Refusal>
    ensures value { Reads (λ s. s) result (scalars.scalar flow text.now) }
    ensures shorter { Shortens text.now result }
{
    let byte = first(text);
    if byte == b'\'' {
        let (inside, rest) = single(alloc, skip(text, 1))?;
        return Ok((Scalar::Text(inside), rest));
    }
    if byte == b'"' {
        let (inside, rest) = double(alloc, skip(text, 1))?;
        return Ok((Scalar::Text(inside), rest));
    }
    plain(alloc, text, flow)
}

/// What follows the `:` after a key, where one stands.
#[tactic(auto, unfolding(crate::specs::Scalars::after_colon))]
pub(crate) fn after_colon(text: &str, flow: bool) -> Option<&str>
    ensures value { option_map (λ u. u.now) result ≡ scalars.after_colon flow text.now }
    ensures within { IfSome result (λ u. length u.now ≤ length text.now) }
{
    let behind = split_run(text, Class::White).1;
    if first(behind) == b':' && ends_key(after_first(behind.as_bytes()), flow) {
        Some(skip(behind, 1))
    } else {
        None
    }
}

/// A key and its `:`.
#[tactic(auto, unfolding(crate::specs::Scalars::key))]
pub(crate) fn key(alloc: Global, text: &str, flow: bool) -> Result<(Scalar, &str), Refusal>
    ensures value { Reads (λ s. s) result (scalars.key flow text.now) }
    ensures shorter { Shortens text.now result }
{
    let (scalar, rest) = scalar(alloc, text, flow)?;
    match after_colon(rest, flow) {
        Some(behind) => Ok((scalar, behind)),
        None => Err(Refusal::At(rest.len())),
    }
}
