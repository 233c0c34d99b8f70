//! Back references in the text of a pattern.
ghost use Rattle.std.specs.Prelude.{◌≡◌, ◌++◌, ◌&&◌, IfOk, OnOk, string_bytes};
ghost use Rattle.syntect_grammar_rewrite.specs.Testing as testing;

use crate::signs::{byte_at, first, sign_len};
use std::alloc::{AllocError, Global};
use ucd_category::GeneralCategory;

/// Adds a sign, with a placeholder for a reference to a group.
fn push_tested(out: &mut String, sign: &str) -> Result<(), AllocError>
    ensures { OnOk result (string_bytes out.new
        ≡ string_bytes out.old ++ testing.tested_sign sign.now) }
{
    let digit = byte_at(sign.as_bytes(), 1);
    if first(sign) == b'\\' && digit.is_ascii_digit() {
        out.push_str("<placeholder_")?;
        out.push(char::from(digit))?;
        out.push_str(">")
    } else {
        out.push_str(sign)
    }
}

/// The text that is tested as a pattern: the text with `<placeholder_D>` in place of each `\D`, D
/// being an ASCII digit and the backslash not escaped itself.
/// An error comes only where memory ran out.
pub fn tested(alloc: Global, text: &str) -> Result<String, AllocError>
    ensures { IfOk result (λ s. string_bytes s ≡ testing.tested_text text.now) }
{
    let mut out = String::new(alloc);
    let mut rest = text;
    'signs: while !rest.is_empty() {
        let (sign, after) = rest.split_at(sign_len(rest));
        push_tested(&mut out, sign)?;
        rest = after;
    }
    Ok(out)
}

/// Whether a character is of category Nd.
#[tactic(auto, unfolding(crate::specs::Testing::is_decimal))]
fn is_decimal(c: char) -> bool
    ensures { result ≡ testing.is_decimal c }
{
    GeneralCategory::for_char(c) == GeneralCategory::DecimalNumber
}

/// Whether a character of category Nd comes after a backslash.
fn is_referred(escaped: bool, c: char) -> bool
    ensures { result ≡ (escaped && testing.is_decimal c) }
{
    escaped && is_decimal(c)
}

/// Whether the text has a backslash directly before a character of category Nd.
#[tactic(auto, unfolding(crate::specs::Testing::refers_back))]
pub fn refers_back(text: &str) -> bool
    ensures { result ≡ testing.refers_back text.now }
{
    let mut escaped = false;
    for c in text.chars() {
        if is_referred(escaped, c) {
            return true;
        }
        escaped = c == '\\';
    }
    false
}
