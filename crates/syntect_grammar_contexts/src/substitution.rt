//! Patterns that refer to the groups of the match that opened their context.
ghost use Rattle.std.specs.Prelude.{◌≡◌, ◌≤◌, ◌<◌, ◌++◌, length, string_bytes, IfNone, IfOk, IfSome, OnOk};
ghost use Rattle.syntect_grammar_contexts.specs.Substitution.{AreOnBoundaries, group_text, escape_replacement, substituted};

use std::alloc::{AllocError, Global};
use syntect_regex::regex::escape;
use syntect_regex::region::Region;

/// The text of a group, nothing if it was not set.
fn group_text<'t>(region: &Region, text: &'t str, group: usize) -> &'t str
    requires { AreOnBoundaries text.now region.now }
    ensures { result.now ≡ group_text region.now text.now group }
{
    match region.pos(group) {
        Some((start, end)) => { if start <= end { &text[start..end] } else { "" } }
        None => "",
    }
}

/// Puts what stands for a backslash and the character after it.
fn push_replaced(
    alloc: Global,
    out: &mut String,
    c: char,
    region: &Region,
    text: &str,
) -> Result<(), AllocError>
    requires { AreOnBoundaries text.now region.now }
    ensures { OnOk result (string_bytes out.new
        ≡ string_bytes out.old ++ escape_replacement region.now text.now c) }
{
    if c.is_ascii_digit() {
        let group = (c as u32 - '0' as u32) as usize;
        let escaped = escape(alloc, group_text(region, text, group))?;
        out.push_str(escaped.as_str())
    } else {
        out.push('\\')?;
        out.push(c)
    }
}

/// The text of a pattern with each digit after a backslash that isn't itself escaped, and that
/// backslash, replaced by the escaped text of the group of that number, or by nothing where it was
/// not set. None where it has more bytes than `most`, of which no more are written then, but for
/// one group's.
pub fn substituted(
    alloc: Global,
    pattern: &str,
    region: &Region,
    text: &str,
    most: usize,
) -> Result<Option<String>, AllocError>
    requires { AreOnBoundaries text.now region.now }
    ensures some { IfOk result (λ o. IfSome o (λ s.
        string_bytes s ≡ substituted pattern.now region.now text.now)) }
    ensures few { IfOk result (λ o. IfSome o (λ s. length (string_bytes s) ≤ most)) }
    ensures none { IfOk result (λ o. IfNone o
        (most < length (substituted pattern.now region.now text.now))) }
{
    let mut out = String::new(alloc);
    let mut behind = false;
    for c in pattern.chars() {
        if out.len() > most {
            return Ok(None);
        }
        if behind {
            push_replaced(alloc, &mut out, c, region, text)?;
            behind = false;
        } else if c == '\\' {
            behind = true;
        } else {
            out.push(c)?;
        }
    }
    if behind {
        out.push('\\')?;
    }
    if out.len() > most {
        return Ok(None);
    }
    Ok(Some(out))
}
