//! Identifiers of CSS.
ghost use Rattle.std.specs.Prelude.{◌≡◌, ◌++◌, string_bytes, OnOk};
ghost use Rattle.syntect_writers.specs.Identifier.{needs_no_escape, identifier_char, identifier};

use std::alloc::AllocError;

/// Whether a character stands in an identifier as it is.
fn needs_no_escape(first: bool, c: char) -> bool
    ensures { result ≡ needs_no_escape first c }
{
    c.is_ascii_alphabetic() || c == '-' || c == '_' || (!first && c.is_ascii_digit())
}

/// Appends a character of an identifier.
fn push_char(out: &mut String, first: bool, c: char) -> Result<(), AllocError>
    ensures { OnOk result (string_bytes out.new ≡ string_bytes out.old ++ identifier_char first c) }
{
    if needs_no_escape(first, c) {
        out.push(c)?;
        return Ok(());
    }
    write!(out, "\\{:x} ", c as u32)
}

/// Appends a text as an identifier: what can't stand there is written by its number.
pub(crate) fn push_identifier(out: &mut String, text: &str) -> Result<(), AllocError>
    ensures { OnOk result (string_bytes out.new ≡ string_bytes out.old ++ identifier text.now) }
{
    let mut letters = text.chars();
    let Some(head) = letters.next() else {
        return Ok(());
    };
    push_char(out, true, head)?;
    for c in letters {
        push_char(out, false, c)?;
    }
    Ok(())
}
