//! Texts in which a backslash, a tab, a line feed and the like are escaped as in Rust.
use std::alloc::Global;
use std::io;

/// What stands before the next character of an escaped text.
#[derive(Clone, Copy)]
enum Before {
    Nothing,
    Backslash,
    /// So many digits are still to come.
    Hex(u32, u32),
    /// `\u`, and perhaps a brace and digits.
    Braced(u32),
}

/// The character that is meant after a backslash.
fn named(c: char) -> char {
    match c {
        'n' => '\n',
        't' => '\t',
        'r' => '\r',
        '0' => '\0',
        other => other,
    }
}

/// Adds the character of a number.
fn push_number(out: &mut String, number: u32) -> io::Result<()> {
    out.push(char::from_u32(number).unwrap_or('\u{FFFD}'))?;
    Ok(())
}

/// Reads one character of an escaped text.
fn unescape_one(out: &mut String, before: Before, c: char) -> io::Result<Before> {
    match before {
        Before::Nothing if c == '\\' => Ok(Before::Backslash),
        Before::Nothing => {
            out.push(c)?;
            Ok(Before::Nothing)
        }
        Before::Backslash if c == 'x' => Ok(Before::Hex(0, 2)),
        Before::Backslash if c == 'u' => Ok(Before::Braced(0)),
        Before::Backslash => {
            out.push(named(c))?;
            Ok(Before::Nothing)
        }
        Before::Hex(number, left) => {
            let number = number
                .saturating_mul(16)
                .saturating_add(c.to_digit(16).unwrap_or(0));
            if left > 1 {
                return Ok(Before::Hex(number, left - 1));
            }
            push_number(out, number)?;
            Ok(Before::Nothing)
        }
        Before::Braced(number) if c == '}' => {
            push_number(out, number)?;
            Ok(Before::Nothing)
        }
        Before::Braced(number) => match c.to_digit(16) {
            Some(digit) => Ok(Before::Braced(number.saturating_mul(16).saturating_add(digit))),
            None => Ok(Before::Braced(number)),
        },
    }
}

/// The text that an escaped one means.
pub fn unescaped(alloc: Global, field: &str) -> io::Result<String> {
    let mut out = String::new(alloc);
    let mut before = Before::Nothing;
    for c in field.chars() {
        before = unescape_one(&mut out, before, c)?;
    }
    Ok(out)
}
