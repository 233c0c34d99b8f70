//! Names in the comment of a style sheet.
ghost use Rattle.std.specs.Prelude.{◌≡◌, ◌==◌, ◌&&◌, ◌++◌, ◌∷◌, List, ℕ, true, chars, encode_utf8_all, string_bytes, IfOk, OnOk};
ghost use Rattle.syntect_writers.specs.Comment.{is_left_out, ends_with_star, told_chars, told_name, can_be_told};

use std::alloc::{AllocError, Global};

/// Whether a character isn't told: `<`, or a control character.
fn is_left_out(c: char) -> bool
    ensures { result ≡ is_left_out c }
{
    c == '<' || c < ' ' || ('\u{7f}' <= c && c < '\u{a0}')
}

/// Whether a character after these ends the comment: a slash after a star.
fn ends_comment(kept: &[char], c: char) -> bool
    ensures { result ≡ (ends_with_star kept.now && (c == 47)) }
{
    match kept.last() {
        Some(last) => *last == '*' && c == '/',
        None => false,
    }
}

/// Appends a character of a name, if it is kept. A slash after a star isn't,
/// and takes the star along.
fn keep(kept: &mut Vec<char>, c: char) -> Result<(), AllocError>
    ensures told { (rest : List ℕ) → OnOk result (told_chars (kept.new.items ++ rest)
        ≡ told_chars (kept.old.items ++ (c ∷ rest))) }
    ensures whole { OnOk result (can_be_told kept.old.items ≡ true
        → can_be_told kept.new.items ≡ true) }
{
    if is_left_out(c) {
        return Ok(());
    }
    if ends_comment(kept.as_slice(), c) {
        kept.pop();
        return Ok(());
    }
    kept.push(c)?;
    Ok(())
}

/// The characters of a name that are kept.
fn told_chars(alloc: Global, name: &str) -> Result<Vec<char>, AllocError>
    ensures { IfOk result (λ kept. kept.items ≡ told_chars (chars name.now)) }
{
    let mut kept = Vec::new(alloc);
    for c in name.chars() {
        keep(&mut kept, c)?;
    }
    Ok(kept)
}

/// Appends a name as a comment tells it: without `<`,
/// control characters and what would end the comment.
pub(crate) fn push_name(alloc: Global, out: &mut String, name: &str) -> Result<(), AllocError>
    ensures { OnOk result (string_bytes out.new ≡ string_bytes out.old ++ told_name name.now) }
{
    let kept = told_chars(alloc, name)?;
    for c in kept.as_slice() {
        out.push(*c)?;
    }
    Ok(())
}
