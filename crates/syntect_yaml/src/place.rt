//! Where the next visible character stands.
ghost use Rattle.std.specs.Prelude.{◌≡◌, ◌<◌, ◌≤◌, ℕ, length, option_map, IfSome};
ghost use Rattle.syntect_yaml.specs.Lines as lines;
ghost use Rattle.syntect_yaml.specs.Text.{place_of, IsWithin};

use crate::text::{Class, byte_at, line_tail, run_len, skip, split_run};

/// A place in a line: how many characters stand before it, and what is still to read.
#[derive(Clone, Copy)]
pub(crate) struct Spot<'a> {
    pub column: usize,
    pub rest: &'a str,
}

/// The first character of a line that is no space, unless it is a tab.
#[tactic(auto, unfolding(crate::specs::Lines::indented))]
fn indented(text: &str) -> Option<Spot<'_>>
    ensures value { option_map place_of result ≡ lines.indented text.now }
    ensures within { IsWithin text.now result }
{
    let column = run_len(text.as_bytes(), Class::Space);
    if byte_at(text.as_bytes(), column) == b'\t' {
        return None;
    }
    let rest = split_run(text, Class::Space).1;
    Some(Spot { column, rest })
}

/// The first visible character from a line's start on that begins no comment.
pub(crate) fn seek(text: &str) -> Option<Spot<'_>>
    ensures value { (n : ℕ) → length text.now < n
        → option_map place_of result ≡ lines.seek n text.now }
    ensures within { IsWithin text.now result }
{
    let mut rest = text;
    'lines: while !rest.is_empty() {
        match line_tail(rest, true) {
            Some(after) => rest = after,
            None => return indented(rest),
        }
    }
    Some(Spot { column: 0, rest })
}

/// Whether the text goes on with three of a character.
#[inline]
fn is_thrice(bytes: &[u8], c: u8) -> bool
    ensures { result ≡ lines.is_thrice c bytes.now }
{
    byte_at(bytes, 0) == c && byte_at(bytes, 1) == c && byte_at(bytes, 2) == c
}

/// Whether the line is three of a character.
pub(crate) fn is_line_of(text: &str, c: u8) -> bool
    requires some { 0 < c }
    requires ascii { c < 128 }
    ensures { result ≡ lines.is_line_of c text.now }
{
    is_thrice(text.as_bytes(), c) && line_tail(skip(text, 3), false).is_some()
}

/// Whether the line ends a document or begins one.
#[tactic(auto, unfolding(crate::specs::Lines::is_marker))]
pub(crate) fn is_marker(text: &str) -> bool
    ensures { result ≡ lines.is_marker text.now }
{
    is_line_of(text, b'-') || is_line_of(text, b'.')
}

/// Refuses such a line.
#[tactic(auto, unfolding(crate::specs::Lines::unmarked))]
pub(crate) fn unmarked(spot: Spot<'_>) -> Option<Spot<'_>>
    ensures value { option_map place_of result ≡ lines.unmarked (place_of spot.entry) }
    ensures same { IfSome result (λ p. p ≡ spot.entry) }
{
    if spot.column == 0 && is_marker(spot.rest) {
        None
    } else {
        Some(spot)
    }
}

/// The first visible character from a line's start on.
#[tactic(auto, unfolding(crate::specs::Lines::next))]
pub(crate) fn next(text: &str) -> Option<Spot<'_>>
    ensures value { option_map place_of result ≡ lines.next text.now }
    ensures within { IsWithin text.now result }
{
    unmarked(seek(text)?)
}

/// The first visible character after something that ends on this line.
#[tactic(auto, unfolding(crate::specs::Lines::next_line))]
pub(crate) fn next_line(text: &str) -> Option<Spot<'_>>
    ensures value { option_map place_of result ≡ lines.next_line text.now }
    ensures within { IsWithin text.now result }
{
    next(line_tail(text, false)?)
}

/// From a line's start on, the first line that has more than white space and a comment: where
/// nothing is read from here on, it is the one that cannot be read.
pub(crate) fn next_visible(text: &str) -> &str
    ensures { length result.now ≤ length text.now }
{
    let mut rest = text;
    'lines: while !rest.is_empty() {
        match line_tail(rest, true) {
            Some(after) => rest = after,
            None => return rest,
        }
    }
    rest
}

/// What cannot be read after something that ends on this line: the line below that has more than
/// white space and a comment, or else what is left of this one.
pub(crate) fn unread_behind(text: &str) -> &str
    ensures { length result.now ≤ length text.now }
{
    match line_tail(text, false) {
        Some(after) => next_visible(after),
        None => split_run(text, Class::White).1,
    }
}
