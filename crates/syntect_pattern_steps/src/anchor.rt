//! Places where nothing is read.
ghost use Rattle.std.specs.Prelude.{◌≡◌, IsCharBoundary, Option, ℕ};
ghost use Rattle.syntect_pattern.specs.Matches as matches;
ghost use Rattle.syntect_pattern.specs.declared.anchor.Anchor.TheVariants.{LineStart};
ghost use Rattle.syntect_pattern.specs.Sets.{is_word};

use crate::text::{char_at, char_before};
use syntect_pattern::anchor::Anchor;
use syntect_pattern::character::is_word;
use syntect_pattern_table::sets::has_bit;

/// Whether the anchor holds at the place.
pub fn anchor_holds(text: &str, place: usize, anchor: Anchor) -> bool
    requires { IsCharBoundary text.now place }
    ensures { result ≡ matches.anchor_holds text.now anchor place }
{
    let end = text.len();
    match anchor {
        Anchor::LineStart => line_begins(text, place),
        Anchor::LineEnd => place == end || is_newline(char_at(text, place)),
        Anchor::TextStart => place == 0,
        Anchor::TextEnd => place == end,
        Anchor::LastLineEnd => {
            place == end || (is_newline(char_at(text, place)) && end - place == 1)
        }
        Anchor::WordEdge => is_word_edge(text, place),
        Anchor::NoWordEdge => !is_word_edge(text, place),
    }
}

/// Whether a line begins at the place: at most places the byte before tells that none does.
#[inline]
fn line_begins(text: &str, place: usize) -> bool
    requires { IsCharBoundary text.now place }
    ensures { result ≡ matches.anchor_holds text.now LineStart place }
{
    if place == 0 {
        return true;
    }
    if text.as_bytes()[place - 1] != b'\n' {
        return false;
    }
    is_newline(char_before(text, place)) && place != text.len()
}

/// The character, if there is one, is a newline.
fn is_newline(c: Option<char>) -> bool
    ensures { result ≡ matches.is_newline c }
{
    match c {
        Some(c) => c == '\n',
        None => false,
    }
}

/// The ASCII characters of words, a bit for each.
const WORD: u128 = 0x07ff_fffe_87ff_fffe_03ff_0000_0000_0000;

/// The character is one of a word: an ASCII one by its bit, any other by its category.
#[tactic(auto, using(syntect_pattern_table::proofs::AsciiLaws::word_bits))]
fn is_of_word(c: char) -> bool
    ensures { result ≡ is_word c }
{
    let code = c as u32;
    if code < 128 {
        has_bit(WORD, code)
    } else {
        is_word(c)
    }
}

/// The character, if there is one, is one of a word.
fn word_at(c: Option<char>) -> bool
    ensures { result ≡ matches.word_at c }
{
    match c {
        Some(c) => is_of_word(c),
        None => false,
    }
}

/// The sides of the place differ in being of a word.
#[tactic(auto, unfolding(syntect_pattern::specs::Matches::is_word_edge))]
fn is_word_edge(text: &str, place: usize) -> bool
    requires { IsCharBoundary text.now place }
    ensures { result ≡ matches.is_word_edge text.now place }
{
    word_at(char_before(text, place)) != word_at(char_at(text, place))
}
