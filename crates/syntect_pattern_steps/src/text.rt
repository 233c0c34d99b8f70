//! The characters at a place of a text.
ghost use Rattle.std.specs.Prelude.{◌≡◌, ◌+◌, ◌≤◌, ◌++◌, IsCharBoundary, IfSome, Some, length, chars, encode_utf8, reverse, slice_get, true};
ghost use Rattle.std.specs.Char.{len_utf8};
ghost use Rattle.syntect_pattern.specs.Text as places;
ghost use Rattle.syntect_pattern.specs.Matches.{Groups, equals, spelled};
ghost use Rattle.syntect_pattern_steps.specs.Steps.{at_end};

use syntect_pattern::character::same_fold;

/// The character that begins at the place.
#[inline(always)]
pub fn char_at(text: &str, place: usize) -> Option<char>
    requires { IsCharBoundary text.now place }
    ensures value { result ≡ places.char_at text.now place }
    ensures behind { IfSome result (λ c. IsCharBoundary text.now (place + len_utf8 c)) }
    ensures inside { IfSome result (λ c. place + len_utf8 c ≤ length text.now) }
{
    text.split_at(place).1.chars().next()
}

/// Whether a character begins at the place or the text ends there.
#[inline(always)]
pub fn is_boundary(text: &str, place: usize) -> bool
    ensures value { result ≡ places.is_boundary text.now place }
    ensures boundary { result ≡ true → IsCharBoundary text.now place }
{
    text.is_char_boundary(place)
}

/// The character that ends at the place.
#[inline(always)]
pub fn char_before(text: &str, place: usize) -> Option<char>
    requires { IsCharBoundary text.now place }
    ensures { result ≡ places.char_before text.now place }
{
    let front = text.split_at(place).0;
    let mut letters = front.chars();
    let c = letters.next_back()?;
    Some(last_char(front, letters.as_str(), c))
}

/// The last character of a text, which is another text and this character.
#[inline(always)]
fn last_char(text: &str, front: &str, c: char) -> char
    requires { text.now ≡ front.now ++ encode_utf8 c }
    ensures { Some result ≡ slice_get (reverse (chars text.now)) 0 }
{
    c
}

/// The characters are equal, with `fold` by simple folding.
fn are_equal(fold: bool, c: char, d: char) -> bool
    ensures { result ≡ equals fold c d }
{
    c == d || (fold && same_fold(c, d))
}

/// The place after the characters of the other text, where they stand at the place.
pub fn past_text(text: &str, place: usize, fold: bool, wanted: &str) -> Option<usize>
    requires { IsCharBoundary text.now place }
    ensures value { (g : Groups)
        → spelled text.now fold (chars wanted.now) place g ≡ at_end result g }
    ensures boundary { IfSome result (λ j. IsCharBoundary text.now j) }
{
    let mut place = place;
    for c in wanted.chars() {
        let next = char_at(text, place)?;
        if !are_equal(fold, c, next) {
            return None;
        }
        place += next.len_utf8();
    }
    Some(place)
}
