//! What follows a backslash.
ghost use Rattle.std.specs.Prelude.{◌≡◌, false, Some, option_map, chars, codes, MatchOption};
ghost use Rattle.std.specs.List.{list_all};
ghost use Rattle.std.specs.Char.{is_digit};
ghost use Rattle.syntect_pattern.specs.NamedSets.{set_of_named};
ghost use Rattle.syntect_pattern.specs.Reading.{value, char_of, name_in, is_name, is_name_start, is_name_char, is_among};
ghost use Rattle.syntect_pattern.specs.Escapes.{escape, one_letter, hex_fixed, hex_escape, category_escape};
ghost use Rattle.syntect_pattern_words.specs.EscapeViews.{escape_of, escaped, named_text};
ghost use Rattle.syntect_pattern.specs.Escapes as definition;

use crate::names::category_named;
use crate::text::{Test, after, before, begins, count_of, head, is_empty, number, run};
use syntect_pattern::anchor::Anchor;
use syntect_pattern::character::is_letter_or_digit;
use syntect_pattern::named::Named;
use unicode::properties::GeneralCategory;

/// What an escape stands for.
#[derive(Clone, Copy)]
pub enum Escape<'a> {
    Char(char),
    Set { negated: bool, set: Named },
    Edge(Anchor),
    /// A back reference.
    Number(usize),
    Name(&'a str),
}

/// The character of the number that the digits write.
#[tactic(auto, unfolding(syntect_pattern::specs::Reading::char_of))]
fn char_of(digits: &str) -> Option<char>
    ensures { result ≡ char_of (value 16 (chars digits.now)) }
{
    char::from_u32(number(digits, 16))
}

/// Whether the characters are digits of a hexadecimal number.
fn are_hexadecimal(text: &str) -> bool
    ensures { result ≡ list_all (λ c. is_digit c 16) (chars text.now) }
{
    text.chars().all(|c| c.is_digit(16))
}

/// A hexadecimal number of so many digits.
#[tactic(auto, unfolding(syntect_pattern::specs::Escapes::hex_fixed))]
fn hex_fixed(text: &str, count: usize) -> Option<(Escape<'_>, &str)>
    ensures { hex_fixed count (chars text.now) ≡ escaped result }
{
    let digits = before(text, count);
    if count_of(digits) != count || !are_hexadecimal(digits) {
        return None;
    }
    let c = char_of(digits)?;
    Some((Escape::Char(c), after(text, count)))
}

/// After `\x`: two digits, or one to eight in braces.
#[tactic(auto, unfolding(syntect_pattern::specs::Escapes::hex_escape))]
fn hex_escape(text: &str) -> Option<(Escape<'_>, &str)>
    ensures { hex_escape (chars text.now) ≡ escaped result }
{
    if !begins(text, &['{']) {
        return hex_fixed(text, 2);
    }
    let (digits, rest) = run(after(text, 1), Test::Hexadecimal);
    if is_empty(digits) || count_of(digits) > 8 || !begins(rest, &['}']) {
        return None;
    }
    let c = char_of(digits)?;
    Some((Escape::Char(c), after(rest, 1)))
}

/// After `\p` or `\P`: a category in braces.
#[tactic(auto, unfolding(syntect_pattern::specs::Escapes::category_escape))]
fn category_escape(text: &str, upper: bool) -> Option<(Escape<'_>, &str)>
    ensures { category_escape upper (chars text.now) ≡ escaped result }
{
    if !begins(text, &['{']) {
        return None;
    }
    let caret = begins(text, &['{', '^']);
    if upper && caret {
        return None;
    }
    let start = if caret { 2 } else { 1 };
    let (name, rest) = run(after(text, start), Test::NoBrace);
    if !begins(rest, &['}']) {
        return None;
    }
    let set = category_named(name)?;
    let negated = upper || caret;
    Some((Escape::Set { negated, set }, after(rest, 1)))
}

/// A letter that names a set, which is negated where it is in upper case.
fn set_letter(c: char, set: Named) -> Option<Escape<'static>>
    ensures { option_map escape_of result ≡ definition.set_letter c (set_of_named set) }
{
    let negated = c.is_ascii_uppercase();
    Some(Escape::Set { negated, set })
}

/// A letter that names a set.
#[tactic(auto, unfolding(syntect_pattern::specs::Escapes::one_letter))]
fn set_escape(c: char) -> Option<Escape<'static>>
    ensures { MatchOption result (is_among c (codes "wWdDsShH") ≡ false)
        (λ e. one_letter c ≡ Some (escape_of e)) }
{
    match c {
        'w' | 'W' => set_letter(c, Named::Word),
        'd' | 'D' => set_letter(c, Named::Category(GeneralCategory::DecimalNumber)),
        's' | 'S' => set_letter(c, Named::Space),
        'h' | 'H' => set_letter(c, Named::HexDigit),
        _ => None,
    }
}

/// A letter that names an anchor.
#[tactic(auto, unfolding(syntect_pattern::specs::Escapes::one_letter))]
fn edge_escape(c: char) -> Option<Escape<'static>>
    ensures { MatchOption result (is_among c (codes "AzZbB") ≡ false)
        (λ e. one_letter c ≡ Some (escape_of e)) }
{
    match c {
        'A' => Some(Escape::Edge(Anchor::TextStart)),
        'z' => Some(Escape::Edge(Anchor::TextEnd)),
        'Z' => Some(Escape::Edge(Anchor::LastLineEnd)),
        'b' => Some(Escape::Edge(Anchor::WordEdge)),
        'B' => Some(Escape::Edge(Anchor::NoWordEdge)),
        _ => None,
    }
}

/// A letter or digit that names a character or a group.
#[tactic(auto, unfolding(syntect_pattern::specs::Escapes::one_letter))]
fn char_escape(c: char) -> Option<Escape<'static>>
    ensures { MatchOption result (is_among c (codes "ntrfvae123456789") ≡ false)
        (λ e. one_letter c ≡ Some (escape_of e)) }
{
    match c {
        'n' => Some(Escape::Char('\n')),
        't' => Some(Escape::Char('\t')),
        'r' => Some(Escape::Char('\r')),
        'f' => Some(Escape::Char('\u{C}')),
        'v' => Some(Escape::Char('\u{B}')),
        'a' => Some(Escape::Char('\u{7}')),
        'e' => Some(Escape::Char('\u{1B}')),
        '1'..='9' => Some(Escape::Number(c as usize - '0' as usize)),
        _ => None,
    }
}

/// An escape of one character.
#[tactic(auto, unfolding(syntect_pattern::specs::Escapes::one_letter))]
fn one_letter(c: char) -> Option<Escape<'static>>
    ensures { one_letter c ≡ option_map escape_of result }
{
    if let Some(escape) = set_escape(c) {
        return Some(escape);
    }
    if let Some(escape) = edge_escape(c) {
        return Some(escape);
    }
    if let Some(escape) = char_escape(c) {
        return Some(escape);
    }
    if is_letter_or_digit(c) {
        None
    } else {
        Some(Escape::Char(c))
    }
}

/// Whether the text is a name of a group.
fn is_name(text: &str) -> bool
    ensures { result ≡ is_name (chars text.now) }
{
    match head(text) {
        Some(c) => is_name_start(c) && are_name_chars(after(text, 1)),
        None => false,
    }
}

/// Whether the character can begin a name.
fn is_name_start(c: char) -> bool
    ensures { result ≡ is_name_start c }
{
    c == '_' || c.is_ascii_alphabetic()
}

/// Whether a name can go on with the characters.
fn are_name_chars(text: &str) -> bool
    ensures { result ≡ list_all is_name_char (chars text.now) }
{
    text.chars().all(|c| Test::Name.passes(c))
}

/// A name, and what comes after the `>` that ends it.
#[tactic(auto, unfolding(syntect_pattern::specs::Reading::name_in))]
pub fn name_in(text: &str) -> Option<(&str, &str)>
    ensures { name_in (chars text.now) ≡ named_text result }
{
    let (name, rest) = run(text, Test::Name);
    if !is_name(name) || !begins(rest, &['>']) {
        return None;
    }
    Some((name, after(rest, 1)))
}

/// What follows a backslash, and what comes after that.
#[tactic(auto, unfolding(syntect_pattern::specs::Escapes::escape))]
pub fn read_escape(text: &str) -> Option<(Escape<'_>, &str)>
    ensures { escape (chars text.now) ≡ escaped result }
{
    let c = head(text)?;
    let rest = after(text, 1);
    match c {
        'x' => hex_escape(rest),
        'u' => hex_fixed(rest, 4),
        'p' => category_escape(rest, false),
        'P' => category_escape(rest, true),
        'k' => name_escape(rest),
        _ => Some((one_letter(c)?, rest)),
    }
}

/// A name in `<` and `>`.
fn name_escape(text: &str) -> Option<(Escape<'_>, &str)>
    ensures { definition.name_escape (chars text.now) ≡ escaped result }
{
    if !begins(text, &['<']) {
        return None;
    }
    let (name, rest) = name_in(after(text, 1))?;
    Some((Escape::Name(name), rest))
}
