//! Openings of groups, and flags.
ghost use Rattle.std.specs.Prelude.{◌≡◌, ◌++◌, ◌∷◌, [], suc, length, drop, List, Option, ℕ, option_map, chars, IfOk, OnOk};
ghost use Rattle.std.specs.List.{list_any};
ghost use Rattle.syntect_pattern.specs.Reading.{◌∈◌};
ghost use Rattle.syntect_pattern_words.specs.OpeningViews.{flags_as, place_as, opened_as, letters_as, flagged_as};
ghost use Rattle.syntect_pattern.specs.Grammar as grammar;

use crate::escapes::name_in;
use crate::text::{Test, after, before, begins, equals, is_empty, run};
use std::alloc::{AllocError, Global};
use syntect_values::seq::Seq;

/// The flags `i`, `m` and `x`.
#[derive(Clone, Copy)]
pub struct Flags {
    pub fold: bool,
    pub any: bool,
    pub spaced: bool,
}

/// What is still to read of a pattern, and the flags that hold there.
#[derive(Clone, Copy)]
pub struct Place<'a> {
    pub flags: Flags,
    pub text: &'a str,
}

/// What a group makes of what stands in it.
#[derive(Clone, Copy)]
pub enum Wrap {
    Plain,
    Group(usize),
    Atomic,
    Ahead(bool),
    Behind(bool),
}

/// What an opening begins.
#[derive(Clone, Copy)]
pub enum Opening {
    /// No group: flags for the rest of the enclosing one.
    Setting,
    Opens(Wrap),
}

/// The name, if any, of each group.
pub type Names = Seq<Option<Seq<char>>>;

/// The flags with these letters turned on or off.
fn turned(on: bool, letters: &str, flags: Flags) -> Flags
    ensures { flags_as result ≡ grammar.turned on (chars letters.now) (flags_as flags) }
{
    Flags {
        fold: if has_i(letters) { on } else { flags.fold },
        any: if has_m(letters) { on } else { flags.any },
        spaced: if has_x(letters) { on } else { flags.spaced },
    }
}

fn has_i(letters: &str) -> bool
    ensures { result ≡ list_any (λ c. c ∈ "i") (chars letters.now) }
{
    letters.chars().any(|c| c == 'i')
}

fn has_m(letters: &str) -> bool
    ensures { result ≡ list_any (λ c. c ∈ "m") (chars letters.now) }
{
    letters.chars().any(|c| c == 'm')
}

fn has_x(letters: &str) -> bool
    ensures { result ≡ list_any (λ c. c ∈ "x") (chars letters.now) }
{
    letters.chars().any(|c| c == 'x')
}

/// The letters that are turned off, after `-`.
#[tactic(auto, unfolding(syntect_pattern::specs::Grammar::off_letters))]
fn off_letters(text: &str) -> Option<(&str, &str)>
    ensures { grammar.off_letters (chars text.now) ≡ letters_as result }
{
    if !begins(text, &['-']) {
        return Some((before(text, 0), text));
    }
    let (letters, rest) = run(after(text, 1), Test::Flag);
    if is_empty(letters) {
        return None;
    }
    Some((letters, rest))
}

/// The flags after letters that are turned on or off.
#[tactic(auto, unfolding(syntect_pattern::specs::Grammar::flags_at))]
fn flags_at(flags: Flags, text: &str) -> Option<(Flags, &str)>
    ensures { grammar.flags_at (flags_as flags) (chars text.now) ≡ flagged_as result }
{
    let (on, middle) = run(text, Test::Flag);
    let (off, rest) = off_letters(middle)?;
    if is_empty(on) && is_empty(off) {
        return None;
    }
    let flags = turned(false, off, turned(true, on, flags));
    Some((flags, rest))
}

/// Whether a group of the name is there.
fn has_name(names: &[Option<Seq<char>>], wanted: &str) -> bool
    ensures { result ≡ list_any (grammar.has_name (chars wanted.now)) names.now }
{
    for name in names {
        if let Some(other) = name {
            if equals(other.as_slice(), wanted) {
                return true;
            }
        }
    }
    false
}

/// The place so many characters later.
pub fn forward(place: Place<'_>, count: usize) -> Place<'_>
    ensures flags { result.flags ≡ place.entry.flags }
    ensures text { chars result.text.now ≡ drop count (chars place.entry.text.now) }
    ensures place { (names : grammar.Names) → place_as names result
        ≡ grammar.forward count (place_as names place.entry) }
{
    Place {
        flags: place.flags,
        text: after(place.text, count),
    }
}

/// One group more: its number.
fn numbered(names: &mut Names, name: Option<Seq<char>>) -> Result<usize, AllocError>
    ensures number { IfOk result (λ n. n ≡ suc (length names.old)) }
    ensures names { OnOk result (names.new ≡ names.old ++ name ∷ []) }
{
    names.push(name)?;
    Ok(names.len())
}

/// The characters of a name.
fn name_of(alloc: Global, name: &str) -> Result<Seq<char>, AllocError>
    ensures { IfOk result (λ letters. letters ≡ chars name.now) }
{
    let letters = name.chars().collect(alloc)?;
    Ok(Seq::from_vec(letters))
}

/// A group with a name, from the name on.
#[tactic(auto, unfolding(syntect_pattern::specs::Grammar::named_group))]
fn named_group<'a>(
    names: &mut Names,
    place: Place<'a>,
) -> Result<Option<(Opening, Place<'a>)>, AllocError>
    ensures { IfOk result
        (λ f. grammar.named_group (place_as names.old place.entry) ≡ opened_as names.new f) }
{
    let Some((name, rest)) = name_in(place.text) else {
        return Ok(None);
    };
    if has_name(names.as_slice(), name) {
        return Ok(None);
    }
    let name = name_of(names.allocator(), name)?;
    let number = numbered(names, Some(name))?;
    let inside = Place {
        flags: place.flags,
        text: rest,
    };
    Ok(Some((Opening::Opens(Wrap::Group(number)), inside)))
}

/// A group with flags, or flags alone, from the letters on.
#[tactic(auto, unfolding(syntect_pattern::specs::Grammar::flag_group))]
fn flag_group(place: Place<'_>) -> Option<(Opening, Place<'_>)>
    ensures { (names : grammar.Names) → grammar.flag_group (place_as names place.entry)
        ≡ opened_as names result }
{
    let (flags, rest) = flags_at(place.flags, place.text)?;
    let inside = Place {
        flags,
        text: after(rest, 1),
    };
    if begins(rest, &[')']) {
        Some((Opening::Setting, inside))
    } else if begins(rest, &[':']) {
        Some((Opening::Opens(Wrap::Plain), inside))
    } else {
        None
    }
}

/// From after the parenthesis up to what stands in the group.
#[tactic(auto, unfolding(syntect_pattern::specs::Grammar::opening))]
pub fn read_opening<'a>(
    names: &mut Names,
    place: Place<'a>,
) -> Result<Option<(Opening, Place<'a>)>, AllocError>
    ensures { IfOk result
        (λ f. grammar.opening (place_as names.old place.entry) ≡ opened_as names.new f) }
{
    let text = place.text;
    if !begins(text, &['?']) {
        let number = numbered(names, None)?;
        Ok(Some((Opening::Opens(Wrap::Group(number)), place)))
    } else if begins(text, &['?', ':']) {
        Ok(Some((Opening::Opens(Wrap::Plain), forward(place, 2))))
    } else if begins(text, &['?', '>']) {
        Ok(Some((Opening::Opens(Wrap::Atomic), forward(place, 2))))
    } else if begins(text, &['?', '=']) {
        Ok(Some((Opening::Opens(Wrap::Ahead(false)), forward(place, 2))))
    } else if begins(text, &['?', '!']) {
        Ok(Some((Opening::Opens(Wrap::Ahead(true)), forward(place, 2))))
    } else if begins(text, &['?', '<', '=']) {
        Ok(Some((Opening::Opens(Wrap::Behind(false)), forward(place, 3))))
    } else if begins(text, &['?', '<', '!']) {
        Ok(Some((Opening::Opens(Wrap::Behind(true)), forward(place, 3))))
    } else if begins(text, &['?', 'P', '<']) {
        Ok(named_group(names, forward(place, 3))?)
    } else if begins(text, &['?', '<']) {
        Ok(named_group(names, forward(place, 2))?)
    } else {
        Ok(flag_group(forward(place, 1)))
    }
}

/// Whether the group has the name.
fn is_named(name: &Option<Seq<char>>, wanted: &str) -> bool
    ensures { result ≡ grammar.has_name (chars wanted.now) name.now }
{
    match name {
        Some(other) => equals(other.as_slice(), wanted),
        None => false,
    }
}

/// The number of the group of the name.
pub fn number_of(names: &[Option<Seq<char>>], wanted: &str) -> Option<usize>
    ensures { result ≡ grammar.number_of (chars wanted.now) names.now }
{
    for i in 0..names.len() {
        if is_named(&names[i], wanted) {
            return Some(i + 1);
        }
    }
    None
}
