//! What stands in a class in brackets, other than nested classes.
ghost use Rattle.std.specs.Prelude.{◌≡◌, chars, option_map};
ghost use Rattle.syntect_pattern.specs.Escapes.{named_set};
ghost use Rattle.syntect_pattern_words.specs.EscapeViews.{escape_of};
ghost use Rattle.syntect_pattern_words.specs.MemberViews.{member_as, membered, charred, leafed, posix_as, next_as};
ghost use Rattle.syntect_pattern.specs.Classes as definition;

use crate::escapes::{Escape, read_escape};
use crate::names::bracket_named;
use crate::text::{Test, after, begins, head, is_empty, run};
use syntect_pattern::named::Named;

/// A character or a set.
#[derive(Clone, Copy)]
pub enum Member {
    One(char),
    Many { negated: bool, set: Named },
}

/// What an item adds to a class.
#[derive(Clone, Copy)]
pub enum Leaf {
    /// The characters from the first to the last, with `fold` all of equal simple folding.
    Span { fold: bool, low: char, high: char },
    Set { negated: bool, set: Named },
}

/// What stands next in a class.
#[derive(Clone, Copy)]
pub enum Next {
    Closing,
    Intersecting,
    Nested,
    Posix,
    Plain,
}

/// What the escape is in a class, where anchors and back references can't stand.
fn member_of(escape: Escape<'_>) -> Option<Member>
    ensures { definition.member_of (escape_of escape.entry) ≡ option_map member_as result }
{
    match escape {
        Escape::Char(c) => Some(Member::One(c)),
        Escape::Set { negated, set } => Some(Member::Many { negated, set }),
        _ => None,
    }
}

/// An escape, from just after its backslash.
#[tactic(auto, unfolding(syntect_pattern::specs::Classes::class_escape))]
fn class_escape(text: &str) -> Option<(Member, &str)>
    ensures { definition.class_escape (chars text.now) ≡ membered result }
{
    if begins(text, &['b']) {
        return Some((Member::One('\u{8}'), after(text, 1)));
    }
    let (escape, rest) = read_escape(text)?;
    Some((member_of(escape)?, rest))
}

/// A character or an escape.
#[tactic(auto, unfolding(syntect_pattern::specs::Classes::member))]
fn read_member(text: &str) -> Option<(Member, &str)>
    ensures { definition.member (chars text.now) ≡ membered result }
{
    let c = head(text)?;
    let rest = after(text, 1);
    if c == '\\' {
        class_escape(rest)
    } else {
        Some((Member::One(c), rest))
    }
}

/// Whether a side of `&&` ends here.
fn ends_side(text: &str) -> bool
    ensures { result ≡ definition.ends_side (chars text.now) }
{
    begins(text, &[']']) || begins(text, &['&', '&'])
}

/// The last character of a range, from its `-` on.
#[tactic(auto, unfolding(syntect_pattern::specs::Classes::range_end))]
fn range_end(text: &str) -> Option<(char, &str)>
    ensures { definition.range_end (chars text.now) ≡ charred result }
{
    if !begins(text, &['-']) {
        return None;
    }
    let rest = after(text, 1);
    if ends_side(rest) || begins(rest, &['[']) {
        return None;
    }
    match read_member(rest)? {
        (Member::One(c), rest) => Some((c, rest)),
        _ => None,
    }
}

/// A character, or a range where an end follows.
fn up_to(fold: bool, low: char, rest: &str) -> Option<(Leaf, &str)>
    ensures { definition.up_to fold low (chars rest.now) (definition.range_end (chars rest.now))
        ≡ leafed result }
{
    match range_end(rest) {
        Some((high, rest)) => {
            if low <= high {
                Some((Leaf::Span { fold, low, high }, rest))
            } else {
                None
            }
        }
        None => Some((
            Leaf::Span {
                fold,
                low,
                high: low,
            },
            rest,
        )),
    }
}

/// A range, a character or an escape.
#[tactic(auto, unfolding(syntect_pattern::specs::Classes::plain_item))]
pub fn plain_item(fold: bool, text: &str) -> Option<(Leaf, &str)>
    ensures { definition.plain_item fold (chars text.now) ≡ leafed result }
{
    match read_member(text)? {
        (Member::One(c), rest) => up_to(fold, c, rest),
        (Member::Many { negated, set }, rest) => Some((Leaf::Set { negated, set }, rest)),
    }
}

/// The name in a bracket of the form `[:name:]` or `[:^name:]`, and what follows it.
#[tactic(auto, unfolding(syntect_pattern::specs::Classes::posix_form))]
fn posix_form(text: &str) -> Option<(bool, &str, &str)>
    ensures { definition.posix_form (chars text.now) ≡ posix_as result }
{
    if !begins(text, &['[', ':']) {
        return None;
    }
    let caret = begins(text, &['[', ':', '^']);
    let start = if caret { 3 } else { 2 };
    let (name, rest) = run(after(text, start), Test::Letter);
    if is_empty(name) || !begins(rest, &[':', ']']) {
        return None;
    }
    Some((caret, name, after(rest, 2)))
}

/// A bracket of a known name.
#[tactic(auto, unfolding(syntect_pattern::specs::Classes::posix_item))]
pub fn posix_item(fold: bool, text: &str) -> Option<(Leaf, &str)>
    ensures { definition.posix_item fold (chars text.now) ≡ leafed result }
{
    let _ = fold;
    let (negated, name, rest) = posix_form(text)?;
    let set = bracket_named(name)?;
    Some((Leaf::Set { negated, set }, rest))
}

/// What stands next in a class.
#[tactic(auto, unfolding(syntect_pattern::specs::Classes::next_in))]
pub fn next_in(text: &str) -> Next
    ensures { definition.next_in (chars text.now) ≡ next_as result }
{
    if begins(text, &[']']) {
        Next::Closing
    } else if begins(text, &['&', '&']) {
        Next::Intersecting
    } else if posix_form(text).is_some() {
        Next::Posix
    } else if begins(text, &['[']) {
        Next::Nested
    } else {
        Next::Plain
    }
}
