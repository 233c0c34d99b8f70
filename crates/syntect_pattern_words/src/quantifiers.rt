//! Quantifiers, and what is passed over.
ghost use Rattle.std.specs.Prelude.{◌≡◌, chars, option_map};
ghost use Rattle.syntect_pattern.specs.Reading.{pass, between};
ghost use Rattle.syntect_pattern_words.specs.QuantifierViews.{capped_count, capped_all, quantifier_as, passing_as, goes_on, counted};
ghost use Rattle.syntect_pattern.specs.Reading as reading;
ghost use Rattle.syntect_pattern.specs.Grammar as grammar;

use crate::text::{Test, after, begins, head, is_empty, number, run, split_first};

/// The least and the greatest number of turns, and whether it is `*`, `+` or `?` and not a count.
/// Large numbers are cut.
#[derive(Clone, Copy)]
pub struct Quantifier {
    pub least: u32,
    pub most: Option<u32>,
    pub short: bool,
}

/// What is being passed over.
#[derive(Clone, Copy)]
pub enum Passing {
    Between,
    Note,
    Comment,
}

/// What the character begins to be passed over, if anything.
fn passing_at(spaced: bool, c: char, rest: &str) -> Option<Passing>
    ensures { reading.passing_at spaced c (chars rest.now) ≡ option_map passing_as result }
{
    if c == '(' && begins(rest, &['?', '#']) {
        Some(Passing::Note)
    } else if spaced && c.is_whitespace() {
        Some(Passing::Between)
    } else if spaced && c == '#' {
        Some(Passing::Comment)
    } else {
        None
    }
}

/// What is passed over after the character, unless it isn't passed over itself.
fn go_on(spaced: bool, passing: Passing, c: char, rest: &str) -> Option<Passing>
    ensures { goes_on spaced (passing_as passing) c (chars rest.now)
        ≡ option_map passing_as result }
{
    match passing {
        Passing::Note => {
            if c == ')' {
                Some(Passing::Between)
            } else {
                Some(Passing::Note)
            }
        }
        Passing::Comment => {
            if c == '\n' {
                Some(Passing::Between)
            } else {
                Some(Passing::Comment)
            }
        }
        Passing::Between => passing_at(spaced, c, rest),
    }
}

/// The text after white space and comments, where they are passed over, and after notes.
pub fn pass(spaced: bool, text: &str) -> Option<&str>
    ensures { pass spaced between (chars text.now) ≡ option_map (λ rest. chars rest.now) result }
{
    let mut passing = Passing::Between;
    let mut text = text;
    'passes: loop {
        let Some((c, rest)) = split_first(text) else {
            return match passing {
                Passing::Note => None,
                Passing::Comment => Some(text),
                Passing::Between => Some(text),
            };
        };
        let Some(next) = go_on(spaced, passing, c, rest) else {
            return Some(text);
        };
        passing = next;
        text = rest;
    }
}

/// The number that the digits write, if there are any.
fn limit(digits: &str) -> Option<u32>
    ensures { result ≡ option_map capped_count (grammar.limit (chars digits.now)) }
{
    if is_empty(digits) {
        None
    } else {
        Some(number(digits, 10))
    }
}

/// A count in braces.
#[tactic(auto, unfolding(syntect_pattern::specs::Grammar::count))]
fn count(text: &str) -> Option<(Quantifier, &str)>
    ensures { capped_all (grammar.count (chars text.now)) ≡ counted result }
{
    if !begins(text, &['{']) {
        return None;
    }
    let (low, rest) = run(after(text, 1), Test::Decimal);
    let comma = begins(rest, &[',']);
    let (high, end) = run(after(rest, 1), Test::Decimal);
    let close = if comma { end } else { rest };
    if !begins(close, &['}']) || is_empty(low) && (!comma || is_empty(high)) {
        return None;
    }
    let quantifier = Quantifier {
        least: number(low, 10),
        most: limit(if comma { high } else { low }),
        short: false,
    };
    Some((quantifier, after(close, 1)))
}

/// A quantifier of one sign.
fn sign(least: u32, most: Option<u32>, text: &str) -> Option<(Quantifier, &str)>
    ensures { counted result ≡ grammar.sign least most (chars text.now) }
{
    let quantifier = Quantifier {
        least,
        most,
        short: true,
    };
    Some((quantifier, after(text, 1)))
}

/// The quantifier at the front, if there is one.
pub fn read_quantifier(text: &str) -> Option<(Quantifier, &str)>
    ensures { capped_all (grammar.quantifier (chars text.now)) ≡ counted result }
{
    let c = head(text)?;
    if c == '*' {
        sign(0, None, text)
    } else if c == '+' {
        sign(1, None, text)
    } else if c == '?' {
        sign(0, Some(1), text)
    } else if c == '{' {
        count(text)
    } else {
        None
    }
}

/// Whether the counts go up to 1000, and the least is not above the most.
pub fn is_allowed(quantifier: Quantifier) -> bool
    ensures { result ≡ grammar.is_allowed quantifier.least quantifier.most }
{
    match quantifier.most {
        Some(most) => quantifier.least <= most && most <= 1000,
        None => quantifier.least <= 1000,
    }
}
