//! What stands next in a pattern, and loops.
ghost use Rattle.std.specs.Prelude.{◌≡◌, ◌&&◌, ◌==◌, nat_lt, IfSome, MatchOption, chars, is_some, true};
ghost use Rattle.std.specs.Int.{bit_at};
ghost use Rattle.std.specs.Option.{option_map_or};
ghost use Rattle.syntect_pattern.specs.Trees.{Tree};
ghost use Rattle.syntect_pattern.specs.Reading.{begins, first};
ghost use Rattle.syntect_pattern.specs.Grammar.{Names};
ghost use Rattle.syntect_pattern.specs.Grammar as grammar;
ghost use Rattle.syntect_pattern_words.specs.OpeningViews.{place_as};
ghost use Rattle.syntect_pattern_words.specs.BodyViews.{IsOver};
ghost use Rattle.syntect_pattern_words.specs.Plain.{BeginsPlainly, is_firm, is_plain};
ghost use Rattle.syntect_pattern_words.specs.TokenViews.{token_as, looped_tree, repeated};
ghost use Rattle.syntect_pattern_words.specs.QuantifierViews.{quantifier_as};

use crate::openings::Place;
use crate::quantifiers::{Quantifier, is_allowed, pass, read_quantifier};
use crate::text::{after, begins, head, split_first};

/// What stands next, if the group isn't over.
#[derive(Clone, Copy)]
pub enum Token {
    Bar,
    Opener,
    Bracket,
    Backslash,
    Dot,
    Caret,
    Dollar,
    /// A quantifier with nothing that it could repeat.
    Loops,
    Plain(char),
}

/// What begins with the character, and none where the group is over.
#[tactic(auto, unfolding(syntect_pattern::specs::Grammar::next_char))]
fn token_of(text: &str, c: char) -> Option<Token>
    ensures { MatchOption result (IsOver (grammar.next_char (chars text.now) c))
        (λ t. grammar.next_char (chars text.now) c ≡ token_as t) }
{
    match c {
        ')' => None,
        '|' => Some(Token::Bar),
        '(' => Some(Token::Opener),
        '[' => Some(Token::Bracket),
        '\\' => Some(Token::Backslash),
        '.' => Some(Token::Dot),
        '^' => Some(Token::Caret),
        '$' => Some(Token::Dollar),
        c => {
            if is_quantifier(text) {
                Some(Token::Loops)
            } else {
                Some(Token::Plain(c))
            }
        }
    }
}

/// Whether a quantifier stands next.
fn is_quantifier(text: &str) -> bool
    ensures { result ≡ is_some (grammar.quantifier (chars text.now)) }
{
    read_quantifier(text).is_some()
}

/// What stands next, and none where the group is over.
pub fn next_token(text: &str) -> Option<Token>
    ensures { MatchOption result (IsOver (grammar.next_of (chars text.now)))
        (λ t. grammar.next_of (chars text.now) ≡ token_as t) }
{
    match head(text) {
        Some(c) => token_of(text, c),
        None => None,
    }
}

/// How an item is repeated.
#[derive(Clone, Copy)]
pub enum Looping {
    Once,
    Loop {
        greedy: bool,
        possessive: bool,
        least: u32,
        most: Option<u32>,
    },
}

/// Whether a `+` after a quantifier that is no count makes it possessive.
fn gives_nothing_back(short: bool, text: &str) -> bool
    ensures { result ≡ (short && begins "+" (chars text.now)) }
{
    short && begins(text, &['+'])
}

/// The loop of a quantifier, as the sign after it wants it, and what follows.
fn looped(quantifier: Quantifier, text: &str) -> (Looping, &str)
    ensures { (a : Tree) → grammar.loop (quantifier_as quantifier) a (chars text.now)
        ≡ (looped_tree result.0 a, chars result.1.now) }
{
    let Quantifier { least, most, short } = quantifier;
    if begins(text, &['?']) {
        let looping = Looping::Loop {
            greedy: false,
            possessive: false,
            least,
            most,
        };
        return (looping, after(text, 1));
    }
    if gives_nothing_back(short, text) {
        let looping = Looping::Loop {
            greedy: true,
            possessive: true,
            least,
            most,
        };
        return (looping, after(text, 1));
    }
    let looping = Looping::Loop {
        greedy: true,
        possessive: false,
        least,
        most,
    };
    (looping, text)
}

/// How the item before the place is repeated, and what follows.
pub fn read_looping(place: Place<'_>) -> Option<(Looping, Place<'_>)>
    ensures { (names : Names) (a : Tree) → grammar.quantified a (place_as names place.entry)
        ≡ repeated names a result }
{
    let flags = place.flags;
    let Some(text) = pass(flags.spaced, place.text) else {
        return None;
    };
    let Some((quantifier, rest)) = read_quantifier(text) else {
        return Some((Looping::Once, Place { flags, text }));
    };
    if !is_allowed(quantifier) {
        return None;
    }
    let (looping, text) = looped(quantifier, rest);
    Some((looping, Place { flags, text }))
}

/// The letters, digits and signs that mean nothing in a pattern, a bit for each.
const PLAIN: u128 = 0x47ff_fffe_87ff_ffff_7fff_b0e6_0000_0000;

/// With those, what no quantifier and nothing that is passed over begins with.
const FIRM: u128 = 0x57ff_fffe_dfff_ffff_7fff_f2f6_0000_0000;

/// Whether the character's bit is set. One beyond ASCII has none.
#[tactic(auto, using(crate::proofs::PlainLaws::is_bit))]
fn has_bit(bits: u128, c: char) -> bool
    ensures { result ≡ (nat_lt c 128 && (bit_at bits c == 1)) }
{
    c.is_ascii() && (bits >> (c as u32)) & 1 == 1
}

/// Whether it is a letter, a digit, or a sign that means nothing in a pattern.
#[tactic(auto, using(crate::proofs::PlainLaws::plain_bits))]
fn is_plain(c: char) -> bool
    ensures { result ≡ is_plain c }
{
    has_bit(PLAIN, c)
}

/// Whether neither a quantifier stands next nor anything that is passed over, as the first
/// character tells.
#[tactic(auto, using(crate::proofs::PlainLaws::firm_bits))]
fn is_firm(text: &str) -> bool
    ensures { result ≡ option_map_or is_firm (first (chars text.now)) true }
{
    match head(text) {
        Some(c) => has_bit(FIRM, c),
        None => true,
    }
}

/// A character that stands for itself, and what follows it. Most of a pattern is read so, without a
/// look for what is passed over and for quantifiers.
#[inline]
pub fn plain_in(text: &str) -> Option<(char, &str)>
    ensures { IfSome result (λ x. BeginsPlainly (chars text.now) x.0 (chars x.1.now)) }
{
    let (c, rest) = split_first(text)?;
    if is_plain(c) && is_firm(rest) {
        Some((c, rest))
    } else {
        None
    }
}
