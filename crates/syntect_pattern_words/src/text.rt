//! The characters of a pattern that are still to read, looked at from the front.
ghost use Rattle.std.specs.Prelude.{◌≡◌, ◌≤◌, ◌<◌, ◌++◌, [], length, take, drop, nat_eq, min, chars, MatchOption};
ghost use Rattle.std.specs.List.{starts_with};
ghost use lib.Pointwise.{pointwise};
ghost use Rattle.syntect_pattern.specs.Reading.{run, first, value, is_empty};
ghost use Rattle.std.specs.Char.{digit_value};
ghost use Rattle.syntect_pattern_words.specs.Views.{passes};
ghost use Rattle.syntect_pattern_words.specs.TextViews.{IsRest, BeginsWith};

/// What the characters of a run have in common.
#[derive(Clone, Copy)]
pub enum Test {
    Decimal,
    Hexadecimal,
    Letter,
    /// A character of a group's name.
    Name,
    /// A letter of a flag.
    Flag,
    /// Any character but a closing brace.
    NoBrace,
}

impl Test {
    /// Whether the character passes the test.
    pub fn passes(self, c: char) -> bool
        ensures { result ≡ passes self c }
    {
        match self {
            Test::Decimal => c.is_ascii_digit(),
            Test::Hexadecimal => c.is_digit(16),
            Test::Letter => c.is_ascii_alphabetic(),
            Test::Name => c == '_' || c.is_ascii_alphanumeric(),
            Test::Flag => c == 'i' || c == 'm' || c == 'x',
            Test::NoBrace => c != '}',
        }
    }
}

/// The first character, and what follows it.
#[inline(always)]
pub fn split_first(text: &str) -> Option<(char, &str)>
    ensures { MatchOption result (chars text.now ≡ []) (λ x. BeginsWith text.now x.0 x.1.now) }
{
    let mut letters = text.chars();
    let c = letters.next()?;
    Some((c, letters.as_str()))
}

/// The first character.
#[inline(always)]
pub fn head(text: &str) -> Option<char>
    ensures { result ≡ first (chars text.now) }
{
    text.chars().next()
}

/// Whether nothing is left.
#[inline(always)]
pub fn is_empty(text: &str) -> bool
    ensures { result ≡ is_empty (chars text.now) }
{
    match split_first(text) {
        Some(_) => false,
        None => true,
    }
}

/// How many characters there are.
pub fn count_of(text: &str) -> usize
    ensures { result ≡ length (chars text.now) }
{
    text.chars().count()
}

/// What follows the first characters, as a rest of the text.
#[inline(always)]
fn behind(text: &str, count: usize) -> &str
    ensures rest { IsRest text.now result.now }
    ensures value { chars result.now ≡ drop count (chars text.now) }
{
    let mut rest = text;
    let mut left = count;
    'letters: while left > 0 {
        let Some((_, more)) = split_first(rest) else {
            return rest;
        };
        rest = more;
        left -= 1;
    }
    rest
}

/// What follows the first characters.
#[inline(always)]
pub fn after(text: &str, count: usize) -> &str
    ensures { chars result.now ≡ drop count (chars text.now) }
{
    behind(text, count)
}

/// What stands before a rest of the text.
fn until<'a>(text: &'a str, rest: &str) -> &'a str
    requires { IsRest text.now rest.now }
    ensures { chars text.now ≡ chars result.now ++ chars rest.now }
{
    text.split_at(text.len() - rest.len()).0
}

/// The first characters.
pub fn before(text: &str, count: usize) -> &str
    ensures { chars result.now ≡ take count (chars text.now) }
{
    until(text, behind(text, count))
}

/// Whether the text begins with these characters.
#[inline(always)]
pub fn begins(text: &str, wanted: &[char]) -> bool
    ensures value { result ≡ starts_with nat_eq (chars text.now) wanted.now }
{
    let mut rest = text;
    for letter in wanted {
        let Some((c, more)) = split_first(rest) else {
            return false;
        };
        if c != *letter {
            return false;
        }
        rest = more;
    }
    true
}

/// Whether the text is these characters.
pub fn equals(letters: &[char], text: &str) -> bool
    ensures { result ≡ pointwise nat_eq letters.now (chars text.now) }
{
    begins(text, letters) && count_of(text) == letters.len()
}

/// Whether the text is the word, which is ASCII.
pub fn spells(text: &str, word: &str) -> bool
    ensures { result ≡ pointwise nat_eq (chars text.now) word.now }
{
    let mut rest = text;
    for letter in word.as_bytes() {
        let Some((c, more)) = split_first(rest) else {
            return false;
        };
        if c as u32 != u32::from(*letter) {
            return false;
        }
        rest = more;
    }
    is_empty(rest)
}

/// What comes after the characters at the front that pass the test.
fn behind_run(text: &str, test: Test) -> &str
    ensures rest { IsRest text.now result.now }
    ensures value { (run (passes test) (chars text.now)).1 ≡ chars result.now }
{
    let mut rest = text;
    'letters: loop {
        let Some((c, more)) = split_first(rest) else {
            return rest;
        };
        if !test.passes(c) {
            return rest;
        }
        rest = more;
    }
}

/// The characters at the front that pass the test, and what follows them.
pub fn run(text: &str, test: Test) -> (&str, &str)
    ensures { run (passes test) (chars text.now) ≡ (chars result.0.now, chars result.1.now) }
{
    let rest = behind_run(text, test);
    (until(text, rest), rest)
}

/// More than any character's number.
pub const LIMIT: u32 = 0x11_0000;

/// The number that the digits write, or the limit where it is greater.
pub fn number(digits: &str, radix: u32) -> u32
    requires low { 0 < radix }
    requires high { radix ≤ 16 }
    ensures { result ≡ min (value radix (chars digits.now)) LIMIT }
{
    let mut number = 0;
    for c in digits.chars() {
        number = (number * radix + digit_value(c)).min(LIMIT);
    }
    number
}

/// The value of a digit or a letter, and 36 for any other character.
fn digit_value(c: char) -> u32
    ensures value { result ≡ digit_value c }
    ensures small { result ≤ 36 }
{
    c.to_digit(36).unwrap_or(36)
}
