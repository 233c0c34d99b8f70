//! Colours, flags and ways of underlining, read from texts.
ghost use Rattle.std.specs.Prelude.{◌≡◌, ◌<◌, IfOk, IfSome, IfErr, Ok};
ghost use Rattle.std.specs.Option.{ok_or, option_map};
ghost use Rattle.syntect_theme.specs.Modifying.{bits_of};
ghost use Rattle.syntect_theme.specs.Texts.{underline_of, hex_value, byte_value, color_from, color_of_digits, color_of, word_bits, flags_of_text};
ghost use Rattle.syntect_theme.specs.Refusals.{Refuses};

use crate::style::{Color, FontStyle};
use crate::syntect_scope::repository::words_of;
use crate::syntect_values::text::Text;
use crate::theme::UnderlineOption;
use std::alloc::{AllocError, Global};
use syntect_base::theme::ParseThemeError;

impl UnderlineOption {
    /// The way of underlining that a text names: `underline`, `stippled_underline` or
    /// `squiggly_underline`. Any other text is `IncorrectUnderlineOption`.
    pub fn from_text(s: &str) -> Result<UnderlineOption, ParseThemeError>
        ensures { result ≡ ok_or (underline_of s.now) ParseThemeError.IncorrectUnderlineOption }
    {
        match s {
            "underline" => Ok(UnderlineOption::Underline),
            "stippled_underline" => Ok(UnderlineOption::StippledUnderline),
            "squiggly_underline" => Ok(UnderlineOption::SquigglyUnderline),
            _ => Err(ParseThemeError::IncorrectUnderlineOption),
        }
    }
}

/// The value of a hexadecimal digit.
fn hex(digit: u8) -> Option<u8>
    ensures value { result ≡ hex_value digit }
    ensures small { IfSome result (λ v. v < 16) }
{
    match digit {
        b'0'..=b'9' => Some(digit - b'0'),
        b'a'..=b'f' => Some(digit - b'a' + 10),
        b'A'..=b'F' => Some(digit - b'A' + 10),
        _ => None,
    }
}

/// The number of two hexadecimal digits.
fn byte(high: u8, low: u8) -> Option<u8>
    ensures { result ≡ byte_value high low }
{
    match (hex(high), hex(low)) {
        (Some(high), Some(low)) => Some(high * 16 + low),
        _ => None,
    }
}

/// The colour of these parts, if each is there.
fn color(r: Option<u8>, g: Option<u8>, b: Option<u8>, a: Option<u8>) -> Option<Color>
    ensures { result ≡ color_from r g b a }
{
    match (r, g, b, a) {
        (Some(r), Some(g), Some(b), Some(a)) => Some(Color { r, g, b, a }),
        _ => None,
    }
}

/// The colour of the digits after the number sign.
fn color_from_digits(digits: &[u8]) -> Option<Color>
    ensures { result ≡ color_of_digits digits.now }
{
    match *digits {
        [r, g, b] => color(hex(r), hex(g), hex(b), Some(255)),
        [r, s, g, h, b, c] => color(byte(r, s), byte(g, h), byte(b, c), Some(255)),
        [r, s, g, h, b, c, a, d] => color(byte(r, s), byte(g, h), byte(b, c), byte(a, d)),
        _ => None,
    }
}

impl Color {
    /// The colour of a number sign and three, six or eight hexadecimal digits: one digit is the
    /// whole part, from 0 to 15, two are the part from 0 to 255. Without the fourth part it is
    /// opaque. Any other text is `IncorrectColor`.
    pub fn from_text(s: &str) -> Result<Color, ParseThemeError>
        ensures { result ≡ ok_or (color_of s.now) ParseThemeError.IncorrectColor }
    {
        let color = match s.as_bytes().split_first() {
            Some((mark, digits)) => if *mark == b'#' {
                color_from_digits(digits)
            } else {
                None
            },
            None => None,
        };
        color.ok_or(ParseThemeError::IncorrectColor)
    }
}

/// The flags that a word stands for.
fn flags_of(word: &str) -> Option<FontStyle>
    ensures { option_map bits_of result ≡ word_bits word.now }
{
    match word {
        "bold" => Some(FontStyle::BOLD),
        "underline" => Some(FontStyle::UNDERLINE),
        "italic" => Some(FontStyle::ITALIC),
        "normal" | "regular" => Some(FontStyle::empty()),
        _ => None,
    }
}

impl FontStyle {
    /// The flags of the words `bold`, `underline` and `italic`, separated by white space; `normal`
    /// and `regular` stand for no flag. The first word that is none
    /// of these is `IncorrectFontStyle`.
    pub fn from_text(alloc: Global, s: &str) -> Result<FontStyle, ParseThemeError>
        ensures ok { IfOk result (λ flags. flags_of_text s.now ≡ Ok flags) }
        ensures err { IfErr result (Refuses (flags_of_text s.now)) }
    {
        let mut all = FontStyle::empty();
        for word in &words_of(alloc, s)? {
            match flags_of(word) {
                Some(flags) => all.insert(flags),
                None => return Err(ParseThemeError::IncorrectFontStyle(Text::from_str(
                    alloc, word,
                )?)),
            }
        }
        Ok(all)
    }
}
