//! Colours, flags of fonts, and styles.
ghost use Rattle.std.specs.Prelude.{◌≡◌, ◌↔◌, IsTrue, bit_and, bit_or};
ghost use Rattle.syntect_theme.specs.Modifying.{bits_of, no_flags, plain_style, restyled, merged};

/// A colour: red, green, blue, and how opaque it is.
#[derive(Clone, Copy, PartialEq, Eq, Hash)]
pub struct Color {
    /// Red.
    pub r: u8,
    /// Green.
    pub g: u8,
    /// Blue.
    pub b: u8,
    /// How opaque it is: 0 is transparent, 255 opaque.
    pub a: u8,
}

impl Color {
    /// Opaque black.
    pub const BLACK: Color = Color {
        r: 0,
        g: 0,
        b: 0,
        a: 255,
    };

    /// Opaque white.
    pub const WHITE: Color = Color {
        r: 255,
        g: 255,
        b: 255,
        a: 255,
    };
}

/// Flags of a font, a bit each: bold is 1, underline 2 and italic 4.
#[derive(Clone, Copy, PartialEq, Eq, PartialOrd, Ord, Hash)]
pub struct FontStyle {
    bits: u8,
}

impl FontStyle {
    /// Bold.
    pub const BOLD: FontStyle = FontStyle { bits: 1 };

    /// Underlined.
    pub const UNDERLINE: FontStyle = FontStyle { bits: 2 };

    /// Italic.
    pub const ITALIC: FontStyle = FontStyle { bits: 4 };

    /// No flags.
    pub const fn empty() -> FontStyle
        ensures { result ≡ no_flags }
    {
        FontStyle { bits: 0 }
    }

    /// These bits, also those that are no flag's.
    pub const fn from_bits_unchecked(bits: u8) -> FontStyle
        ensures { bits_of result ≡ bits }
    {
        FontStyle { bits }
    }

    /// The bits of the flags.
    pub const fn bits(&self) -> u8
        ensures { result ≡ bits_of self.now }
    {
        self.bits
    }

    /// Whether each flag of the other is among these.
    pub const fn contains(&self, other: FontStyle) -> bool
        ensures { IsTrue result ↔ (bit_and (bits_of self.now) (bits_of other) ≡ bits_of other) }
    {
        self.bits & other.bits == other.bits
    }

    /// Adds the flags of the other.
    pub fn insert(&mut self, other: FontStyle)
        ensures { bits_of self.new ≡ bit_or (bits_of self.old) (bits_of other) }
    {
        self.bits |= other.bits;
    }
}

impl Default for FontStyle {
    ghost is_default = { λ f. f ≡ no_flags };

    fn default() -> FontStyle {
        FontStyle::empty()
    }
}

/// How a stretch of text is shown.
#[derive(Clone, Copy, Debug, PartialEq, Eq, Hash)]
pub struct Style {
    /// The colour of the text.
    pub foreground: Color,
    /// The colour behind the text.
    pub background: Color,
    /// The flags of its font.
    pub font_style: FontStyle,
}

impl Style {
    /// This style with the attributes that the modifier sets.
    pub fn apply(&self, modifier: StyleModifier) -> Style
        ensures { result ≡ restyled modifier self.now }
    {
        Style {
            foreground: modifier.foreground.unwrap_or(self.foreground),
            background: modifier.background.unwrap_or(self.background),
            font_style: modifier.font_style.unwrap_or(self.font_style),
        }
    }
}

/// Black on white, without flags.
impl Default for Style {
    ghost is_default = { λ s. s ≡ plain_style };

    fn default() -> Style {
        Style {
            foreground: Color::BLACK,
            background: Color::WHITE,
            font_style: FontStyle::empty(),
        }
    }
}

/// A change of a style. An attribute that is `None` stays as it was.
#[derive(Clone, Copy, Debug, Default, PartialEq, Eq)]
pub struct StyleModifier {
    /// The colour of the text.
    pub foreground: Option<Color>,
    /// The colour behind the text.
    pub background: Option<Color>,
    /// The flags of its font.
    pub font_style: Option<FontStyle>,
}

impl StyleModifier {
    /// The change that makes this one and then the other.
    pub fn apply(&self, other: StyleModifier) -> StyleModifier
        ensures { result ≡ merged other self.now }
    {
        StyleModifier {
            foreground: other.foreground.or(self.foreground),
            background: other.background.or(self.background),
            font_style: other.font_style.or(self.font_style),
        }
    }
}
