//! What a call is refused for.
ghost use Rattle.std.specs.Prelude.{◌≢◌, pos};

/// What a call is refused for.
#[derive(Clone, Copy)]
pub enum Kind {
    /// There was no memory.
    Memory,
    /// The handle holds nothing.
    Empty,
    /// A text isn't UTF-8.
    Text,
    /// A text is no grammar.
    Grammar,
    /// A text is no theme.
    Theme,
    /// A grammar asks for more than the limits let it have.
    Limit,
    /// The grammars are linked: no more are added.
    Linked,
    /// No language has the name.
    Language,
    /// No theme has the name.
    ThemeName,
    /// No format has the number.
    Format,
    /// A line is refused.
    Line,
}

impl Kind {
    /// The number that C gets, which isn't that of a call that was done, 0.
    pub fn number(self) -> i32
        ensures { result ≢ pos 0 }
    {
        match self {
            Kind::Memory => 1,
            Kind::Empty => 2,
            Kind::Text => 3,
            Kind::Grammar => 4,
            Kind::Theme => 5,
            Kind::Limit => 6,
            Kind::Linked => 7,
            Kind::Language => 8,
            Kind::ThemeName => 9,
            Kind::Format => 10,
            Kind::Line => 11,
        }
    }

    /// What it is in words, where nothing more is known.
    pub fn words(self) -> &'static str {
        match self {
            Kind::Memory => "out of memory",
            Kind::Empty => "the handle is empty",
            Kind::Text => "a text is not UTF-8",
            Kind::Grammar => "a text is no grammar",
            Kind::Theme => "a text is no theme",
            Kind::Limit => "a limit is reached",
            Kind::Linked => "the set was read, and takes no more grammars and themes",
            Kind::Language => "no language has the name",
            Kind::ThemeName => "no theme has the name",
            Kind::Format => "no format has the number",
            Kind::Line => "a line is refused",
        }
    }
}
