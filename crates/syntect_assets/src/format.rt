//! What texts are shown as.

/// The colours of a screen.
#[derive(Clone, Copy, Debug, PartialEq, Eq)]
pub enum Colors {
    /// Each colour as it is.
    Bits24,
    /// The nearest of a palette of 256, as terminals have it: a cube of 216 colours and 24 grays.
    Palette256,
}

/// What a text is shown as.
#[derive(Clone, Copy, Debug, PartialEq, Eq)]
pub enum Format {
    /// A page of HTML with inline styles, in a `pre`.
    Html,
    /// Text with the escape sequences of a terminal of 24 bit colours, those behind the text too,
    /// as Rust's crate writes them; a newline comes after it.
    Terminal,
    /// Text for a screen, which keeps its own colours behind it: in colours, bold, italic and
    /// underlined.
    Screen(Colors),
}
