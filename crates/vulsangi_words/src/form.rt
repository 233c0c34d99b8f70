//! What a text is shown as.
use crate::words::{Asked, Color, Made};
use std::env;
use std::rt::Env;
use syntect::assets::Colors;

/// What a text is shown as.
#[derive(Clone, Copy, Debug, PartialEq, Eq)]
pub enum Form {
    /// The text as it is.
    Plain,
    /// For a terminal.
    Screen(Colors),
    /// HTML with inline styles.
    Html,
    /// HTML with classes.
    Classes,
    /// LaTeX.
    Latex,
    /// A style sheet, of no text.
    Sheet,
}

impl Form {
    /// Whether the parts are put into a document.
    pub fn has_document(self) -> bool {
        matches!(self, Form::Html | Form::Classes | Form::Latex)
    }
}

/// The colours of the terminal.
fn colors_of(rt: &(impl Env + AllocGlobal)) -> Colors {
    match env::var(rt, "COLORTERM") {
        Ok(told) if told.as_str() == "truecolor" || told.as_str() == "24bit" => Colors::Bits24,
        _ => Colors::Palette256,
    }
}

/// Whether `NO_COLOR` is set and not empty.
fn wants_no_color(rt: &(impl Env + AllocGlobal)) -> bool {
    match env::var(rt, "NO_COLOR") {
        Ok(told) => !told.as_str().is_empty(),
        Err(_) => false,
    }
}

/// Whether text is shown in colour, by where it goes to and by `NO_COLOR`.
pub fn shows_colour(rt: &(impl Env + AllocGlobal), to_terminal: bool) -> bool {
    to_terminal && !wants_no_color(rt)
}

/// What a terminal's text is shown as.
fn screen_of(rt: &(impl Env + AllocGlobal), color: Color, to_terminal: bool) -> Form {
    let in_colour = match color {
        Color::Always => true,
        Color::Never => false,
        Color::Auto => shows_colour(rt, to_terminal),
    };
    if in_colour {
        Form::Screen(colors_of(rt))
    } else {
        Form::Plain
    }
}

/// What a text is shown as.
pub fn form_of(rt: &(impl Env + AllocGlobal), asked: &Asked<'_, '_>, to_terminal: bool) -> Form {
    match asked.made {
        Made::Terminal => screen_of(rt, asked.color, to_terminal),
        Made::Html => Form::Html,
        Made::Classes => Form::Classes,
        Made::Sheet => Form::Sheet,
        Made::Latex => Form::Latex,
    }
}
