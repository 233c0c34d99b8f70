//! The text of lines, in each format.
ghost use Rattle.std.specs.Prelude.{◌≡◌, ◌++◌, IfOk, OnOk, string_bytes};
ghost use Rattle.syntect_assets.specs.Texts.{end_of, front_of, ground_of, line_of};

use crate::below::theme::style::Style;
use crate::below::theme::theme::Theme;
use crate::below::writers::spans::SpanWriter;
use crate::format::{Colors, Format};
use crate::screen::push_screen_text;
use std::alloc::{AllocError, Global};
use syntect_easy::html::{IncludeBackground, start_highlighted_html_snippet};
use syntect_easy::util::push_24_bit_terminal_escaped;

/// What ends a page of HTML.
const CLOSING: &str = "</pre>\n";

/// What puts the terminal's own colours back, after the last line.
const RESET: &str = "\x1b[0m";

/// How lines are written.
#[derive(Drop)]
pub enum Ground {
    /// As spans of HTML.
    Spans(SpanWriter),
    /// For a terminal, with the colours behind the text.
    Terminal,
    /// For a screen.
    Screen(Colors),
}

/// A text while its lines are written.
#[derive(Drop)]
pub(crate) struct TextWriter {
    text: String,
    way: Ground,
}

impl TextWriter {
    /// A text without lines.
    pub(crate) fn new(
        alloc: Global,
        format: Format,
        theme: &Theme,
    ) -> Result<TextWriter, AllocError>
        ensures way { IfOk result (λ w. w.way ≡ ground_of format theme.now) }
        ensures front { IfOk result (λ w. string_bytes w.text ≡ front_of format theme.now) }
    {
        let way = match format {
            Format::Html => {
                let (text, color) = start_highlighted_html_snippet(alloc, theme)?;
                let spans = SpanWriter::new(alloc, IncludeBackground::IfDifferent(color));
                return Ok(TextWriter {
                    text,
                    way: Ground::Spans(spans),
                });
            }
            Format::Terminal => Ground::Terminal,
            Format::Screen(colors) => Ground::Screen(colors),
        };
        Ok(TextWriter {
            text: String::new(alloc),
            way,
        })
    }

    /// Appends a line, in styled pieces.
    pub(crate) fn append(&mut self, pieces: &[(Style, &str)]) -> Result<(), AllocError>
        ensures way { OnOk result (self.new.way ≡ self.old.way) }
        ensures text { OnOk result (string_bytes self.new.text
            ≡ string_bytes self.old.text ++ line_of self.old.way pieces.now) }
    {
        match &mut self.way {
            Ground::Spans(spans) => spans.append(pieces, &mut self.text)?,
            Ground::Terminal => push_24_bit_terminal_escaped(&mut self.text, pieces, true)?,
            Ground::Screen(colors) => push_screen_text(&mut self.text, *colors, pieces)?,
        }
        Ok(())
    }

    /// The text, with what stands after its lines.
    pub(crate) fn whole(self) -> Result<String, AllocError>
        ensures { IfOk result (λ text. string_bytes text
            ≡ string_bytes self.text ++ end_of self.way) }
    {
        let TextWriter { mut text, way } = self;
        match way {
            Ground::Spans(_) => text.push_str(CLOSING)?,
            Ground::Terminal => {
                text.push_str(RESET)?;
                text.push_str("\n")?;
            }
            Ground::Screen(_) => text.push_str(RESET)?,
        }
        Ok(text)
    }
}
