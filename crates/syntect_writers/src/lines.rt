//! Lines with their newlines.
ghost use Rattle.std.specs.Prelude.{◌≡◌, length};
ghost use Rattle.std.specs.Iterator.{at_most};
ghost use Rattle.syntect_writers.specs.Lines.{GivesLine, text_left};

use crate::text::split_line;

/// The lines of a text, each with the newline that ends it.
///
/// They join to the text, and none is empty; all but the last end with a newline, and it stands
/// nowhere else in them.
#[derive(Clone, Copy, Debug)]
pub struct LinesWithEndings<'a> {
    input: &'a str,
}

impl<'a> LinesWithEndings<'a> {
    /// The lines of this text. Takes no memory.
    pub fn from(input: &'a str) -> LinesWithEndings<'a>
        ensures { text_left result ≡ input.now }
    {
        LinesWithEndings { input }
    }
}

impl<'a> Iterator for LinesWithEndings<'a> {
    type Item = &'a str;

    ghost next_gives = { GivesLine };

    ghost remaining = { λ s. at_most (length (text_left s)) };

    fn next(&mut self) -> Option<&'a str> {
        let input = self.input;
        if input.is_empty() {
            return None;
        }
        let (line, rest) = split_line(input);
        self.input = rest;
        Some(line)
    }
}
