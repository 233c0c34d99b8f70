//! JSON with comments and commas before closing brackets, as editors have it.
use std::alloc::{AllocError, Global};

/// Where a character stands.
#[derive(Clone, Copy)]
enum Place {
    /// Between texts.
    Between,
    /// In a text.
    Text,
    /// In a text, after a backslash.
    Escape,
    /// After a slash that may begin a comment.
    Slash,
    /// In a comment up to the line's end.
    Line,
    /// In a comment up to a star and a slash.
    Block,
    /// In such a comment, after a star.
    Star,
}

/// A text of JSON while it is written.
#[derive(Drop)]
struct Writer {
    out: String,
    /// Whether a comma is written where no bracket closes next.
    comma: bool,
}

impl Writer {
    /// Appends a character that stands between texts, and answers where the next one stands.
    fn push_between(&mut self, c: char) -> Result<Place, AllocError> {
        if c.is_whitespace() {
            self.out.push(c)?;
            return Ok(Place::Between);
        }
        if c == '/' {
            return Ok(Place::Slash);
        }
        if self.comma && c != '}' && c != ']' {
            self.out.push(',')?;
        }
        self.comma = c == ',';
        if c != ',' {
            self.out.push(c)?;
        }
        Ok(if c == '"' {
            Place::Text
        } else {
            Place::Between
        })
    }

    /// Appends a character of a text, and answers where the next one stands.
    fn push_in_text(&mut self, c: char) -> Result<Place, AllocError> {
        self.out.push(c)?;
        Ok(match c {
            '\\' => Place::Escape,
            '"' => Place::Between,
            _ => Place::Text,
        })
    }

    /// Appends a character, and answers where the next one stands.
    fn push(&mut self, place: Place, c: char) -> Result<Place, AllocError> {
        match (place, c) {
            (Place::Between, c) => self.push_between(c),
            (Place::Text, c) => self.push_in_text(c),
            (Place::Escape, c) => {
                self.out.push(c)?;
                Ok(Place::Text)
            }
            (Place::Slash, '/') => Ok(Place::Line),
            (Place::Slash, '*') => Ok(Place::Block),
            (Place::Slash, c) => {
                self.out.push('/')?;
                self.push_between(c)
            }
            (Place::Line | Place::Block | Place::Star, '\n') => {
                self.out.push('\n')?;
                Ok(match place {
                    Place::Line => Place::Between,
                    _ => Place::Block,
                })
            }
            (Place::Line, _) => Ok(Place::Line),
            (Place::Star, '/') => Ok(Place::Between),
            (Place::Block | Place::Star, '*') => Ok(Place::Star),
            (Place::Block | Place::Star, _) => Ok(Place::Block),
        }
    }
}

/// The JSON that such a text means, with the same lines.
pub fn json_of(alloc: Global, text: &str) -> Result<String, AllocError> {
    let mut writer = Writer {
        out: String::new(alloc),
        comma: false,
    };
    let mut place = Place::Between;
    for c in text.trim_start_matches('\u{feff}').chars() {
        place = writer.push(place, c)?;
    }
    Ok(writer.out)
}
