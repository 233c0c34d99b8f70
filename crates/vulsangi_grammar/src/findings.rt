//! Findings, each with its place.
use crate::place::{Place, Step, place_of};
use crate::rules::{Grade, Rule};
use std::alloc::{AllocError, Global};

/// Something that was found.
#[derive(Drop)]
pub struct Finding {
    pub rule: Rule,
    /// The file.
    pub path: String,
    /// Where in the file it is, if that is known.
    pub place: Option<Place>,
    pub message: String,
    /// The line of the file.
    pub line: String,
}

/// What was found.
#[derive(Drop)]
pub struct Findings {
    pub found: Vec<Finding>,
    /// How many grammars were loaded.
    pub grammars: usize,
    /// How many themes were loaded.
    pub themes: usize,
}

/// A file's text by its lines.
#[derive(Drop)]
pub struct Lines<'t> {
    pub path: &'t str,
    pub lines: Vec<&'t str>,
}

impl<'t> Lines<'t> {
    /// The lines of a text.
    pub fn of(alloc: Global, path: &'t str, text: &'t str) -> Result<Lines<'t>, AllocError> {
        Ok(Lines {
            path,
            lines: text.lines().collect(alloc)?,
        })
    }

    /// The place of a byte of a text that stands at a place or after it in its line; the place itself
    /// where the text doesn't stand there as it is.
    pub fn place_in(&self, place: Place, text: &str, byte: usize) -> Place {
        let line = match self.lines.get(place.line.saturating_sub(1)) {
            Some(line) => *line,
            None => return place,
        };
        let Some((front, _)) = line.split_once(text) else {
            return place;
        };
        let inner = text.get(..byte).unwrap_or("").chars().count();
        Place {
            line: place.line,
            column: front
                .chars()
                .count()
                .saturating_add(inner)
                .saturating_add(1),
        }
    }
}

impl Findings {
    /// Nothing.
    pub fn new(alloc: Global) -> Findings {
        Findings {
            found: Vec::new(alloc),
            grammars: 0,
            themes: 0,
        }
    }

    /// Adds what is found at a place of a text.
    pub fn add_at(
        &mut self,
        rule: Rule,
        lines: &Lines<'_>,
        place: Place,
        message: String,
    ) -> Result<(), AllocError> {
        let alloc = *message.allocator();
        let line = match lines.lines.get(place.line.saturating_sub(1)) {
            Some(line) => String::from_str(alloc, *line)?,
            None => String::new(alloc),
        };
        self.found.push(Finding {
            rule,
            path: String::from_str(alloc, lines.path)?,
            place: Some(place),
            message,
            line,
        })?;
        Ok(())
    }

    /// Adds what is found of a value of a grammar, to which steps lead.
    pub fn add(
        &mut self,
        rule: Rule,
        lines: &Lines<'_>,
        steps: &[Step<'_>],
        message: String,
    ) -> Result<(), AllocError> {
        let place = place_of(lines.lines.as_slice(), steps);
        self.add_at(rule, lines, place, message)
    }

    /// The same of the value at a key of one to which steps lead.
    pub fn add_key(
        &mut self,
        rule: Rule,
        lines: &Lines<'_>,
        steps: &[Step<'_>],
        key: &str,
        message: String,
    ) -> Result<(), AllocError> {
        let mut all: Vec<Step<'_>> = Vec::new(*message.allocator());
        for step in steps {
            all.push(*step)?;
        }
        all.push(Step::Key(key))?;
        self.add(rule, lines, all.as_slice(), message)
    }

    /// Adds what is found of a whole file.
    pub fn add_file(&mut self, rule: Rule, path: &str, message: String) -> Result<(), AllocError> {
        let alloc = *message.allocator();
        self.found.push(Finding {
            rule,
            path: String::from_str(alloc, path)?,
            place: None,
            message,
            line: String::new(alloc),
        })?;
        Ok(())
    }

    /// Whether something is found at a place already.
    pub fn tells(&self, place: Place) -> bool {
        for finding in self.found.as_slice() {
            if finding.place == Some(place) {
                return true;
            }
        }
        false
    }

    /// How many findings are of a grade.
    pub fn count(&self, grade: Grade) -> usize {
        let mut count = 0usize;
        for finding in self.found.as_slice() {
            if finding.rule.grade == grade {
                count = count.saturating_add(1);
            }
        }
        count
    }
}
