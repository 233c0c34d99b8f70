//! Lines that words name by their numbers.
ghost use Rattle.std.specs.Prelude.{◌↔◌, ◌≤◌, IsTrue};

/// Lines in a row, by their numbers from 1.
#[derive(Clone, Copy, Debug, PartialEq, Eq)]
pub struct LineRange {
    /// The number of the first.
    pub first: u64,
    /// The number of the last.
    pub last: u64,
}

/// Some of a text's lines.
#[derive(Debug, Drop)]
pub struct Lines {
    /// The ranges that name them.
    pub ranges: Vec<LineRange>,
}

/// The number of a line. 0 is none.
fn number_of(text: &str) -> Option<u64> {
    match text.parse::<u64>() {
        Ok(number) if number > 0 => Some(number),
        _ => None,
    }
}

/// The number of the last line, of which `+6` means the one six after the first.
fn last_of(first: u64, text: &str) -> Option<u64> {
    if text.is_empty() {
        return Some(u64::MAX);
    }
    match text.strip_prefix('+') {
        Some(more) => Some(first.saturating_add(more.parse::<u64>().ok()?)),
        None => number_of(text),
    }
}

impl LineRange {
    /// The lines of `3:9`, `3:`, `:9`, `3:+6` or `3`.
    pub fn parse(text: &str) -> Option<LineRange> {
        let Some((first, last)) = text.split_once(':') else {
            let only = number_of(text)?;
            return Some(LineRange {
                first: only,
                last: only,
            });
        };
        if first.is_empty() && last.is_empty() {
            return None;
        }
        let first = if first.is_empty() {
            1
        } else {
            number_of(first)?
        };
        let last = last_of(first, last)?;
        if last < first {
            return None;
        }
        Some(LineRange { first, last })
    }

    /// Whether a line is among these.
    pub fn contains(self, line: u64) -> bool
        ensures { IsTrue result ↔ (self.first ≤ line) × (line ≤ self.last) }
    {
        self.first <= line && line <= self.last
    }
}

impl Lines {
    /// Whether these are none.
    pub fn is_empty(&self) -> bool {
        self.ranges.is_empty()
    }

    /// Whether a line is among these.
    pub fn contains(&self, line: u64) -> bool {
        self.ranges.iter().any(|range| range.contains(line))
    }

    /// The number of the last of these, or 0.
    pub fn last(&self) -> u64 {
        self.ranges
            .iter()
            .map(|range| range.last)
            .max()
            .unwrap_or(0)
    }
}
