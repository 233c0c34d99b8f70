//! The parts of a row's file.
//!
//! Its first line has the row's label, a colon, and what the row is about. Each part begins with a
//! line of `%%` and its heading, and its text goes up to the next one,
//! without the newline before that.
use std::alloc::Global;

/// A part of a row's file.
#[derive(Clone, Copy)]
pub struct Part<'a> {
    pub heading: &'a str,
    pub body: &'a str,
}

/// The parts of a text, in their order.
pub fn parts_of<'a>(alloc: Global, text: &'a str) -> Option<Vec<Part<'a>>> {
    let text = text.strip_suffix('\n').unwrap_or(text);
    let mut parts = Vec::new(alloc);
    for chunk in text.split("\n%% ").skip(1) {
        let (heading, body) = chunk.split_once('\n').unwrap_or((chunk, ""));
        parts.push(Part { heading, body }).ok()?;
    }
    Some(parts)
}

/// The label of a row's file.
pub fn label_of(text: &str) -> &str {
    match text.split_once(':') {
        Some((label, _)) => label,
        None => text,
    }
}

/// What stands below a heading; none without that part.
pub fn body_of<'a>(parts: &[Part<'a>], heading: &str) -> Option<&'a str> {
    for part in parts {
        if part.heading == heading {
            return Some(part.body);
        }
    }
    None
}
