//! Brackets of patterns.
use std::alloc::{AllocError, Global};

/// What was gone through of a pattern's text.
#[derive(Clone, Copy)]
struct Scan {
    is_escaped: bool,
    in_class: bool,
    depth: usize,
    /// Whether a bracket closed the first one, and nothing but that was met yet.
    is_closed: bool,
    /// Whether something stands after that.
    goes_on: bool,
}

impl Scan {
    /// After one more character.
    fn after(self, c: char) -> Scan {
        let mut next = self;
        next.goes_on |= self.is_closed;
        if self.is_escaped {
            next.is_escaped = false;
            return next;
        }
        match c {
            '\\' => next.is_escaped = true,
            '[' => next.in_class = true,
            ']' => next.in_class = false,
            '(' if !self.in_class => next.depth = self.depth.saturating_add(1),
            ')' if !self.in_class => {
                next.depth = self.depth.saturating_sub(1);
                next.is_closed |= next.depth == 0;
            }
            _ => {}
        }
        next
    }
}

/// What is known after a text.
fn scanned(text: &str) -> Scan {
    let mut scan = Scan {
        is_escaped: false,
        in_class: false,
        depth: 0,
        is_closed: false,
        goes_on: false,
    };
    for c in text.chars() {
        scan = scan.after(c);
    }
    scan
}

/// Whether the first bracket of a text is closed by its last character.
pub fn is_one_group(text: &str) -> bool {
    let scan = scanned(text);
    scan.is_closed && !scan.goes_on
}

/// What closes the brackets that a text leaves open.
pub fn closers_of(alloc: Global, text: &str) -> Result<String, AllocError> {
    let scan = scanned(text);
    let mut closers = String::new(alloc);
    if scan.in_class {
        closers.push(']')?;
    }
    for _ in 0..scan.depth {
        closers.push(')')?;
    }
    Ok(closers)
}

/// The first bracket of a text with what stands in it, as far as it is closed.
pub fn first_group(text: &str) -> &str {
    let mut scan = scanned("");
    for (place, c) in text.char_indices() {
        scan = scan.after(c);
        if scan.is_closed {
            return text.get(..place.saturating_add(1)).unwrap_or(text);
        }
    }
    text
}
