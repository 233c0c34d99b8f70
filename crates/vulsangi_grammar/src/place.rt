//! Where a value of a grammar stands in its text.
//!
//! The reader of YAML keeps no places. So the lines are gone through once more for a value that
//! something is told of, by the indentation of keys and items. Of what is written in one line, as
//! `{match: x}`, the place is that of the line's first key.

/// A step from a value to one in it.
#[derive(Clone, Copy)]
pub enum Step<'y> {
    /// To the value at a key.
    Key(&'y str),
    /// To an item of a list, counted from 0.
    Item(usize),
}

/// A place in a text: its line, and its character in the line, from 1.
#[derive(Clone, Copy, Debug, PartialEq, Eq, PartialOrd, Ord)]
pub struct Place {
    pub line: usize,
    pub column: usize,
}

/// Where a value begins: its line, from 0, and the byte in it.
#[derive(Clone, Copy)]
struct Spot {
    line: usize,
    from: usize,
}

/// How many spaces a line begins with.
fn indent_of(line: &str) -> usize {
    line.len()
        .saturating_sub(line.trim_start_matches(' ').len())
}

/// Whether a line has nothing but a comment.
fn is_bare(line: &str) -> bool {
    let text = line.trim_start();
    text.is_empty() || text.starts_with('#')
}

/// What stands in a line from a byte on.
fn rest_of(line: &str, from: usize) -> &str {
    line.get(from..).unwrap_or("")
}

/// Whether a text begins with a key and the colon after it.
fn begins_with_key(text: &str, key: &str) -> bool {
    let text = text.trim_start_matches(['"', '\'']);
    let Some(rest) = text.strip_prefix(key) else {
        return false;
    };
    rest.trim_start_matches(['"', '\'', ' ']).starts_with(':')
}

/// The key of a map that begins at a spot.
fn find_key(lines: &[&str], block: Spot, key: &str) -> Option<Spot> {
    for line in block.line..lines.len() {
        let text = lines[line];
        if line != block.line && is_bare(text) {
            continue;
        }
        let from = if line == block.line {
            block.from
        } else {
            indent_of(text)
        };
        if from < block.from {
            return None;
        }
        if from == block.from && begins_with_key(rest_of(text, from), key) {
            return Some(Spot { line, from });
        }
    }
    None
}

/// The item of a list that begins at a spot.
fn find_item(lines: &[&str], block: Spot, number: usize) -> Option<Spot> {
    let mut left = number;
    for line in block.line..lines.len() {
        let text = lines[line];
        if line != block.line && is_bare(text) {
            continue;
        }
        let from = if line == block.line {
            block.from
        } else {
            indent_of(text)
        };
        if from > block.from {
            continue;
        }
        let rest = rest_of(text, from).strip_prefix('-')?;
        if from < block.from {
            return None;
        }
        if left == 0 {
            let from = from.saturating_add(1).saturating_add(indent_of(rest));
            return Some(Spot { line, from });
        }
        left = left.saturating_sub(1);
    }
    None
}

/// The first line from one on that has more than a comment, and isn't a mark of YAML.
fn visible_from(lines: &[&str], first: usize) -> Option<Spot> {
    for line in first..lines.len() {
        let text = lines[line];
        if !is_bare(text) && !text.starts_with('%') && !text.starts_with("---") {
            let from = indent_of(text);
            return Some(Spot { line, from });
        }
    }
    None
}

/// Where the value at a key begins, if it stands in lines of its own: deeper than the key, or as deep
/// where it is a list.
fn below(lines: &[&str], key: Spot) -> Option<Spot> {
    let block = visible_from(lines, key.line.saturating_add(1))?;
    let text = lines.get(block.line).copied().unwrap_or("");
    let is_list = rest_of(text, block.from).starts_with('-');
    if block.from > key.from || (is_list && block.from == key.from) {
        Some(block)
    } else {
        None
    }
}

/// Where a value stands, to which steps lead; the last place on the way that is found.
pub fn place_of(lines: &[&str], steps: &[Step<'_>]) -> Place {
    let mut best = Spot { line: 0, from: 0 };
    let mut block = visible_from(lines, 0);
    for step in steps {
        let Some(begin) = block else {
            break;
        };
        let found = match step {
            Step::Key(key) => find_key(lines, begin, *key),
            Step::Item(number) => find_item(lines, begin, *number),
        };
        let Some(found) = found else {
            break;
        };
        best = found;
        block = match step {
            Step::Key(_) => below(lines, found),
            Step::Item(_) => Some(found),
        };
    }
    Place {
        line: best.line.saturating_add(1),
        column: best.from.saturating_add(1),
    }
}
