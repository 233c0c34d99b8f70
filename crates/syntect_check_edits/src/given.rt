//! Buffers that edits are tried on, and edits.
use crate::below::easy::highlighting::{Theme, ThemeSet};
use crate::below::easy::parsing::{ScopeRepository, SyntaxDefinition, SyntaxSet, SyntaxSetBuilder};
use std::alloc::{AllocError, Global};
use syntect_buffer::buffer::LineBuffer;

/// An edit at a line, with the text of that line.
#[derive(Clone, Copy)]
pub enum Edit<'t> {
    Insert(usize, &'t str),
    Set(usize, &'t str),
    Remove(usize),
}

/// Does an edit, if there is such a line, and answers how many lines were read again.
pub fn apply(
    alloc: Global,
    buffer: &mut LineBuffer<'_>,
    edit: Edit<'_>,
) -> Result<usize, AllocError> {
    let count = buffer.len();
    match edit {
        Edit::Insert(place, text) if place <= count => {
            let line = String::from_str(alloc, text)?;
            buffer.insert_line(alloc, place, line)
        }
        Edit::Set(place, text) if place < count => {
            let line = String::from_str(alloc, text)?;
            buffer.set_line(alloc, place, line)
        }
        Edit::Remove(place) if place < count => buffer.remove_line(alloc, place),
        _ => Ok(0),
    }
}

/// A theme that shows strings in a colour of their own.
const THEME: &str =
    r##"{"settings":[{"settings":{}},{"scope":"string","settings":{"foreground":"#010203"}}]}"##;

/// The set of a grammar, for lines with their newlines or without.
fn set_of(
    alloc: Global,
    grammar: &str,
    newlines: bool,
    repository: &mut ScopeRepository,
) -> Option<SyntaxSet> {
    let loaded = SyntaxDefinition::load_from_str(alloc, grammar, newlines, None, repository);
    let definition = loaded.ok()?;
    let mut builder = SyntaxSetBuilder::new(alloc);
    builder.add(definition).ok()?;
    builder.build(alloc, repository).ok()
}

/// The set of a grammar, for lines with their newlines or without, and the theme.
pub fn set_and_theme(alloc: Global, grammar: &str, newlines: bool) -> Option<(SyntaxSet, Theme)> {
    let mut repository = ScopeRepository::new(alloc);
    let set = set_of(alloc, grammar, newlines, &mut repository)?;
    let mut bytes = THEME.as_bytes();
    let theme = ThemeSet::load_from_reader(alloc, &mut bytes, &mut repository).ok()?;
    Some((set, theme))
}

/// A buffer over a set's first syntax.
pub fn buffer_of<'a>(
    alloc: Global,
    set: &'a SyntaxSet,
    theme: &'a Theme,
) -> Option<LineBuffer<'a>> {
    let syntax = set.syntaxes().first()?;
    LineBuffer::new(alloc, syntax, set, theme).ok()
}
