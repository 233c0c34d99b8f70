//! Many edits that look random, each hundredth compared.
use crate::below::easy::highlighting::Theme;
use crate::below::easy::parsing::{SyntaxReference, SyntaxSet};
use crate::below::easy::util::LinesWithEndings;
use crate::fresh::differences;
use crate::random::Random;
use crate::text::{Text, edit, insert};
use std::alloc::Global;
use syntect_buffer::buffer::LineBuffer;

/// After so many edits the buffer is compared with a new highlighter.
const STRIDE: u32 = 100;

/// What was seen.
#[derive(Clone, Copy)]
pub struct Seen {
    pub edits: u32,
    /// How often the buffer was compared.
    pub compared: u32,
    /// How many lines differed then, all comparisons together.
    pub different: usize,
    /// How many lines were read again by the edits.
    pub read: usize,
    /// How many lines there are at the end.
    pub lines: usize,
}

/// A text of these lines.
pub fn text_of<'a>(
    alloc: Global,
    lines: &[&str],
    syntax: &'a SyntaxReference,
    set: &'a SyntaxSet,
    theme: &'a Theme,
) -> Option<Text<'a>> {
    let buffer = LineBuffer::new(alloc, syntax, set, theme).ok()?;
    let mut text = Text {
        buffer,
        plain: Vec::new(alloc),
    };
    for line in lines {
        let end = text.buffer.len();
        let _ = insert(alloc, &mut text, end, line).ok()?;
    }
    Some(text)
}

/// Edits a text of lines so often, with lines like these, and compares.
fn edit_text(
    alloc: Global,
    text: &mut Text<'_>,
    lines: &[&str],
    (syntax, set, theme): (&SyntaxReference, &SyntaxSet, &Theme),
    (edits, seed): (u32, u64),
) -> Option<Seen> {
    let mut random = Random::new(seed);
    let (mut compared, mut different, mut read) = (0u32, 0usize, 0usize);
    for done in 1..=edits {
        let again = edit(alloc, text, &mut random, lines).ok()?;
        read = read.saturating_add(again);
        if done % STRIDE == 0 {
            compared = compared.saturating_add(1);
            let found = differences(alloc, text, syntax, set, theme)?;
            different = different.saturating_add(found);
        }
    }
    let lines = text.buffer.len();
    Some(Seen {
        edits,
        compared,
        different,
        read,
        lines,
    })
}

/// Edits the text of a file so often, and compares.
pub fn try_edits(
    alloc: Global,
    content: &str,
    (syntax, set, theme): (&SyntaxReference, &SyntaxSet, &Theme),
    edits: u32,
    seed: u64,
) -> Option<Seen> {
    let lines: Vec<&str> = LinesWithEndings::from(content).collect(alloc).ok()?;
    let mut text = text_of(alloc, lines.as_slice(), syntax, set, theme)?;
    let given = (syntax, set, theme);
    edit_text(alloc, &mut text, lines.as_slice(), given, (edits, seed))
}
