//! Pieces that are cut, and pieces of which a part is changed.
use crate::below::theme::style::{Color, Style, StyleModifier};
use crate::styles::write_style;
use crate::written::piece_of;
use std::alloc::Global;
use syntect_style::cut::{modify_range, split_at};

/// Adds pieces with numbers, with commas between.
fn write_numbered(pieces: &[(u8, &str)], out: &mut String) -> Option<()> {
    let mut between = "";
    for (number, text) in pieces {
        write!(out, "{between}{number} {text}").ok()?;
        between = ", ";
    }
    Some(())
}

/// Adds both parts of pieces that are cut: the place, and each piece as its number and its text,
/// have commas between.
pub fn write_cut(alloc: Global, question: &str, out: &mut String) -> Option<()> {
    let (place, rest) = question.split_once(", ")?;
    let mut pieces = Vec::new(alloc);
    for text in rest.split(", ") {
        if text.is_empty() {
            continue;
        }
        let (number, text) = text.split_once(' ')?;
        pieces.push((number.parse::<u8>().ok()?, text)).ok()?;
    }
    let place = place.parse::<usize>().ok()?;
    let (before, after) = split_at(alloc, pieces.as_slice(), place).ok()?;
    write_numbered(before.as_slice(), out)?;
    out.push_str("; ").ok()?;
    write_numbered(after.as_slice(), out)
}

/// Adds pieces with their styles, with commas between.
fn write_styled(pieces: &[(Style, &str)], out: &mut String) -> Option<()> {
    let mut between = "";
    for (style, text) in pieces {
        out.push_str(between).ok()?;
        write_style(*style, out)?;
        write!(out, " {text}").ok()?;
        between = ", ";
    }
    Some(())
}

/// Adds pieces of which the foreground is changed from one place to another: the two places and the
/// colour, and the pieces as rows give them, have commas between.
pub fn write_modified(alloc: Global, question: &str, out: &mut String) -> Option<()> {
    let (change, rest) = question.split_once(", ")?;
    let (places, color) = change.split_once(' ')?;
    let (from, to) = places.split_once("..")?;
    let (from, to) = (from.parse::<usize>().ok()?, to.parse::<usize>().ok()?);
    if from > to {
        return None;
    }
    let mut pieces = Vec::new(alloc);
    for text in rest.split(", ") {
        pieces.push(piece_of(text)?).ok()?;
    }
    let modifier = StyleModifier {
        foreground: Some(Color::from_text(color).ok()?),
        background: None,
        font_style: None,
    };
    let pieces = modify_range(alloc, pieces.as_slice(), from..to, modifier).ok()?;
    write_styled(pieces.as_slice(), out)
}
