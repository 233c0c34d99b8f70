//! Words that may be meant by misspelt ones.
use std::alloc::{AllocError, Global};
use syntect::assets::{Assets, AssetsError};
use syntect::parsing::{SyntaxReference, SyntaxSet};

/// The words that name what the program does beside showing files.
pub const COMMANDS: &[&str] = &["check", "convert", "scopes", "test"];

/// How many bytes of two texts are the same from their begin on.
fn shared_front(a: &str, b: &str) -> usize {
    let pairs = a.as_bytes().iter().zip(b.as_bytes().iter());
    pairs.take_while(|(x, y)| **x == **y).count()
}

/// How many bytes of two texts are the same from their end on.
fn shared_back(a: &str, b: &str) -> usize {
    let pairs = a.as_bytes().iter().rev().zip(b.as_bytes().iter().rev());
    pairs.take_while(|(x, y)| **x == **y).count()
}

/// Whether a text may be another, misspelt: all but two bytes are the same.
pub fn is_near(a: &str, b: &str) -> bool {
    let longer = a.len().max(b.len());
    let shared = shared_front(a, b).saturating_add(shared_back(a, b));
    longer >= 3 && shared.saturating_add(2) >= longer
}

/// The first of some words that may be meant by a misspelt one.
pub fn nearest(words: &'static [&'static str], text: &str) -> Option<&'static str> {
    for word in words {
        if is_near(*word, text) {
            return Some(*word);
        }
    }
    None
}

/// The first language of which the name may be meant by a misspelt one, ASCII case aside.
fn nearest_language<'s>(
    alloc: Global,
    set: &'s SyntaxSet,
    text: &str,
) -> Result<Option<&'s str>, AllocError> {
    let text = text.to_ascii_lowercase(alloc)?;
    for syntax in set.syntaxes() {
        let name = syntax.name.as_str().to_ascii_lowercase(alloc)?;
        if !syntax.hidden && is_near(name.as_str(), text.as_str()) {
            return Ok(Some(syntax.name.as_str()));
        }
    }
    Ok(None)
}

/// The language of a name. Where there is none, but one of nearly this name, that is told.
pub fn language_called<'s>(
    alloc: Global,
    assets: &'s Assets,
    name: &str,
) -> Result<&'s SyntaxReference, AssetsError> {
    match assets.language(alloc, name) {
        Ok(syntax) => Ok(syntax),
        Err(e) => match nearest_language(alloc, &assets.set, name)? {
            Some(known) => Err(AssetsError::NotRead(format!(in alloc;
                "no language is called '{name}'; is '{known}' meant?"
            )?)),
            None => Err(e),
        },
    }
}
