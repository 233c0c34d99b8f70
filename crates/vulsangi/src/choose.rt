//! The theme, the language and the text that are asked for.
use std::io::Read;
use std::path::Path;
use std::rt::{Env, Files};
use std::{env, fs};
use syntect::assets::{Assets, AssetsError};
use syntect::highlighting::Theme;
use syntect::parsing::SyntaxReference;
use syntect::values::Text;
use vulsangi_check::vulsangi_grammar::nearest::language_called;
use vulsangi_doctor::run::syntax_of_file;
use vulsangi_words::words::Asked;

/// The theme that is asked for: by its name, or else in a file, where the name has a slash or an
/// extension.
pub fn theme_of(
    rt: &(impl AllocGlobal + Files),
    assets: &mut Assets,
    name: &str,
) -> Result<Theme, AssetsError> {
    let key = Text::from_str(rt.alloc(), name)?;
    if let Some(theme) = assets.themes.themes.get(&key) {
        return Ok(theme.clone()?);
    }
    let path = Path::new(name);
    if name.contains('/') || path.extension().is_some() {
        return assets.theme_in(rt, rt.alloc(), path);
    }
    match assets.theme(rt.alloc(), name) {
        Ok(theme) => Ok(theme.clone()?),
        Err(e) => Err(e),
    }
}

/// The theme where none is named: `dusk`.
fn default_theme(
    rt: &(impl AllocGlobal + Files),
    assets: &mut Assets,
) -> Result<Theme, AssetsError> {
    if assets.themes.themes.as_map().is_empty() {
        let told = "no themes are found; --grammars names a folder of grammars and themes";
        return Err(AssetsError::NotRead(String::from_str(rt.alloc(), told)?));
    }
    theme_of(rt, assets, "dusk")
}

/// The theme of the words, or of `VULSANGI_THEME`, or `dusk`.
pub fn main_theme(
    rt: &(impl AllocGlobal + Files + Env),
    assets: &mut Assets,
    asked: &Asked<'_, '_>,
) -> Result<Theme, AssetsError> {
    if let Some(name) = asked.theme {
        return theme_of(rt, assets, name);
    }
    match env::var(rt, "VULSANGI_THEME") {
        Ok(name) if !name.as_str().is_empty() => theme_of(rt, assets, name.as_str()),
        _ => default_theme(rt, assets),
    }
}

/// The name by which a file is known.
pub fn name_of<'a>(asked: &Asked<'_, 'a>, file: &'a str) -> &'a str {
    if file == "-" {
        asked.file_name.unwrap_or("standard input")
    } else {
        file
    }
}

/// Where bytes that aren't UTF-8 begin: the line and the column, both from 1.
fn place_of(front: &[u8]) -> (usize, usize) {
    let line = front.split(|byte| *byte == b'\n').last().unwrap_or(front);
    let column = line.iter().filter(|byte| **byte & 0xc0 != 0x80).count();
    let lines = front.iter().filter(|byte| **byte == b'\n').count();
    (lines.saturating_add(1), column.saturating_add(1))
}

/// The bytes as text, where they are UTF-8; else `NotRead` with the place.
fn strict_text(rt: &impl AllocGlobal, name: &str, bytes: &[u8]) -> Result<String, AssetsError> {
    match str::from_utf8(bytes) {
        Ok(text) => Ok(String::from_str(rt.alloc(), text)?),
        Err(e) => {
            let (line, column) = place_of(bytes.get(..e.valid_up_to()).unwrap_or(bytes));
            let told = format!(in rt.alloc(); "{name}:{line}:{column}: these bytes aren't UTF-8")?;
            Err(AssetsError::NotRead(told))
        }
    }
}

/// The bytes of a file, of which `-` is standard input.
pub fn bytes_of(
    rt: &(impl AllocGlobal + Input + Files),
    file: &str,
) -> Result<Vec<u8>, AssetsError> {
    if file != "-" {
        return Ok(fs::read(rt, file)?);
    }
    let mut bytes = Vec::new(rt.alloc());
    rt.reader().read_to_end(&mut bytes)?;
    Ok(bytes)
}

/// What a file holds. What is no UTF-8 is shown with U+FFFD, or refused where that is asked for.
pub fn text_of<'a>(
    rt: &(impl AllocGlobal + Input + Files),
    asked: &Asked<'_, 'a>,
    file: &'a str,
) -> Result<String, AssetsError> {
    let bytes = bytes_of(rt, file)?;
    if asked.strict {
        return strict_text(rt, name_of(asked, file), bytes.as_slice());
    }
    Ok(String::from_utf8_lossy(rt.alloc(), bytes.as_slice())?)
}

/// The language of a text: the one that is asked for, or that of its name, or of its first line, or
/// else plain text.
pub fn language_of<'s>(
    rt: &impl AllocGlobal,
    assets: &'s Assets,
    asked: &Asked<'_, '_>,
    file: &str,
    text: &str,
) -> Result<&'s SyntaxReference, AssetsError> {
    if let Some(name) = asked.language {
        return language_called(rt.alloc(), assets, name);
    }
    let name = if file == "-" {
        asked.file_name.unwrap_or("")
    } else {
        file
    };
    syntax_of_file(rt, assets, name, text)
}
