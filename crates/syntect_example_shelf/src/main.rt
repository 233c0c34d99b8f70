//! `syntect_example_shelf FOLDER THEME FILE` shows a text file in a terminal, highlighted by those
//! grammars of a folder that its syntax can reach, and a theme.
#![tactic(auto)]

use anyhow::bail;
use std::env;
use std::path::Path;
use std::rt::Files;
use syntect_assets::assets::Assets;
use syntect_assets::below::base::limits::Limits;
use syntect_assets::below::base::loading::LoadingError;
use syntect_assets::below::scope::repository::ScopeRepository;
use syntect_assets::below::theme_files::theme_set::ThemeSet;
use syntect_assets::error::AssetsError;
use syntect_assets::format::{Colors, Format};
use syntect_grammar_limits::folder_error::FolderWithinError;
use syntect_shelf::shelf::Shelf;
use syntect_shelf::shelf_builder::ShelfBuilder;

/// The refusal of a folder in words.
fn refused(rt: &impl AllocGlobal, e: FolderWithinError) -> Result<AssetsError, AssetsError> {
    match e {
        FolderWithinError::Refused(LoadingError::Memory) => Ok(AssetsError::Memory),
        e => Ok(AssetsError::NotLoaded(format!(in rt.alloc(); "{e}")?)),
    }
}

/// The shelf of a folder, with plain text.
fn shelf_of(
    rt: &(impl AllocGlobal + Files),
    folder: &str,
    limits: &Limits,
    repository: &mut ScopeRepository,
) -> Result<Shelf, AssetsError> {
    let mut builder = ShelfBuilder::new(rt.alloc(), true, limits);
    match builder.add_plain_text_syntax(rt.alloc(), repository) {
        Ok(()) => {}
        Err(_) => return Err(AssetsError::Memory),
    }
    match builder.add_from_folder(rt, rt.alloc(), Path::new(folder), repository) {
        Ok(()) => {}
        Err(e) => return Err(refused(rt, e)?),
    }
    Ok(builder.build(rt.alloc(), repository)?)
}

/// The place of the syntax of a file.
fn place_for(
    rt: &(impl AllocGlobal + Files),
    shelf: &Shelf,
    path: &str,
) -> Result<usize, AssetsError> {
    match shelf
        .heads()
        .find_syntax_for_file(rt, rt.alloc(), Path::new(path))
    {
        Ok(Some(syntax)) => Ok(syntax.index),
        Ok(None) => Ok(0),
        Err(e) => Err(AssetsError::from(e)),
    }
}

/// The text that shows a file.
fn shown(
    rt: &(impl AllocGlobal + Eprint + Files),
    folder: &str,
    theme: &str,
    path: &str,
) -> Result<String, AssetsError> {
    let limits = Limits::default();
    let mut repository = ScopeRepository::new(rt.alloc());
    let shelf = shelf_of(rt, folder, &limits, &mut repository)?;
    let place = place_for(rt, &shelf, path)?;
    let set = match shelf.set_for(rt, rt.alloc(), place, &mut repository) {
        Ok(set) => set,
        Err(e) => return Err(refused(rt, e)?),
    };
    let themes = ThemeSet::new(rt.alloc());
    let mut assets = Assets {
        set,
        repository,
        themes,
        limits,
    };
    let theme = assets.theme_in(rt, rt.alloc(), Path::new(theme))?;
    let format = Format::Screen(Colors::Bits24);
    let shown = assets.show_file(rt, rt.alloc(), Path::new(path), &theme, format)?;
    if let Some((line, limit)) = shown.plain {
        eprintln!(rt; "{path}:{line}: shown plain: {limit}")?;
    }
    Ok(shown.text)
}

fn main(rt: HostRuntime) -> anyhow::Result<()> {
    let words: Vec<String> = env::args(&rt)?.skip(1).collect(rt.alloc())?;
    let [folder, theme, path] = words.as_slice() else {
        bail!("usage: syntect_example_shelf FOLDER THEME FILE");
    };
    match shown(&rt, folder.as_str(), theme.as_str(), path.as_str()) {
        Ok(text) => print!(rt; "{text}")?,
        Err(e) => {
            eprintln!(rt; "{e:?}")?;
            bail!("nothing is shown");
        }
    }
    Ok(())
}
