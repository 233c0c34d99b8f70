//! Where grammars and themes are found.
use std::path::{Path, PathBuf};
use std::rt::{Env, Files};
use std::{env, fs};
use syntect::LoadingError;
use syntect::assets::{Assets, AssetsBuilder, AssetsError};
use syntect::explain::why_not_loaded;
use syntect::highlighting::ThemeSet;
use syntect::values::Text;

/// A folder named after the program in the one that a variable of the environment names, or else in
/// this one below the user's home.
fn place(
    rt: &(impl Env + AllocGlobal),
    variable: &str,
    below_home: &str,
) -> Result<Option<PathBuf>, AssetsError> {
    let mut folder = PathBuf::new(rt.alloc());
    match env::var(rt, variable) {
        Ok(text) if !text.as_str().is_empty() => folder.push(text.as_str())?,
        _ => {
            let Ok(home) = env::var(rt, "HOME") else {
                return Ok(None);
            };
            folder.push(home.as_str())?;
            folder.push(below_home)?;
        }
    }
    folder.push("vulsangi")?;
    Ok(Some(folder))
}

/// The folder that the install puts beside the program's own: `share/vulsangi` beside `bin`.
fn beside_program(rt: &(impl Files + AllocGlobal)) -> Result<Option<PathBuf>, AssetsError> {
    let Ok(program) = env::current_exe(rt) else {
        return Ok(None);
    };
    let Some(bin) = program.as_path().parent() else {
        return Ok(None);
    };
    let Some(top) = bin.parent() else {
        return Ok(None);
    };
    let mut folder = PathBuf::from_str(rt.alloc(), top.as_str())?;
    folder.push("share/vulsangi")?;
    Ok(Some(folder))
}

/// Adds the theme of a file under the file's name, or tells why not.
fn add_theme(
    rt: &(impl AllocGlobal + Eprint + Files),
    builder: &mut AssetsBuilder,
    path: Path<'_>,
) -> Result<(), AssetsError> {
    let alloc = rt.alloc();
    match ThemeSet::get_theme(rt, alloc, path, &mut builder.repository) {
        Ok(theme) => {
            let name = Text::from_str(alloc, path.file_stem().unwrap_or(""))?;
            builder.themes.themes.insert(name, theme)?;
        }
        Err(LoadingError::Memory) => return Err(AssetsError::Memory),
        Err(e) => {
            let told = why_not_loaded(rt, alloc, path, &e)?;
            eprintln!(rt; "vulsangi: {told}")?;
        }
    }
    Ok(())
}

/// Adds the themes that stand as `.json` in the folder `themes` of a folder.
fn add_json_themes(
    rt: &(impl AllocGlobal + Eprint + Files),
    builder: &mut AssetsBuilder,
    folder: Path<'_>,
) -> Result<(), AssetsError> {
    let mut themes = PathBuf::from_str(rt.alloc(), folder.as_str())?;
    themes.push("themes")?;
    let Ok(entries) = fs::read_dir(&(rt, rt.alloc()), themes.as_path()) else {
        return Ok(());
    };
    for entry in entries {
        let entry = entry?;
        if entry.path().extension() == Some("json") {
            add_theme(rt, builder, entry.path())?;
        }
    }
    Ok(())
}

/// Adds what can be loaded of a folder, and tells of the rest.
fn add(
    rt: &(impl AllocGlobal + Eprint + Files),
    builder: &mut AssetsBuilder,
    folder: Path<'_>,
) -> Result<(), AssetsError> {
    for line in builder.add_what_loads(rt, rt.alloc(), folder)?.as_slice() {
        eprintln!(rt; "vulsangi: {line}")?;
    }
    add_json_themes(rt, builder, folder)
}

/// The same of several folders.
fn add_each(
    rt: &(impl AllocGlobal + Eprint + Files),
    builder: &mut AssetsBuilder,
    folders: &[&str],
) -> Result<(), AssetsError> {
    for folder in folders {
        add(rt, builder, Path::new(*folder))?;
    }
    Ok(())
}

/// Adds a place that may be missing.
fn add_place(
    rt: &(impl AllocGlobal + Eprint + Files),
    builder: &mut AssetsBuilder,
    place: Option<&PathBuf>,
) -> Result<(), AssetsError> {
    match place {
        Some(place) if fs::exists(rt, place.as_path()).unwrap_or(false) => {
            add(rt, builder, place.as_path())
        }
        _ => Ok(()),
    }
}

/// Whether two places have the same path.
fn is_same(a: Option<&PathBuf>, b: Option<&PathBuf>) -> bool {
    match (a, b) {
        (Some(a), Some(b)) => a.as_str() == b.as_str(),
        _ => false,
    }
}

/// The grammars and themes that came with the program, then the user's, and then those of the
/// folders that are asked for: a later one of the same name wins.
pub fn loaded(
    rt: &(impl AllocGlobal + Eprint + Files + Env),
    folders: Option<&[&str]>,
) -> Result<Assets, AssetsError> {
    let mut builder = AssetsBuilder::new(rt.alloc())?;
    let beside = beside_program(rt)?;
    let shared = place(rt, "XDG_DATA_HOME", ".local/share")?;
    let own = place(rt, "XDG_CONFIG_HOME", ".config")?;
    if !is_same(beside.as_ref(), shared.as_ref()) {
        add_place(rt, &mut builder, beside.as_ref())?;
    }
    add_place(rt, &mut builder, shared.as_ref())?;
    add_place(rt, &mut builder, own.as_ref())?;
    if let Some(folders) = folders {
        add_each(rt, &mut builder, folders)?;
    }
    builder.build(rt.alloc())
}
