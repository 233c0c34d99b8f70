//! Calls that read files and folders of themes, and files of metadata.
use crate::below::scope::repository::ScopeRepository;
use crate::marks::{TIMES, answer, begin, end, stays};
use std::path::Path;
use std::rt::Files;
use syntect_metadata::raw::RawMetadataEntry;
use syntect_theme_files::theme_set::ThemeSet;

/// A folder of two themes.
const FOLDER: &str = "kept";

const THEME: &str = "kept/a.tmTheme";

const ENTRY: &str = "kept/a.tmPreferences";

/// Shows the names of a set's themes.
fn show_themes(rt: &(impl Print + AllocGlobal), set: &ThemeSet) {
    let mut names = String::new(rt.alloc());
    for (name, _) in set.themes.as_map().iter() {
        let _ = write!(names, "{};", name.as_str());
    }
    stays(rt, names.as_str());
}

fn get_theme(rt: &(impl Print + AllocGlobal + Files)) {
    let alloc = rt.alloc();
    for _ in 0..TIMES {
        let mut repository = ScopeRepository::new(alloc);
        begin(rt);
        let theme = ThemeSet::get_theme(rt, alloc, Path::new(THEME), &mut repository);
        end(rt);
        answer(rt, &theme);
    }
}

fn load_themes(rt: &(impl Print + AllocGlobal + Files)) {
    let alloc = rt.alloc();
    for _ in 0..TIMES {
        let mut repository = ScopeRepository::new(alloc);
        begin(rt);
        let set = ThemeSet::load_from_folder(rt, alloc, Path::new(FOLDER), &mut repository);
        end(rt);
        match &set {
            Ok(set) => answer(rt, set.themes.len()),
            Err(e) => answer(rt, e),
        }
    }
}

fn add_themes(rt: &(impl Print + AllocGlobal + Files)) {
    let alloc = rt.alloc();
    for _ in 0..TIMES {
        let mut repository = ScopeRepository::new(alloc);
        let mut set = ThemeSet::new(alloc);
        begin(rt);
        let added = set.add_from_folder(rt, alloc, Path::new(FOLDER), &mut repository);
        end(rt);
        answer(rt, &added);
        show_themes(rt, &set);
    }
}

fn theme_paths(rt: &(impl Print + AllocGlobal + Files)) {
    for _ in 0..TIMES {
        begin(rt);
        let paths = ThemeSet::discover_theme_paths(rt, rt.alloc(), Path::new(FOLDER));
        end(rt);
        match &paths {
            Ok(paths) => answer(rt, paths.len()),
            Err(e) => answer(rt, e),
        }
    }
}

fn metadata_entry(rt: &(impl Print + AllocGlobal + Files)) {
    for _ in 0..TIMES {
        begin(rt);
        let entry = RawMetadataEntry::load(rt, rt.alloc(), Path::new(ENTRY));
        end(rt);
        match &entry {
            Ok(entry) => answer(rt, entry.scope.as_str()),
            Err(e) => answer(rt, e),
        }
    }
}

/// The calls.
pub const NAMES: [&str; 5] = [
    "ThemeSet::get_theme",
    "ThemeSet::load_from_folder",
    "ThemeSet::add_from_folder",
    "ThemeSet::discover_theme_paths",
    "RawMetadataEntry::load",
];

/// Makes the call of this name, if there is one.
pub fn make(rt: &(impl Print + AllocGlobal + Files), name: &str) {
    match name {
        "ThemeSet::get_theme" => get_theme(rt),
        "ThemeSet::load_from_folder" => load_themes(rt),
        "ThemeSet::add_from_folder" => add_themes(rt),
        "ThemeSet::discover_theme_paths" => theme_paths(rt),
        "RawMetadataEntry::load" => metadata_entry(rt),
        _ => {}
    }
}
