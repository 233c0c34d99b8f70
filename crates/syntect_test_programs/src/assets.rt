//! Grammars and themes of a folder in one value, and what is shown with them.
use crate::below::assets::assets::{Assets, Shown};
use crate::below::assets::builder::AssetsBuilder;
use crate::below::assets::error::AssetsError;
use crate::below::assets::format::{Colors, Format};
use crate::below::assets::screen::number_of;
use crate::below::easy::highlighting::Color;
use crate::below::easy::parsing::{
    Limits, LineLimit, ScopeRepository, SyntaxSetBuilder, add_what_loads_within,
};
use crate::below::easy::{Error, LoadingError};
use crate::files::{GRAMMAR, THEME, within};
use crate::found::{equal, holds};
use crate::loads::FAULTY;
use crate::metadata::{File, written};
use crate::shown::{COSTLY, PAGE, ROWS, ROWS_SHOWN, TEXT};
use std::fs;
use std::path::PathBuf;
use std::process::Abort;
use std::rt::Files;

/// A text, a grammar for it, a theme, a grammar whose `u` leads nowhere, one that costs much, and
/// one that is told by its first line.
const FILES: [File; 7] = [
    ("a.t", " hello"),
    ("Tee.sublime-syntax", GRAMMAR),
    ("shade.tmTheme", THEME),
    (
        "L.sublime-syntax",
        "scope: source.l\nfile_extensions: [l]\ncontexts: {main: [{match: u, push: 'scope:none'}]}\n",
    ),
    ("U.sublime-syntax", COSTLY),
    (
        "S.sublime-syntax",
        "scope: source.s\nfirst_line_match: '#!'\ncontexts: {main: []}\n",
    ),
    ("script", "#!"),
];

const SCREEN: &str = "\x1b[0;38;2;1;1;1m \x1b[0;38;2;3;3;3mhello\x1b[0m";

const FORMATS: [(Format, &str); 3] = [
    (Format::Html, PAGE),
    (Format::Terminal, TEXT),
    (Format::Screen(Colors::Bits24), SCREEN),
];

/// Colours, and their numbers in the palette of xterm.
const PALETTE: [(u8, u8, u8, u8); 6] = [
    (0, 0, 0, 16),
    (255, 255, 255, 231),
    (255, 0, 0, 196),
    (0, 255, 0, 46),
    (128, 128, 128, 244),
    (95, 135, 175, 67),
];

#[test]
fn numbers_of_the_palette(rt: HostRuntime) {
    for (r, g, b, number) in &PALETTE {
        let (r, g, b) = (*r, *g, *b);
        equal(&rt, number_of(Color { r, g, b, a: 255 }), *number);
    }
}

fn assets_of(rt: &(impl Files + AllocGlobal + Abort), folder: &PathBuf) -> Assets {
    Assets::from_folder(rt, rt.alloc(), folder.as_path()).expect(rt, "assets")
}

/// The text is this one, and none of it is plain because of a limit.
fn is_text(rt: &impl Abort, shown: Result<Shown, AssetsError>, text: &str) {
    let shown = shown.expect(rt, "a text");
    equal(rt, shown.text.as_str(), text);
    holds(rt, shown.plain.is_none() & shown.first_line.is_none());
}

#[test]
fn a_text_and_a_file_in_one_call(rt: HostRuntime) {
    let alloc = rt.alloc();
    let folder = written(&rt, "syntect_assets_shown", &FILES);
    let path = within(&rt, &folder, "a.t");
    let mut assets = assets_of(&rt, &folder);
    let shade = within(&rt, &folder, "shade.tmTheme");
    let read = assets
        .theme_in(&rt, alloc, shade.as_path())
        .expect(&rt, "a theme");
    let theme = assets.theme(alloc, "shade").expect(&rt, "a theme");
    for (format, text) in &FORMATS {
        for name in ["t", "T", "tee"] {
            is_text(
                &rt,
                assets.show_text(alloc, " hello", name, theme, *format),
                text,
            );
        }
        is_text(
            &rt,
            assets.show_file(&rt, alloc, path.as_path(), &read, *format),
            text,
        );
    }
}

/// The message is this one.
fn tells(rt: &(impl AllocGlobal + Abort), e: &AssetsError, message: &str) {
    let told = format!(in rt.alloc(); "{e}").expect(rt, "memory");
    equal(rt, told.as_str(), message);
}

/// A name that isn't known is told, with those that are.
#[test]
fn names_that_are_not_known(rt: HostRuntime) {
    let alloc = rt.alloc();
    let folder = written(&rt, "syntect_assets_names", &[FILES[1], FILES[2]]);
    let assets = assets_of(&rt, &folder);
    let theme = assets.theme(alloc, "shade").expect(&rt, "a theme");
    let refused = assets.theme(alloc, "none").err().expect(&rt, "a refusal");
    tells(&rt, &refused, "no theme is called 'none'; there are: shade");
    let shown = assets.show_text(alloc, "", "none", theme, Format::Html);
    let refused = shown.err().expect(&rt, "a refusal");
    tells(
        &rt,
        &refused,
        "no language is called 'none'; there are: Plain Text, Tee",
    );
    holds(&rt, assets.language(alloc, "no").is_err());
}

fn names(rt: &impl Abort, told: &str, path: &PathBuf) {
    holds(rt, told.starts_with(path.as_path().as_str()));
}

/// The call is refused, with this path first.
fn refuses<T: Drop>(rt: &impl Abort, answer: Result<T, AssetsError>, path: &PathBuf) {
    match &answer {
        Err(AssetsError::NotLoaded(told)) => names(rt, told.as_str(), path),
        Err(AssetsError::NotRead(told)) => names(rt, told.as_str(), path),
        _ => holds(rt, false),
    }
}

/// One faulty file ends it; where faulty files are passed over, each is told, and the rest is there.
#[test]
fn a_folder_with_faulty_files(rt: HostRuntime) {
    let alloc = rt.alloc();
    let folder = written(&rt, "syntect_assets_faulty", &FAULTY);
    let at = folder.as_path();
    let (f, list) = (
        within(&rt, &folder, FAULTY[0].0),
        within(&rt, &folder, FAULTY[1].0),
    );
    for (name, text) in &FILES {
        let path = within(&rt, &folder, name);
        fs::write(&rt, path.as_path(), text.as_bytes()).expect(&rt, "a file");
    }
    refuses(&rt, Assets::from_folder(&rt, alloc, at), &f);
    let (mut assets, told) = Assets::what_loads(&rt, alloc, at).expect(&rt, "assets");
    equal(&rt, told.len(), 2);
    for (line, path) in told.as_slice().iter().zip([&f, &list]) {
        names(&rt, line.as_str(), path);
    }
    let theme = assets.theme(alloc, "shade").expect(&rt, "a theme");
    is_text(
        &rt,
        assets.show_text(alloc, " hello", "t", theme, Format::Html),
        PAGE,
    );
    refuses(&rt, assets.theme_in(&rt, alloc, list.as_path()), &list);
    fs::remove_file(&rt, f.as_path()).expect(&rt, "a file");
    refuses(&rt, Assets::from_folder(&rt, alloc, at), &list);
}

/// A folder that isn't there, and grammars past a limit.
#[test]
fn folders_that_are_refused(rt: HostRuntime) {
    let alloc = rt.alloc();
    let folder = written(&rt, "syntect_assets_none", &[FILES[1]]);
    let (none, path) = (
        within(&rt, &folder, "none"),
        within(&rt, &folder, FILES[1].0),
    );
    refuses(&rt, Assets::from_folder(&rt, alloc, none.as_path()), &none);
    refuses(&rt, Assets::what_loads(&rt, alloc, none.as_path()), &none);
    let mut builder = AssetsBuilder::new(alloc).expect(&rt, "a builder");
    builder.limits.text = 10;
    refuses(&rt, builder.add_folder(&rt, alloc, folder.as_path()), &path);
    let told = builder
        .add_what_loads(&rt, alloc, folder.as_path())
        .expect(&rt, "assets");
    equal(&rt, told.len(), 1);
    for line in told.as_slice() {
        names(&rt, line.as_str(), &path);
    }
    let assets = builder.build(alloc).expect(&rt, "assets");
    holds(&rt, assets.language(alloc, "t").is_err());
}

/// What is passed over is told with the reason for which the strict call stops.
#[test]
fn what_is_passed_over(rt: HostRuntime) {
    let alloc = rt.alloc();
    let folder = written(&rt, "syntect_passed_over", &FAULTY);
    let (mut texts, mut builder) = (ScopeRepository::new(alloc), SyntaxSetBuilder::new(alloc));
    let limits = Limits::default();
    let path = folder.as_path();
    let passed = add_what_loads_within(&rt, alloc, &mut builder, path, true, &mut texts, &limits);
    for file in passed.expect(&rt, "a folder").as_slice() {
        let why = format!(in alloc; "{}", file.why).expect(&rt, "memory");
        names(&rt, why.as_str(), &within(&rt, &folder, FAULTY[0].0));
        holds(&rt, file.path.as_str().ends_with(FAULTY[0].0));
    }
    let none = within(&rt, &folder, "none");
    let path = none.as_path();
    let refused = add_what_loads_within(&rt, alloc, &mut builder, path, true, &mut texts, &limits);
    holds(&rt, matches!(refused, Err(LoadingError::WalkDir)));
}

/// A line that reaches a limit is plain, and so is a text whose first line does.
#[test]
fn what_reaches_a_limit_is_plain(rt: HostRuntime) {
    let alloc = rt.alloc();
    let folder = written(&rt, "syntect_assets_plain", &FILES);
    let script = within(&rt, &folder, "script");
    let mut assets = assets_of(&rt, &folder);
    assets.limits.steps = 1_000_000;
    let theme = assets.theme(alloc, "shade").expect(&rt, "a theme");
    let shown = assets
        .show_text(alloc, ROWS, "u", theme, Format::Html)
        .expect(&rt, "a text");
    equal(&rt, shown.text.as_str(), ROWS_SHOWN);
    let limit = matches!(shown.plain, Some((1, LineLimit::Steps { .. })));
    holds(&rt, limit);
    assets.limits.steps = 0;
    let theme = assets.theme(alloc, "shade").expect(&rt, "a theme");
    let shown = assets.show_file(&rt, alloc, script.as_path(), theme, Format::Html);
    holds(&rt, shown.expect(&rt, "a text").first_line.is_some());
}

/// A line that is refused, and a file that isn't read, which is told by its path.
#[test]
fn texts_that_are_not_shown(rt: HostRuntime) {
    let alloc = rt.alloc();
    let folder = written(&rt, "syntect_assets_refused", &FILES);
    let assets = assets_of(&rt, &folder);
    let theme = assets.theme(alloc, "shade").expect(&rt, "a theme");
    let refused = assets.show_text(alloc, "u", "l", theme, Format::Html);
    let is_line = matches!(refused, Err(AssetsError::NotShown(Error::ParsingError(_))));
    holds(&rt, is_line);
    let path = within(&rt, &folder, "b.l");
    let shown = |path: &PathBuf| assets.show_file(&rt, alloc, path.as_path(), theme, Format::Html);
    refuses(&rt, shown(&path), &path);
    fs::write(&rt, path.as_path(), b"\xff").expect(&rt, "a file");
    refuses(&rt, shown(&path), &path);
    fs::write(&rt, path.as_path(), b"u").expect(&rt, "a file");
    holds(&rt, matches!(shown(&path), Err(AssetsError::NotShown(_))));
}
