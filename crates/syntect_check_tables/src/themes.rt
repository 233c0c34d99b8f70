//! Themes, rules, colours and flags, from texts.
use crate::below::base::loading::LoadingError;
use crate::below::scope::repository::ScopeRepository;
use crate::below::theme::style::{Color, FontStyle};
use crate::below::theme::theme::{Theme, ThemeItem, UnderlineOption};
use std::alloc::Global;
use syntect_theme_files::theme_load::{ParseSettings, Settings};
use syntect_theme_files::theme_set::ThemeSet;

/// Adds a colour of a theme, or a dash.
fn write_setting(color: Option<Color>, out: &mut String) -> Option<()> {
    match color {
        Some(color) => write!(out, " {color:?}").ok(),
        None => out.push_str(" -").ok(),
    }
}

/// Adds a theme's name, the number of its rules, and its foreground, background,
/// gutter and gutter foreground.
pub fn write_whole(theme: &Theme, out: &mut String) -> Option<()> {
    if let Some(name) = &theme.name {
        out.push_str(name.as_str()).ok()?;
    }
    write!(out, " {}", theme.scopes.len()).ok()?;
    write_setting(theme.settings.foreground, out)?;
    write_setting(theme.settings.background, out)?;
    write_setting(theme.settings.gutter, out)?;
    write_setting(theme.settings.gutter_foreground, out)
}

/// Adds the theme of a text, or why it has none, by a reader of its bytes.
fn write_read(
    alloc: Global,
    text: &str,
    repository: &mut ScopeRepository,
    out: &mut String,
) -> Option<()> {
    let mut bytes = text.as_bytes();
    match ThemeSet::load_from_reader(alloc, &mut bytes, repository) {
        Ok(theme) => write_whole(&theme, out),
        Err(LoadingError::ParseTheme(refusal)) => write!(out, "{refusal}").ok(),
        Err(refusal) => write!(out, "{refusal}").ok(),
    }
}

/// Adds the theme of a text by its JSON value, or why it has none.
fn write_by_value(
    alloc: Global,
    text: &str,
    repository: &mut ScopeRepository,
    out: &mut String,
) -> Option<()> {
    let Ok(value) = Settings::from_str(alloc, text) else {
        return out.push_str("no JSON").ok();
    };
    match Theme::parse_settings(alloc, value, repository) {
        Ok(theme) => write_whole(&theme, out),
        Err(refusal) => write!(out, "{refusal}").ok(),
    }
}

/// Adds the theme of a text, or why it has none, by a reader of its bytes, and by its JSON value.
pub fn write_theme(
    alloc: Global,
    text: &str,
    repository: &mut ScopeRepository,
    out: &mut String,
) -> Option<()> {
    write_read(alloc, text, repository, out)?;
    out.push_str("; ").ok()?;
    write_by_value(alloc, text, repository, out)
}

/// Adds the number of selectors of the rule of a text, or why it is none.
pub fn write_rule(
    alloc: Global,
    text: &str,
    repository: &mut ScopeRepository,
    out: &mut String,
) -> Option<()> {
    let value = Settings::from_str(alloc, text).ok()?;
    match ThemeItem::parse_settings(alloc, value, repository) {
        Ok(rule) => write!(out, "{} selectors", rule.scope.selectors.len()).ok(),
        Err(refusal) => write!(out, "{refusal}").ok(),
    }
}

/// Adds the number of the flags of a JSON text, or why it has none.
pub fn write_json_flags(
    alloc: Global,
    text: &str,
    repository: &mut ScopeRepository,
    out: &mut String,
) -> Option<()> {
    let value = Settings::from_str(alloc, text).ok()?;
    match FontStyle::parse_settings(alloc, value, repository) {
        Ok(flags) => write!(out, "{}", flags.bits()).ok(),
        Err(refusal) => write!(out, "{refusal}").ok(),
    }
}

/// Adds the number of the flags of a text, or why it has none.
pub fn write_flags(alloc: Global, text: &str, out: &mut String) -> Option<()> {
    match FontStyle::from_text(alloc, text) {
        Ok(flags) => write!(out, "{}", flags.bits()).ok(),
        Err(refusal) => write!(out, "{refusal}").ok(),
    }
}

/// Adds the colour of a text, or why it has none.
pub fn write_colour(text: &str, out: &mut String) -> Option<()> {
    match Color::from_text(text) {
        Ok(color) => write!(out, "{color:?}").ok(),
        Err(refusal) => write!(out, "{refusal}").ok(),
    }
}

/// Adds the way of underlining of a text, or why it has none.
pub fn write_underline(text: &str, out: &mut String) -> Option<()> {
    match UnderlineOption::from_text(text) {
        Ok(option) => write!(out, "{option:?}").ok(),
        Err(refusal) => write!(out, "{refusal}").ok(),
    }
}
