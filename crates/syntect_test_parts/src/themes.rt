//! Themes: their settings and rules.
use crate::below::base::loading::{LoadingError, SettingsError};
use crate::below::scope::repository::ScopeRepository;
use crate::below::scope::selector::ScopeSelectors;
use crate::below::theme::style::{Color, FontStyle, StyleModifier};
use crate::below::theme::theme::{ThemeSettings, UnderlineOption};
use crate::below::values::text::Text;
use crate::found::holds;
use serde_json::Value;
use std::alloc::Global;
use syntect_theme_files::theme_load::ParseSettings;
use syntect_theme_files::theme_set::ThemeSet;

/// The value of a text.
fn value(alloc: Global, text: &str) -> Value {
    Value::from_str(alloc, text).unwrap_or(Value::Null)
}

#[test]
fn settings_of_each_type(rt: HostRuntime) {
    let alloc = rt.alloc();
    let mut repository = ScopeRepository::new(alloc);
    let color = value(alloc, "\"#010203\"");
    holds(
        &rt,
        Color::parse_settings(alloc, color, &mut repository).is_ok(),
    );
    let option = value(alloc, "\"squiggly_underline\"");
    holds(
        &rt,
        UnderlineOption::parse_settings(alloc, option, &mut repository).is_ok(),
    );
    let flags = value(alloc, "\"bold\"");
    holds(
        &rt,
        FontStyle::parse_settings(alloc, flags, &mut repository) == Ok(FontStyle::BOLD),
    );
    let union = value(alloc, "\"a, b - c\"");
    holds(
        &rt,
        ScopeSelectors::parse_settings(alloc, union, &mut repository).is_ok(),
    );
    let change = value(alloc, "{\"fontStyle\":\"italic\"}");
    let change = StyleModifier::parse_settings(alloc, change, &mut repository);
    holds(
        &rt,
        change.is_ok_and(|c| c.font_style == Some(FontStyle::ITALIC)),
    );
    let settings = value(alloc, "{\"caret\":\"#010101\"}");
    let settings = ThemeSettings::parse_settings(alloc, settings, &mut repository);
    holds(&rt, settings.is_ok_and(|s| s.caret.is_some()));
}

#[test]
fn bytes_that_are_no_text_are_no_theme(rt: HostRuntime) {
    let alloc = rt.alloc();
    let mut repository = ScopeRepository::new(alloc);
    let bytes = [b'"', 0xff, b'"'];
    let mut reader = bytes.as_slice();
    let refused = matches!(
        &ThemeSet::load_from_reader(alloc, &mut reader, &mut repository),
        Err(LoadingError::ReadSettings(SettingsError::Json))
    );
    holds(&rt, refused);
}

/// Rules of which two are refused: one whose last scope has nine atoms, and one whose colour is
/// none. Both have new atoms.
const WITH_REFUSED_RULES: &str =
    r##"{"settings":[{"settings":{}},{"scope":"a.b","settings":{"foreground":"#010101"}},{"scope":"c.d, 1.2.3.4.5.6.7.8.9","settings":{}},{"scope":"e","settings":{"foreground":"none"}},{"scope":"a.f","settings":{}}]}"##;

#[test]
fn a_refused_rule_leaves_no_atoms(rt: HostRuntime) {
    let alloc = rt.alloc();
    let mut repository = ScopeRepository::new(alloc);
    let known = repository.build("b").expect(&rt, "a scope");
    let mut bytes = WITH_REFUSED_RULES.as_bytes();
    let theme = ThemeSet::load_from_reader(alloc, &mut bytes, &mut repository);
    let theme = theme.expect(&rt, "a theme");
    holds(&rt, theme.scopes.len() == 2);
    holds(&rt, repository.atom_count() == 3);
    holds(&rt, repository.atom_str(3) == Some("f"));
    holds(&rt, repository.build("b") == Ok(known));
}

#[test]
fn a_set_is_copied(rt: HostRuntime) {
    let alloc = rt.alloc();
    let mut repository = ScopeRepository::new(alloc);
    let mut bytes = WITH_REFUSED_RULES.as_bytes();
    let theme = ThemeSet::load_from_reader(alloc, &mut bytes, &mut repository);
    let mut set = ThemeSet::new(alloc);
    let name = Text::from_str(alloc, "t").expect(&rt, "memory");
    let theme = theme.expect(&rt, "a theme");
    holds(&rt, set.themes.insert(name, theme).is_ok());
    let copy = set.clone().expect(&rt, "memory");
    holds(&rt, copy.themes.len() == 1);
}
