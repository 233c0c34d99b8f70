//! Parts of themes that are read from JSON, and flags from a text.
use crate::below::base::theme::ParseThemeError;
use crate::below::scope::repository::ScopeRepository;
use crate::below::scope::selector::ScopeSelectors;
use crate::below::theme::style::{FontStyle, StyleModifier};
use crate::below::theme::theme::{ThemeItem, ThemeSettings};
use crate::below::theme_files::theme_load::{ParseSettings, Settings};
use std::fmt::Debug;
use syntect_check_calls::marks::{TIMES, answer, begin, end};

const RULE: &str =
    r##"{"scope":"string, tag","settings":{"foreground":"#010203","fontStyle":"bold"}}"##;

const STYLE: &str = r##"{"foreground":"#010203","fontStyle":"bold italic"}"##;

const GLOBAL: &str = r##"{"background":"#020202","popupCss":"a","bracketsOptions":"underline"}"##;

/// Reads a value again and again.
fn read<T: ParseSettings<Error = ParseThemeError> + Debug + Drop>(
    rt: &(impl Print + AllocGlobal),
    text: &str,
) {
    for _ in 0..TIMES {
        let mut repository = ScopeRepository::new(rt.alloc());
        let Ok(settings) = Settings::from_str(rt.alloc(), text) else {
            return;
        };
        begin(rt);
        let read = T::parse_settings(rt.alloc(), settings, &mut repository);
        end(rt);
        answer(rt, &read);
    }
}

fn flags_from_text(rt: &(impl Print + AllocGlobal)) {
    for _ in 0..TIMES {
        begin(rt);
        let flags = FontStyle::from_text(rt.alloc(), "bold italic");
        end(rt);
        answer(rt, &flags);
    }
}

/// The calls.
pub const NAMES: [&str; 6] = [
    "FontStyle::from_text",
    "FontStyle::parse_settings",
    "ScopeSelectors::parse_settings",
    "StyleModifier::parse_settings",
    "ThemeItem::parse_settings",
    "ThemeSettings::parse_settings",
];

/// Makes the call of this name, if there is one.
pub fn make(rt: &(impl Print + AllocGlobal), name: &str) {
    match name {
        "FontStyle::from_text" => flags_from_text(rt),
        "FontStyle::parse_settings" => read::<FontStyle>(rt, r#""bold italic""#),
        "ScopeSelectors::parse_settings" => read::<ScopeSelectors>(rt, r#""string, a - b""#),
        "StyleModifier::parse_settings" => read::<StyleModifier>(rt, STYLE),
        "ThemeItem::parse_settings" => read::<ThemeItem>(rt, RULE),
        "ThemeSettings::parse_settings" => read::<ThemeSettings>(rt, GLOBAL),
        _ => {}
    }
}
