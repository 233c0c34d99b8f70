//! What the calls are given. It is made where there is memory:
//! what is refused stands within a call.
use crate::below::regexes::regex::Regex;
use crate::below::scope::repository::ScopeRepository;
use crate::below::scope::scope::Scope;
use crate::below::scope::stack::ScopeStack;
use crate::below::theme::theme::Theme;
use std::alloc::Global;
use syntect_theme_files::theme_set::ThemeSet;

/// A theme with a rule of one scope and one of a path.
pub const THEME: &str =
    r##"{"name":"N","settings":[{"settings":{"background":"#020202"}},{"scope":"string, tag","settings":{"foreground":"#010203"}},{"scope":"source comment -x","settings":{"fontStyle":"bold"}}]}"##;

/// The scope of a text.
pub fn scope_of(text: &str, repository: &mut ScopeRepository) -> Scope {
    match repository.build(text) {
        Ok(scope) => scope,
        Err(_) => Scope::default(),
    }
}

/// The stack of a text.
pub fn stack_of(alloc: Global, text: &str, repository: &mut ScopeRepository) -> ScopeStack {
    match ScopeStack::from_text(alloc, text, repository) {
        Ok(stack) => stack,
        Err(_) => ScopeStack::new(alloc),
    }
}

/// The pattern of a text.
pub fn regex_of(alloc: Global, text: &str) -> Option<Regex> {
    let text = String::from_str(alloc, text).ok()?;
    Regex::new(alloc, text).ok()
}

/// The theme.
pub fn theme_of(alloc: Global, repository: &mut ScopeRepository) -> Theme {
    let mut bytes = THEME.as_bytes();
    match ThemeSet::load_from_reader(alloc, &mut bytes, repository) {
        Ok(theme) => theme,
        Err(_) => Theme::default(alloc),
    }
}
