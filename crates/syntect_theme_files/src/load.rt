//! Values read as parts of themes.
ghost use Rattle.std.specs.Prelude.{◌≡◌, length, take, IfOk, OnOk, IfErr, OnErr, Ok, option_map, option_and_then};
ghost use Rattle.std.specs.Option.{ok_or};
ghost use Rattle.serde_json.specs.Find.{as_str};
ghost use Rattle.serde_json.specs.View.{view};
ghost use Rattle.syntect_theme_files.specs.syntect_base.declared.theme.ParseThemeError.{ParseThemeError};
ghost use Rattle.syntect_theme_files.specs.syntect_scope.Repository.{with_scopes, IsRepository};
ghost use Rattle.syntect_theme_files.specs.syntect_scope.SelectorText.{union_words};
ghost use Rattle.syntect_theme_files.specs.Loading as loading;
ghost use Rattle.syntect_theme.specs.Refusals.{Refuses};

use crate::syntect_base::settings::holds_float;
use crate::syntect_base::theme::ParseThemeError;
use crate::syntect_scope::repository::{ParseScopeError, ScopeRepository};
use crate::syntect_scope::selector::ScopeSelectors;
use crate::syntect_values::text::Text;
use serde_json::Value;
use std::alloc::{AllocError, Global};
use syntect_theme::style::{Color, FontStyle, StyleModifier};
use syntect_theme::theme::{ThemeItem, UnderlineOption};

/// How a refusal shows a value.
fn shown(alloc: Global, value: &Value) -> Result<Text, AllocError>
    ensures { IfOk result (λ text. text ≡ loading.shown_value (view value.now)) }
{
    if holds_float(value) {
        Text::from_str(alloc, "float")
    } else {
        Ok(Text::from_string(value.to_string(alloc)?))
    }
}

/// The colour of a text.
pub(crate) fn color(value: &Value) -> Result<Color, ParseThemeError>
    ensures { result ≡ loading.color_at (view value.now) }
{
    match value.as_str() {
        Some(text) => Color::from_text(text),
        None => Err(ParseThemeError::IncorrectColor),
    }
}

/// The way of underlining of a text.
pub(crate) fn underline(value: &Value) -> Result<UnderlineOption, ParseThemeError>
    ensures { result ≡ loading.underline_at (view value.now) }
{
    match value.as_str() {
        Some(text) => UnderlineOption::from_text(text),
        None => Err(ParseThemeError::IncorrectUnderlineOption),
    }
}

/// The flags of a text.
pub(crate) fn flags(alloc: Global, value: &Value) -> Result<FontStyle, ParseThemeError>
    ensures ok { IfOk result (λ flags. loading.flags_at (view value.now) ≡ Ok flags) }
    ensures err { IfErr result (Refuses (loading.flags_at (view value.now))) }
{
    match value.as_str() {
        Some(text) => FontStyle::from_text(alloc, text),
        None => Err(ParseThemeError::IncorrectFontStyle(shown(alloc, value)?)),
    }
}

/// A refusal of scopes, passed on.
fn of_scopes(e: ParseScopeError) -> ParseThemeError
    ensures { result ≡ loading.scope_refusal e }
{
    match e {
        ParseScopeError::Memory => ParseThemeError::Memory,
        e => ParseThemeError::ScopeParse(e),
    }
}

/// The selectors of a text.
fn selectors_of(
    alloc: Global,
    text: &str,
    repository: &mut ScopeRepository,
) -> Result<ScopeSelectors, ParseThemeError>
    ensures ok { IfOk result
        (λ selectors. loading.selectors_of_text repository.old text.now ≡ Ok selectors) }
    ensures atoms { OnOk result
        (repository.new ≡ with_scopes repository.old (union_words text.now)) }
    ensures err { IfErr result (Refuses (loading.selectors_of_text repository.old text.now)) }
    ensures whole { IsRepository repository.new }
    ensures kept { take (length repository.old) repository.new ≡ repository.old }
{
    match ScopeSelectors::from_text(alloc, text, repository) {
        Ok(selectors) => Ok(selectors),
        Err(e) => Err(of_scopes(e)),
    }
}

/// The selectors of a value.
pub(crate) fn selectors(
    alloc: Global,
    value: &Value,
    repository: &mut ScopeRepository,
) -> Result<ScopeSelectors, ParseThemeError>
    ensures ok { IfOk result
        (λ selectors. loading.selectors_at repository.old (view value.now) ≡ Ok selectors) }
    ensures atoms { OnOk result
        (repository.new ≡ with_scopes repository.old
        (loading.text_words (as_str (view value.now)))) }
    ensures err { IfErr result (Refuses (loading.selectors_at repository.old (view value.now))) }
    ensures whole { IsRepository repository.new }
    ensures kept { take (length repository.old) repository.new ≡ repository.old }
{
    repository.is_whole();
    match value.as_str() {
        Some(text) => selectors_of(alloc, text, repository),
        None => Err(ParseThemeError::ScopeSelectorIsNotString(shown(alloc, value)?)),
    }
}

/// The colour of a value, if there is one.
fn optional_color(value: Option<&Value>) -> Result<Option<Color>, ParseThemeError>
    ensures { result ≡ loading.optional loading.color_at
        (option_map (λ v. view v.now) value.entry) }
{
    match value {
        Some(value) => match color(value) {
            Ok(color) => Ok(Some(color)),
            Err(e) => Err(e),
        },
        None => Ok(None),
    }
}

/// The flags of a value, if there is one.
fn optional_flags(
    alloc: Global,
    value: Option<&Value>,
) -> Result<Option<FontStyle>, ParseThemeError>
    ensures ok { IfOk result
        (λ flags. loading.optional loading.flags_at (option_map (λ v. view v.now) value.entry)
        ≡ Ok flags) }
    ensures err { IfErr result
        (Refuses (loading.optional loading.flags_at
        (option_map (λ v. view v.now) value.entry))) }
{
    match value {
        Some(value) => match flags(alloc, value) {
            Ok(flags) => Ok(Some(flags)),
            Err(e) => Err(e),
        },
        None => Ok(None),
    }
}

/// The changes that an object makes.
fn changes(alloc: Global, value: &Value) -> Result<StyleModifier, ParseThemeError>
    ensures ok { IfOk result (λ style. loading.changes_in (view value.now) ≡ Ok style) }
    ensures err { IfErr result (Refuses (loading.changes_in (view value.now))) }
{
    let font_style = match optional_flags(alloc, value.get("fontStyle")) {
        Ok(font_style) => font_style,
        Err(e) => return Err(e),
    };
    let foreground = match optional_color(value.get("foreground")) {
        Ok(foreground) => foreground,
        Err(e) => return Err(e),
    };
    let background = match optional_color(value.get("background")) {
        Ok(background) => background,
        Err(e) => return Err(e),
    };
    Ok(StyleModifier {
        foreground,
        background,
        font_style,
    })
}

/// The style of a value.
pub(crate) fn style(alloc: Global, value: &Value) -> Result<StyleModifier, ParseThemeError>
    ensures ok { IfOk result (λ style. loading.style_at (view value.now) ≡ Ok style) }
    ensures err { IfErr result (Refuses (loading.style_at (view value.now))) }
{
    match value.as_object() {
        Some(_) => changes(alloc, value),
        None => Err(ParseThemeError::ColorShemeScopeIsNotObject),
    }
}

/// The selectors of a rule.
fn rule_selectors(
    alloc: Global,
    value: Option<&Value>,
    repository: &mut ScopeRepository,
) -> Result<ScopeSelectors, ParseThemeError>
    ensures ok { IfOk result
        (λ selectors. loading.rule_selectors repository.old
        (option_map (λ v. view v.now) value.entry) ≡ Ok selectors) }
    ensures atoms { OnOk result
        (repository.new ≡ with_scopes repository.old
        (loading.text_words (option_and_then as_str
        (option_map (λ v. view v.now) value.entry)))) }
    ensures err { IfErr result
        (Refuses (loading.rule_selectors repository.old
        (option_map (λ v. view v.now) value.entry))) }
    ensures whole { IsRepository repository.new }
    ensures kept { take (length repository.old) repository.new ≡ repository.old }
{
    repository.is_whole();
    match value {
        Some(value) => selectors(alloc, value, repository),
        None => Err(ParseThemeError::ScopeSelectorIsNotString(Text::new(alloc))),
    }
}

/// The changes that a rule makes.
fn rule_changes(alloc: Global, value: Option<&Value>) -> Result<StyleModifier, ParseThemeError>
    ensures ok { IfOk result
        (λ style. loading.rule_changes (option_map (λ v. view v.now) value.entry) ≡ Ok style) }
    ensures err { IfErr result
        (Refuses (loading.rule_changes (option_map (λ v. view v.now) value.entry))) }
{
    match value {
        Some(value) => style(alloc, value),
        None => Err(ParseThemeError::IncorrectSettings),
    }
}

/// The rule that an object makes.
fn rule_in(
    alloc: Global,
    value: &Value,
    repository: &mut ScopeRepository,
) -> Result<ThemeItem, ParseThemeError>
    ensures ok { IfOk result (λ rule. loading.rule_in repository.old (view value.now) ≡ Ok rule) }
    ensures atoms { OnOk result
        (repository.new ≡ with_scopes repository.old (loading.rule_words (view value.now))) }
    ensures err { IfErr result (Refuses (loading.rule_in repository.old (view value.now))) }
    ensures whole { IsRepository repository.new }
    ensures kept { take (length repository.old) repository.new ≡ repository.old }
{
    let scope = match rule_selectors(alloc, value.get("scope"), repository) {
        Ok(scope) => scope,
        Err(e) => return Err(e),
    };
    match rule_changes(alloc, value.get("settings")) {
        Ok(style) => Ok(ThemeItem { scope, style }),
        Err(e) => Err(e),
    }
}

/// The rule of a value. One that is refused leaves the repository as it was.
pub(crate) fn rule(
    alloc: Global,
    value: &Value,
    repository: &mut ScopeRepository,
) -> Result<ThemeItem, ParseThemeError>
    ensures ok { IfOk result (λ rule. loading.item_at repository.old (view value.now) ≡ Ok rule) }
    ensures atoms { OnOk result
        (repository.new ≡ with_scopes repository.old (loading.rule_words (view value.now))) }
    ensures err { IfErr result (Refuses (loading.item_at repository.old (view value.now))) }
    ensures unchanged { OnErr result (repository.new ≡ repository.old) }
    ensures whole { IsRepository repository.new }
    ensures kept { take (length repository.old) repository.new ≡ repository.old }
{
    repository.is_whole();
    if value.as_object().is_none() {
        return Err(ParseThemeError::ColorShemeScopeIsNotObject);
    }
    let held = repository.atom_count();
    match rule_in(alloc, value, repository) {
        Ok(rule) => Ok(rule),
        Err(e) => {
            repository.forget(held);
            Err(e)
        }
    }
}
