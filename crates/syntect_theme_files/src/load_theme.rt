//! Values read as themes.
ghost use Rattle.std.specs.Prelude.{◌≡◌, [], length, take, IfOk, OnOk, IfErr, Ok, Err, option_map, option_and_then};
ghost use Rattle.std.specs.Option.{ok_or, option_copied};
ghost use Rattle.serde_json.specs.Data.{Items};
ghost use Rattle.serde_json.specs.Find.{get};
ghost use Rattle.serde_json.specs.View.{view, items_view};
ghost use Rattle.syntect_theme_files.specs.syntect_base.declared.theme.ParseThemeError.{ParseThemeError};
ghost use Rattle.syntect_theme_files.specs.syntect_scope.Repository.{with_scopes, IsRepository};
ghost use Rattle.syntect_theme_files.specs.Loading as loading;
ghost use Rattle.syntect_theme_files.specs.Refusals.{RefusesExactly};

use crate::load::{color, rule, underline};
use crate::syntect_base::theme::ParseThemeError;
use crate::syntect_scope::repository::ScopeRepository;
use crate::syntect_values::seq::Seq;
use crate::syntect_values::text::Text;
use serde_json::Value;
use std::alloc::{AllocError, Global};
use syntect_theme::style::Color;
use syntect_theme::theme::{Theme, ThemeItem, ThemeSettings, UnderlineOption};

/// The colour of a key, if it has one.
fn color_field(value: &Value, key: &str) -> Option<Color>
    ensures { result ≡ loading.color_field (view value.now) key.now }
{
    match value.get(key) {
        Some(value) => color(value).ok(),
        None => None,
    }
}

/// The way of underlining of a key, if it has one.
fn underline_field(value: &Value, key: &str) -> Option<UnderlineOption>
    ensures { result ≡ loading.underline_field (view value.now) key.now }
{
    match value.get(key) {
        Some(value) => underline(value).ok(),
        None => None,
    }
}

/// A text of its own, if there is one.
fn own(alloc: Global, text: Option<&str>) -> Result<Option<Text>, AllocError>
    ensures { IfOk result (λ own. own ≡ option_copied text.entry) }
{
    match text {
        Some(text) => Ok(Some(Text::from_str(alloc, text)?)),
        None => Ok(None),
    }
}

/// The text of a key, if it has one.
fn text_field(alloc: Global, value: &Value, key: &str) -> Result<Option<Text>, AllocError>
    ensures { IfOk result (λ text. text ≡ loading.text_field (view value.now) key.now) }
{
    match value.get(key).and_then(Value::as_str) {
        Some(text) => Ok(Some(Text::from_str(alloc, text)?)),
        None => Ok(None),
    }
}

/// The settings with some of the fields of an object.
fn first_fields(value: &Value, settings: ThemeSettings) -> ThemeSettings
    ensures { result ≡ loading.first_fields (view value.now) settings }
{
    ThemeSettings {
        foreground: color_field(value, "foreground"),
        background: color_field(value, "background"),
        caret: color_field(value, "caret"),
        line_highlight: color_field(value, "lineHighlight"),
        misspelling: color_field(value, "misspelling"),
        minimap_border: color_field(value, "minimapBorder"),
        accent: color_field(value, "accent"),
        ..settings
    }
}

/// The settings with some of the fields of an object.
fn second_fields(
    alloc: Global,
    value: &Value,
    settings: ThemeSettings,
) -> Result<ThemeSettings, AllocError>
    ensures { IfOk result (λ all. all ≡ loading.second_fields (view value.now) settings) }
{
    Ok(ThemeSettings {
        popup_css: text_field(alloc, value, "popupCss")?,
        phantom_css: text_field(alloc, value, "phantomCss")?,
        bracket_contents_foreground: color_field(value, "bracketContentsForeground"),
        bracket_contents_options: underline_field(value, "bracketContentsOptions"),
        brackets_foreground: color_field(value, "bracketsForeground"),
        brackets_background: color_field(value, "bracketsBackground"),
        brackets_options: underline_field(value, "bracketsOptions"),
        ..settings
    })
}

/// The settings with some of the fields of an object.
fn third_fields(value: &Value, settings: ThemeSettings) -> ThemeSettings
    ensures { result ≡ loading.third_fields (view value.now) settings }
{
    ThemeSettings {
        tags_foreground: color_field(value, "tagsForeground"),
        tags_options: underline_field(value, "tagsOptions"),
        highlight: color_field(value, "highlight"),
        find_highlight: color_field(value, "findHighlight"),
        find_highlight_foreground: color_field(value, "findHighlightForeground"),
        gutter: color_field(value, "gutter"),
        gutter_foreground: color_field(value, "gutterForeground"),
        selection: color_field(value, "selection"),
        ..settings
    }
}

/// The settings with some of the fields of an object.
fn fourth_fields(value: &Value, settings: ThemeSettings) -> ThemeSettings
    ensures { result ≡ loading.fourth_fields (view value.now) settings }
{
    ThemeSettings {
        selection_foreground: color_field(value, "selectionForeground"),
        selection_border: color_field(value, "selectionBorder"),
        inactive_selection: color_field(value, "inactiveSelection"),
        inactive_selection_foreground: color_field(value, "inactiveSelectionForeground"),
        guide: color_field(value, "guide"),
        active_guide: color_field(value, "activeGuide"),
        stack_guide: color_field(value, "stackGuide"),
        shadow: color_field(value, "shadow"),
        ..settings
    }
}

/// The settings of an object.
fn settings_in(alloc: Global, value: &Value) -> Result<ThemeSettings, AllocError>
    ensures { IfOk result (λ settings. settings ≡ loading.settings_in (view value.now)) }
{
    let settings = first_fields(value, ThemeSettings::default());
    let settings = second_fields(alloc, value, settings)?;
    Ok(fourth_fields(value, third_fields(value, settings)))
}

/// The object that has settings.
fn settings_object(value: &Value) -> Result<&Value, ParseThemeError>
    ensures ok { IfOk result (λ object.
        loading.settings_at (view value.now) ≡ Ok (loading.settings_in (view object.now))) }
    ensures err { IfErr result (λ e. loading.settings_at (view value.now) ≡ Err e) }
{
    match value.as_object() {
        Some(_) => Ok(value),
        None => Err(ParseThemeError::ColorShemeSettingsIsNotObject),
    }
}

/// The settings of a value.
pub(crate) fn settings(alloc: Global, value: &Value) -> Result<ThemeSettings, ParseThemeError>
    ensures ok { IfOk result (λ settings. loading.settings_at (view value.now) ≡ Ok settings) }
    ensures err { IfErr result (RefusesExactly (loading.settings_at (view value.now))) }
{
    match settings_object(value) {
        Ok(object) => Ok(settings_in(alloc, object)?),
        Err(e) => Err(e),
    }
}

/// The settings with those of a gutter, where they stand apart and these are open.
fn with_gutter(gutter: Option<&Value>, settings: ThemeSettings) -> ThemeSettings
    ensures { result ≡ loading.with_gutter (option_map (λ v. view v.now) gutter.entry) settings }
{
    match gutter {
        Some(value) => ThemeSettings {
            gutter: settings.gutter.or(color_field(value, "background")),
            gutter_foreground: settings
                .gutter_foreground
                .or(color_field(value, "foreground")),
            ..settings
        },
        None => settings,
    }
}

/// The text of a value, if there is one.
fn own_text(value: Option<&Value>) -> Result<Option<&str>, ParseThemeError>
    ensures ok { IfOk result (λ text. loading.own_text (option_map (λ v. view v.now) value.entry)
        ≡ Ok (option_copied text)) }
    ensures err { IfErr result
        (λ e. loading.own_text (option_map (λ v. view v.now) value.entry) ≡ Err e) }
{
    match value {
        Some(value) => match value.as_str() {
            Some(text) => Ok(Some(text)),
            None => Err(ParseThemeError::IncorrectSyntax),
        },
        None => Ok(None),
    }
}

/// The object with the settings, which the first item of a theme has.
fn first_settings(items: &[Value]) -> Result<&Value, ParseThemeError>
    ensures ok { IfOk result (λ value.
        loading.first_settings (items_view items.now) ≡ Ok (loading.settings_in (view value.now))) }
    ensures err { IfErr result (λ e. loading.first_settings (items_view items.now) ≡ Err e) }
{
    match items.first() {
        Some(item) => match item.get("settings") {
            Some(value) => settings_object(value),
            None => Err(ParseThemeError::UndefinedSettings),
        },
        None => Err(ParseThemeError::UndefinedSettings),
    }
}

/// The items of a theme.
fn items_of(value: &Value) -> Result<&[Value], ParseThemeError>
    ensures ok { IfOk result
        (λ items. loading.items_at (view value.now) ≡ Ok (items_view items.now)) }
    ensures err { IfErr result (λ e. loading.items_at (view value.now) ≡ Err e) }
{
    match value.get("settings").and_then(Value::as_array) {
        Some(items) => Ok(items.as_slice()),
        None => Err(ParseThemeError::IncorrectSyntax),
    }
}

/// What stands round the rules in an object. Memory is taken when nothing else is left to refuse.
fn head_in(alloc: Global, value: &Value) -> Result<Theme, ParseThemeError>
    ensures ok { IfOk result (λ theme. loading.head_in (view value.now) ≡ Ok theme) }
    ensures bare { IfOk result (λ theme. theme.scopes ≡ []) }
    ensures err { IfErr result (RefusesExactly (loading.head_in (view value.now))) }
{
    let name = match own_text(value.get("name")) {
        Ok(name) => name,
        Err(e) => return Err(e),
    };
    let author = match own_text(value.get("author")) {
        Ok(author) => author,
        Err(e) => return Err(e),
    };
    let items = match items_of(value) {
        Ok(items) => items,
        Err(e) => return Err(e),
    };
    let first = match first_settings(items) {
        Ok(first) => first,
        Err(e) => return Err(e),
    };
    match bare_theme(alloc, value, name, author, first) {
        Ok(theme) => Ok(theme),
        Err(_) => Err(ParseThemeError::Memory),
    }
}

/// A theme of this name, by this author, with the settings of an object.
fn bare_theme(
    alloc: Global,
    value: &Value,
    name: Option<&str>,
    author: Option<&str>,
    first: &Value,
) -> Result<Theme, AllocError>
    ensures { IfOk result (λ theme. theme ≡ loading.bare_theme (view value.now)
        (option_copied name.entry) (option_copied author.entry)
        (loading.settings_in (view first.now))) }
{
    let name = own(alloc, name)?;
    let author = own(alloc, author)?;
    let settings = settings_in(alloc, first)?;
    Ok(Theme {
        name,
        author,
        settings: with_gutter(value.get("gutterSettings"), settings),
        scopes: Seq::new(alloc),
    })
}

/// A theme without its rules.
fn head(alloc: Global, value: &Value) -> Result<Theme, ParseThemeError>
    ensures ok { IfOk result (λ theme. loading.head_at (view value.now) ≡ Ok theme) }
    ensures bare { IfOk result (λ theme. theme.scopes ≡ []) }
    ensures err { IfErr result (RefusesExactly (loading.head_at (view value.now))) }
{
    match value.as_object() {
        Some(_) => head_in(alloc, value),
        None => Err(ParseThemeError::IncorrectSyntax),
    }
}

/// The items after the first.
fn later(items: &[Value]) -> &[Value]
    ensures { items_view result.now ≡ loading.later_items (items_view items.now) }
{
    match items.split_first() {
        Some((_, later)) => later,
        None => items,
    }
}

/// The rules of values, but for those that are refused, which leave no atoms.
fn rules(
    alloc: Global,
    items: &[Value],
    repository: &mut ScopeRepository,
) -> Result<Seq<ThemeItem>, AllocError>
    ensures ok { IfOk result (λ rules.
        rules ≡ loading.rules_in repository.old (items_view items.now)) }
    ensures atoms { OnOk result
        (repository.new ≡ loading.after_rules repository.old (items_view items.now)) }
    ensures whole { IsRepository repository.new }
    ensures kept { take (length repository.old) repository.new ≡ repository.old }
{
    repository.is_whole();
    let mut rules = Seq::new(alloc);
    for item in items {
        match rule(alloc, item, repository) {
            Ok(rule) => rules.push(rule)?,
            Err(ParseThemeError::Memory) => return Err(AllocError),
            Err(_other) => {}
        }
    }
    Ok(rules)
}

/// The theme of a value.
pub(crate) fn theme(
    alloc: Global,
    value: &Value,
    repository: &mut ScopeRepository,
) -> Result<Theme, ParseThemeError>
    ensures ok { IfOk result (loading.IsTheme repository.old (view value.now) repository.new) }
    ensures err { IfErr result (RefusesExactly (loading.head_at (view value.now))) }
    ensures whole { IsRepository repository.new }
    ensures kept { take (length repository.old) repository.new ≡ repository.old }
{
    repository.is_whole();
    let mut theme = match head(alloc, value) {
        Ok(theme) => theme,
        Err(e) => return Err(e),
    };
    let items = match items_of(value) {
        Ok(items) => items,
        Err(e) => return Err(e),
    };
    theme.scopes = rules(alloc, later(items), repository)?;
    Ok(theme)
}
