//! Themes and their parts from values.
ghost use Rattle.std.specs.Prelude.{◌≡◌, length, take, IfOk, OnOk, IfErr, OnErr, Ok};
ghost use Rattle.serde_json.specs.Find.{as_str};
ghost use Rattle.serde_json.specs.View.{view};
ghost use Rattle.syntect_theme_files.specs.syntect_scope.Repository.{with_scopes, IsRepository};
ghost use Rattle.syntect_theme_files.specs.Loading as loading;
ghost use Rattle.syntect_theme.specs.Refusals.{Refuses};
ghost use Rattle.syntect_theme_files.specs.Refusals.{RefusesExactly};

pub use crate::syntect_base::settings::Settings;
use crate::syntect_base::theme::ParseThemeError;
use crate::syntect_scope::repository::ScopeRepository;
use crate::syntect_scope::selector::ScopeSelectors;
use crate::{load, load_theme};
use std::alloc::Global;
use syntect_theme::style::{Color, FontStyle, StyleModifier};
use syntect_theme::theme::{Theme, ThemeItem, ThemeSettings, UnderlineOption};

/// What can be read from a value.
pub trait ParseSettings: Sized {
    /// Why a value is refused.
    type Error;

    /// Reads a value, of which the repository takes up the scopes.
    fn parse_settings(
        alloc: Global,
        settings: Settings,
        repository: &mut ScopeRepository,
    ) -> Result<Self, Self::Error>;
}

impl ParseSettings for Color {
    type Error = ParseThemeError;

    /// The colour of a text; any other value is `IncorrectColor`.
    fn parse_settings(
        _alloc: Global,
        settings: Settings,
        _repository: &mut ScopeRepository,
    ) -> Result<Color, ParseThemeError>
        ensures value { result ≡ loading.color_at (view settings) }
        ensures repository { _repository.new ≡ _repository.old }
    {
        load::color(&settings)
    }
}

impl ParseSettings for UnderlineOption {
    type Error = ParseThemeError;

    /// The way of underlining of a text; any other value is `IncorrectUnderlineOption`.
    fn parse_settings(
        _alloc: Global,
        settings: Settings,
        _repository: &mut ScopeRepository,
    ) -> Result<UnderlineOption, ParseThemeError>
        ensures value { result ≡ loading.underline_at (view settings) }
        ensures repository { _repository.new ≡ _repository.old }
    {
        load::underline(&settings)
    }
}

impl ParseSettings for FontStyle {
    type Error = ParseThemeError;

    /// The flags of a text; any other value is `IncorrectFontStyle` with the value as compact JSON.
    fn parse_settings(
        alloc: Global,
        settings: Settings,
        _repository: &mut ScopeRepository,
    ) -> Result<FontStyle, ParseThemeError>
        ensures ok { IfOk result (λ flags. loading.flags_at (view settings) ≡ Ok flags) }
        ensures err { IfErr result (Refuses (loading.flags_at (view settings))) }
        ensures repository { _repository.new ≡ _repository.old }
    {
        load::flags(alloc, &settings)
    }
}

impl ParseSettings for ScopeSelectors {
    type Error = ParseThemeError;

    /// The selectors of a text; any other value is `ScopeSelectorIsNotString` with the value as
    /// compact JSON.
    fn parse_settings(
        alloc: Global,
        settings: Settings,
        repository: &mut ScopeRepository,
    ) -> Result<ScopeSelectors, ParseThemeError>
        ensures ok { IfOk result
            (λ selectors. loading.selectors_at repository.old (view settings) ≡ Ok selectors) }
        ensures atoms { OnOk result
            (repository.new ≡ with_scopes repository.old
            (loading.text_words (as_str (view settings)))) }
        ensures err { IfErr result (Refuses (loading.selectors_at repository.old (view settings))) }
        ensures whole { IsRepository repository.new }
        ensures kept { take (length repository.old) repository.new ≡ repository.old }
    {
        load::selectors(alloc, &settings, repository)
    }
}

impl ParseSettings for StyleModifier {
    type Error = ParseThemeError;

    /// The changes that an object makes by `fontStyle`, `foreground` and `background`, each of
    /// which may be missing. Any other value is `ColorShemeScopeIsNotObject`, and one of the three
    /// is refused as it is alone.
    fn parse_settings(
        alloc: Global,
        settings: Settings,
        _repository: &mut ScopeRepository,
    ) -> Result<StyleModifier, ParseThemeError>
        ensures ok { IfOk result (λ style. loading.style_at (view settings) ≡ Ok style) }
        ensures err { IfErr result (Refuses (loading.style_at (view settings))) }
        ensures repository { _repository.new ≡ _repository.old }
    {
        load::style(alloc, &settings)
    }
}

impl ParseSettings for ThemeItem {
    type Error = ParseThemeError;

    /// The rule of an object with `scope` and `settings`. Any other value is
    /// `ColorShemeScopeIsNotObject`; a missing `scope` is `ScopeSelectorIsNotString` without text,
    /// and missing `settings` are `IncorrectSettings`.
    fn parse_settings(
        alloc: Global,
        settings: Settings,
        repository: &mut ScopeRepository,
    ) -> Result<ThemeItem, ParseThemeError>
        ensures ok { IfOk result
            (λ rule. loading.item_at repository.old (view settings) ≡ Ok rule) }
        ensures atoms { OnOk result
            (repository.new ≡ with_scopes repository.old (loading.rule_words (view settings))) }
        ensures err { IfErr result (Refuses (loading.item_at repository.old (view settings))) }
        ensures unchanged { OnErr result (repository.new ≡ repository.old) }
        ensures whole { IsRepository repository.new }
        ensures kept { take (length repository.old) repository.new ≡ repository.old }
    {
        load::rule(alloc, &settings, repository)
    }
}

impl ParseSettings for ThemeSettings {
    type Error = ParseThemeError;

    /// The settings of an object; a wrong value of a key counts as missing. Any other value is
    /// `ColorShemeSettingsIsNotObject`.
    fn parse_settings(
        alloc: Global,
        settings: Settings,
        _repository: &mut ScopeRepository,
    ) -> Result<ThemeSettings, ParseThemeError>
        ensures ok { IfOk result (λ all. loading.settings_at (view settings) ≡ Ok all) }
        ensures err { IfErr result (RefusesExactly (loading.settings_at (view settings))) }
        ensures repository { _repository.new ≡ _repository.old }
    {
        load_theme::settings(alloc, &settings)
    }
}

impl ParseSettings for Theme {
    type Error = ParseThemeError;

    /// The theme of an object. Its first item has the settings, the later ones are rules, of which
    /// those that are refused for another cause than memory are silently left out, as one whose
    /// colour is none. `IncorrectSyntax`, `UndefinedSettings` and `ColorShemeSettingsIsNotObject`
    /// speak of what stands round the rules, and are tested before memory is taken.
    fn parse_settings(
        alloc: Global,
        settings: Settings,
        repository: &mut ScopeRepository,
    ) -> Result<Theme, ParseThemeError>
        ensures ok { IfOk result (loading.IsTheme repository.old (view settings) repository.new) }
        ensures err { IfErr result (RefusesExactly (loading.head_at (view settings))) }
        ensures whole { IsRepository repository.new }
        ensures kept { take (length repository.old) repository.new ≡ repository.old }
    {
        load_theme::theme(alloc, &settings, repository)
    }
}
