//! Themes.
ghost use Rattle.std.specs.Prelude.{◌≡◌, [], None, IfOk};
ghost use Rattle.syntect_theme.specs.Themes.{no_settings, no_change};

use crate::style::{Color, StyleModifier};
use crate::syntect_scope::selector::ScopeSelectors;
use crate::syntect_values::seq::Seq;
use crate::syntect_values::text::Text;
use std::alloc::{AllocError, Global};

/// How a bracket or a tag beside the caret is underlined.
#[derive(Clone, Copy, Debug, Default, PartialEq)]
pub enum UnderlineOption {
    /// Not at all.
    #[default]
    None,
    /// By a line.
    Underline,
    /// By a line of dots.
    StippledUnderline,
    /// By a wave.
    SquigglyUnderline,
}

/// A theme: its rules, and the colours of what stands round the text.
#[derive(Debug, PartialEq)]
pub struct Theme {
    /// Its name.
    pub name: Option<Text>,
    /// Who wrote it.
    pub author: Option<Text>,
    /// The colours of an editor, and those of text that no rule styles.
    pub settings: ThemeSettings,
    /// The rules, in order.
    pub scopes: Seq<ThemeItem>,
}

/// Written out, so that crates above call it and needn't prove each part's drop again.
impl Drop for Theme {
    fn drop(self) {
        let Theme {
            name: _,
            author: _,
            settings: _,
            scopes: _,
        } = self;
    }
}

/// The colours of an editor. `foreground` and `background` are also those of text
/// that no rule styles.
#[derive(Debug, Drop, PartialEq)]
pub struct ThemeSettings {
    /// Text that no rule styles.
    pub foreground: Option<Color>,
    /// Behind text that no rule styles.
    pub background: Option<Color>,
    /// The caret.
    pub caret: Option<Color>,
    /// The line that the caret is in.
    pub line_highlight: Option<Color>,
    /// The wave under a misspelled word.
    pub misspelling: Option<Color>,
    /// The border round the part of the minimap that is in view.
    pub minimap_border: Option<Color>,
    /// A colour for the theme's own use.
    pub accent: Option<Color>,
    /// CSS for popups.
    pub popup_css: Option<Text>,
    /// CSS for phantoms.
    pub phantom_css: Option<Text>,
    /// Brackets round the caret.
    pub bracket_contents_foreground: Option<Color>,
    /// How brackets round the caret are underlined.
    pub bracket_contents_options: Option<UnderlineOption>,
    /// Brackets beside the caret.
    pub brackets_foreground: Option<Color>,
    /// Behind brackets beside the caret.
    pub brackets_background: Option<Color>,
    /// How brackets beside the caret are underlined.
    pub brackets_options: Option<UnderlineOption>,
    /// Tags beside the caret.
    pub tags_foreground: Option<Color>,
    /// How tags beside the caret are underlined.
    pub tags_options: Option<UnderlineOption>,
    /// The border of other matches of a search.
    pub highlight: Option<Color>,
    /// Behind the matches of a search.
    pub find_highlight: Option<Color>,
    /// The text of the matches of a search.
    pub find_highlight_foreground: Option<Color>,
    /// The gutter.
    pub gutter: Option<Color>,
    /// The text in the gutter.
    pub gutter_foreground: Option<Color>,
    /// Behind selected text.
    pub selection: Option<Color>,
    /// Selected text, in place of its rules' colour.
    pub selection_foreground: Option<Color>,
    /// The border of the selection.
    pub selection_border: Option<Color>,
    /// Behind selected text in a view without focus.
    pub inactive_selection: Option<Color>,
    /// Selected text in a view without focus.
    pub inactive_selection_foreground: Option<Color>,
    /// The guides that show how deep lines are indented.
    pub guide: Option<Color>,
    /// The guide beside the caret.
    pub active_guide: Option<Color>,
    /// The guide next to that beside the caret.
    pub stack_guide: Option<Color>,
    /// The shadow where text goes on to the side.
    pub shadow: Option<Color>,
}

/// A rule: where it acts, and what it changes.
#[derive(Debug, PartialEq)]
pub struct ThemeItem {
    /// Where it acts.
    pub scope: ScopeSelectors,
    /// What it changes.
    pub style: StyleModifier,
}

/// Written out, so that crates above call it and needn't prove each part's drop again.
impl Drop for ThemeItem {
    fn drop(self) {
        let ThemeItem { scope: _, style: _ } = self;
    }
}

impl Theme {
    /// A theme without name, author, settings and rules. Takes no memory.
    pub fn default(alloc: Global) -> Theme
        ensures { result ≡ record {
          name = None;
          author = None;
          settings = no_settings;
          scopes = [];
        } }
    {
        Theme {
            name: None,
            author: None,
            settings: ThemeSettings::default(),
            scopes: Seq::new(alloc),
        }
    }

    /// A copy of the theme.
    pub fn clone(&self) -> Result<Theme, AllocError>
        ensures { IfOk result (λ t. t ≡ self.now) }
    {
        Ok(Theme {
            name: self.name.clone()?,
            author: self.author.clone()?,
            settings: self.settings.clone()?,
            scopes: self.scopes.clone()?,
        })
    }
}

impl Clone for Theme {
    ghost is_clone = { λ x y. y ≡ x };

    fn clone(&self) -> Result<Theme, AllocError> {
        Theme::clone(self)
    }
}

impl ThemeSettings {
    /// No settings. Takes no memory.
    pub fn default() -> ThemeSettings
        ensures { result ≡ no_settings }
    {
        ThemeSettings {
            foreground: None,
            background: None,
            caret: None,
            line_highlight: None,
            misspelling: None,
            minimap_border: None,
            accent: None,
            popup_css: None,
            phantom_css: None,
            bracket_contents_foreground: None,
            bracket_contents_options: None,
            brackets_foreground: None,
            brackets_background: None,
            brackets_options: None,
            tags_foreground: None,
            tags_options: None,
            highlight: None,
            find_highlight: None,
            find_highlight_foreground: None,
            gutter: None,
            gutter_foreground: None,
            selection: None,
            selection_foreground: None,
            selection_border: None,
            inactive_selection: None,
            inactive_selection_foreground: None,
            guide: None,
            active_guide: None,
            stack_guide: None,
            shadow: None,
        }
    }

    /// A copy of the settings.
    pub fn clone(&self) -> Result<ThemeSettings, AllocError>
        ensures { IfOk result (λ s. s ≡ self.now) }
    {
        Ok(ThemeSettings {
            popup_css: self.popup_css.clone()?,
            phantom_css: self.phantom_css.clone()?,
            ..*self
        })
    }
}

impl Clone for ThemeSettings {
    ghost is_clone = { λ x y. y ≡ x };

    fn clone(&self) -> Result<ThemeSettings, AllocError> {
        ThemeSettings::clone(self)
    }
}

impl ThemeItem {
    /// A rule that acts nowhere and changes nothing. Takes no memory.
    pub fn default(alloc: Global) -> ThemeItem
        ensures { result ≡ record { scope = record { selectors = [] }; style = no_change } }
    {
        ThemeItem {
            scope: ScopeSelectors {
                selectors: Seq::new(alloc),
            },
            style: StyleModifier::default(),
        }
    }

    /// A copy of the rule.
    pub fn clone(&self) -> Result<ThemeItem, AllocError>
        ensures { IfOk result (λ i. i ≡ self.now) }
    {
        Ok(ThemeItem {
            scope: self.scope.clone()?,
            style: self.style,
        })
    }
}

impl Clone for ThemeItem {
    ghost is_clone = { λ x y. y ≡ x };

    fn clone(&self) -> Result<ThemeItem, AllocError> {
        ThemeItem::clone(self)
    }
}
