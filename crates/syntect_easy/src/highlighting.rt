//! Themes, styles and the highlighter.
pub use crate::below::base::loading::SettingsError;
pub use crate::below::base::theme::ParseThemeError;
pub use crate::below::scope::selector::{ScopeSelector, ScopeSelectors};
pub use crate::below::theme::style::{Color, FontStyle, Style, StyleModifier};
pub use crate::below::theme::theme::{Theme, ThemeItem, ThemeSettings, UnderlineOption};
pub use syntect_style::highlighter::{Highlighter, ScoredStyle};
pub use syntect_style::pieces::{HighlightIterator, RangedHighlightIterator};
pub use syntect_style::state::HighlightState;
pub use syntect_theme_files::theme_load::{ParseSettings, Settings};
pub use syntect_theme_files::theme_set::ThemeSet;
