//! Themes read from values of JSON, and sets of them from readers, files and folders.
#![tactic(auto)]

mod load;
mod load_theme;
pub mod theme_load;
pub mod theme_set;

pub use syntect_theme::{syntect_base, syntect_scope, syntect_values};
