//! Colours, flags of fonts, styles, and themes as values.
//!
//! A theme is a list of rules: a rule's selectors say on which scopes it acts, and its modifier
//! which attributes of a style it sets.
#![tactic(auto)]

mod flags;
mod formats;
pub mod style;
mod texts;
pub mod theme;

pub use syntect_base;
pub use syntect_base::{syntect_scope, syntect_values};
