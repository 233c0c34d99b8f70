//! Metadata: how lines are indented and what comments look like, by scope.
//!
//! A file gives an entry: a scope text and settings. Entries are put together by their scope texts
//! and become sets, each with selectors and items. The sets that match a stack of scopes, the best
//! first, say how a line there is indented and which marks its comments have.
#![tactic(auto)]

pub mod below;
pub mod error;
pub mod items;
mod merge;
pub mod metadata;
pub mod raw;
pub mod scoped;
pub mod set;
mod values;
