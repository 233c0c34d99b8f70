//! What programs show texts with, in one value: grammars, the texts of their scopes, and themes.
//!
//! `Assets::from_folder` reads a folder of grammars and themes; `show_text` and `show_file` then
//! show a text or a file in one call.
#![tactic(auto)]

pub mod assets;
pub mod below;
pub mod builder;
pub mod error;
pub mod format;
pub mod lines;
pub mod screen;
mod writer;
