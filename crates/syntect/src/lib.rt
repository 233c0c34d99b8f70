//! Syntax highlighting: a grammar says which scopes stand over each byte of a text, and a theme in
//! which style stacks of scopes are shown.
//!
//! `assets::Assets` holds the grammars and themes of a folder, and shows a text or a file in one
//! call. `easy::HighlightLines` takes lines one after another and answers styled pieces. The modules
//! `parsing` and `highlighting` have the parts that it is made of. `documents` has pages with numbered
//! and marked lines, and one style sheet for light and dark screens. `buffer::LineBuffer` keeps the
//! styles of a text that is edited, `tree` has what calls on files and folders take, and `values` the
//! types of lists, texts and tables that fields have.
#![tactic(auto)]

pub mod assets;
pub mod buffer;
pub mod documents;
pub mod tree;
pub mod values;

pub use syntect_buffer::below::easy::{
    Error, LoadingError, easy, escape, explain, highlighting, html, laws, parsing, reading, util,
};
