//! Styled pieces as text: HTML with inline styles, text for terminals, and LaTeX.
//!
//! Pieces are pairs of a style and a part of a line, as the highlighters give them.
#![tactic(auto)]

mod bytes;
pub mod class_style;
pub mod classed;
mod comment;
pub mod escape;
pub mod html;
mod identifier;
pub mod latex;
pub mod laws;
pub mod lines;
mod marks;
pub mod marks_seen;
pub mod sheet;
pub mod sheet_laws;
pub mod spans;
mod tail;
pub mod terminal;
mod text;

pub use syntect_theme::syntect_scope;
