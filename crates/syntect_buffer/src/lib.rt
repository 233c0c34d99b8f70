//! The lines of a text in an editor, each with its styles. After any edits the answers are those of
//! a new highlighter that is given all lines in order, and an edit reads no more lines again than
//! those whose start it changed.
#![tactic(auto)]

pub mod answer;
pub mod below;
pub mod buffer;
mod edits;
mod reading;
mod states;
