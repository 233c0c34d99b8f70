//! Shows a text file, highlighted: grammars from a folder and a theme from a file,
//! as HTML or for a terminal.
//!
//! `run` is the whole program `syncat` over its words, the file system and two writers.
#![tactic(auto)]

pub mod below;
pub mod fault;
pub mod job;
mod lines;
mod note;
mod program;
mod put;
mod show;

pub use crate::program::run;
