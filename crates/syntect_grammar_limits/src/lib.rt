//! Loading and finding within limits that a host sets: a grammar, the grammars of a folder, and a
//! syntax by a first line.
#![tactic(auto)]

pub mod below;
mod files;
pub mod first_line_error;
pub mod first_lines;
pub mod folder_error;
pub mod folder_laws;
pub mod folders;
pub mod lenient;
pub mod limit_laws;
mod patterns;
pub mod within;
