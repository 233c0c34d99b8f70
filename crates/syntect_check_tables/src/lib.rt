//! The examples of docs/EXAMPLES.md that need no grammar: parts of a row's file, and tables of
//! questions with their answers.
#![tactic(auto)]

pub mod answers;
pub mod below;
pub mod changes;
mod cutting;
pub mod engine;
pub mod row_file;
mod scoring;
pub mod showing;
pub mod styles;
pub mod styling;
mod theme_folders;
mod themes;
pub mod written;
