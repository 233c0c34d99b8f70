//! The worked examples of docs/EXAMPLES.md: files of what is given and found, a runner, and calls.
#![tactic(auto)]

pub mod below;
pub mod calls;
pub mod files;
mod finding;
mod folders;
mod given;
mod made;
mod operations;
mod readers;
pub mod run;
mod runs;
mod searching;
mod styled;
mod tables;
