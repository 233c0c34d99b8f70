//! A function of a user's own with a contract of its own, over `syntect` alone: a page by the grammars
//! of a folder, as its files were read.
#![tactic(auto)]

pub mod folder;
