//! Texts as parts of documents: lines with numbers, names and marks, with inline styles or with
//! classes; one style sheet for two themes; and whole documents of HTML.
#![tactic(auto)]

pub mod below;
pub mod classed;
pub mod document;
pub mod lines;
pub mod numbered;
pub mod sheet;
