//! Callers that carry the promises of the library to their end: from definitions, or from the texts
//! of grammars, to a page and to the pieces of lines. Their contracts are the whole promise, with
//! nothing to be known of the grammars. And one from a set and a text to what a reader of the
//! text's page with classes sees.
#![tactic(auto)]

pub mod again;
pub mod below;
pub mod classed;
pub mod third;
pub mod whole;
