//! Tests of texts as parts of documents.
#![tactic(auto)]

#[cfg(test)]
mod classed;
#[cfg(test)]
mod documents;
#[cfg(test)]
mod given;
#[cfg(test)]
mod lines;
