//! How contexts are linked: where references lead, which contexts get the prototype of their
//! syntax, and which refer back.
//!
//! It works on the heads of syntaxes, which have all but their contexts, and on the contexts as
//! they were given.
#![tactic(auto)]

pub mod below;
mod directory;
pub mod link;
mod reached;
pub mod unlinked;
