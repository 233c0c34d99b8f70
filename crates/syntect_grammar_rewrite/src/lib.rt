//! What the loader of grammars does to the text of a pattern before it is compiled.
//!
//! `rewrite` expands variables, names classes by categories and writes the ends of lines for lines
//! that have their newline or have none. `tested` and `refers_back` are about references to groups.
#![tactic(auto)]

mod classes;
mod expand;
pub mod lengths;
mod newlines;
pub mod references;
mod replace;
pub mod rewrite;
mod signs;

pub use syntect_values;
