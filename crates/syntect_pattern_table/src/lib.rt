//! The tree of a pattern as a table of nodes, its sets of characters, and what matches begin with.
#![tactic(auto)]

mod ascii;
pub mod jumps;
pub mod lengths;
pub mod needs;
pub mod node;
pub mod place_list;
pub mod program;
pub mod sets;
pub mod starts;

pub use syntect_values;
