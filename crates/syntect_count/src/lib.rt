//! Counts that contracts see: how many turns a reader of lines made, and how many steps searches
//! took; and how many steps are left, where a host limits them.
#![tactic(auto)]

pub mod count;
pub mod counts;
pub mod meter;
pub mod stop;
