//! Flat lists of patterns: what is kept of a pattern, which patterns can begin where something
//! stands, and which contexts a walk has entered.
#![tactic(auto)]

pub mod below;
pub mod entered;
pub mod flats;
mod forms;
pub mod list;
mod packed;
mod rows;
mod sides;
mod slims;
mod spots;
