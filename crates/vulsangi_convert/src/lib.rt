//! Themes of other editors, as JSON.
#![tactic(auto)]

pub mod convert;
pub mod loose;
pub mod plist;
