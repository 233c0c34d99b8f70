//! Which match a turn takes: the patterns that it looks at, what of them begins first, and where a
//! reader of lines stands. It says nothing of what a match does,
//! so that it is proved apart from that.
#![tactic(auto)]

pub mod below;
pub mod chain;
pub mod halt;
pub mod here;
pub mod laws;
pub mod level;
pub mod levels;
pub mod position;
pub mod reader;
pub mod runs;
pub mod search;
pub mod sweep;
