//! Calls that copy values and that make and read sets, each tried where requests for memory are
//! refused.
#![tactic(auto)]

pub mod below;
pub mod calls;
pub mod copies;
mod folders;
mod metadata;
mod patterns;
mod scopes;
mod searches;
pub mod set_calls;
mod set_copies;
pub mod set_given;
mod sets;
mod settings;
mod styles;
