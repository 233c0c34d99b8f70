//! Calls of scopes, patterns, themes, writers and metadata that are made while memory is refused.
#![tactic(auto)]

pub mod below;
pub mod calls;
mod files;
pub mod given;
pub mod marks;
pub mod metadata;
mod patterns;
mod scopes;
mod selectors;
mod styles;
mod writers;
