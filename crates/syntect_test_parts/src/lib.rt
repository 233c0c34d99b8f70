//! Tests of the crates that reading stands on, of styles and writers, and of spans with classes,
//! regions, hooks and cleared scopes that no row of the bench holds, by values from outside.
//!
//! They stand in a crate of their own, since a crate that has tests is proved a
//! second time with them.
#![tactic(auto)]

pub mod below;
#[cfg(test)]
mod blocks;
#[cfg(test)]
mod classed;
#[cfg(test)]
mod flags;
#[cfg(test)]
mod found;
#[cfg(test)]
mod operations;
#[cfg(test)]
mod refusals;
#[cfg(test)]
mod rewrites;
#[cfg(test)]
mod scopes;
#[cfg(test)]
mod selectors;
#[cfg(test)]
mod styles;
#[cfg(test)]
mod themes;
#[cfg(test)]
mod values;
#[cfg(test)]
mod writers;
