//! Tests of reading, by values from outside, and calls of the proved callers.
//!
//! They stand in a crate of their own, since a crate that has tests is proved a
//! second time with them.
#![tactic(auto)]

pub mod below;
#[cfg(test)]
mod buffers;
#[cfg(test)]
mod callers;
#[cfg(test)]
mod classed;
#[cfg(test)]
mod found;
#[cfg(test)]
mod pages;
#[cfg(test)]
mod refusals;
#[cfg(test)]
mod restores;
#[cfg(test)]
mod states;
#[cfg(test)]
mod turns;
#[cfg(test)]
mod within;
