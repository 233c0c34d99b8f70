//! Tests of patterns, of YAML, of metadata and of loading within limits.
#![tactic(auto)]

#[cfg(test)]
mod answers;
pub mod below;
#[cfg(test)]
mod files;
#[cfg(test)]
mod found;
#[cfg(test)]
mod given;
#[cfg(test)]
mod limits;
#[cfg(test)]
mod merging;
#[cfg(test)]
mod refusals;
#[cfg(test)]
mod searches;
#[cfg(test)]
mod yaml;
