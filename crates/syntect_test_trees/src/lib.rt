//! Calls on files and folders, of a tree in memory that answers as no disk can be made to.
#![tactic(auto)]

pub mod below;
pub mod failing;
pub mod fake;
#[cfg(test)]
mod folders;
#[cfg(test)]
mod found;
#[cfg(test)]
mod given;
#[cfg(test)]
mod shown;
