//! Tests of calls on files and folders, and of the program.
#![tactic(auto)]

#[cfg(test)]
mod assets;
pub mod below;
#[cfg(test)]
mod desk;
#[cfg(test)]
mod faults;
#[cfg(test)]
mod files;
#[cfg(test)]
mod folders_within;
#[cfg(test)]
mod found;
#[cfg(test)]
mod loads;
#[cfg(test)]
mod metadata;
#[cfg(test)]
mod shown;
#[cfg(test)]
mod taken;
