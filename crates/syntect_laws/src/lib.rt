//! Laws that no body of the library cites: of YAML, of loading and linking, of reading, and worked
//! examples of patterns.
#![tactic(auto)]

pub mod grammar;
pub mod loader;
pub mod reading;
pub mod yaml;
pub mod yaml_calls;
