//! What the bench measures: loading, reading, styles, scopes and documents, each with its time.
#![tactic(auto)]

pub mod atoms;
pub mod below;
pub mod documents;
pub mod first;
pub mod loads;
pub mod reading;
pub mod styles;
pub mod theme_files;
