//! Lines and texts in colour: the highlighter of lines, pages of HTML, classed spans, and the paths
//! that users of `syntect` know, which passes them on.
#![tactic(auto)]

pub mod below;
mod classed;
pub mod easy;
pub mod explain;
pub mod highlighting;
pub mod html;
pub mod laws;
mod memory;
pub mod parsing;
pub mod reading;
pub mod util;
mod within;

pub use crate::below::base::loading::LoadingError;
pub use syntect_parsing::error::Error;
pub use syntect_writers::escape;
