//! Why a text is no pattern.
pub use crate::below::pattern::error::PatternError;
