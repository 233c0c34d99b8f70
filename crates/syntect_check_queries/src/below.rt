//! What stands below, as far as it is used here or passed on.

/// Of `syntect_regex`.
pub mod regexes {
    pub use syntect_regex::{regex, region};
}
