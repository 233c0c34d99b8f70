//! What stands below, as far as it is used here or passed on.

pub use syntect_reading_choice::below::{base, grammar, reading_state, scope, values, yaml};

/// Of `syntect_count`.
pub mod count {
    pub use syntect_reading_choice::below::count::{count, counts, meter};
}

/// Of `syntect_pattern`.
pub mod pattern {
    pub use syntect_reading_choice::below::pattern::laws;
}

/// Of `syntect_regex`.
pub mod regexes {
    pub use syntect_reading_choice::below::regexes::region;
}
