//! What stands below, as far as it is used here or passed on.

/// Of `syntect_count`.
pub mod count {
    pub use syntect_pattern_seek::syntect_count::{count, counts, meter, stop};
}

/// Of `syntect_pattern`.
pub mod pattern {
    pub use syntect_pattern_seek::syntect_pattern::{anchor, error, laws};
}

/// Of `syntect_pattern_backtrack`.
pub mod pattern_backtrack {
    pub use syntect_pattern_seek::syntect_pattern_backtrack::state;
}

/// Of `syntect_pattern_compile`.
pub mod pattern_compile {
    pub use syntect_pattern_seek::syntect_pattern_compile::compiler;
}

/// Of `syntect_pattern_plan`.
pub mod pattern_plan {
    pub use syntect_pattern_seek::syntect_pattern_plan::{plan, spelt};
}

/// Of `syntect_pattern_seek`.
pub mod pattern_seek {
    pub use syntect_pattern_seek::{depths, prospect};
}

/// Of `syntect_pattern_steps`.
pub mod pattern_steps {
    pub use syntect_pattern_seek::syntect_pattern_steps::{anchor, first, text};
}

/// Of `syntect_pattern_table`.
pub mod pattern_table {
    pub use syntect_pattern_word_ends::syntect_pattern_table::{node, program, starts};
}

/// Of `syntect_pattern_word_ends`.
pub mod pattern_word_ends {
    pub use syntect_pattern_word_ends::ends;
}

/// Of `syntect_values`.
pub mod values {
    pub use syntect_pattern_word_ends::syntect_values::seq;
}
