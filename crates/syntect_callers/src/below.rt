//! What stands below, as far as it is used here or passed on.

/// Of `syntect_parsing`.
pub mod parsing {
    pub use syntect_easy::below::parsing::{laws, syntax_definition};
}

/// Of `syntect_writers`.
pub mod writers {
    pub use syntect_easy::below::writers::laws;
}
