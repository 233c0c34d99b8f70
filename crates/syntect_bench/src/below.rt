//! What stands below, as far as it is used here or passed on.

/// Of `syntect_check_queries`.
pub mod check_queries {
    pub use syntect_check_edits::below::check_queries::{patterns, queries, searches};
}
