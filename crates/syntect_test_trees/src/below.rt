//! What stands below, as far as it is used here or passed on.

pub use syntect_cat::below::{assets, base, easy, parsing, scope, theme};
