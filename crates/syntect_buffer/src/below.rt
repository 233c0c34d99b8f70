//! What stands below, as far as it is used here or passed on.

pub use syntect_documents::below::{assets, base, easy, parsing, scope, style, theme, values};

/// Of `syntect_documents`, which isn't used here.
pub mod documents {
    pub use syntect_documents::{classed, document, lines, numbered, sheet};
}
