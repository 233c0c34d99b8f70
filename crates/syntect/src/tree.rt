//! Files and folders, as calls take them: those of the standard library, `rt`, or a tree of one's own.
pub use syntect_buffer::below::base::tree::{Kind, Tree, first_line, read_text};
