//! The lines of a text in an editor, each with its styles.
pub use syntect_buffer::answer::LineAnswer;
pub use syntect_buffer::buffer::LineBuffer;
