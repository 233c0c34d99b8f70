//! Lists, texts and tables: a vector, a string and a map that contracts see as a list, bytes and
//! entries. Each is made from the container of the standard library, and gives it back.
pub use syntect_buffer::below::values::seq::Seq;
pub use syntect_buffer::below::values::table::Table;
pub use syntect_buffer::below::values::text::Text;
