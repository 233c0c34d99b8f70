//! Lines of texts, pieces and operations of lines, and styled pieces for terminals and LaTeX.
pub use syntect_operations::print::debug_print_ops;
pub use syntect_style::cut::{modify_range, split_at};
pub use syntect_writers::latex::as_latex_escaped;
pub use syntect_writers::lines::LinesWithEndings;
pub use syntect_writers::terminal::{as_24_bit_terminal_escaped, push_24_bit_terminal_escaped};
