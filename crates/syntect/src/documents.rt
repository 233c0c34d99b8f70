//! Texts as parts of documents: lines with numbers, names and marks, with inline styles or with
//! classes; one style sheet for light and dark screens; and whole documents of HTML.
pub use syntect_buffer::below::documents::classed::{classed_in, classed_text};
pub use syntect_buffer::below::documents::document::{document, sheets_stay};
pub use syntect_buffer::below::documents::lines::{LineForm, push_line_tag};
pub use syntect_buffer::below::documents::numbered::{numbered_file, numbered_in, numbered_text};
pub use syntect_buffer::below::documents::sheet::{Choice, LINE_SHEET, sheet_for_light_and_dark};
