//! Whole documents of HTML.
ghost use Rattle.std.specs.List.{list_all};
ghost use Rattle.std.specs.Prelude.{◌≡◌, ◌++◌, List, ℕ, true, codes, string_bytes, IfOk, OnOk};
ghost use Rattle.syntect_documents.specs.Document.{after, begins_with_slash, document_text, guard, guarded, up_to_end_tag};
ghost use Rattle.syntect_documents.specs.syntect_writers.Comment.{stays_inside};
ghost use Rattle.syntect_documents.specs.syntect_writers.Entities.{escaped};
ghost use Rattle.syntect_documents.specs.syntect_writers.Names.{shown_text};

use crate::below::easy::escape::push_escaped;
use crate::below::writers::laws::escapes_show_the_text;
use std::alloc::{AllocError, Global};

/// What stands before the title.
const FRONT: &str = "<!DOCTYPE html>\n<html>\n<head>\n<meta charset=\"utf-8\">\n\
<meta name=\"viewport\" content=\"width=device-width, initial-scale=1\">\n<title>";

/// Whether a text begins with a slash.
fn begins_with_slash(text: &str) -> bool
    ensures { result ≡ begins_with_slash text.now }
{
    match text.as_bytes().first() {
        Some(b) => *b == b'/',
        None => false,
    }
}

/// Appends what keeps a `<` before this text from beginning an end tag.
fn push_guard(out: &mut String, text: &str) -> Result<(), AllocError>
    ensures { OnOk result (string_bytes out.new ≡ string_bytes out.old ++ guard text.now) }
{
    if begins_with_slash(text) {
        out.push_str("\\")?;
    }
    Ok(())
}

/// Appends a sheet, without end tags.
fn push_guarded(out: &mut String, sheet: &str) -> Result<(), AllocError>
    ensures { OnOk result (string_bytes out.new ≡ string_bytes out.old ++ guarded sheet.now) }
{
    let mut rest = sheet;
    while let Some((front, back)) = rest.split_once('<') {
        out.push_str(front)?;
        out.push_str("<")?;
        push_guard(out, back)?;
        rest = back;
    }
    out.push_str(rest)?;
    Ok(())
}

/// A document of HTML with a title, which may be any text, a style sheet and a body. The body is
/// HTML and stands as it is, several of the texts of this crate perhaps; the title is escaped; and
/// in the sheet, which no element holds that could end in it, each `</` is `<\/`, which means the
/// same in a text of CSS. A sheet without `<` stands as it is.
pub fn document(alloc: Global, title: &str, sheet: &str, body: &str) -> Result<String, AllocError>
    ensures text { IfOk result (λ t. string_bytes t ≡ document_text title.now sheet.now body.now) }
    // whatever the title is, a reader sees it, and its element ends where it should
    ensures title { IfOk result (λ t.
        shown_text (up_to_end_tag (after (codes "<title>") (string_bytes t))) ≡ title.now) }
    // and so does that of the sheet
    ensures sheet { IfOk result (λ t.
        up_to_end_tag (after (codes "<style>\n") (string_bytes t)) ≡ guarded sheet.now) }
{
    escapes_show_the_text();
    let mut out = String::from_str(alloc, FRONT)?;
    push_escaped(&mut out, title)?;
    out.push_str("</title>\n<style>\n")?;
    push_guarded(&mut out, sheet)?;
    out.push_str("</style>\n</head>\n<body>\n")?;
    out.push_str(body)?;
    out.push_str("</body>\n</html>\n")?;
    Ok(out)
}

/// A sheet without `<`, as each one that this library makes, stands in a document as it is.
pub fn sheets_stay()
    ensures { (sheet : List ℕ) → list_all stays_inside sheet ≡ true → guarded sheet ≡ sheet }
{}
