//! How a document shows the lines of a text: their numbers, names and marks.
ghost use Rattle.std.specs.Prelude.{◌≡◌, ◌++◌, [], None, false, string_bytes, OnOk};
ghost use Rattle.syntect_documents.specs.Lines.{is_marked, line_tag, mark_text, name_text, number_text};

use crate::below::easy::escape::Escape;
use std::alloc::AllocError;

/// How the lines of a text are numbered, named and marked.
#[derive(Clone, Copy)]
pub struct LineForm<'a> {
    /// The number of the first line.
    pub first: u64,
    /// Whether each line tells its number, for a style sheet to show. It is no text of the page, so
    /// that it isn't copied with the lines.
    pub numbers: bool,
    /// What stands before its number in the name of a line, as the `L` of `L12`, by which a link
    /// leads to it. Lines have no names where there is none.
    pub anchor: Option<&'a str>,
    /// The marked lines: the first and the last number of each range, which both belong to it.
    pub marked: &'a [(u64, u64)],
}

impl<'a> LineForm<'a> {
    /// Lines from 1 on, without numbers, names and marks.
    pub fn plain() -> LineForm<'a>
        ensures first { result.first ≡ 1 }
        ensures numbers { result.numbers ≡ false }
        ensures anchor { result.anchor ≡ None }
        ensures marked { result.marked.now ≡ [] }
    {
        LineForm {
            first: 1,
            numbers: false,
            anchor: None,
            marked: &[],
        }
    }
}

/// Whether one of the ranges has this number.
fn is_marked(ranges: &[(u64, u64)], number: u64) -> bool
    ensures { result ≡ is_marked ranges.now number }
{
    ranges
        .iter()
        .any(|range| range.0 <= number && number <= range.1)
}

/// Appends the class of a marked line, if it is one.
fn push_mark(out: &mut String, marked: bool) -> Result<(), AllocError>
    ensures { OnOk result (string_bytes out.new ≡ string_bytes out.old ++ mark_text marked) }
{
    if marked {
        out.push_str(" marked")?;
    }
    Ok(())
}

/// Appends the name of a line, where lines have names.
fn push_name(out: &mut String, anchor: Option<&str>, number: u64) -> Result<(), AllocError>
    ensures { OnOk result (string_bytes out.new
        ≡ string_bytes out.old ++ name_text anchor.entry number) }
{
    match anchor {
        None => Ok(()),
        Some(anchor) => write!(out, " id=\"{}{number}\"", Escape(anchor)),
    }
}

/// Appends the number of a line, where lines tell it.
fn push_number(out: &mut String, numbers: bool, number: u64) -> Result<(), AllocError>
    ensures { OnOk result (string_bytes out.new
        ≡ string_bytes out.old ++ number_text numbers number) }
{
    if numbers {
        write!(out, " data-line=\"{number}\"")?;
    }
    Ok(())
}

/// Appends what begins a line.
pub fn push_line_tag(out: &mut String, form: LineForm<'_>, number: u64) -> Result<(), AllocError>
    ensures { OnOk result (string_bytes out.new
        ≡ string_bytes out.old ++ line_tag form.entry number) }
{
    out.push_str("<span class=\"line")?;
    push_mark(out, is_marked(form.marked, number))?;
    out.push_str("\"")?;
    push_name(out, form.anchor, number)?;
    push_number(out, form.numbers, number)?;
    out.push_str(">")?;
    Ok(())
}
