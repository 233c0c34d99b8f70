//! Style sheets for documents: of two themes, and of numbers and marks of lines.
ghost use Rattle.std.specs.List.{list_all};
ghost use Rattle.std.specs.Prelude.{◌≡◌, ◌++◌, true, string_bytes, IfOk, OnOk};
ghost use Rattle.syntect_documents.specs.Sheets.{block, dark_head, light_head, two_sheets};
ghost use Rattle.syntect_documents.specs.syntect_writers.Classes.{prefix_of};
ghost use Rattle.syntect_documents.specs.syntect_writers.Comment.{stays_inside};
ghost use Rattle.syntect_documents.specs.syntect_writers.Sheet.{sheet_text};

use crate::below::easy::html::{ClassStyle, css_for_theme_with_class_style};
use crate::below::scope::repository::ScopeRepository;
use crate::below::theme::theme::Theme;
use std::alloc::{AllocError, Global};

/// The rules for lines: where they tell their numbers, these stand before them, and marked lines
/// and the one that a link leads to have another colour behind them.
pub const LINE_SHEET: &str = ".line[data-line]::before {\n content: attr(data-line);\n \
display: inline-block;\n min-width: 3em;\n margin-right: 1em;\n text-align: right;\n \
opacity: 0.5;\n}\n\
.line.marked {\n background-color: rgba(255, 200, 0, 0.25);\n}\n\
.line:target {\n background-color: rgba(80, 160, 255, 0.25);\n}\n";

/// What decides between a light theme and a dark one.
#[derive(Clone, Copy, Debug, PartialEq, Eq)]
pub enum Choice {
    /// What the reader's system prefers.
    Preference,
    /// Whether the root of the document has the class `dark`, for pages with a switch. The rules of
    /// a theme are nested in one of the root then.
    RootClass,
}

/// What stands before the block of the light theme.
fn light_head(by: Choice) -> &'static str
    ensures { result.now ≡ light_head by }
{
    match by {
        Choice::Preference => "@media (prefers-color-scheme: light)",
        Choice::RootClass => ":root:not(.dark)",
    }
}

/// What stands before the block of the dark theme.
fn dark_head(by: Choice) -> &'static str
    ensures { result.now ≡ dark_head by }
{
    match by {
        Choice::Preference => "@media (prefers-color-scheme: dark)",
        Choice::RootClass => ":root.dark",
    }
}

/// Appends a sheet in a block.
fn push_block(out: &mut String, head: &str, sheet: &str) -> Result<(), AllocError>
    ensures { OnOk result (string_bytes out.new
        ≡ string_bytes out.old ++ block head.now sheet.now) }
{
    out.push_str(head)?;
    out.push_str(" {\n")?;
    out.push_str(sheet)?;
    out.push_str("}\n")
}

/// A light sheet and a dark one, each in a block of its own.
fn in_blocks(alloc: Global, by: Choice, light: &str, dark: &str) -> Result<String, AllocError>
    ensures { IfOk result (λ t. string_bytes t ≡ two_sheets by light.now dark.now) }
{
    let mut out = String::new(alloc);
    push_block(&mut out, light_head(by), light)?;
    push_block(&mut out, dark_head(by), dark)?;
    Ok(out)
}

/// One style sheet for a light theme and a dark one, for HTML with classes of this style: the sheet
/// of each, as `css_for_theme_with_class_style` makes it, in a block of its own.
pub fn sheet_for_light_and_dark(
    alloc: Global,
    light: &Theme,
    dark: &Theme,
    repository: &ScopeRepository,
    style: ClassStyle,
    by: Choice,
) -> Result<String, AllocError>
    ensures text { IfOk result (λ t. string_bytes t ≡ two_sheets by
        (sheet_text (prefix_of style) repository.now light.now)
        (sheet_text (prefix_of style) repository.now dark.now)) }
    // no `<` ends the element that holds the sheet
    ensures inside { IfOk result (λ t. list_all stays_inside (string_bytes t) ≡ true) }
{
    let light_sheet = css_for_theme_with_class_style(alloc, light, repository, style)?;
    let dark_sheet = css_for_theme_with_class_style(alloc, dark, repository, style)?;
    let sheet = in_blocks(alloc, by, light_sheet.as_str(), dark_sheet.as_str())?;
    Ok(sheet)
}
