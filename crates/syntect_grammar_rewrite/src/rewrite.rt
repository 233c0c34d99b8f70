//! The text of a pattern as it is compiled.
ghost use Rattle.std.specs.Prelude.{◌≡◌, IfOk, string_bytes};
ghost use Rattle.syntect_grammar_rewrite.specs.Rewriting as rewriting;

use crate::expand::expand;
use crate::newlines::{anchored, ended};
use crate::replace::replaced;
use std::alloc::{AllocError, Global};
use syntect_values::table::Table;
use syntect_values::text::Text;

/// The text of a pattern as it is compiled: with its variables expanded, `[:alpha:]` and its like
/// named by categories, and the ends of lines written for lines that have their newline or have
/// none. An error comes only where memory ran out.
#[tactic(auto, unfolding(crate::specs::Rewriting::rewritten))]
pub fn rewrite(
    alloc: Global,
    text: &str,
    variables: &Table<Text, Text>,
    lines_include_newline: bool,
) -> Result<String, AllocError>
    ensures { IfOk result (λ s. string_bytes s
        ≡ rewriting.rewritten variables.now lines_include_newline text.now) }
{
    let expanded = expand(alloc, text, variables)?;
    let named = replaced(alloc, expanded.as_str())?;
    if lines_include_newline {
        anchored(alloc, named.as_str())
    } else {
        ended(alloc, named.as_str())
    }
}
