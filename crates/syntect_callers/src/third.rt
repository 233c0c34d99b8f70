//! A caller of the highlighter, from definitions to the pieces of lines.
ghost use Rattle.std.specs.Prelude.{◌≡◌, All, IfErr, List, ℕ, [], ◌∷◌};
ghost use Rattle.syntect_callers.specs.syntect_grammar.Link.{definitions_in};
ghost use Rattle.syntect_easy.specs.Built.{IsPlain};
ghost use Rattle.syntect_callers.specs.syntect_parsing.Refusals.{AreByName};
ghost use Rattle.syntect_callers.specs.Third.{GivesThird, FirstStays, IsRefusal};

use std::alloc::Global;
use syntect_easy::Error;
use syntect_easy::easy::HighlightLines;
use syntect_easy::highlighting::{Style, Theme};
use syntect_easy::parsing::{ScopeRepository, SyntaxSetBuilder};

/// The pieces of the third of three lines of text in the first syntax of a set that is built of
/// these definitions. For plain definitions its contract is the whole promise: the three lines were
/// read one after another, the pieces join to the third, and where the lines are orderly, as all
/// are in a set that clears nothing, each byte has the theme's style for its scopes. Where the
/// references are all by name and no pattern leaves `__start`, a refusal is that of a line whose
/// reading picks a match that names a context that is not there.
pub fn third_line<'b>(
    alloc: Global,
    builder: SyntaxSetBuilder,
    repository: &mut ScopeRepository,
    theme: &Theme,
    first: &str,
    second: &str,
    third: &'b str,
) -> Result<Option<Vec<(Style, &'b str)>>, Error>
    ensures pieces { All IsPlain (definitions_in builder)
        → GivesThird (definitions_in builder) theme.now first.now second.now third.now result }
    ensures refused { All IsPlain (definitions_in builder) → AreByName (definitions_in builder)
        → FirstStays (definitions_in builder)
        → IfErr result (
        IsRefusal (definitions_in builder) (first.now ∷ second.now ∷ third.now ∷ [])) }
{
    let set = builder.build(alloc, repository)?;
    let Some(syntax) = set.syntaxes().first() else {
        return Ok(None);
    };
    let mut lines = HighlightLines::new(alloc, syntax, theme)?;
    lines.highlight_line(alloc, first, &set)?;
    lines.highlight_line(alloc, second, &set)?;
    Ok(Some(lines.highlight_line(alloc, third, &set)?))
}
