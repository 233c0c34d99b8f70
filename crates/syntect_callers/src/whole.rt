//! Callers of the loader and the highlighter, from the texts of grammars to a page, and to the
//! pieces of lines.
ghost use Rattle.std.specs.Prelude.{IfOk, IfErr, IfSome, string_bytes, [], ◌∷◌};
ghost use Rattle.syntect_callers.specs.Grammars.{IsPageOf, IsThirdOf, IsRefusalOf};

use crate::below::parsing::syntax_definition::SyntaxDefinition;
use crate::third::third_line;
use std::alloc::Global;
use syntect_easy::Error;
use syntect_easy::highlighting::{Style, Theme};
use syntect_easy::html::highlighted_html_for_string;
use syntect_easy::laws::{loaded_is_plain, loaded_sets_stay};
use syntect_easy::parsing::{ScopeRepository, SyntaxSetBuilder};

/// The page of a text in the syntax of a grammar, whose lines are given with their newlines; none
/// where the grammar's text has no definition. Its contract is the promise from the grammar's text
/// on: nothing has to be known of the grammar.
pub fn page_of(
    alloc: Global,
    repository: &mut ScopeRepository,
    grammar: &str,
    theme: &Theme,
    text: &str,
) -> Result<Option<String>, Error>
    ensures { IfOk result (λ o. IfSome o (λ page.
        IsPageOf repository.old grammar.now theme.now text.now (string_bytes page))) }
{
    loaded_is_plain();
    let loaded = SyntaxDefinition::load_from_str(alloc, grammar, true, None, repository);
    let Ok(definition) = loaded else {
        return Ok(None);
    };
    let mut builder = SyntaxSetBuilder::new(alloc);
    builder.add(definition)?;
    let set = builder.build(alloc, repository)?;
    let Some(syntax) = set.syntaxes().first() else {
        return Ok(None);
    };
    let page = highlighted_html_for_string(alloc, text, &set, syntax, theme)?;
    Ok(Some(page))
}

/// The pieces of the third of three lines of text in the first of two grammars, which may refer to
/// each other; none where the text of one has no definition. Its contract is the whole promise from
/// the grammars' texts on: nothing has to be known of the grammars.
pub fn third_line_of<'b>(
    alloc: Global,
    repository: &mut ScopeRepository,
    grammars: (&str, &str),
    theme: &Theme,
    lines: (&str, &str, &'b str),
) -> Result<Option<Vec<(Style, &'b str)>>, Error>
    ensures pieces { IfOk result (λ o. IfSome o (λ pieces.
        IsThirdOf repository.old grammars.entry.0.now grammars.entry.1.now theme.now
        lines.entry.0.now lines.entry.1.now lines.entry.2.now pieces.items)) }
    ensures refused { IfErr result
        (IsRefusalOf repository.old grammars.entry.0.now grammars.entry.1.now
        (lines.entry.0.now ∷ lines.entry.1.now ∷ lines.entry.2.now ∷ [])) }
{
    loaded_sets_stay();
    let loaded = SyntaxDefinition::load_from_str(alloc, grammars.0, true, None, repository);
    let Ok(first) = loaded else {
        return Ok(None);
    };
    let loaded = SyntaxDefinition::load_from_str(alloc, grammars.1, true, None, repository);
    let Ok(second) = loaded else {
        return Ok(None);
    };
    let mut builder = SyntaxSetBuilder::new(alloc);
    builder.add(first)?;
    builder.add(second)?;
    third_line(alloc, builder, repository, theme, lines.0, lines.1, lines.2)
}
