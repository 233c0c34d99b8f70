//! A caller of the generator of pages with classes, from a text to what a reader of its page sees.
ghost use Rattle.std.specs.Prelude.{IfOk, IfErr, List, string_bytes};
ghost use Rattle.syntect_callers.specs.syntect_writers.Classes.{prefix_of};
ghost use Rattle.syntect_callers.specs.syntect_grammar_loader.declared.definition.SyntaxDefinition.{SyntaxDefinition as ADefinition};
ghost use Rattle.syntect_callers.specs.syntect_writers.Lines.{lines_of};
ghost use Rattle.syntect_easy.specs.Built.{IsSyntaxOfBuilt};
ghost use Rattle.syntect_easy.specs.ClassedPages.{ShowsScopes};
ghost use Rattle.syntect_easy.specs.Leads.{RunsOrderly};
ghost use Rattle.syntect_easy.specs.Pages.{IsWhyNoPage};
ghost use Rattle.syntect_callers.specs.ClassedPages.{IsClassedPageOf, HasNoClassedPage};

use crate::below::parsing::laws::answers_more;
use crate::below::writers::laws::lines_join;
use std::alloc::Global;
use syntect_easy::Error;
use syntect_easy::html::{ClassStyle, ClassedHTMLGenerator};
use syntect_easy::laws::{closed_texts_are_pages, operations_are_never_refused};
use syntect_easy::parsing::{ScopeRepository, SyntaxReference, SyntaxSet};
use syntect_easy::util::LinesWithEndings;

/// The page with classes of a text, in a syntax of the set. Its contract is what a reader of the
/// page sees: the text, and nothing else outside tags, and every span closed; each byte under the
/// tags of the scopes that it was read with, where the lines are orderly, in each set that was
/// built of plain definitions, as loaded ones are. It is refused where the syntax has no `__start`,
/// and where a line's reading is refused.
pub fn classed_page_of(
    alloc: Global,
    text: &str,
    set: &SyntaxSet,
    syntax: &SyntaxReference,
    repository: &ScopeRepository,
    style: ClassStyle,
) -> Result<String, Error>
    ensures page { (definitions : List ADefinition) → IsSyntaxOfBuilt set.now syntax.now definitions
        → IfOk result (λ page.
        IsClassedPageOf (RunsOrderly set.now syntax.now (lines_of text.now)) set.now syntax.now
        repository.now (prefix_of style) text.now (string_bytes page)) }
    ensures refused { (definitions : List ADefinition)
        → IsSyntaxOfBuilt set.now syntax.now definitions
        → IfErr result (IsWhyNoPage set.now syntax.now text.now) }
    // of any set
    ensures any_page { IfOk result (λ page.
        IsClassedPageOf (ShowsScopes set.now syntax.now (lines_of text.now)) set.now syntax.now
        repository.now (prefix_of style) text.now (string_bytes page)) }
    ensures any_refused { IfErr result (HasNoClassedPage set.now syntax.now text.now) }
{
    answers_more();
    closed_texts_are_pages();
    lines_join();
    operations_are_never_refused();
    let mut generator = ClassedHTMLGenerator::new_with_class_style(
        alloc, syntax, set, repository, style,
    )?;
    for line in LinesWithEndings::from(text) {
        generator.parse_html_for_line_which_includes_newline(line)?;
    }
    Ok(generator.finalize()?)
}
