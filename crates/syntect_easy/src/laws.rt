//! Laws that join the crates. Each is the contract of a function that does nothing.
ghost use Rattle.std.specs.Prelude.{List, All};
ghost use Rattle.syntect_easy.specs.syntect_grammar_loader.declared.definition.SyntaxDefinition.{SyntaxDefinition as ADefinition};
ghost use Rattle.syntect_parsing.specs.Refusals.{AreByName};
ghost use Rattle.syntect_easy.specs.Built.{IsPlain, IsLoaded};
ghost use Rattle.syntect_easy.specs.ClassedPages.{ClosedIsPage, GivenStands};
ghost use Rattle.syntect_easy.specs.Loaded.{BuildersHold, FindsOwn, FoldersHold, LoadedSetsMeet};
ghost use Rattle.syntect_easy.specs.PlainLines.{LinesBegin, LinesGoOn, LinesEnd};
ghost use Rattle.syntect_easy.specs.Promises.{LoadedIsPlain, LoadedStay, NothingIsCleared, AllRunOrderly, PastsStay, StatesGoOn, LoadedGiveScopes, BuiltBeginPlain, OperationsApply};
ghost use Rattle.syntect_easy.specs.Rows.{RowsBegin, RowsGoOn, RowsEnd, RowsRefuse, RowsStop, RowsHaveNoText, ReadingBegins, ReadingGoesOn, ReadingFindsNoText};

use crate::below::base::tree::Tree;
pub use syntect_writers::marks_seen::{
    marks_follow_the_operations, pages_are_seen, written_marks_are_seen,
};

/// A definition that was loaded is plain: its `__start` has no `meta_scope`, one content scope, and
/// clears nothing. So what `HighlightLines::highlight_line` and `highlighted_html_for_string` say
/// holds for sets that were built of such ones.
pub fn loaded_is_plain()
    ensures { LoadedIsPlain }
{}

/// Definitions that were loaded are plain, and refer to contexts by name alone; in a set that was
/// built of such ones no text leaves the `__start` of its syntax. So all clauses of
/// `HighlightLines::highlight_line` hold for them: a line is refused exactly where a picked match
/// names a reference without target.
#[tactic(auto, using(crate::proofs::StayLaws::loaded_are_plain))]
pub fn loaded_sets_stay()
    ensures plain { (definitions : List ADefinition) → All IsLoaded definitions
        → All IsPlain definitions }
    ensures named { (definitions : List ADefinition) → All IsLoaded definitions
        → AreByName definitions }
    ensures stay { LoadedStay }
{
    crate::below::grammar::laws::loaded_by_name();
}

/// A set that a builder links of grammars which were loaded, from texts or from folders
/// (`folders_are_loaded`), and a syntax that is found in it meet all that
/// `highlighted_html_for_string`, the other pages and `HighlightLines::highlight_line` have as
/// premises.
pub fn loaded_sets_are_built()
    ensures builders { BuildersHold }
    ensures found { FindsOwn }
    ensures premises { LoadedSetsMeet }
{
    crate::below::grammar::laws::loaded_by_name();
}

/// What a builder adds of folders of this tree was loaded: it leads to `loaded_sets_are_built`.
pub fn folders_are_loaded<T: Tree>(tree: &T)
    ensures { FoldersHold (T.told tree.now) }
{
    let _ = tree;
}

/// Where no context clears, all lines are orderly, so that the clauses of
/// `HighlightLines::highlight_line` and of the pages say the style of each byte; and in a set of
/// definitions of which none has the key `clear_scopes`, no context clears.
pub fn orderly_where_nothing_clears()
    ensures sets { NothingIsCleared }
    ensures runs { AllRunOrderly }
{}

/// A highlighter that stands where another stands, with the same styles and theme,
/// has the other's past.
pub fn pasts_stay()
    ensures { PastsStay }
{}

/// A highlighter that was made by `HighlightLines::from_state` of what `HighlightLines::state`
/// answers, under the same theme, stands where that one stood, so that it has the other's past.
pub fn states_go_on()
    ensures { StatesGoOn }
{}

/// The syntaxes of a set that was built of plain definitions, as loaded ones are, begin plain: so a
/// generator of pages with classes can restore what was cleared before its first line
/// (`ClassedHTMLGenerator::new_with_class_style`), and after each
/// (`ClassedHTMLGenerator::parse_html_for_line_which_includes_newline`), and no line is refused
/// with `ScopeError`. Of all sets: where the syntax begins plain, the operations of its accepted
/// lines, applied in order to a new stack, are never refused.
pub fn operations_are_never_refused()
    ensures built { BuiltBeginPlain }
    ensures apply { OperationsApply }
{}

/// A generator that was given lines stands after those that it accepted, and the text that
/// `ClassedHTMLGenerator::finalize` answers is their page: whoever reads it byte by byte sees these
/// lines, joined, meets no closing tag without an open one, and has no tag open in the end; and
/// where the syntax begins plain and the lines are orderly, each byte stands under the
/// tags of its scopes.
pub fn closed_texts_are_pages()
    ensures stands { GivenStands }
    ensures pages { ClosedIsPage }
{
    syntect_parsing::laws::answers_more();
    syntect_parsing::laws::stack_is_open();
    pages_are_seen();
}

/// In a set that was built of loaded definitions and clears nothing, each byte of each line that is
/// accepted has a scope.
pub fn loaded_sets_give_scopes()
    ensures { LoadedGiveScopes }
{
    syntect_parsing::laws::bytes_have_scopes();
    syntect_parsing::laws::links_closed();
    crate::below::grammar::laws::loaded_by_name();
}

/// The lines that a reader gives, one after another, and the pieces that a highlighter answers to
/// them, are the rows of the reader's text: there are none at first, each line is one more, and in
/// the end they are all. A line that is refused ends them, and so do a fault of reading and a line
/// that is not UTF-8.
pub fn rows_of_readers()
    ensures begin { RowsBegin }
    ensures more { RowsGoOn }
    ensures all { RowsEnd }
    ensures refuse { RowsRefuse }
    ensures stop { RowsStop }
    ensures no_text { RowsHaveNoText }
{}

/// The lines that a reader gives, whatever they are read for: there are none at first, each line is
/// one more, and where a line is not UTF-8, one of the lines of the reader's text isn't.
pub fn lines_of_readers()
    ensures begin { ReadingBegins }
    ensures more { ReadingGoesOn }
    ensures no_text { ReadingFindsNoText }
{}

/// The lines that a reader gives, read within limits by `HighlightLines::highlight_line_or_plain`:
/// each line is one more, as it was read or plain, and the rows of those that were read stand as if
/// the plain ones weren't there.
pub fn lines_within_limits()
    ensures begin { LinesBegin }
    ensures more { LinesGoOn }
    ensures all { LinesEnd }
{}
