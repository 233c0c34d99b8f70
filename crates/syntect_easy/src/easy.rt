//! Lines to styled pieces, of texts and of files.
ghost use Rattle.std.specs.Io.Buffered.{reader_remaining};
ghost use Rattle.std.specs.Io.KnownBytes.{Keeps};
ghost use Rattle.std.specs.Prelude.{◌≡◌, ◌++◌, ◌∷◌, ◌+◌, ◌-◌, ◌≤◌, [], List, ℕ, Option, None, Some, Err, IfOk, IfErr, IfSome, OnOk, OnErr};
ghost use Rattle.std.specs.Path.{path_bytes};
ghost use Rattle.syntect_easy.specs.Files.{IsFileFault, IsFrontFault, IsSyntaxFor, IsSyntaxWithin, IsToldSyntax, IsToldWithin, HasNoLines, HasNoLinesWithin};
ghost use Rattle.syntect_easy.specs.syntect_grammar.Finding.{found_plain_text};
ghost use Rattle.syntect_easy.specs.syntect_grammar.declared.error.Error.TheVariants.{NoSyntax};
ghost use Rattle.syntect_easy.specs.Leads.{Leads};
ghost use Rattle.syntect_easy.specs.syntect_base.Trees.{opened};
ghost use Rattle.syntect_easy.specs.syntect_grammar_contexts.declared.syntax_reference.SyntaxReference.{SyntaxReference as ASyntax};
ghost use Rattle.syntect_easy.specs.syntect_grammar.declared.syntax_set.SyntaxSet.{SyntaxSet as ASet};
ghost use Rattle.syntect_easy.specs.declared.easy.HighlightLines.{HighlightLines as ALines};

use crate::below::base::limits::Limits;
use crate::below::base::tree::Tree;
use crate::below::count::count::GhostCount;
use crate::below::scope::stack::ScopeStack;
use crate::below::theme::style::Style;
use crate::below::theme::theme::Theme;
use crate::memory::SearchMemory;
use crate::reading::first_line;
pub use crate::within::HighlightWithinError;
use crate::within::refusal;
use std::alloc::{AllocError, Global};
use std::io::{BufReader, Read};
use std::mem;
use std::path::Path;
use syntect_grammar_limits::first_line_error::{FindWithinError, FirstLineLimit};
use syntect_grammar_limits::first_lines::find_syntax_by_first_line_within;
pub use syntect_operations::ranges::{ScopeRangeIterator, ScopeRegionIterator};
use syntect_parsing::error::Error;
use syntect_parsing::laws::{
    answers_more, links_closed, never_both, refuses_unresolved, stack_is_open,
};
use syntect_parsing::parser::ParseState;
use syntect_parsing::syntax_set::{SyntaxReference, SyntaxSet};
use syntect_parsing::within::LineLimit;
use syntect_style::highlighter::Highlighter;
use syntect_style::pieces::collect_pieces;
use syntect_style::state::HighlightState;

/// Highlights lines that are given one after another.
pub struct HighlightLines<'a> {
    highlighter: Highlighter<'a>,
    parse_state: ParseState,
    highlight_state: HighlightState,
    /// The styles are worked out in it, line by line, so that a refusal leaves
    /// those before the line.
    spare: HighlightState,
    /// The memory of searches, line by line.
    memory: SearchMemory,
}

/// Written out, so that crates above call it and needn't prove each part's drop again.
impl<'a> Drop for HighlightLines<'a> {
    fn drop(self) {
        let HighlightLines {
            highlighter: _,
            parse_state: _,
            highlight_state: _,
            spare: _,
            memory: _,
        } = self;
    }
}

impl<'a> HighlightLines<'a> {
    ghost use Rattle.syntect_easy.specs.Leads.{Past, IsPast, Continues, HoldsSame, LacksStart, RefusedForUnresolved, UnlessLimited, UnlessMemory, reader_of, styles_of, theme_of};
    ghost use Rattle.syntect_easy.specs.Built.{StaysInStart};
    ghost use Rattle.syntect_easy.specs.PlainLines.{ArePlain, ContinuesWithin};
    ghost use Rattle.syntect_easy.specs.Within.{ReachesLimit, TellsWhere, unlimited_of, IsNoReadFault, RefusesNoReadFault};
    ghost use Rattle.syntect_parsing.specs.Within.{KeepsLevels};
    ghost use Rattle.syntect_easy.specs.declared.within.HighlightWithinError.TheVariants.{LimitReached};
    ghost use Rattle.syntect_easy.specs.syntect_base.Limiting.{IsWithinLimit};
    ghost use Rattle.syntect_parsing.specs.Refusals.{AreByName};
    ghost use Rattle.syntect_parsing.specs.States.{standing, turns_made, steps_made};
    ghost use Rattle.syntect_parsing.specs.Bound.{TakesAll, TakesNoMore, most_turns};
    ghost use Rattle.syntect_parsing.specs.Work.{TakesSteps, TakesMostSteps};
    ghost use Rattle.syntect_style.specs.Pieces.{Joins};
    ghost use Rattle.syntect_easy.specs.syntect_reading_choice.Engine.{dialect};

    /// The state before the first line of a text in this syntax, under this theme.
    /// `MissingMainContext` where the syntax has no context `__start`.
    pub fn new(
        alloc: Global,
        syntax: &SyntaxReference,
        theme: &'a Theme,
    ) -> Result<HighlightLines<'a>, Error>
        ensures leads { (set : ASet) → IfOk result (Leads set theme.now syntax.now [] []) }
        ensures none_made { IfOk result (λ h. turns_made (reader_of h) ≡ 0) }
        ensures no_steps { IfOk result (λ h. steps_made (reader_of h) ≡ 0) }
        ensures refused { IfErr result (LacksStart syntax.now) }
    {
        let parse_state = ParseState::new(alloc, syntax)?;
        let highlighter = Highlighter::new(alloc, theme)?;
        let highlight_state = HighlightState::new(&highlighter, ScopeStack::new(alloc));
        let spare = HighlightState::new(&highlighter, ScopeStack::new(alloc));
        Ok(HighlightLines {
            highlighter,
            parse_state,
            highlight_state,
            spare,
            memory: SearchMemory::new(alloc),
        })
    }

    /// The highlighter of this theme that holds just these states. Under the theme of the
    /// highlighter that `state` took them from, it stands where that one stood, and answers as that
    /// one would.
    pub fn from_state(
        alloc: Global,
        theme: &'a Theme,
        highlight_state: HighlightState,
        parse_state: ParseState,
    ) -> Result<HighlightLines<'a>, AllocError>
        ensures styles { IfOk result (λ h. styles_of h ≡ highlight_state) }
        ensures reader { IfOk result (λ h. reader_of h ≡ parse_state) }
        ensures theme { IfOk result (λ h. theme_of h ≡ theme.now) }
        // the past of a highlighter that holds those states is the past of this one
        ensures leads { (past : Past) (set : ASet) (h : ALines) → past.theme ≡ theme.now
            → IsPast past set h
            → styles_of h ≡ highlight_state → standing (reader_of h) ≡ standing parse_state
            → IfOk result (IsPast past set) }
    {
        let ready = Highlighter::new(alloc, theme)?;
        let spare = HighlightState::new(&ready, ScopeStack::new(alloc));
        Ok(HighlightLines {
            highlighter: ready,
            parse_state,
            highlight_state,
            spare,
            memory: SearchMemory::new(alloc),
        })
    }

    /// The states of the highlighter and of the reader of lines, to go on from. Takes no memory.
    pub fn state(self) -> (HighlightState, ParseState)
        ensures highlight { result.0 ≡ styles_of self.entry }
        ensures parse { result.1 ≡ reader_of self.entry }
    {
        let HighlightLines {
            highlighter,
            parse_state,
            highlight_state,
            spare,
            memory,
        } = self;
        drop(highlighter);
        drop(spare);
        drop(memory);
        (highlight_state, parse_state)
    }

    /// The styled pieces of the next line, which join to it. The set has to be that of the syntax.
    /// A refusal, that of the line's reading or lack of memory, changes nothing. The line is read
    /// once: the reader counts its turns and the steps of their searches, as
    /// `ParseState::parse_line` does, also where the line is refused. Each byte has the theme's
    /// style where the lines are orderly (`RunsOrderly`), as they all are where no context clears.
    pub fn highlight_line<'b>(
        &mut self,
        alloc: Global,
        line: &'b str,
        syntax_set: &SyntaxSet,
    ) -> Result<Vec<(Style, &'b str)>, Error>
        // For each past that fits what is held, in a set that was built of plain definitions: the
        // pieces join to the line, and each byte has the theme's style where all lines are orderly;
        // or it has the refusal of its reading. Either way the line joins the past with its answer,
        // unless memory ran out.
        ensures answered { (past : Past) → IsPast past syntax_set.now self.old
            → Continues past syntax_set.now line.entry self.new result }
        ensures joins { IfOk result (λ pieces. Joins line.entry.now pieces.items) }
        // Where no match of the definitions names a context by its number, none gives a context a
        // prototype, and no pattern leaves `__start`: it is refused exactly where a match is picked
        // that names an unresolved reference, and with that one, unless memory ran out.
        ensures refused { (past : Past) → IsPast past syntax_set.now self.old
            → AreByName past.definitions → StaysInStart syntax_set.now past.syntax
            → RefusedForUnresolved syntax_set.now line.entry.now self.old result }
        ensures err { OnErr result (HoldsSame self.old self.new) }
        // how many turns and steps were made, by the numbers before and after
        ensures taken { OnOk result (TakesAll dialect syntax_set.now line.entry.now
            (standing (reader_of self.old))
            (turns_made (reader_of self.old)) (turns_made (reader_of self.new))) }
        ensures no_more { OnErr result (TakesNoMore dialect syntax_set.now line.entry.now
            (standing (reader_of self.old))
            (turns_made (reader_of self.old)) (turns_made (reader_of self.new))) }
        ensures bound { turns_made (reader_of self.new)
            ≤ turns_made (reader_of self.old)
            + most_turns syntax_set.now line.entry.now (standing (reader_of self.old)) }
        ensures no_fewer { turns_made (reader_of self.old) ≤ turns_made (reader_of self.new) }
        ensures no_fewer_steps { steps_made (reader_of self.old)
            ≤ steps_made (reader_of self.new) }
        ensures steps { UnlessMemory result (TakesSteps syntax_set.now line.entry.now
            (standing (reader_of self.old))
            (turns_made (reader_of self.new) - turns_made (reader_of self.old))
            (steps_made (reader_of self.old)) (steps_made (reader_of self.new))) }
        ensures most_steps { UnlessMemory result (TakesMostSteps syntax_set.now line.entry.now
            (standing (reader_of self.old))
            (steps_made (reader_of self.old)) (steps_made (reader_of self.new))) }
    {
        match self.highlight_line_within(alloc, line, syntax_set, &Limits::unlimited()) {
            Ok(answer) => Ok(answer),
            Err(e) => Err(refusal(e)),
        }
    }

    /// The styled pieces of the next line, read within limits. Its answer is that of
    /// `highlight_line`, unless it makes more steps or turns than `limits` has, opens more
    /// contexts, or has more operations: then it is `LimitReached`, with the limit, and nothing
    /// changes, as after any refusal. No line makes more (`few_turns`, `few_steps`), whatever its
    /// grammar's patterns are, and none is read that opens more (`few_levels`); where a limit was
    /// reached the line had made as many, or had more (`reached`, `there`).
    pub fn highlight_line_within<'b>(
        &mut self,
        alloc: Global,
        line: &'b str,
        syntax_set: &SyntaxSet,
        limits: &Limits,
    ) -> Result<Vec<(Style, &'b str)>, HighlightWithinError>
        // as `highlight_line` says, of the answer without limits
        ensures answered { (past : Past) → IsPast past syntax_set.now self.old
            → Continues past syntax_set.now line.entry self.new (unlimited_of result) }
        ensures no_fault { IfErr result RefusesNoReadFault }
        ensures joins { IfOk result (λ pieces. Joins line.entry.now pieces.items) }
        ensures refused { (past : Past) → IsPast past syntax_set.now self.old
            → AreByName past.definitions → StaysInStart syntax_set.now past.syntax
            → RefusedForUnresolved syntax_set.now line.entry.now self.old (unlimited_of result) }
        ensures err { OnErr result (HoldsSame self.old self.new) }
        // how many turns and steps were made, by the numbers before and after
        ensures taken { OnOk result (TakesAll dialect syntax_set.now line.entry.now
            (standing (reader_of self.old))
            (turns_made (reader_of self.old)) (turns_made (reader_of self.new))) }
        ensures no_more { OnErr result (TakesNoMore dialect syntax_set.now line.entry.now
            (standing (reader_of self.old))
            (turns_made (reader_of self.old)) (turns_made (reader_of self.new))) }
        ensures bound { turns_made (reader_of self.new)
            ≤ turns_made (reader_of self.old)
            + most_turns syntax_set.now line.entry.now (standing (reader_of self.old)) }
        ensures no_fewer { turns_made (reader_of self.old) ≤ turns_made (reader_of self.new) }
        ensures no_fewer_steps { steps_made (reader_of self.old)
            ≤ steps_made (reader_of self.new) }
        ensures steps { UnlessMemory (unlimited_of result)
            (TakesSteps syntax_set.now line.entry.now (standing (reader_of self.old))
            (turns_made (reader_of self.new) - turns_made (reader_of self.old))
            (steps_made (reader_of self.old)) (steps_made (reader_of self.new))) }
        ensures most_steps { UnlessMemory (unlimited_of result)
            (TakesMostSteps syntax_set.now line.entry.now (standing (reader_of self.old))
            (steps_made (reader_of self.old)) (steps_made (reader_of self.new))) }
        ensures few_turns { IsWithinLimit limits.now.turns
            (turns_made (reader_of self.new) - turns_made (reader_of self.old)) }
        ensures few_steps { IsWithinLimit limits.now.steps
            (steps_made (reader_of self.new) - steps_made (reader_of self.old)) }
        ensures few_levels { OnOk result (KeepsLevels dialect syntax_set.now line.entry.now
            (standing (reader_of self.old)) limits.now.levels) }
        ensures there { IfErr result (TellsWhere syntax_set.now line.entry.now
            (standing (reader_of self.old))) }
        ensures reached { IfErr result (ReachesLimit limits.now
            (turns_made (reader_of self.new) - turns_made (reader_of self.old))
            (steps_made (reader_of self.new) - steps_made (reader_of self.old))) }
    {
        answers_more();
        stack_is_open();
        never_both();
        refuses_unresolved();
        links_closed();
        let regions = self.memory.lend();
        let (parse_state, ops) = self
            .parse_state
            .after_line_within(alloc, line, syntax_set, limits, regions)?;
        self.spare.clone_from(&self.highlight_state)?;
        let pieces = collect_pieces(
            alloc,
            &self.highlighter,
            &mut self.spare,
            ops.as_slice(),
            line,
        )?;
        self.parse_state = parse_state;
        mem::swap(&mut self.highlight_state, &mut self.spare);
        Ok(pieces)
    }

    /// The styled pieces of the next line, read within limits, and `None`. Where the line reaches a
    /// limit, it is shown plain, which is one piece in the theme's own style, and the limit is
    /// reported; the next line is then read as if this one weren't there. So a line that would cost
    /// much takes no colours from those after it. A refusal is one of `highlight_line`,
    /// and changes nothing.
    pub fn highlight_line_or_plain<'b>(
        &mut self,
        alloc: Global,
        line: &'b str,
        syntax_set: &SyntaxSet,
        limits: &Limits,
    ) -> Result<(Vec<(Style, &'b str)>, Option<LineLimit>), Error>
        // as `highlight_line` says where no limit was reached; else the past stays, and the pieces
        // are plain
        ensures answered { (past : Past) → IsPast past syntax_set.now self.old
            → IfOk result (λ r. ContinuesWithin limits.now past syntax_set.now line.entry
            self.old self.new r.0 r.1) }
        ensures joins { IfOk result (λ r. Joins line.entry.now r.0.items) }
        ensures refused { (past : Past) → IsPast past syntax_set.now self.old
            → IfErr result (λ e. Continues past syntax_set.now line.entry self.new (Err e)) }
        ensures err { OnErr result (HoldsSame self.old self.new) }
        ensures no_fault { IfErr result IsNoReadFault }
        // how many turns and steps were made, by the numbers before and after: by a line that was
        // read all turns of its reading, else no more; where a limit is reported, as many as it has
        ensures taken { IfOk result (λ r. r.1 ≡ None
            → TakesAll dialect syntax_set.now line.entry.now (standing (reader_of self.old))
            (turns_made (reader_of self.old)) (turns_made (reader_of self.new))) }
        ensures no_more { TakesNoMore dialect syntax_set.now line.entry.now
            (standing (reader_of self.old))
            (turns_made (reader_of self.old)) (turns_made (reader_of self.new)) }
        ensures bound { turns_made (reader_of self.new)
            ≤ turns_made (reader_of self.old)
            + most_turns syntax_set.now line.entry.now (standing (reader_of self.old)) }
        ensures steps { UnlessLimited result (TakesSteps syntax_set.now line.entry.now
            (standing (reader_of self.old))
            (turns_made (reader_of self.new) - turns_made (reader_of self.old))
            (steps_made (reader_of self.old)) (steps_made (reader_of self.new))) }
        ensures most_steps { UnlessLimited result (TakesMostSteps syntax_set.now line.entry.now
            (standing (reader_of self.old))
            (steps_made (reader_of self.old)) (steps_made (reader_of self.new))) }
        ensures no_fewer { turns_made (reader_of self.old) ≤ turns_made (reader_of self.new) }
        ensures no_fewer_steps { steps_made (reader_of self.old)
            ≤ steps_made (reader_of self.new) }
        ensures few_turns { IsWithinLimit limits.now.turns
            (turns_made (reader_of self.new) - turns_made (reader_of self.old)) }
        ensures few_steps { IsWithinLimit limits.now.steps
            (steps_made (reader_of self.new) - steps_made (reader_of self.old)) }
        ensures reached { IfOk result (λ r. IfSome r.1 (λ limit. ReachesLimit limits.now
            (turns_made (reader_of self.new) - turns_made (reader_of self.old))
            (steps_made (reader_of self.new) - steps_made (reader_of self.old))
            (LimitReached limit))) }
    {
        match self.highlight_line_within(alloc, line, syntax_set, limits) {
            Ok(read) => Ok((read, None)),
            Err(HighlightWithinError::Refused(e)) => Err(e),
            Err(HighlightWithinError::LimitReached(limit)) => {
                Ok((self.plain(alloc, line)?, Some(limit)))
            }
        }
    }

    /// Puts the highlighter before the first line of a text in this syntax, under the same theme:
    /// what was read before is forgotten. So a program may go on after a line that was shown plain,
    /// in place of going on as if that line weren't there. `MissingMainContext` where the syntax
    /// has no context `__start`; after a refusal nothing has changed.
    pub fn begin_anew(&mut self, alloc: Global, syntax: &SyntaxReference) -> Result<(), Error>
        ensures leads { (set : ASet)
            → OnOk result (Leads set (theme_of self.old) syntax.now [] [] self.new) }
        ensures refused { IfErr result (LacksStart syntax.now) }
        ensures err { OnErr result (HoldsSame self.old self.new) }
    {
        self.parse_state = ParseState::new(alloc, syntax)?;
        self.highlight_state = HighlightState::new(&self.highlighter, ScopeStack::new(alloc));
        Ok(())
    }

    /// A line in the theme's own style: one piece, or none of a line without bytes.
    fn plain<'b>(&self, alloc: Global, line: &'b str) -> Result<Vec<(Style, &'b str)>, AllocError>
        ensures { IfOk result (λ pieces. ArePlain (theme_of self.now) line.now pieces.items) }
    {
        let mut plain = Vec::new(alloc);
        if !line.is_empty() {
            plain.push((self.highlighter.get_default(), line))?;
        }
        Ok(plain)
    }
}

/// Highlights the lines of a file, which are read from `reader`.
#[derive(Drop)]
pub struct HighlightFile<'a, F> {
    pub reader: BufReader<F>,
    pub highlight_lines: HighlightLines<'a>,
}

impl<'a, F: Read + Drop> HighlightFile<'a, F> {
    /// Opens a file, at its first line, and the state before that line under this theme. Its syntax
    /// is the one that `SyntaxSet::find_syntax_for_file` finds, or else plain text; of a first line
    /// that the first read doesn't give whole, or that is longer than the reader's buffer, the
    /// front that stands there is looked at. The file is opened once, so that it may be a pipe. A
    /// byte order mark, U+FEFF, at its start stands in the first piece.
    ///
    /// `Io` where the file is not opened, or not read to find the syntax; `NoSyntax` where no
    /// syntax fits and the set has no `Plain Text`; `MissingMainContext` where the syntax has no
    /// context `__start`.
    #[tactic(auto, using(crate::proofs::FileLaws::told_unlimited, crate::proofs::FileLaws::refused_unlimited))]
    pub fn new<T: Tree<File = F>>(
        tree: &T,
        alloc: Global,
        path: Path<'_>,
        ss: &SyntaxSet,
        theme: &'a Theme,
    ) -> Result<HighlightFile<'a, F>, Error>
        ensures leads { IfOk result
            (λ file. (syntax : ASyntax) × IsSyntaxFor ss.now (path_bytes path.entry) syntax
            × Leads ss.now theme.now syntax [] [] file.highlight_lines) }
        // what the file had when it was opened, if that is known, is what the reader has left
        ensures unread { IfOk result (λ file. (left : Option (List ℕ)) × (syntax : ASyntax)
            × Keeps left (reader_remaining F.remaining file.reader)
            × IsToldSyntax ss.now (path_bytes path.entry) left syntax
            × Leads ss.now theme.now syntax [] [] file.highlight_lines
            × T.told tree.now (opened (path_bytes path.entry) left)) }
        ensures refused { IfErr result (HasNoLines
            (IsFileFault (T.told tree.now) (path_bytes path.entry))
            ss.now (path_bytes path.entry)) }
    {
        let limits = Limits::unlimited();
        match HighlightFile::new_or_plain(tree, alloc, path, ss, theme, &limits) {
            Ok((file, _)) => Ok(file),
            Err(e) => Err(e),
        }
    }

    /// Opens a file as `new` does, but the patterns that are looked for in the first line make no
    /// more steps together than `Limits::steps` of `limits`. Where they would make more, the syntax
    /// is plain text, and the limit is reported.
    pub fn new_or_plain<T: Tree<File = F>>(
        tree: &T,
        alloc: Global,
        path: Path<'_>,
        ss: &SyntaxSet,
        theme: &'a Theme,
        limits: &Limits,
    ) -> Result<(HighlightFile<'a, F>, Option<FirstLineLimit>), Error>
        ensures leads { IfOk result (λ r. (syntax : ASyntax)
            × IsSyntaxWithin limits.now ss.now (path_bytes path.entry) syntax r.1
            × Leads ss.now theme.now syntax [] [] r.0.highlight_lines) }
        ensures unread { IfOk result (λ r. (left : Option (List ℕ)) × (syntax : ASyntax)
            × Keeps left (reader_remaining F.remaining r.0.reader)
            × IsToldWithin limits.now ss.now (path_bytes path.entry) left syntax r.1
            × Leads ss.now theme.now syntax [] [] r.0.highlight_lines
            × T.told tree.now (opened (path_bytes path.entry) left)) }
        ensures refused { IfErr result (HasNoLinesWithin
            (IsFileFault (T.told tree.now) (path_bytes path.entry))
            limits.now ss.now (path_bytes path.entry)) }
    {
        let file = match tree.open_reader(path.as_str()) {
            Ok(file) => file,
            Err(e) => return Err(Error::from(e)),
        };
        let mut reader = match BufReader::new(alloc, file) {
            Ok(reader) => reader,
            Err(e) => return Err(Error::from(e)),
        };
        let (syntax, limit) = match syntax_within(tree, alloc, &mut reader, path, ss, limits) {
            Ok(found) => found,
            Err(e) => return Err(e),
        };
        match HighlightLines::new(alloc, syntax, theme) {
            Ok(highlight_lines) => Ok((
                HighlightFile {
                    reader,
                    highlight_lines,
                },
                limit,
            )),
            Err(e) => Err(e),
        }
    }
}

/// The syntax of plain text.
fn plain_text(ss: &SyntaxSet) -> Result<&SyntaxReference, Error>
    ensures found { IfOk result (λ syntax. Some syntax.now ≡ found_plain_text ss.now) }
    ensures refused { IfErr result (λ e. (e ≡ NoSyntax) × (None ≡ found_plain_text ss.now)) }
{
    match ss.find_syntax_plain_text() {
        Some(syntax) => Ok(syntax),
        None => Err(Error::NoSyntax),
    }
}

/// The syntax of a file that a reader has opened, or else plain text, with the limit if the first
/// line reaches it. The reader's bytes stay.
fn syntax_within<'s, T: Tree>(
    tree: &T,
    alloc: Global,
    reader: &mut BufReader<T::File>,
    path: Path<'_>,
    ss: &'s SyntaxSet,
    limits: &Limits,
) -> Result<(&'s SyntaxReference, Option<FirstLineLimit>), Error>
    ensures found { IfOk result (λ r. IsToldWithin limits.now ss.now (path_bytes path.entry)
        (reader_remaining T.File.remaining reader.old) r.0.now r.1) }
    ensures keeps { Keeps (reader_remaining T.File.remaining reader.old)
        (reader_remaining T.File.remaining reader.new) }
    ensures refused { IfErr result (HasNoLinesWithin
        (IsFrontFault (T.told tree.now) (path_bytes path.entry)
        (reader_remaining T.File.remaining reader.old))
        limits.now ss.now (path_bytes path.entry)) }
{
    if let Some(syntax) = ss.find_syntax_by_file_name(path) {
        return Ok((syntax, None));
    }
    match tree.fill(path.as_str(), reader) {
        Ok(()) => {}
        Err(e) => return Err(Error::from(e)),
    }
    let line = match first_line(reader.buffer()) {
        Ok(line) => line,
        Err(e) => return Err(e),
    };
    let mut count = GhostCount::none();
    match find_syntax_by_first_line_within(alloc, ss, line, limits, &mut count) {
        Ok(Some(syntax)) => Ok((syntax, None)),
        Ok(None) => match plain_text(ss) {
            Ok(syntax) => Ok((syntax, None)),
            Err(e) => Err(e),
        },
        Err(FindWithinError::LimitReached(limit)) => match plain_text(ss) {
            Ok(syntax) => Ok((syntax, Some(limit))),
            Err(e) => Err(e),
        },
        Err(FindWithinError::Refused(_)) => Err(Error::Memory),
    }
}
