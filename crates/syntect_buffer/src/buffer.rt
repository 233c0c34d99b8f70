//! The lines of an editor's text.
ghost use Rattle.std.specs.Prelude.{◌≡◌, ◌+◌, ◌<◌, ◌≤◌, List, [], insert, remove, take, length, slice_get, slice_set, string_bytes, Some, IfOk, IfErr, OnOk, OnErr};
ghost use Rattle.syntect_buffer.specs.syntect_base.Limiting.{unlimited};
ghost use Rattle.syntect_buffer.specs.syntect_easy.Built.{IsSyntaxOfBuilt};
ghost use Rattle.syntect_buffer.specs.syntect_easy.Leads.{LacksStart};
ghost use Rattle.syntect_buffer.specs.syntect_grammar_loader.declared.definition.SyntaxDefinition.{SyntaxDefinition as ADefinition};
ghost use Rattle.syntect_buffer.specs.Answers.{HasNoLimit, TellsOf, UnlessLimit};
ghost use Rattle.syntect_buffer.specs.Fresh.{IsReadWith, IsAnswerAt, IsWhole, ReadsAgain, given_in};

use crate::answer::LineAnswer;
use crate::below::base::limits::Limits;
use crate::below::easy::easy::HighlightLines;
use crate::below::parsing::error::Error;
use crate::below::parsing::syntax_set::{SyntaxReference, SyntaxSet};
use crate::below::theme::theme::Theme;
use crate::edits::{insert_at, remove_at, set_at};
use crate::reading::Kept;
use crate::states::{LineStates, SharedStates};
use std::alloc::{AllocError, Global};
use std::marker::Model;
use syntect_blocks::blocks::Blocks;

/// The lines of a text that is edited, each with what a highlighter answers to it.
#[derive(Drop)]
pub struct LineBuffer<'a> {
    syntax: &'a SyntaxReference,
    syntax_set: &'a SyntaxSet,
    theme: &'a Theme,
    kept: Kept,
}

impl<'a> Model for LineBuffer<'a> {
    ghost use Rattle.syntect_buffer.specs.Fresh.{Buffer};

    ghost Value = { Buffer };

    ghost use Rattle.syntect_buffer.specs.Kept.{IsKept, buffer_view};

    ghost view = { λ b. buffer_view b.syntax.now b.syntax_set.now b.theme.now b.kept };

    ghost invariant = { λ b. IsKept b.syntax_set.now b.theme.now b.syntax.now b.kept };
}

impl<'a> LineBuffer<'a> {
    /// A buffer without lines, for texts in this syntax of the set, under this theme.
    /// `MissingMainContext` where the syntax has no context `__start`.
    pub fn new(
        alloc: Global,
        syntax: &'a SyntaxReference,
        syntax_set: &'a SyntaxSet,
        theme: &'a Theme,
    ) -> Result<LineBuffer<'a>, Error>
        ensures made { IfOk result (λ b. IsReadWith b syntax.now syntax_set.now theme.now) }
        ensures lines { IfOk result (λ b. b.lines ≡ []) }
        ensures limits { IfOk result (λ b. b.limits ≡ unlimited) }
        ensures refused { IfErr result (LacksStart syntax.now) }
    {
        LineBuffer::new_within(alloc, syntax, syntax_set, theme, Limits::unlimited())
    }

    /// A buffer without lines, as `new` makes it, each of whose lines is read within the limits of
    /// steps and of turns. A line that reaches one is answered by `LineAnswer::LimitReached`, and
    /// the lines after it are read as if it were not there.
    pub fn new_within(
        alloc: Global,
        syntax: &'a SyntaxReference,
        syntax_set: &'a SyntaxSet,
        theme: &'a Theme,
        limits: Limits,
    ) -> Result<LineBuffer<'a>, Error>
        ensures made { IfOk result (λ b. IsReadWith b syntax.now syntax_set.now theme.now) }
        ensures lines { IfOk result (λ b. b.lines ≡ []) }
        ensures limits { IfOk result (λ b. b.limits ≡ limits) }
        ensures refused { IfErr result (LacksStart syntax.now) }
    {
        let lines = match HighlightLines::new(alloc, syntax, theme) {
            Ok(lines) => lines,
            Err(e) => return Err(e),
        };
        let (styles, reader) = lines.state();
        Ok(LineBuffer {
            syntax,
            syntax_set,
            theme,
            kept: Kept {
                limits,
                start: SharedStates::new(alloc, LineStates { styles, reader })?,
                lines: Blocks::new(alloc),
                readings: Blocks::new(alloc),
            },
        })
    }

    /// How many lines there are. Takes no memory.
    pub fn len(&self) -> usize
        ensures { result ≡ length self.now.lines }
    {
        self.kept.lines.len()
    }

    /// The text of a line. Takes no memory.
    pub fn line(&self, place: usize) -> &str
        requires { place < length self.now.lines }
        ensures { slice_get self.now.lines place ≡ Some result.now }
    {
        self.kept.lines.get(place).as_str()
    }

    /// The answer to a line. Takes no memory.
    pub fn answer(&self, place: usize) -> &LineAnswer
        requires { place < length self.now.lines }
        ensures kept { slice_get self.now.answers place ≡ Some result.now }
        // in a set that was built of plain definitions it is the answer of a new highlighter that
        // is given, in order, the lines up to this one but those that reached a limit; or this one
        // reached a limit itself
        ensures fresh { (definitions : List ADefinition)
            → IsSyntaxOfBuilt self.now.set self.now.syntax definitions
            → UnlessLimit result.now
            (IsAnswerAt self.now (given_in self.now place) place result.now) }
        // without limits it is the answer of one that is given all lines in order
        ensures all { (definitions : List ADefinition)
            → IsSyntaxOfBuilt self.now.set self.now.syntax definitions
            → HasNoLimit self.now.limits
            → IsAnswerAt self.now (take place self.now.lines) place result.now }
        // a limit that it tells is one of the buffer's
        ensures told { TellsOf self.now.limits result.now }
    {
        &self.kept.readings.get(place).answer
    }

    /// Puts a line before the one at a place, or after the last, and answers how many lines were
    /// read again. Lack of memory changes nothing, and the line is dropped then.
    pub fn insert_line(
        &mut self,
        alloc: Global,
        place: usize,
        line: String,
    ) -> Result<usize, AllocError>
        requires { place ≤ length self.old.lines }
        ensures lines { OnOk result
            (self.new.lines ≡ insert self.old.lines place (string_bytes line)) }
        ensures stays { IsReadWith self.new self.old.syntax self.old.set self.old.theme }
        ensures limits { self.new.limits ≡ self.old.limits }
        ensures all { HasNoLimit self.old.limits → IsWhole self.old × IsWhole self.new }
        ensures number { IfOk result (λ number. (definitions : List ADefinition)
            → IsSyntaxOfBuilt self.old.set self.old.syntax definitions
            → ReadsAgain self.old self.new 1 place (place + 1) number) }
        ensures err { OnErr result (self.new ≡ self.old) }
    {
        insert_at(
            &mut self.kept,
            alloc,
            self.syntax_set,
            self.theme,
            place,
            line,
        )
    }

    /// Puts a line in place of another one, and answers how many lines were read again. Lack of
    /// memory changes nothing, and the new line is dropped then.
    pub fn set_line(
        &mut self,
        alloc: Global,
        place: usize,
        line: String,
    ) -> Result<usize, AllocError>
        requires { place < length self.old.lines }
        ensures lines { OnOk result
            (self.new.lines ≡ slice_set self.old.lines place (string_bytes line)) }
        ensures stays { IsReadWith self.new self.old.syntax self.old.set self.old.theme }
        ensures limits { self.new.limits ≡ self.old.limits }
        ensures all { HasNoLimit self.old.limits → IsWhole self.old × IsWhole self.new }
        ensures number { IfOk result (λ number. (definitions : List ADefinition)
            → IsSyntaxOfBuilt self.old.set self.old.syntax definitions
            → ReadsAgain self.old self.new 1 (place + 1) (place + 1) number) }
        ensures err { OnErr result (self.new ≡ self.old) }
    {
        set_at(
            &mut self.kept,
            alloc,
            self.syntax_set,
            self.theme,
            place,
            line,
        )
    }

    /// Removes a line, and answers how many lines were read again. Lack of memory changes nothing.
    pub fn remove_line(&mut self, alloc: Global, place: usize) -> Result<usize, AllocError>
        requires { place < length self.old.lines }
        ensures lines { OnOk result (self.new.lines ≡ remove self.old.lines place) }
        ensures stays { IsReadWith self.new self.old.syntax self.old.set self.old.theme }
        ensures limits { self.new.limits ≡ self.old.limits }
        ensures all { HasNoLimit self.old.limits → IsWhole self.old × IsWhole self.new }
        ensures number { IfOk result (λ number. (definitions : List ADefinition)
            → IsSyntaxOfBuilt self.old.set self.old.syntax definitions
            → ReadsAgain self.old self.new 0 (place + 1) place number) }
        ensures err { OnErr result (self.new ≡ self.old) }
    {
        remove_at(&mut self.kept, alloc, self.syntax_set, self.theme, place)
    }
}
