//! Lines as spans with classes, and pages of them.
ghost use Rattle.std.specs.Prelude.{◌≡◌, ◌++◌, ◌+◌, ◌-◌, ◌≤◌, [], Some, length, string_bytes, pos, ◌-ℤ◌, IfOk, IfErr, OnOk, OnErr, false};
ghost use Rattle.syntect_easy.specs.Classed.{RefusesOperations, text_so_far, stack_in, state_in, set_in, repository_in, style_in, turns_in, steps_in, AddsLine, CanRestore, StaysAt, RefusesLineOf, closing_tags, closed_text};
ghost use Rattle.syntect_easy.specs.Leads.{BeginsPlain, LacksStart, UnlessMemory};
ghost use Rattle.syntect_easy.specs.Within.{ReachesLimit, TellsWhere, unlimited_of};
ghost use Rattle.syntect_parsing.specs.Within.{KeepsLevels};
ghost use Rattle.syntect_easy.specs.syntect_base.Limiting.{IsWithinLimit};
ghost use Rattle.syntect_parsing.specs.Bound.{TakesAll, TakesNoMore, most_turns};
ghost use Rattle.syntect_parsing.specs.Line.{start_of};
ghost use Rattle.syntect_parsing.specs.Work.{TakesSteps, TakesMostSteps};
ghost use Rattle.syntect_easy.specs.syntect_scope.Stack.{plain};
ghost use Rattle.syntect_writers.specs.Classes.{prefix_of};
ghost use Rattle.syntect_writers.specs.Marks.{marks, written, stack_after, some_refused};
ghost use Rattle.syntect_easy.specs.syntect_reading_choice.Engine.{dialect};
ghost use Rattle.syntect_easy.specs.syntect_scope.Replay.{InOrder};

use crate::below::base::limits::Limits;
use crate::below::scope::repository::ScopeRepository;
use crate::below::scope::stack::{ScopeStack, ScopeStackOp};
use crate::memory::SearchMemory;
use crate::within::{HighlightWithinError, refusal};
use std::alloc::{AllocError, Global};
use syntect_parsing::error::Error;
use syntect_parsing::parser::ParseState;
use syntect_parsing::syntax_set::{SyntaxReference, SyntaxSet};
pub use syntect_writers::class_style::ClassStyle;
use syntect_writers::classed;

/// A line as spans with classes, as its operations, which are in order, open and close them on a
/// stack, and by how many spans more are open after it. A refusal leaves the stack: `ScopeError`
/// where an operation restores and nothing was cleared, or lack of memory.
#[tactic(auto, using(crate::proofs::ClassedLaws::operations_refused))]
pub fn line_tokens_to_classed_spans(
    alloc: Global,
    line: &str,
    ops: &[(usize, ScopeStackOp)],
    style: ClassStyle,
    stack: &mut ScopeStack,
    repository: &ScopeRepository,
) -> Result<(String, isize), Error>
    requires { InOrder line.now 0 ops.now (length line.now) }
    ensures text { IfOk result (λ r. string_bytes r.0
        ≡ written (prefix_of style) repository.now (marks line.now 0 stack.old ops.now)) }
    ensures number { IfOk result (λ r. r.1 ≡ pos (length (stack_after stack.old ops.now).scopes)
        -ℤ pos (length stack.old.scopes)) }
    ensures stack { OnOk result (stack.new ≡ stack_after stack.old ops.now) }
    ensures accepted { OnOk result (some_refused stack.old ops.now ≡ false) }
    ensures refused { IfErr result (RefusesOperations stack.old ops.now) }
    ensures err { OnErr result (stack.new ≡ stack.old) }
{
    match classed::line_tokens_to_classed_spans(alloc, line, ops, style, stack, repository) {
        Ok(written) => Ok(written),
        Err(e) => Err(Error::from(e)),
    }
}

/// Writes the lines of a text, one after another, as nested spans with classes.
pub struct ClassedHTMLGenerator<'a> {
    syntax_set: &'a SyntaxSet,
    repository: &'a ScopeRepository,
    style: ClassStyle,
    parse_state: ParseState,
    scope_stack: ScopeStack,
    html: String,
    /// The memory of searches, line by line.
    memory: SearchMemory,
}

/// Written out, so that crates above call it and needn't prove each part's drop again.
impl<'a> Drop for ClassedHTMLGenerator<'a> {
    fn drop(self) {
        let ClassedHTMLGenerator {
            syntax_set: _,
            repository: _,
            style: _,
            parse_state: _,
            scope_stack: _,
            html: _,
            memory: _,
        } = self;
    }
}

impl<'a> ClassedHTMLGenerator<'a> {
    /// A generator before the first line of a text in this syntax, which is one of the set.
    /// `MissingMainContext` where the syntax has no context `__start`.
    pub fn new_with_class_style(
        alloc: Global,
        syntax_reference: &SyntaxReference,
        syntax_set: &'a SyntaxSet,
        repository: &'a ScopeRepository,
        style: ClassStyle,
    ) -> Result<ClassedHTMLGenerator<'a>, Error>
        ensures state { IfOk result (λ g. start_of syntax_reference.now ≡ Some (state_in g)) }
        ensures text { IfOk result (λ g. text_so_far g ≡ []) }
        ensures stack { IfOk result (λ g. stack_in g ≡ plain []) }
        ensures set { IfOk result (λ g. set_in g ≡ syntax_set.now) }
        ensures repository { IfOk result (λ g. repository_in g ≡ repository.now) }
        ensures classes { IfOk result (λ g. style_in g ≡ style) }
        ensures restores { BeginsPlain syntax_set.now syntax_reference.now
            → IfOk result CanRestore }
        ensures none_made { IfOk result (λ g. turns_in g ≡ 0) }
        ensures no_steps { IfOk result (λ g. steps_in g ≡ 0) }
        ensures refused { IfErr result (LacksStart syntax_reference.now) }
    {
        let parse_state = ParseState::new(alloc, syntax_reference)?;
        Ok(ClassedHTMLGenerator {
            syntax_set,
            repository,
            style,
            parse_state,
            scope_stack: ScopeStack::new(alloc),
            html: String::new(alloc),
            memory: SearchMemory::new(alloc),
        })
    }

    /// Reads the next line, with its newline, and adds it to the text. A refusal changes nothing:
    /// that of the line's reading, or lack of memory. The line is read once: the reader counts its
    /// turns and the steps of their searches, as `ParseState::parse_line` does, also where the line
    /// is refused.
    pub fn parse_html_for_line_which_includes_newline(&mut self, line: &str) -> Result<(), Error>
        ensures accepted { OnOk result (AddsLine line.now self.old self.new) }
        ensures refused { IfErr result (RefusesLineOf self.old line.now) }
        ensures restores { CanRestore self.old → CanRestore self.new }
        ensures err { OnErr result (StaysAt self.old self.new) }
        // how many turns and steps were made, by the numbers before and after
        ensures taken { OnOk result (TakesAll dialect (set_in self.old) line.now
            (state_in self.old) (turns_in self.old) (turns_in self.new)) }
        ensures no_more { OnErr result (TakesNoMore dialect (set_in self.old) line.now
            (state_in self.old) (turns_in self.old) (turns_in self.new)) }
        ensures bound { turns_in self.new
            ≤ turns_in self.old + most_turns (set_in self.old) line.now (state_in self.old) }
        ensures no_fewer { turns_in self.old ≤ turns_in self.new }
        ensures no_fewer_steps { steps_in self.old ≤ steps_in self.new }
        ensures steps { UnlessMemory result (TakesSteps (set_in self.old) line.now
            (state_in self.old) (turns_in self.new - turns_in self.old)
            (steps_in self.old) (steps_in self.new)) }
        ensures most_steps { UnlessMemory result (TakesMostSteps (set_in self.old) line.now
            (state_in self.old) (steps_in self.old) (steps_in self.new)) }
    {
        match self.parse_html_for_line_which_includes_newline_within(line, &Limits::unlimited()) {
            Ok(()) => Ok(()),
            Err(e) => Err(refusal(e)),
        }
    }

    /// Reads the next line, with its newline, within limits, and adds it to the text. Its answer is
    /// that of `parse_html_for_line_which_includes_newline`, unless it makes more steps or turns
    /// than `limits` has, opens more contexts, or has more operations: then it is `LimitReached`,
    /// with the limit, and nothing changes, as after any refusal. No line makes more (`few_turns`,
    /// `few_steps`), whatever its grammar's patterns are, and none is read that opens more
    /// (`few_levels`); where a limit was reached the line had made as many,
    /// or had more (`reached`, `there`).
    #[tactic(auto, using(crate::proofs::WithinLaws::line_stopped, crate::proofs::ClassedLaws::operation_refused, crate::proofs::ClassedLaws::memory_refused))]
    pub fn parse_html_for_line_which_includes_newline_within(
        &mut self,
        line: &str,
        limits: &Limits,
    ) -> Result<(), HighlightWithinError>
        ensures accepted { OnOk result (AddsLine line.now self.old self.new) }
        ensures refused { IfErr (unlimited_of result) (RefusesLineOf self.old line.now) }
        ensures restores { CanRestore self.old → CanRestore self.new }
        ensures err { OnErr result (StaysAt self.old self.new) }
        // how many turns and steps were made, by the numbers before and after
        ensures taken { OnOk result (TakesAll dialect (set_in self.old) line.now
            (state_in self.old) (turns_in self.old) (turns_in self.new)) }
        ensures no_more { OnErr result (TakesNoMore dialect (set_in self.old) line.now
            (state_in self.old) (turns_in self.old) (turns_in self.new)) }
        ensures bound { turns_in self.new
            ≤ turns_in self.old + most_turns (set_in self.old) line.now (state_in self.old) }
        ensures no_fewer { turns_in self.old ≤ turns_in self.new }
        ensures no_fewer_steps { steps_in self.old ≤ steps_in self.new }
        ensures steps { UnlessMemory (unlimited_of result)
            (TakesSteps (set_in self.old) line.now (state_in self.old)
            (turns_in self.new - turns_in self.old) (steps_in self.old) (steps_in self.new)) }
        ensures most_steps { UnlessMemory (unlimited_of result)
            (TakesMostSteps (set_in self.old) line.now (state_in self.old)
            (steps_in self.old) (steps_in self.new)) }
        ensures few_turns { IsWithinLimit limits.now.turns (turns_in self.new - turns_in self.old) }
        ensures few_steps { IsWithinLimit limits.now.steps (steps_in self.new - steps_in self.old) }
        ensures few_levels { OnOk result (KeepsLevels dialect (set_in self.old) line.now
            (state_in self.old) limits.now.levels) }
        ensures there { IfErr result (TellsWhere (set_in self.old) line.now (state_in self.old)) }
        ensures reached { IfErr result (ReachesLimit limits.now
            (turns_in self.new - turns_in self.old) (steps_in self.new - steps_in self.old)) }
    {
        let alloc = *self.html.allocator();
        let regions = self.memory.lend();
        let (parse_state, ops) = self
            .parse_state
            .after_line_within(alloc, line, self.syntax_set, limits, regions)?;
        let mut scope_stack = self.scope_stack.clone()?;
        let (text, _) = line_tokens_to_classed_spans(
            alloc,
            line,
            ops.as_slice(),
            self.style,
            &mut scope_stack,
            self.repository,
        )?;
        self.html.push_str(text.as_str())?;
        self.parse_state = parse_state;
        self.scope_stack = scope_stack;
        Ok(())
    }

    /// The text, with all spans closed that are open.
    pub fn finalize(self) -> Result<String, AllocError>
        ensures { IfOk result (λ text. string_bytes text ≡ closed_text self.entry) }
    {
        let ClassedHTMLGenerator {
            syntax_set: _,
            repository: _,
            style: _,
            parse_state: _,
            scope_stack,
            html,
            memory: _,
        } = self;
        closed(html, scope_stack.len())
    }
}

/// A text with so many spans closed after it.
fn closed(text: String, count: usize) -> Result<String, AllocError>
    ensures { IfOk result (λ t. string_bytes t ≡ string_bytes text ++ closing_tags count) }
{
    let mut text = text;
    for _ in 0..count {
        text.push_str("</span>")?;
    }
    Ok(text)
}
