//! Reading a line.
ghost use Rattle.std.specs.Prelude.{◌≡◌, ◌≢◌, ◌↔◌, ◌+◌, ◌-◌, ◌≤◌, ◌<◌, ◌^◌, ℕ, [], take, Some, length, IfOk, IfErr, IfNone, IfSome, OnOk, OnErr, IsTrue, true, false};
ghost use Rattle.std.specs.Option.{option_to_list, option_map_or};
ghost use Rattle.syntect_parsing.specs.syntect_scope.Replay.{pushes};
ghost use Rattle.syntect_parsing.specs.syntect_grammar.Contexts.{part_of};
ghost use Rattle.syntect_reading_choice.specs.Chain.{last};
ghost use Rattle.syntect_reading_choice.specs.Engine.{dialect};
ghost use Rattle.syntect_parsing.specs.Line.{start_id, start_of, at_start, first_push};
ghost use Rattle.syntect_parsing.specs.Meaning.{MayLackStart, Accepts, RefusesLineOrMemory};
ghost use Rattle.syntect_parsing.specs.States.{standing, turns_made, steps_made, CountsSame};
ghost use Rattle.syntect_parsing.specs.Bound.{TakesTurns, TakesAll, TakesNoMore, IsTold, most_turns};
ghost use Rattle.syntect_parsing.specs.Work.{TakesSteps, TakesMostSteps, UnlessMemory};
ghost use Rattle.syntect_parsing.specs.Within.{KeepsLevels, RefusesWithinOrMemory, PassesLimit, ReachesHere, ReachesLimit, StandsAt, UnlessStopped, refusal_of};
ghost use Rattle.syntect_parsing.specs.syntect_base.Limiting.{IsWithinLimit, limit_of};
ghost use Rattle.syntect_parsing.specs.syntect_count.Meter.{Advances};

use crate::below::base::limits::Limits;
use crate::below::count::count::GhostCount;
use crate::below::count::counts::add;
use crate::below::count::meter::Meter;
pub use crate::below::grammar::error::ParsingError;
use crate::below::grammar::syntax_definition::{ContextId, ContextReference};
use crate::below::grammar::syntax_set::{SyntaxReference, SyntaxSet};
use crate::below::scope::scope::Scope;
use crate::below::scope::stack::ScopeStackOp;
use crate::below::values::seq::Seq;
use crate::turn::turn;
use crate::within::{LineLimit, ReadWithinError};
use std::alloc::{AllocError, AllocFailed, Global};
use syntect_reading_choice::laws::dialect_finds_in_text;
pub use syntect_reading_choice::level::Level;
use syntect_reading_choice::levels::Levels;
use syntect_reading_choice::position::Position;
pub use syntect_reading_choice::search::Regions;

/// Where a reader stands between lines: open levels, lowest first, whether no line was accepted,
/// and cuts: heights that `with_prototype` matches found; prototypes below the last are hidden.
#[derive(Clone, Drop, PartialEq, Eq)]
pub struct Standing {
    pub levels: Seq<Level>,
    pub cuts: Seq<usize>,
    pub first_line: bool,
}

/// What is kept between lines: where the reader stands, its turns so far, and their searches'
/// steps, which contracts alone see. States that stand alike are equal, whatever they count.
#[derive(Clone, PartialEq, Eq)]
pub struct ParseState {
    standing: Standing,
    count: GhostCount,
    steps: GhostCount,
}

/// Written out, so that crates above call it and needn't prove each part's drop again.
impl Drop for ParseState {
    fn drop(self) {
        let ParseState {
            standing: _,
            count: _,
            steps: _,
        } = self;
    }
}

/// How many operations most lines have at most: room for them is asked for at once.
const USUAL_OPERATIONS: usize = 16;

/// The number of a syntax's `__start`.
fn start_id(syntax: &SyntaxReference) -> Option<ContextId>
    ensures { result ≡ start_id syntax.now }
{
    syntax.context_named("__start")
}

impl ParseState {
    /// The state before the first line; `MissingMainContext` where the syntax has no `__start`.
    pub fn new(alloc: Global, syntax: &SyntaxReference) -> Result<ParseState, ParsingError>
        ensures found { IfOk result (λ state. start_of syntax.now ≡ Some (standing state)) }
        ensures none_made { IfOk result (λ state. turns_made state ≡ 0) }
        ensures no_steps { IfOk result (λ state. steps_made state ≡ 0) }
        ensures refused { IfErr result (MayLackStart syntax.now) }
    {
        let Some(context) = start_id(syntax) else {
            return Err(ParsingError::MissingMainContext);
        };
        let mut levels = Seq::new(alloc);
        levels.push(Level {
            context,
            prototypes: Seq::new(alloc),
            opening: None,
        })?;
        Ok(ParseState {
            standing: Standing {
                levels,
                cuts: Seq::new(alloc),
                first_line: true,
            },
            count: GhostCount::none(),
            steps: GhostCount::none(),
        })
    }

    /// Reads the next line, with its line feed if it has one. The operations, at byte positions in
    /// order, are not refused on the stack that the lines before left, empty before the first, nor
    /// on any that remembers a list for each open level that clears. There they give the line's
    /// scopes if the syntax has a plain `__start` and the lines are orderly. A refusal leaves the
    /// state as it was: `MissingMainContext` where no context is open any more,
    /// `UnresolvedContextReference` where a picked match names an unresolved reference,
    /// `MissingContext` where the set lacks a context that it names, the one on top, or a prototype
    /// to be looked at, and `Memory`. The state counts turns, which take a match, pass over a
    /// character, or end or refuse the line: an accepted line takes those of its reading, a refused
    /// one no more, and neither more than `levels + (r + 1) * 1001 * (bytes + 1)`, `r` the longest
    /// list of contexts that a match of the set opens, or 1. It counts their searches' steps, as
    /// `Regex::search_counted` does: if the patterns looked at are linear and memory suffices, at
    /// most `turns * patterns * (put + most * (bytes + 1))`, of `patterns` a turn, `most` steps a
    /// search of one and `put` for texts put into it (`steps`); if all of the set are linear
    /// without back references, a formula of set, line length and open levels bounds them
    /// (`most_steps`). Neither falls (`no_fewer`, `no_fewer_steps`).
    pub fn parse_line(
        &mut self,
        alloc: Global,
        line: &str,
        syntax_set: &SyntaxSet,
    ) -> Result<Vec<(usize, ScopeStackOp)>, ParsingError>
        ensures accepted { IfOk result (λ ops.
            Accepts dialect syntax_set.now line.now (standing self.old) (standing self.new)
            ops.items) }
        ensures refused { IfErr result (
            RefusesLineOrMemory dialect syntax_set.now line.now (standing self.old)) }
        ensures err { OnErr result (standing self.new ≡ standing self.old) }
        ensures taken { OnOk result (TakesAll dialect syntax_set.now line.now (standing self.old)
            (turns_made self.old) (turns_made self.new)) }
        ensures no_more { OnErr result (TakesNoMore dialect syntax_set.now line.now
            (standing self.old) (turns_made self.old) (turns_made self.new)) }
        ensures bound { turns_made self.new
            ≤ turns_made self.old + most_turns syntax_set.now line.now (standing self.old) }
        ensures no_fewer { turns_made self.old ≤ turns_made self.new }
        ensures no_fewer_steps { steps_made self.old ≤ steps_made self.new }
        ensures steps { UnlessMemory result (TakesSteps syntax_set.now line.now
            (standing self.old) (turns_made self.new - turns_made self.old)
            (steps_made self.old) (steps_made self.new)) }
        ensures most_steps { UnlessMemory result (TakesMostSteps syntax_set.now line.now
            (standing self.old) (steps_made self.old) (steps_made self.new)) }
    {
        match self.parse_line_within(alloc, line, syntax_set, &Limits::unlimited()) {
            Ok(ops) => Ok(ops),
            Err(e) => Err(refusal(e)),
        }
    }

    /// Reads the next line as `parse_line` does, unless its steps, turns, open contexts or
    /// operations exceed `limits`: that is `LimitReached`, with the limit, and the state stays.
    /// Whatever the patterns, no line makes more (`few_turns`, `few_steps`), none accepted has more
    /// (`few_levels`, `few_operations`), and one so refused made as many or had more (`reached`).
    pub fn parse_line_within(
        &mut self,
        alloc: Global,
        line: &str,
        syntax_set: &SyntaxSet,
        limits: &Limits,
    ) -> Result<Vec<(usize, ScopeStackOp)>, ReadWithinError>
        ensures accepted { IfOk result (λ ops.
            Accepts dialect syntax_set.now line.now (standing self.old) (standing self.new)
            ops.items) }
        ensures refused { IfErr result (
            RefusesWithinOrMemory dialect syntax_set.now line.now (standing self.old)) }
        ensures err { OnErr result (standing self.new ≡ standing self.old) }
        ensures taken { OnOk result (TakesAll dialect syntax_set.now line.now (standing self.old)
            (turns_made self.old) (turns_made self.new)) }
        ensures no_more { OnErr result (TakesNoMore dialect syntax_set.now line.now
            (standing self.old) (turns_made self.old) (turns_made self.new)) }
        ensures bound { turns_made self.new
            ≤ turns_made self.old + most_turns syntax_set.now line.now (standing self.old) }
        ensures no_fewer { turns_made self.old ≤ turns_made self.new }
        ensures no_fewer_steps { steps_made self.old ≤ steps_made self.new }
        ensures steps { UnlessStopped result (TakesSteps syntax_set.now line.now
            (standing self.old) (turns_made self.new - turns_made self.old)
            (steps_made self.old) (steps_made self.new)) }
        ensures most_steps { UnlessStopped result (TakesMostSteps syntax_set.now line.now
            (standing self.old) (steps_made self.old) (steps_made self.new)) }
        ensures few_turns { IsWithinLimit limits.now.turns
            (turns_made self.new - turns_made self.old) }
        ensures few_steps { IsWithinLimit limits.now.steps
            (steps_made self.new - steps_made self.old) }
        ensures few_levels { OnOk result (KeepsLevels dialect syntax_set.now line.now
            (standing self.old) limits.now.levels) }
        ensures few_operations { IfOk result (λ ops.
            IsWithinLimit limits.now.operations (length ops.items)) }
        ensures reached { IfErr result (ReachesLimit limits.now
            (turns_made self.new - turns_made self.old)
            (steps_made self.new - steps_made self.old)) }
    {
        if self.standing.levels.is_empty() {
            return Err(ReadWithinError::Refused(ParsingError::MissingMainContext));
        }
        let ParseState {
            standing,
            count,
            steps,
        } = self;
        let mut regions = Regions::new(alloc);
        let (left, ops) = match read_adding(
            alloc,
            syntax_set,
            line,
            standing,
            limits,
            &mut regions,
            count,
            steps,
        ) {
            Ok(read) => read,
            Err(e) => return Err(e),
        };
        *standing = left;
        Ok(ops)
    }

    /// The state after the next line, and its operations, as by `parse_line`, and refused as there.
    /// This state stays where it stands, needs no copy, and counts turns and steps, even of a
    /// refused line, as the state after does. The memory of searches can be kept between lines,
    /// whatever it holds; its count becomes the line's steps, added to this state's (`added`).
    pub fn after_line(
        &mut self,
        alloc: Global,
        line: &str,
        syntax_set: &SyntaxSet,
        regions: &mut Regions,
    ) -> Result<(ParseState, Vec<(usize, ScopeStackOp)>), ParsingError>
        ensures accepted { IfOk result (λ r. Accepts dialect syntax_set.now line.now
            (standing self.old) (standing r.0) r.1.items) }
        ensures refused { IfErr result (
            RefusesLineOrMemory dialect syntax_set.now line.now (standing self.old)) }
        ensures stays { standing self.new ≡ standing self.old }
        ensures counts { IfOk result (λ r. CountsSame self.new r.0) }
        ensures taken { OnOk result (TakesAll dialect syntax_set.now line.now (standing self.old)
            (turns_made self.old) (turns_made self.new)) }
        ensures no_more { OnErr result (TakesNoMore dialect syntax_set.now line.now
            (standing self.old) (turns_made self.old) (turns_made self.new)) }
        ensures bound { turns_made self.new
            ≤ turns_made self.old + most_turns syntax_set.now line.now (standing self.old) }
        ensures no_fewer { turns_made self.old ≤ turns_made self.new }
        ensures no_fewer_steps { steps_made self.old ≤ steps_made self.new }
        ensures added { steps_made self.new ≡ steps_made self.old + regions.new.steps.made }
        ensures steps { UnlessMemory result (TakesSteps syntax_set.now line.now
            (standing self.old) (turns_made self.new - turns_made self.old)
            (steps_made self.old) (steps_made self.new)) }
        ensures most_steps { UnlessMemory result (TakesMostSteps syntax_set.now line.now
            (standing self.old) (steps_made self.old) (steps_made self.new)) }
    {
        match self.after_line_within(alloc, line, syntax_set, &Limits::unlimited(), regions) {
            Ok(after) => Ok(after),
            Err(e) => Err(refusal(e)),
        }
    }

    /// `after_line` within limits: the line is read, and refused, as by `parse_line_within`.
    pub fn after_line_within(
        &mut self,
        alloc: Global,
        line: &str,
        syntax_set: &SyntaxSet,
        limits: &Limits,
        regions: &mut Regions,
    ) -> Result<(ParseState, Vec<(usize, ScopeStackOp)>), ReadWithinError>
        ensures accepted { IfOk result (λ r. Accepts dialect syntax_set.now line.now
            (standing self.old) (standing r.0) r.1.items) }
        ensures refused { IfErr result (
            RefusesWithinOrMemory dialect syntax_set.now line.now (standing self.old)) }
        ensures stays { standing self.new ≡ standing self.old }
        ensures counts { IfOk result (λ r. CountsSame self.new r.0) }
        ensures taken { OnOk result (TakesAll dialect syntax_set.now line.now (standing self.old)
            (turns_made self.old) (turns_made self.new)) }
        ensures no_more { OnErr result (TakesNoMore dialect syntax_set.now line.now
            (standing self.old) (turns_made self.old) (turns_made self.new)) }
        ensures bound { turns_made self.new
            ≤ turns_made self.old + most_turns syntax_set.now line.now (standing self.old) }
        ensures no_fewer { turns_made self.old ≤ turns_made self.new }
        ensures no_fewer_steps { steps_made self.old ≤ steps_made self.new }
        ensures added { steps_made self.new ≡ steps_made self.old + regions.new.steps.made }
        ensures steps { UnlessStopped result (TakesSteps syntax_set.now line.now
            (standing self.old) (turns_made self.new - turns_made self.old)
            (steps_made self.old) (steps_made self.new)) }
        ensures most_steps { UnlessStopped result (TakesMostSteps syntax_set.now line.now
            (standing self.old) (steps_made self.old) (steps_made self.new)) }
        ensures few_turns { IsWithinLimit limits.now.turns
            (turns_made self.new - turns_made self.old) }
        ensures few_steps { IsWithinLimit limits.now.steps
            (steps_made self.new - steps_made self.old) }
        ensures few_levels { OnOk result (KeepsLevels dialect syntax_set.now line.now
            (standing self.old) limits.now.levels) }
        ensures few_operations { IfOk result (λ r.
            IsWithinLimit limits.now.operations (length r.1.items)) }
        ensures reached { IfErr result (ReachesLimit limits.now
            (turns_made self.new - turns_made self.old)
            (steps_made self.new - steps_made self.old)) }
    {
        regions.steps = Meter::unlimited();
        if self.standing.levels.is_empty() {
            return Err(ReadWithinError::Refused(ParsingError::MissingMainContext));
        }
        let ParseState {
            standing,
            count,
            steps,
        } = self;
        match read_adding(
            alloc, syntax_set, line, standing, limits, regions, count, steps,
        ) {
            Ok((standing, ops)) => {
                let state = ParseState {
                    standing,
                    count: count.copy(),
                    steps: steps.copy(),
                };
                Ok((state, ops))
            }
            Err(e) => Err(e),
        }
    }
}

/// How many turns a line takes from a state, which stays: the greatest `u64` where it is more. No
/// call of the crate: it is to look into what grammars cost. Refused as `ParseState::parse_line`.
pub fn turns_of_line(
    alloc: Global,
    state: &ParseState,
    line: &str,
    syntax_set: &SyntaxSet,
) -> Result<u64, ParsingError>
    ensures number { IfOk result (λ n. (turns : ℕ) → TakesTurns dialect syntax_set.now line.now
        (standing state.now) turns → IsTold turns n) }
    ensures refused { IfErr result (
        RefusesLineOrMemory dialect syntax_set.now line.now (standing state.now)) }
{
    if state.standing.levels.is_empty() {
        return Err(ParsingError::MissingMainContext);
    }
    let mut regions = Regions::new(alloc);
    let mut count = GhostCount::none();
    match read_line(
        alloc,
        syntax_set,
        line,
        &state.standing,
        &Limits::unlimited(),
        &mut regions,
        &mut count,
    ) {
        Ok((_, _, turns)) => Ok(turns),
        Err(e) => Err(refusal(e)),
    }
}

/// The first scope of the content of the top level.
fn first_content(set: &SyntaxSet, levels: &[Level]) -> Option<Scope>
    ensures { option_to_list result
        ≡ take 1 (option_map_or (λ l. part_of (λ c. c.meta_content_scope) set.now l.context)
        (last levels.now) []) }
{
    let top = levels.last()?;
    let context = set.context_at(top.context)?;
    context.meta_content_scope.as_slice().first().copied()
}

/// What the first accepted line pushes at its start.
fn first_operations(
    alloc: Global,
    set: &SyntaxSet,
    state: &Standing,
) -> Result<Vec<(usize, ScopeStackOp)>, AllocError>
    ensures { IfOk result (λ ops. ops.items ≡ pushes 0 (first_push set.now state.now)) }
{
    let mut ops = Vec::with_capacity(alloc, USUAL_OPERATIONS)?;
    if state.first_line {
        if let Some(scope) = first_content(set, state.levels.as_slice()) {
            ops.push((0, ScopeStackOp::Push(scope)))?;
        }
    }
    Ok(ops)
}

fn at_start(state: &Standing) -> Result<Position, AllocError>
    ensures { IfOk result (λ p. p ≡ at_start state.now) }
{
    let Standing {
        levels,
        cuts,
        first_line: _,
    } = copied(state)?;
    Ok(Position {
        levels: Levels::from_seq(levels),
        cuts,
        place: 0,
        last: None,
        idle: 0,
    })
}

/// Whether so many turns were made as the limit says, if it is one.
fn has_all(turns: u64, limit: usize) -> bool
    ensures all { result ≡ true → (limit_of limit ≡ Some limit) × (limit ≤ turns) }
    ensures more { result ≡ false → IfSome (limit_of limit) (λ most. turns < most) }
    ensures small { IfSome (limit_of limit) (λ most. most < 2 ^ 64) }
{
    limit != usize::MAX && turns >= limit as u64
}

/// Whether so many are more than the limit says.
#[tactic(auto, using(crate::proofs::LimitLaws::limit_set, crate::proofs::LimitLaws::within_limit))]
fn is_passed(many: usize, limit: usize) -> bool
    ensures passed { result ≡ true → PassesLimit limit many }
    ensures within { result ≡ false → IsWithinLimit limit many }
{
    many > limit
}

/// The limit at which a line stands after so many turns and operations, before its next turn.
fn limit_at(p: &Position, turns: u64, operations: usize, limits: &Limits) -> Option<LineLimit>
    ensures some { IfSome result (StandsAt limits.now p.now turns operations) }
    ensures turns { IfNone result (IfSome (limit_of limits.now.turns) (λ most. turns < most)) }
    ensures small { IfSome (limit_of limits.now.turns) (λ most. most < 2 ^ 64) }
    ensures levels { IfNone result (IsWithinLimit limits.now.levels (length p.now.levels)) }
    ensures operations { IfNone result (IsWithinLimit limits.now.operations operations) }
{
    let place = p.place;
    let open_contexts = p.levels.len();
    let are_made = has_all(turns, limits.turns);
    if is_passed(operations, limits.operations) {
        return Some(LineLimit::Operations { place, operations });
    }
    if is_passed(open_contexts, limits.levels) {
        return Some(LineLimit::Levels {
            place,
            open_contexts,
        });
    }
    if are_made {
        Some(LineLimit::Turns { place })
    } else {
        None
    }
}

/// The refusal of a line that is read without limits.
fn refusal(e: ReadWithinError) -> ParsingError
    ensures { result ≡ refusal_of e }
{
    match e {
        ReadWithinError::Refused(e) => e,
        // never, as nothing is limited
        ReadWithinError::LimitReached(_) => ParsingError::Memory,
    }
}

/// A meter of as many steps as the limit says, if it is one.
fn meter_of(steps: usize) -> Meter
    ensures made { result.made ≡ 0 }
    ensures left { result.left ≡ limit_of steps }
{
    if steps == usize::MAX {
        Meter::unlimited()
    } else {
        Meter::within(steps)
    }
}

/// The state after a line that begins on some level, its operations, and its turns, where known.
fn read_line(
    alloc: Global,
    set: &SyntaxSet,
    line: &str,
    state: &Standing,
    limits: &Limits,
    regions: &mut Regions,
    count: &mut GhostCount,
) -> Result<(Standing, Vec<(usize, ScopeStackOp)>, u64), ReadWithinError>
    requires { state.now.levels ≢ [] }
    ensures accepted { IfOk result (λ r. Accepts dialect set.now line.now state.now r.0 r.1.items) }
    ensures refused { IfErr result (RefusesWithinOrMemory dialect set.now line.now state.now) }
    ensures taken { OnOk result
        (TakesAll dialect set.now line.now state.now count.old.made count.new.made) }
    ensures no_more { OnErr result
        (TakesNoMore dialect set.now line.now state.now count.old.made count.new.made) }
    ensures bound { count.new.made ≤ count.old.made + most_turns set.now line.now state.now }
    ensures no_fewer { count.old.made ≤ count.new.made }
    ensures told { IfOk result (λ r. IsTold (count.new.made - count.old.made) r.2) }
    ensures steps { UnlessStopped result (TakesSteps set.now line.now state.now
        (count.new.made - count.old.made) regions.old.steps.made regions.new.steps.made) }
    ensures most_steps { UnlessStopped result (TakesMostSteps set.now line.now state.now
        regions.old.steps.made regions.new.steps.made) }
    ensures advances { Advances regions.old.steps regions.new.steps }
    ensures few_turns { IsWithinLimit limits.now.turns (count.new.made - count.old.made) }
    ensures few_levels { OnOk result
        (KeepsLevels dialect set.now line.now state.now limits.now.levels) }
    ensures few_operations { IfOk result (λ r.
        IsWithinLimit limits.now.operations (length r.1.items)) }
    ensures reached { IfErr result (ReachesHere limits.now (count.new.made - count.old.made)
        regions.new.steps) }
{
    dialect_finds_in_text();
    regions.memory.begin_line();
    let mut ops = match first_operations(alloc, set, state) {
        Ok(ops) => ops,
        Err(_) => return Err(ReadWithinError::Refused(ParsingError::Memory)),
    };
    let mut p = match at_start(state) {
        Ok(p) => p,
        Err(_) => return Err(ReadWithinError::Refused(ParsingError::Memory)),
    };
    let mut turns = 0u64;
    'each: loop {
        if let Some(limit) = limit_at(&p, turns, ops.len(), limits) {
            return Err(ReadWithinError::LimitReached(limit));
        }
        turns = turns.saturating_add(1);
        match turn(alloc, set, line, &mut p, regions, &mut ops, count) {
            Err(e) => return Err(e),
            Ok(true) => {}
            Ok(false) => break,
        }
    }
    let Position {
        levels,
        cuts,
        place: _,
        last: _,
        idle: _,
    } = p;
    let left = Standing {
        levels: levels.into_seq(),
        cuts,
        first_line: false,
    };
    Ok((left, ops, turns))
}

/// The line read so, its steps counted from none and added to those before it.
fn read_adding(
    alloc: Global,
    set: &SyntaxSet,
    line: &str,
    state: &Standing,
    limits: &Limits,
    regions: &mut Regions,
    count: &mut GhostCount,
    steps: &mut GhostCount,
) -> Result<(Standing, Vec<(usize, ScopeStackOp)>), ReadWithinError>
    requires { state.now.levels ≢ [] }
    ensures accepted { IfOk result (λ r. Accepts dialect set.now line.now state.now r.0 r.1.items) }
    ensures refused { IfErr result (RefusesWithinOrMemory dialect set.now line.now state.now) }
    ensures taken { OnOk result
        (TakesAll dialect set.now line.now state.now count.old.made count.new.made) }
    ensures no_more { OnErr result
        (TakesNoMore dialect set.now line.now state.now count.old.made count.new.made) }
    ensures bound { count.new.made ≤ count.old.made + most_turns set.now line.now state.now }
    ensures no_fewer { count.old.made ≤ count.new.made }
    ensures added { steps.new.made ≡ steps.old.made + regions.new.steps.made }
    ensures steps { UnlessStopped result (TakesSteps set.now line.now state.now
        (count.new.made - count.old.made) steps.old.made steps.new.made) }
    ensures most_steps { UnlessStopped result (TakesMostSteps set.now line.now state.now
        steps.old.made steps.new.made) }
    ensures few_turns { IsWithinLimit limits.now.turns (count.new.made - count.old.made) }
    ensures few_levels { OnOk result
        (KeepsLevels dialect set.now line.now state.now limits.now.levels) }
    ensures few_operations { IfOk result (λ r.
        IsWithinLimit limits.now.operations (length r.1.items)) }
    ensures few_steps { IsWithinLimit limits.now.steps (steps.new.made - steps.old.made) }
    ensures reached { IfErr result (ReachesLimit limits.now (count.new.made - count.old.made)
        (steps.new.made - steps.old.made)) }
{
    regions.steps = meter_of(limits.steps);
    let read = read_line(alloc, set, line, state, limits, regions, count);
    add(steps, regions.steps.count());
    match read {
        Ok((left, ops, _)) => Ok((left, ops)),
        Err(e) => Err(e),
    }
}

fn copied(state: &Standing) -> Result<Standing, AllocError>
    ensures { IfOk result (λ s. s ≡ state.now) }
{
    state.clone()
}

/// Whether two states are equal: exactly where they stand alike.
pub fn is_same_state(a: &ParseState, b: &ParseState) -> bool
    ensures { IsTrue result ↔ (standing a.now ≡ standing b.now) }
{
    a == b
}
