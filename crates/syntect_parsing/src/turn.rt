//! One turn of reading a line.
ghost use Rattle.std.specs.Prelude.{◌≡◌, ◌≤◌, ◌+◌, ℕ, List, nat_lt, filter, IfOk, IfErr, OnOk, IsCharBoundary, true};
ghost use Rattle.syntect_parsing.specs.syntect_count.Meter.{Advances};
ghost use Rattle.syntect_parsing.specs.Within.{IfRefused, StopsLineAt, UnlessStopped};
ghost use Rattle.syntect_reading_choice.specs.Engine.{dialect};
ghost use Rattle.syntect_reading_choice.specs.Chain.{last};
ghost use Rattle.syntect_parsing.specs.Turn.{trimmed, skipped};
ghost use Rattle.syntect_reading_choice.specs.Turn.{char_len, winner, Take};
ghost use Rattle.syntect_parsing.specs.Line.{step, turn_on};
ghost use Rattle.syntect_reading_choice.specs.ChoiceViews.{live_in};
ghost use Rattle.syntect_reading_choice.specs.Best.{choice_by};
ghost use Rattle.syntect_reading_choice.specs.Memory.{Remembers};
ghost use Rattle.syntect_reading_choice.specs.Reader.{AreGroupsBy};
ghost use Rattle.syntect_parsing.specs.MatchViews.{IsTakenFrom, live_of};
ghost use Rattle.syntect_parsing.specs.Orderly.{is_orderly};
ghost use Rattle.syntect_parsing.specs.Step.{MakesStep, RefusesStep, Turns, RefusesTurn};
ghost use Rattle.syntect_parsing.specs.Work.{TakesTurnSteps};

use crate::below::count::count::GhostCount;
use crate::below::grammar::syntax_set::SyntaxSet;
use crate::below::reading_state::names::check_names;
use crate::below::scope::stack::ScopeStackOp;
use crate::below::values::seq::Seq;
use crate::emit::emit;
use crate::laws::dialect_lays_groups_out;
use crate::levels::apply;
use crate::parser::ParsingError;
use crate::taken::Taken;
use crate::within::ReadWithinError;
use std::alloc::Global;
use std::mem;
use syntect_reading_choice::chain::{missing_prototype, parts_of};
use syntect_reading_choice::laws::{dialect_finds_in_text, dialect_finds_on_boundaries};
use syntect_reading_choice::position::{MOST_IDLE, Position};
use syntect_reading_choice::reader::LineReader;
use syntect_reading_choice::search::{Best, Choice, Regions, choose};
use syntect_reading_choice::sweep::best_of_chain;

fn drop_from(cuts: &mut Vec<usize>, height: usize)
    ensures { cuts.new.items ≡ filter (λ c. nat_lt c height) cuts.old.items }
{
    cuts.retain(|cut| *cut < height);
}

/// Drops the cuts at or above the height.
fn trim(alloc: Global, p: &mut Position)
    ensures { p.new ≡ trimmed p.old }
{
    if p.cuts.is_empty() {
        return;
    }
    let height = p.levels.len();
    let mut cuts = mem::replace(&mut p.cuts, Seq::new(alloc)).into_vec();
    drop_from(&mut cuts, height);
    p.cuts = Seq::from_vec(cuts);
}

/// The best of the matches that a turn has to choose from, once cuts are dropped. The steps of the
/// searches are counted.
fn best_match<'s>(
    reader: &LineReader<'s, '_>,
    regions: &mut Regions,
) -> Result<Best<'s>, ReadWithinError>
    requires known { Remembers reader.now.set.now reader.now.line.now regions.old.memory }
    ensures groups { IfOk result (λ best. AreGroupsBy reader.now best.candidate regions.new.best) }
    ensures chosen { IfOk result (λ best. turn_on dialect reader.now.set.now reader.now.line.now
        reader.now.position.now (last reader.now.position.now.levels)
        ≡ step dialect reader.now.set.now reader.now.line.now reader.now.position.now
        (choice_by reader.now.line.now reader.now.position.now.place best)) }
    ensures wins { IfOk result (λ best.
        choice_by reader.now.line.now reader.now.position.now.place best
        ≡ winner reader.now.line.now reader.now.position.now
        (live_in dialect reader.now.set.now reader.now.line.now reader.now.position.now)) }
    ensures refused { IfErr result (IfRefused (RefusesStep (turn_on dialect reader.now.set.now
        reader.now.line.now reader.now.position.now (last reader.now.position.now.levels)))) }
    ensures known { OnOk result
        (Remembers reader.now.set.now reader.now.line.now regions.new.memory) }
    ensures steps { UnlessStopped result (TakesTurnSteps reader.now.set.now reader.now.line.now
        reader.now.position.now regions.old.steps.made regions.new.steps.made) }
    ensures advances { Advances regions.old.steps regions.new.steps }
    ensures stops { IfErr result (StopsLineAt regions.new.steps) }
{
    let Some(top) = reader.position.levels.as_slice().last() else {
        return Ok(Best::none());
    };
    let Some(context) = reader.set.context_at(top.context) else {
        return Err(ReadWithinError::Refused(ParsingError::MissingContext(top.context)));
    };
    if let Some(id) = missing_prototype(reader, context) {
        return Err(ReadWithinError::Refused(ParsingError::MissingContext(id)));
    }
    let parts = parts_of(reader, top, context)?;
    Ok(best_of_chain(reader, parts.as_slice(), regions)?)
}

/// Takes a match: its operations, and where the reader then stands.
fn take(
    taken: &Taken<'_, '_>,
    p: &mut Position,
    ops: &mut Vec<(usize, ScopeStackOp)>,
) -> Result<(), ParsingError>
    requires few { p.old.idle ≤ MOST_IDLE }
    requires from { IsTakenFrom p.old.place taken.now }
    ensures makes { IfOk result (λ _. MakesStep (is_orderly taken.now.set.now p.old.levels
        taken.now.candidate.now.pattern.now.operation ≡ true) taken.now.set.now taken.now.line.now
        (step dialect taken.now.set.now taken.now.line.now p.old (Take (live_of taken.now)))
        p.old p.new ops.old.items ops.new.items) }
    ensures refused { IfErr result (RefusesStep
        (step dialect taken.now.set.now taken.now.line.now p.old (Take (live_of taken.now)))) }
{
    dialect_lays_groups_out();
    check_names(taken.set, taken.candidate.pattern)?;
    emit(ops, taken, p.levels.as_slice())?;
    apply(taken, p)?;
    Ok(())
}

/// Passes over a character, up to the next place.
fn skip(p: &mut Position, next: usize)
    ensures { (line : List ℕ) → next ≡ p.old.place + char_len line p.old.place
        → p.new ≡ skipped line p.old }
{
    p.place = next;
    p.idle = 0;
}

/// Makes one turn, counts it, and says whether the line goes on. Nothing else makes a turn.
pub fn turn(
    alloc: Global,
    set: &SyntaxSet,
    line: &str,
    p: &mut Position,
    regions: &mut Regions,
    ops: &mut Vec<(usize, ScopeStackOp)>,
    count: &mut GhostCount,
) -> Result<bool, ReadWithinError>
    requires known { Remembers set.now line.now regions.old.memory }
    requires boundary { IsCharBoundary line.now p.old.place }
    requires few { p.old.idle ≤ MOST_IDLE }
    ensures turns { IfOk result
        (Turns dialect set.now line.now p.old p.new ops.old.items ops.new.items) }
    ensures refused { IfErr result (IfRefused (RefusesTurn dialect set.now line.now p.old)) }
    ensures known { OnOk result (Remembers set.now line.now regions.new.memory) }
    ensures counted { count.new.made ≡ count.old.made + 1 }
    ensures steps { UnlessStopped result (TakesTurnSteps set.now line.now (trimmed p.old)
        regions.old.steps.made regions.new.steps.made) }
    ensures advances { Advances regions.old.steps regions.new.steps }
    ensures stops { IfErr result (StopsLineAt regions.new.steps) }
{
    dialect_finds_in_text();
    dialect_finds_on_boundaries();
    count.tick();
    trim(alloc, p);
    let reader = LineReader {
        alloc,
        set,
        line,
        position: p,
    };
    let found = match best_match(&reader, regions) {
        Ok(found) => found,
        Err(e) => return Err(e),
    };
    match choose(&reader, &found) {
        Choice::Take(m) => {
            let taken = Taken {
                alloc,
                set,
                line,
                candidate: m,
                region: &regions.best,
            };
            match take(&taken, p, ops) {
                Ok(()) => Ok(true),
                Err(e) => Err(ReadWithinError::Refused(e)),
            }
        }
        Choice::Skip(next) => {
            skip(p, next);
            Ok(true)
        }
        Choice::End => Ok(false),
    }
}
