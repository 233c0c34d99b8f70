//! The levels that a match opens and leaves.
ghost use Rattle.std.specs.Prelude.{◌≡◌, ◌≤◌, ◌++◌, [], IfOk, ◌==◌, ◌+◌, ◌<◌, if◌then◌else◌};
ghost use Rattle.std.specs.Option.{option_map_or, option_and_then};
ghost use Rattle.std.specs.List.{list_any};
ghost use Rattle.syntect_parsing.specs.syntect_grammar_contexts.Contexts.{target};
ghost use Rattle.syntect_parsing.specs.Turn.{uses_backrefs, new_level, new_levels, levels_after, position_after};
ghost use Rattle.syntect_reading_choice.specs.Turn.{list_of};
ghost use Rattle.syntect_parsing.specs.MatchViews.{live_of, opening_by, record_at};
ghost use Rattle.syntect_reading_choice.specs.Chain.{last};

use crate::below::grammar::syntax_definition::{ContextId, ContextReference, MatchOperation};
use crate::below::grammar::syntax_set::SyntaxSet;
use crate::below::reading_state::names::targets;
use crate::below::reading_state::opening::Opening;
use crate::below::values::seq::Seq;
use crate::below::values::text::Text;
use crate::taken::Taken;
use std::alloc::{AllocError, Global};
use std::mem;
use syntect_reading_choice::level::Level;
use syntect_reading_choice::levels::Levels;
use syntect_reading_choice::position::{MOST_IDLE, Position, Record};
use syntect_reading_choice::search::Candidate;

/// Whether a context is marked as using back references.
fn uses_backrefs(set: &SyntaxSet, id: ContextId) -> bool
    ensures { result ≡ uses_backrefs set.now id }
{
    match set.context_at(id) {
        Some(context) => context.uses_backrefs,
        None => false,
    }
}

/// Whether one of these contexts is marked as using back references.
fn any_uses_backrefs(set: &SyntaxSet, ids: &[ContextId]) -> bool
    ensures { result ≡ list_any (uses_backrefs set.now) ids.now }
{
    for id in ids {
        if uses_backrefs(set, *id) {
            return true;
        }
    }
    false
}

/// The match as an opening match.
fn opening_by(taken: &Taken<'_, '_>) -> Result<Opening, AllocError>
    ensures { IfOk result (λ o. o ≡ opening_by taken.now) }
{
    let region = taken.region.clone(taken.alloc)?;
    let line = Text::from_str(taken.alloc, taken.line)?;
    Ok(Opening::new(region, line))
}

/// A level that a match opens.
fn new_level(
    taken: &Taken<'_, '_>,
    context: ContextId,
    prototypes: Seq<ContextId>,
) -> Result<Level, AllocError>
    ensures { IfOk result (λ l. l
        ≡ new_level taken.now.set.now (opening_by taken.now) context prototypes) }
{
    let keeps = uses_backrefs(taken.set, context)
        || any_uses_backrefs(taken.set, prototypes.as_slice());
    let opening = if keeps {
        Some(opening_by(taken)?)
    } else {
        None
    };
    Ok(Level {
        context,
        prototypes,
        opening,
    })
}

/// What the `with_prototype` of a match stands for.
fn with_prototype_of(m: &Candidate<'_>) -> Option<ContextId>
    ensures { result ≡ option_and_then target m.now.pattern.now.with_prototype }
{
    m.pattern.with_prototype.as_ref()?.target()
}

/// Opens levels: the first keeps these prototypes, the last has the `with_prototype` after its own.
#[tactic(auto, using(crate::proofs::LevelLaws::one_level))]
fn open_levels(
    taken: &Taken<'_, '_>,
    kept: Seq<ContextId>,
    ids: &[ContextId],
    levels: &mut Levels,
) -> Result<(), AllocError>
    ensures { IfOk result (λ _. levels.new ≡ levels.old
        ++ new_levels taken.now.set.now (opening_by taken.now) kept
        (option_and_then target taken.now.candidate.now.pattern.now.with_prototype) ids.now) }
{
    let with_prototype = with_prototype_of(taken.candidate);
    let mut prototypes = kept;
    for (i, id) in ids.iter().enumerate() {
        let mut own = mem::replace(&mut prototypes, Seq::new(taken.alloc));
        if i + 1 == ids.len() {
            if let Some(last) = with_prototype {
                own.push(last)?;
            }
        }
        levels.push(new_level(taken, *id, own)?)?;
    }
    Ok(())
}

/// The levels after a match.
fn apply_operation(taken: &Taken<'_, '_>, levels: &mut Levels) -> Result<(), AllocError>
    ensures { IfOk result (λ _. levels.new
        ≡ levels_after taken.now.set.now taken.now.line.now levels.old (live_of taken.now)) }
{
    let alloc = taken.alloc;
    match &taken.candidate.pattern.operation {
        MatchOperation::Push(refs) => {
            let ids = targets(alloc, refs.as_slice())?;
            open_levels(taken, Seq::new(alloc), ids.as_slice(), levels)
        }
        MatchOperation::Set(refs) => {
            let ids = targets(alloc, refs.as_slice())?;
            let kept = prototypes_of_last(alloc, levels.as_slice())?;
            let _ = levels.pop();
            open_levels(taken, kept, ids.as_slice(), levels)
        }
        MatchOperation::Pop => {
            let _ = levels.pop();
            Ok(())
        }
        MatchOperation::None => Ok(()),
    }
}

/// The prototypes of the top level, none without levels.
fn prototypes_of_last(alloc: Global, levels: &[Level]) -> Result<Seq<ContextId>, AllocError>
    ensures { IfOk result (λ ids. ids ≡ option_map_or (λ l. l.prototypes) (last levels.now) []) }
{
    match levels.last() {
        Some(level) => Seq::from_slice(alloc, level.prototypes.as_slice()),
        None => Ok(Seq::new(alloc)),
    }
}

/// The record of a match, and how many empty pushes and sets were made at its end.
fn count_idle(p: &mut Position, height: usize, m: &Candidate<'_>)
    requires few { p.old.idle ≤ MOST_IDLE }
    requires low { height < 9223372036854775808 }
    ensures last { p.new.last
        ≡ (if m.now.end == p.old.place
        then record_at p.old.place height p.old.last m.now.pattern.now.operation
        else p.old.last) }
    ensures idle { p.new.idle
        ≡ (if m.now.end == p.old.place
        then p.old.idle + option_map_or (λ refs. 1) (list_of m.now.pattern.now.operation) 0
        else 0) }
    ensures levels { p.new.levels ≡ p.old.levels }
    ensures cuts { p.new.cuts ≡ p.old.cuts }
    ensures place { p.new.place ≡ p.old.place }
{
    if m.end != p.place {
        p.idle = 0;
        return;
    }
    match &m.pattern.operation {
        MatchOperation::Push(_) => {
            p.last = Some(Record {
                place: p.place,
                height: height + 1,
            });
            p.idle += 1;
        }
        MatchOperation::Set(_) => p.idle += 1,
        MatchOperation::Pop => {}
        MatchOperation::None => {}
    }
}

/// Where the reader stands after a match.
pub fn apply(taken: &Taken<'_, '_>, p: &mut Position) -> Result<(), AllocError>
    requires few { p.old.idle ≤ MOST_IDLE }
    ensures { IfOk result (λ _. p.new
        ≡ position_after taken.now.set.now taken.now.line.now p.old (live_of taken.now)) }
{
    let m = taken.candidate;
    let height = p.levels.as_slice().len();
    apply_operation(taken, &mut p.levels)?;
    if m.from_with_prototype {
        p.cuts.push(height)?;
    }
    count_idle(p, height, m);
    p.place = m.end;
    Ok(())
}
