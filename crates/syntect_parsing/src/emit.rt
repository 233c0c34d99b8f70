//! The operations of a match.
ghost use Rattle.std.specs.Prelude.{◌≡◌, ◌<◌, ◌+◌, ◌++◌, List, length, OnOk};
ghost use Rattle.std.specs.Option.{option_copied, option_and_then};
ghost use Rattle.syntect_parsing.specs.syntect_grammar.Contexts.{context_at};
ghost use Rattle.syntect_parsing.specs.Operations.{operations_pushed, operations_set, metas, restores, all_below};
ghost use Rattle.syntect_parsing.specs.Visible.{top_clearing, top_part};
ghost use Rattle.syntect_reading_choice.specs.Engine.{dialect};
ghost use Rattle.syntect_parsing.specs.Scopes.{Capture, captures};
ghost use Rattle.syntect_parsing.specs.MatchViews.{live_of, marks_operations, AreMarksOf, operations_between, operations_by};
ghost use Rattle.syntect_reading_choice.specs.Chain.{last};
ghost use Rattle.syntect_parsing.specs.syntect_scope.Replay.{pushes, pops};

use crate::below::grammar::syntax_definition::{Context, ContextReference, MatchOperation};
use crate::below::grammar::syntax_set::SyntaxSet;
use crate::below::reading_state::references::{
    Ops, clear_nothing, count_metas, no_contents, open_below, open_here, pop_scopes, push_metas,
    push_opens, push_scopes, restore,
};
use crate::below::scope::stack::{ClearAmount, ScopeStackOp};
use crate::captures::{Mark, capture_marks};
use crate::taken::Taken;
use std::alloc::AllocError;
use syntect_reading_choice::level::Level;
use syntect_reading_choice::search::Candidate;

/// The top level's context, if the set has it.
fn top_of<'s>(set: &'s SyntaxSet, levels: &[Level]) -> Option<&'s Context>
    ensures { option_copied result
        ≡ option_and_then (λ l. context_at set.now l.context) (last levels.now) }
{
    set.context_at(levels.last()?.context)
}

/// How many scopes of both kinds the top level's context has, its `meta_scope`s first, and how much
/// it clears.
fn top_counts(set: &SyntaxSet, levels: &[Level]) -> (usize, usize, Option<ClearAmount>)
    ensures metas { result.0 ≡ length (top_part (λ c. c.meta_scope) set.now levels.now) }
    ensures contents { result.1 ≡ length (top_part (λ c. c.meta_content_scope) set.now levels.now) }
    ensures clearing { result.2 ≡ top_clearing set.now levels.now }
    ensures few { result.0 < 4611686018427387904 }
    ensures few_contents { result.1 < 4611686018427387904 }
{
    match top_of(set, levels) {
        Some(context) => (
            context.meta_scope.as_slice().len(),
            context.meta_content_scope.as_slice().len(),
            context.clear_scopes,
        ),
        None => (0, 0, None),
    }
}

/// The operations of captures.
fn emit_marks(ops: &mut Ops, marks: &[Mark<'_>]) -> Result<(), AllocError>
    ensures { OnOk result (ops.new.items ≡ ops.old.items ++ marks_operations marks.now) }
{
    for mark in marks {
        if mark.rank == 0 {
            ops.push((mark.place, ScopeStackOp::Pop(mark.scopes.len())))?;
        } else {
            push_scopes(ops, mark.place, mark.scopes)?;
        }
    }
    Ok(())
}

/// The operations of a match's own scopes and of its captures.
fn emit_own(ops: &mut Ops, m: &Candidate<'_>, marks: &[Mark<'_>]) -> Result<(), AllocError>
    ensures { OnOk result (ops.new.items ≡ ops.old.items
        ++ (pushes m.now.start m.now.pattern.now.scope
        ++ (marks_operations marks.now ++ pops m.now.end (length m.now.pattern.now.scope)))) }
{
    push_scopes(ops, m.start, m.pattern.scope.as_slice())?;
    emit_marks(ops, marks)?;
    pop_scopes(ops, m.end, m.pattern.scope.len())
}

fn emit_push(
    ops: &mut Ops,
    set: &SyntaxSet,
    m: &Candidate<'_>,
    marks: &[Mark<'_>],
    refs: &[ContextReference],
) -> Result<(), AllocError>
    ensures { (cs : List Capture) → AreMarksOf m.now cs marks.now
        → OnOk result (ops.new.items ≡ ops.old.items ++ operations_between m.now cs
        (all_below m.now.start set.now refs.now) (operations_pushed m.now.end set.now refs.now)) }
{
    open_below(ops, m.start, set, refs)?;
    emit_own(ops, m, marks)?;
    if no_contents(set, refs) {
        return Ok(());
    }
    pop_scopes(ops, m.end, count_metas(set, refs))?;
    push_opens(ops, m.end, set, refs)
}

/// At a match's end, after a set that leaves a context with so many scopes.
fn emit_after_set(
    ops: &mut Ops,
    set: &SyntaxSet,
    at: usize,
    pushed: usize,
    left: usize,
    refs: &[ContextReference],
) -> Result<(), AllocError>
    requires pushed { pushed ≡ length (metas set.now refs.now) }
    requires few { pushed + left < 18446744073709551616 }
    ensures { OnOk result (ops.new.items
        ≡ ops.old.items ++ operations_set at set.now left refs.now) }
{
    if no_contents(set, refs) && left == 0 && clear_nothing(set, refs) {
        return Ok(());
    }
    pop_scopes(ops, at, pushed + left)?;
    open_here(ops, at, set, refs)
}

fn emit_set(
    ops: &mut Ops,
    set: &SyntaxSet,
    m: &Candidate<'_>,
    marks: &[Mark<'_>],
    left: usize,
    cleared: Option<ClearAmount>,
    refs: &[ContextReference],
) -> Result<(), AllocError>
    requires { left < 9223372036854775808 }
    ensures { (cs : List Capture) → AreMarksOf m.now cs marks.now
        → OnOk result (ops.new.items ≡ ops.old.items ++ operations_between m.now cs
        (restores m.now.start cleared ++ pushes m.now.start (metas set.now refs.now))
        (operations_set m.now.end set.now left refs.now)) }
{
    restore(ops, m.start, cleared)?;
    let before = ops.as_slice().len();
    push_metas(ops, m.start, set, refs)?;
    let pushed = ops.as_slice().len() - before;
    emit_own(ops, m, marks)?;
    emit_after_set(ops, set, m.end, pushed, left, refs)
}

/// The operations of a match, which finds these levels, with its captures in order.
fn emit_all(
    ops: &mut Ops,
    set: &SyntaxSet,
    levels: &[Level],
    m: &Candidate<'_>,
    marks: &[Mark<'_>],
) -> Result<(), AllocError>
    ensures { (cs : List Capture) → AreMarksOf m.now cs marks.now
        → OnOk result (ops.new.items ≡ ops.old.items ++ operations_by m.now cs set.now levels.now) }
{
    let (metas, contents, cleared) = top_counts(set, levels);
    match &m.pattern.operation {
        MatchOperation::Push(refs) => emit_push(ops, set, m, marks, refs.as_slice()),
        MatchOperation::Set(refs) => {
            emit_set(
                ops,
                set,
                m,
                marks,
                metas + contents,
                cleared,
                refs.as_slice(),
            )
        }
        MatchOperation::Pop => {
            pop_scopes(ops, m.start, contents)?;
            emit_own(ops, m, marks)?;
            pop_scopes(ops, m.end, metas)?;
            restore(ops, m.end, cleared)
        }
        MatchOperation::None => emit_own(ops, m, marks),
    }
}

/// The operations of a match, which finds these levels.
pub fn emit(ops: &mut Ops, taken: &Taken<'_, '_>, levels: &[Level]) -> Result<(), AllocError>
    ensures { OnOk result (ops.new.items ≡ ops.old.items ++ operations_by taken.now.candidate.now
        (captures dialect (live_of taken.now)) taken.now.set.now levels.now) }
{
    let marks = capture_marks(taken)?;
    emit_all(ops, taken.set, levels, taken.candidate, marks.as_slice())
}
