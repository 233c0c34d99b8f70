//! The scopes of the groups of a match.
ghost use Rattle.std.specs.Prelude.{◌≡◌, ◌<◌, ◌&&◌, nat_lt, nat_le, not, IsTrue, map, IfOk, IfSome, OnOk};
ghost use Rattle.std.specs.Option.{option_map};
ghost use Rattle.std.specs.List.{flat_map, filter_map};
ghost use Rattle.syntect_reading_choice.specs.Engine.{dialect};
ghost use Rattle.syntect_reading_choice.specs.Turn.{group_at};
ghost use Rattle.syntect_parsing.specs.Scopes.{Scopes, effect, captures};
ghost use Rattle.syntect_parsing.specs.Sorting.{in_order};
ghost use Rattle.syntect_parsing.specs.MatchViews.{live_of, seen_mark, marks_of, AreMarksOf};
ghost use Rattle.syntect_reading_choice.specs.ChoiceViews.{text_of};

use crate::below::scope::scope::Scope;
use crate::below::values::seq::Seq;
use crate::taken::Taken;
use std::alloc::AllocError;
use syntect_reading_choice::search::Candidate;

/// Where scopes of a capture are pushed or popped.
#[derive(Clone, Copy)]
pub struct Mark<'s> {
    pub place: usize,
    /// 0 where they are popped. Where they are pushed it is lower for a longer capture.
    pub rank: usize,
    pub scopes: &'s [Scope],
}

/// Where a group of a match stands, if a capture of it has effect: it was set to a stretch that
/// isn't empty and lies in the match, and stands in no lookaround of the pattern that was searched.
fn effect(taken: &Taken<'_, '_>, group: usize) -> Option<(usize, usize)>
    ensures stands { (scopes : Scopes)
        → option_map (λ at. record { start = at.0; end = at.1; scopes = scopes }) result
        ≡ effect dialect (live_of taken.now) group scopes (group_at taken.now.region.now group) }
    ensures rises { IfSome result (λ at. at.0 < at.1) }
{
    let at = taken.region.pos(group)?;
    if has_effect(taken.candidate, group, at) {
        Some(at)
    } else {
        None
    }
}

/// Whether a capture of a group that stands here has effect.
fn has_effect(m: &Candidate<'_>, group: usize, at: (usize, usize)) -> bool
    ensures stands { result ≡ (nat_lt at.0 at.1 && nat_le m.now.start at.0 && nat_le at.1 m.now.end
        && not (dialect.in_lookaround (text_of m.now) group)) }
    ensures rises { IsTrue result → at.0 < at.1 }
{
    let (start, end) = at;
    start < end && m.start <= start && end <= m.end && !in_lookaround(m, group)
}

/// Whether a group stands in a lookaround of the pattern that was searched.
fn in_lookaround(m: &Candidate<'_>, group: usize) -> bool
    ensures { result ≡ dialect.in_lookaround (text_of m.now) group }
{
    m.regex().group(group).unwrap_or(false)
}

/// The marks of the captures that have effect, in the order of the list, each with its end before
/// its start.
fn collect_marks<'s>(
    taken: &Taken<'_, '_>,
    captures: &'s [(usize, Seq<Scope>)],
) -> Result<Vec<Mark<'s>>, AllocError>
    ensures { IfOk result (λ v. map seen_mark v.items ≡ flat_map marks_of (filter_map
        (λ entry. effect dialect (live_of taken.now) entry.0 entry.1
        (group_at taken.now.region.now entry.0)) captures.now)) }
{
    let mut marks = Vec::new(taken.alloc);
    for (group, scopes) in captures {
        if let Some((start, end)) = effect(taken, *group) {
            let scopes = scopes.as_slice();
            marks.push(Mark {
                place: end,
                rank: 0,
                scopes,
            })?;
            marks.push(Mark {
                place: start,
                rank: usize::MAX - (end - start - 1),
                scopes,
            })?;
        }
    }
    Ok(marks)
}

/// Puts marks in order: by place, then pops first, then longer captures first.
fn sort_marks(marks: &mut Vec<Mark<'_>>) -> Result<(), AllocError>
    ensures { OnOk result (marks.new.items ≡ in_order (λ m. m.place)
        (in_order (λ m. m.rank) marks.old.items)) }
{
    marks.sort_by_key(|m| m.rank)?;
    marks.sort_by_key(|m| m.place)
}

/// What the captures of a match push and pop, in order. Takes no memory where the
/// pattern has no captures.
pub fn capture_marks<'s>(taken: &Taken<'s, '_>) -> Result<Vec<Mark<'s>>, AllocError>
    ensures { IfOk result (λ v. AreMarksOf taken.now.candidate.now
        (captures dialect (live_of taken.now)) v.items) }
{
    let pattern = taken.candidate.pattern;
    let Some(captures) = &pattern.captures else {
        return Ok(Vec::new(taken.alloc));
    };
    if captures.is_empty() {
        return Ok(Vec::new(taken.alloc));
    }
    let mut marks = collect_marks(taken, captures.as_slice())?;
    sort_marks(&mut marks)?;
    Ok(marks)
}
