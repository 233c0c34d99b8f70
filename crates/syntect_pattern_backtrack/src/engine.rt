//! The search of a pattern: a machine whose choices stand in lists of its own.
ghost use Rattle.std.specs.Prelude.{◌≡◌, ◌+◌, ◌<◌, ◌≤◌, IfOk, IfSome, IfNone, OnOk, replicate, slice_get, slice_index_or, None, Some, IsCharBoundary, true, false};
ghost use Rattle.syntect_pattern_backtrack.specs.Machine.{FindsAt};
ghost use Rattle.syntect_pattern_backtrack.specs.Ends.{is_found};

use crate::dead::fails_at_once;
use crate::lines::{is_at_lines, next_start};
use crate::needed::Met;
use crate::state::{Next, Search};
use crate::syntect_pattern_table::program::Program;
use std::alloc::AllocError;
use syntect_count::count::GhostCount;
use syntect_pattern_steps::text::is_boundary;

/// Whether no match begins at the place, as far as the characters there tell.
#[inline]
fn is_lost(program: &Program, text: &str, place: usize) -> bool
    ensures lost { result ≡ true → FindsAt text.now program.now place None }
    ensures boundary { result ≡ false → IsCharBoundary text.now place }
{
    if !is_boundary(text, place) {
        return true;
    }
    if program.none_begins_at(text, place, program.root) {
        return true;
    }
    fails_at_once(program, text, place, program.root)
}

/// As `is_lost`, where what stands at the place can begin a match, unless the text ends there.
#[inline]
fn is_lost_there(program: &Program, text: &str, place: usize) -> bool
    ensures lost { result ≡ true → FindsAt text.now program.now place None }
    ensures boundary { result ≡ false → IsCharBoundary text.now place }
{
    if place >= text.len() {
        return is_lost(program, text, place);
    }
    if !is_boundary(text, place) {
        return true;
    }
    fails_at_once(program, text, place, program.root)
}

/// How many frames a limited search may keep, and how many cells: some 50 MB of them. It is a
/// little below a power of two, so that neither list grows to the next one before it is looked at.
const MOST_KEPT: usize = 500_000;

/// The search has found a match.
#[inline]
fn is_found(next: Next) -> bool
    ensures { result ≡ is_found next }
{
    match next {
        Next::Found => true,
        _ => false,
    }
}

impl Search {
    ghost use Rattle.syntect_pattern_backtrack.specs.syntect_pattern_table.Program.{trees_of};
    ghost use Rattle.syntect_pattern_backtrack.specs.syntect_pattern.Trees.{nothing};
    ghost use Rattle.syntect_pattern_backtrack.specs.syntect_pattern.Matches.{matches};
    ghost use Rattle.syntect_pattern_backtrack.specs.Machine.{Fits, Goes, found_by, match_of, groups_of, FindsGroups};

    /// One step, which is counted: what comes next. None where the search is over.
    #[inline(always)]
    fn step(
        &mut self,
        program: &Program,
        text: &str,
        next: Next,
        count: &mut GhostCount,
    ) -> Result<Option<Next>, AllocError>
        requires fits { Fits text.now next self.old }
        ensures counted { count.new.made ≡ count.old.made + 1 }
        ensures goes { IfOk result (λ r. IfSome r (λ after.
            Goes text.now (trees_of program.now) next self.old after self.new)) }
        ensures over { IfOk result (λ r. IfNone r (match_of (is_found next) self.new
            ≡ found_by text.now (trees_of program.now) next self.old)) }
    {
        count.tick();
        match next {
            Next::Enter { node, list } => {
                let next = self.enter(program, text, node, list)?;
                Ok(Some(next))
            }
            Next::Turn { turns, list } => {
                let next = self.turn(program, text, turns, list)?;
                Ok(Some(next))
            }
            Next::Leave { list } => {
                let next = self.leave(program, text, list)?;
                Ok(Some(next))
            }
            Next::Fail => self.back(program, text),
            Next::Found => self.finish(),
        }
    }

    /// Whether a limited search ends with so many steps left: what its stretches count takes them,
    /// or it has too much to come back to, which is looked at now and then.
    #[inline(always)]
    fn is_short(&self, left: usize) -> bool
        ensures { result ≡ false → self.now.worth < left }
    {
        left <= self.worth || left % 256 == 0 && self.is_deep()
    }

    /// Whether it has so much to come back to that it would take too much memory.
    fn is_deep(&self) -> bool {
        self.frames.len() > MOST_KEPT || self.cells.len() > MOST_KEPT
    }

    /// Takes at least one step, until a match is found or nothing is left to try; what stretches
    /// count comes on top. None where the search is limited and its steps run out before, or it has
    /// too much to come back to: it counts as many steps as it had left then.
    fn run(
        &mut self,
        program: &Program,
        text: &str,
        start: Next,
        limited: bool,
        count: &mut GhostCount,
    ) -> Result<Option<bool>, AllocError>
        requires fits { Fits text.now start self.old }
        ensures found { IfOk result (λ r. IfSome r (λ found. match_of found self.new
            ≡ found_by text.now (trees_of program.now) start self.old)) }
        ensures short { IfOk result (λ r. r ≡ None → limited ≡ true) }
        ensures spent { IfOk result (λ r. r ≡ None → self.new.left ≡ 0) }
        ensures steps { limited ≡ true → OnOk result (count.new.made + self.new.left
            ≡ count.old.made + self.old.left) }
        ensures rises { OnOk result (count.old.made ≤ count.new.made) }
        ensures counted { IfOk result (λ r. IfSome r (λ _.
            count.old.made < count.new.made)) }
    {
        let mut next = start;
        let mut left = self.left;
        'steps: loop {
            if limited && self.is_short(left) {
                self.left = 0;
                count.add(left);
                return Ok(None);
            }
            left = left.wrapping_sub(1);
            let found = is_found(next);
            let Some(after) = self.step(program, text, next, count)? else {
                self.left = left.saturating_sub(self.worth);
                count.add(left - self.left);
                return Ok(Some(found));
            };
            next = after;
        }
    }

    /// Whether the program matches at the place: then the search's place is the match's end, and
    /// its groups the match's. None where a limited search has too few steps left, which it takes.
    fn is_at(
        &mut self,
        program: &Program,
        text: &str,
        place: usize,
        limited: bool,
        count: &mut GhostCount,
    ) -> Result<Option<bool>, AllocError>
        requires place { IsCharBoundary text.now place }
        ensures found { IfOk result (λ r. IfSome r (λ found. match_of found self.new
            ≡ slice_get (matches text.now
            (slice_index_or (trees_of program.now) program.now.root nothing) place
            (replicate program.now.groups None)) 0)) }
        ensures short { IfOk result (λ r. r ≡ None → limited ≡ true) }
        ensures spent { IfOk result (λ r. r ≡ None → self.new.left ≡ 0) }
        ensures steps { limited ≡ true → OnOk result (count.new.made + self.new.left
            ≡ count.old.made + self.old.left) }
        ensures rises { OnOk result (count.old.made ≤ count.new.made) }
        ensures counted { IfOk result (λ r. IfSome r (λ _.
            count.old.made < count.new.made)) }
    {
        self.begin(program.groups, place)?;
        let start = Next::Enter {
            node: program.root,
            list: 0,
        };
        self.run(program, text, start, limited, count)
    }

    /// Whether a match begins at the place, as it does between characters alone: then the search's
    /// groups are the match's. None where a limited search has too few steps left, which it takes.
    pub fn begins_at(
        &mut self,
        program: &Program,
        text: &str,
        place: usize,
        limited: bool,
        count: &mut GhostCount,
    ) -> Result<Option<bool>, AllocError>
        ensures finds { IfOk result (λ r. IfSome r (λ found.
            FindsAt text.now program.now place (groups_of found self.new))) }
        ensures short { IfOk result (λ r. r ≡ None → limited ≡ true) }
        ensures spent { IfOk result (λ r. r ≡ None → self.new.left ≡ 0) }
        ensures steps { limited ≡ true → OnOk result (count.new.made + self.new.left
            ≡ count.old.made + self.old.left) }
        ensures rises { OnOk result (count.old.made ≤ count.new.made) }
        ensures counted { IfOk result (λ r. r ≡ Some true → count.old.made < count.new.made) }
    {
        if is_lost(program, text, place) {
            return Ok(Some(false));
        }
        self.is_at(program, text, place, limited, count)
    }

    /// As `begins_at`, where what stands at the place can be a start, unless the text ends there.
    fn begins_there(
        &mut self,
        program: &Program,
        text: &str,
        place: usize,
        limited: bool,
        count: &mut GhostCount,
    ) -> Result<Option<bool>, AllocError>
        ensures finds { IfOk result (λ r. IfSome r (λ found.
            FindsAt text.now program.now place (groups_of found self.new))) }
        ensures short { IfOk result (λ r. r ≡ None → limited ≡ true) }
        ensures spent { IfOk result (λ r. r ≡ None → self.new.left ≡ 0) }
        ensures steps { limited ≡ true → OnOk result (count.new.made + self.new.left
            ≡ count.old.made + self.old.left) }
        ensures rises { OnOk result (count.old.made ≤ count.new.made) }
        ensures counted { IfOk result (λ r. r ≡ Some true → count.old.made < count.new.made) }
    {
        if is_lost_there(program, text, place) {
            return Ok(Some(false));
        }
        self.is_at(program, text, place, limited, count)
    }

    /// Tells as `begins_at` does, of the place or of a later one, of which the least counts.
    pub fn find(
        &mut self,
        program: &Program,
        text: &str,
        begin: usize,
        limited: bool,
        count: &mut GhostCount,
    ) -> Result<Option<bool>, AllocError>
        ensures finds { IfOk result (λ r. IfSome r (λ found.
            FindsGroups text.now program.now begin (groups_of found self.new))) }
        ensures short { IfOk result (λ r. r ≡ None → limited ≡ true) }
        ensures spent { IfOk result (λ r. r ≡ None → self.new.left ≡ 0) }
        ensures steps { limited ≡ true → OnOk result (count.new.made + self.new.left
            ≡ count.old.made + self.old.left) }
        ensures rises { OnOk result (count.old.made ≤ count.new.made) }
        ensures counted { IfOk result (λ r. r ≡ Some true → count.old.made < count.new.made) }
    {
        if begin > text.len() {
            return Ok(Some(false));
        }
        let mut met = Met::new();
        if !met.may_begin_from(program, text, begin) {
            return Ok(Some(false));
        }
        let lines = is_at_lines(program);
        let mut place = begin;
        while place <= text.len() {
            place = next_start(program, text, place, text.len(), lines);
            if !met.may_begin_from(program, text, place) {
                return Ok(Some(false));
            }
            match self.begins_there(program, text, place, limited, count)? {
                Some(true) => return Ok(Some(true)),
                Some(false) => {}
                None => return Ok(None),
            }
            place += 1;
        }
        Ok(Some(false))
    }
}
