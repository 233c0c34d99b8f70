//! A node is matched at a place.
ghost use Rattle.std.specs.Prelude.{◌≡◌, List, ℕ, ◌-◌, ◌<◌, ◌^◌, ◌++◌, ◌∷◌, [], length, OnOk, IfOk, IfSome, IfNone, slice_index_or, None, Option, IsCharBoundary, suc, true, false};
ghost use Rattle.syntect_pattern_backtrack.specs.Machine.{look_bound};
ghost use Rattle.syntect_pattern_steps.specs.Steps.{at_end};
ghost use Rattle.syntect_pattern_backtrack.specs.Lookbehinds.{AreEnough};
ghost use Rattle.syntect_pattern_backtrack.specs.syntect_pattern_table.Program.{trees_of};
ghost use Rattle.syntect_pattern_backtrack.specs.syntect_pattern.Trees.{nothing};

use crate::state::{Bound, Continuation, Frame, Next, Search, Turns};
use crate::stretch::stretch;
use crate::syntect_pattern_table::node::Node;
use crate::syntect_pattern_table::program::Program;
use std::alloc::AllocError;
use syntect_pattern_steps::anchor::anchor_holds;
use syntect_pattern_steps::past::{past_char, past_class, past_letters};
use syntect_pattern_steps::text::past_text;

/// How many characters of stretches, and of texts of groups that are compared, count as one step.
const READ_A_STEP: usize = 8;

/// Where matches of the node that end at the place can begin: the last place, and how many back.
fn starts_before(program: &Program, place: usize, node: usize) -> (usize, usize)
    requires { place < 2 ^ 64 - 1 }
    ensures { AreEnough
        (slice_index_or (trees_of program.now) node nothing) place result.0 result.1 }
{
    let lengths = program.length_of(node);
    let least = lengths.least as usize;
    if least > place {
        return (place, 0);
    }
    let from = place - least;
    match lengths.most {
        Some(most) => (from, (most as usize).saturating_sub(least).min(from) + 1),
        None => (from, from + 1),
    }
}

/// What goes on after a lookaround.
fn look_bound(negated: bool) -> Bound
    ensures { result ≡ look_bound negated }
{
    if negated { Bound::Fails } else { Bound::Holds }
}

impl Search {
    ghost use Rattle.syntect_pattern_backtrack.specs.syntect_pattern.Trees.{alt, repeat, same, seq};
    ghost use Rattle.std.specs.Prelude.{slice_get};
    ghost use Rattle.syntect_pattern_backtrack.specs.syntect_pattern.Matches.{Groups, same_text};
    ghost use Rattle.syntect_pattern_backtrack.specs.Machine.{Fits, FindsAlike, GroupsFit, Goes, EntersStretch};

    /// Goes on with the node from the place, if there is one.
    fn go_to(&mut self, place: Option<usize>, node: usize, list: usize) -> Next
        ensures some { IfSome place
            (λ j. (result ≡ Next.Enter node list)
            × (self.new ≡ record self.old { place = j })) }
        ensures none { IfNone place ((result ≡ Next.Fail) × (self.new ≡ self.old)) }
    {
        let Some(place) = place else {
            return Next::Fail;
        };
        self.place = place;
        Next::Enter { node, list }
    }

    /// Matches both parts of the node: where the first is a character or an anchor, without a cell.
    fn enter_sequence(
        &mut self,
        program: &Program,
        text: &str,
        node: usize,
        first: usize,
        second: usize,
        list: usize,
    ) -> Result<Next, AllocError>
        requires fits { Fits text.now (Next.Enter node list) self.old }
        requires is { slice_index_or (trees_of program.now) node nothing
            ≡ seq (slice_index_or (trees_of program.now) first nothing)
            (slice_index_or (trees_of program.now) second nothing) }
        ensures { IfOk result (λ next. Goes text.now (trees_of program.now)
            (Next.Enter node list) self.old next self.new) }
    {
        match program.node(first) {
            Some(Node::Char(wanted)) => {
                let place = past_char(text, self.place, *wanted);
                Ok(self.go_to(place, second, list))
            }
            Some(Node::Class(class)) => {
                let place = past_class(text, self.place, class);
                Ok(self.go_to(place, second, list))
            }
            Some(Node::Anchor(anchor)) => {
                if anchor_holds(text, self.place, *anchor) {
                    Ok(Next::Enter { node: second, list })
                } else {
                    Ok(Next::Fail)
                }
            }
            _ => {
                let list = self.cons(Continuation::Run(second), list)?;
                Ok(Next::Enter { node: first, list })
            }
        }
    }

    /// Goes on with the list from the place, if there is one.
    fn go_on(&mut self, place: Option<usize>, list: usize) -> Next
        ensures some { IfSome place
            (λ j. (result ≡ Next.Leave list) × (self.new ≡ record self.old { place = j })) }
        ensures none { IfNone place ((result ≡ Next.Fail) × (self.new ≡ self.old)) }
    {
        let Some(place) = place else {
            return Next::Fail;
        };
        self.place = place;
        Next::Leave { list }
    }

    /// Matches the node at the place.
    pub fn enter(
        &mut self,
        program: &Program,
        text: &str,
        node: usize,
        list: usize,
    ) -> Result<Next, AllocError>
        requires { Fits text.now (Next.Enter node list) self.old }
        ensures { IfOk result (λ next. Goes text.now (trees_of program.now)
            (Next.Enter node list) self.old next self.new) }
    {
        let Some(found) = program.node(node) else {
            return Ok(Next::Leave { list });
        };
        match found {
            Node::Nothing => Ok(Next::Leave { list }),
            Node::Char(wanted) => {
                let place = past_char(text, self.place, *wanted);
                Ok(self.go_on(place, list))
            }
            Node::Class(class) => {
                let place = past_class(text, self.place, class);
                Ok(self.go_on(place, list))
            }
            Node::Anchor(anchor) => {
                if anchor_holds(text, self.place, *anchor) {
                    Ok(Next::Leave { list })
                } else {
                    Ok(Next::Fail)
                }
            }
            Node::Same { fold, group } => {
                Ok(self.enter_same(program, text, node, *fold, *group, list))
            }
            Node::Text { letters, rest } => {
                let place = past_letters(text, self.place, letters);
                Ok(self.go_to(place, *rest, list))
            }
            Node::Sequence(first, second) => {
                self.enter_sequence(program, text, node, *first, *second, list)
            }
            Node::Alternation(first, second) => {
                self.enter_branches(program, text, node, *first, *second, list)
            }
            Node::Repeat {
                greedy,
                least,
                most,
                body,
            } => {
                let turns = Turns {
                    node,
                    left: text.len().saturating_sub(self.place) + 1,
                    least: *least,
                    most: *most,
                };
                self.enter_loop(program, text, turns, *greedy, *body, list)
            }
            Node::Group { number, body } => {
                let item = Continuation::Close {
                    group: *number,
                    start: self.place,
                };
                let list = self.cons(item, list)?;
                Ok(Next::Enter { node: *body, list })
            }
            Node::Atomic(body) => self.enter_part(Bound::Whole, *body, list),
            Node::Ahead { negated, body } => self.enter_part(look_bound(*negated), *body, list),
            Node::Behind { negated, body } => {
                let (from, count) = starts_before(program, self.place, *body);
                self.enter_behind(look_bound(*negated), *body, from, count, list)
            }
        }
    }

    /// Counts so many characters that were gone through one by one, as those of a stretch are.
    fn read_more(&mut self, count: usize)
        ensures { self.new ≡ record self.old { read = self.new.read; worth = self.new.worth } }
    {
        self.read = self.read.saturating_add(count);
        self.worth = self.read / READ_A_STEP;
    }

    /// How many bytes the text of the group has, which are compared at most.
    fn group_len(&self, group: usize) -> usize {
        match self.groups.get(group) {
            Some(Some((from, to))) => to.saturating_sub(*from),
            _ => 0,
        }
    }

    /// Goes on after the group's text, if it stands again at the place. Its length counts anyway.
    fn enter_same(
        &mut self,
        program: &Program,
        text: &str,
        node: usize,
        fold: bool,
        group: usize,
        list: usize,
    ) -> Next
        requires fits { Fits text.now (Next.Enter node list) self.old }
        requires is { slice_index_or (trees_of program.now) node nothing ≡ same fold group }
        ensures { Goes text.now (trees_of program.now)
            (Next.Enter node list) self.old result self.new }
    {
        let left = text.len().saturating_sub(self.place);
        self.read_more(self.group_len(group).min(left));
        let place = self.past_group(text, fold, group);
        self.go_on(place, list)
    }

    /// The place after the text of the group, where it stands again at the place.
    fn past_group(&self, text: &str, fold: bool, group: usize) -> Option<usize>
        requires place { IsCharBoundary text.now self.now.place }
        requires groups { GroupsFit text.now self.now.groups.items }
        ensures value { (g : Groups)
            → same_text text.now fold (slice_get self.now.groups.items group) self.now.place g
            ≡ at_end result g }
        ensures boundary { IfSome result (λ j. IsCharBoundary text.now j) }
    {
        let (from, to) = (*self.groups.get(group)?)?;
        if from > to {
            return Some(self.place);
        }
        past_text(text, self.place, fold, &text[from..to])
    }

    /// Begins a part of which the first match counts alone.
    fn enter_part(&mut self, bound: Bound, body: usize, list: usize) -> Result<Next, AllocError>
        ensures frames { OnOk result
            (self.new.frames.items ≡ self.old.frames.items
            ++ Frame.Within bound list self.old.place (length self.old.cells.items) ∷ []) }
        ensures others { self.new ≡ record self.old { frames = self.new.frames } }
        ensures next { IfOk result (λ next. next ≡ Next.Enter body 0) }
    {
        let frame = Frame::Within {
            bound,
            list,
            place: self.place,
            cells: self.cells.len(),
        };
        self.save(frame)?;
        Ok(Next::Enter {
            node: body,
            list: 0,
        })
    }

    /// Begins a part that is to end at the place, at so many places, from the one backwards.
    fn enter_behind(
        &mut self,
        bound: Bound,
        body: usize,
        from: usize,
        count: usize,
        list: usize,
    ) -> Result<Next, AllocError>
        ensures frames { OnOk result
            (self.new.frames.items ≡ self.old.frames.items
            ++ Frame.Within bound list self.old.place (length self.old.cells.items)
            ∷ Frame.Starts body (length self.new.cells.items) count from
            (length self.new.cells.items) ∷ []) }
        ensures cells { OnOk result
            (self.new.cells.items ≡ self.old.cells.items
            ++ record { item = Continuation.EndsAt self.old.place; next = 0 } ∷ []) }
        ensures place { self.new.place ≡ self.old.place }
        ensures groups { self.new.groups.items ≡ self.old.groups.items }
        ensures next { IfOk result (λ next. next ≡ Next.Fail) }
    {
        let place = self.place;
        let frame = Frame::Within {
            bound,
            list,
            place,
            cells: self.cells.len(),
        };
        self.save(frame)?;
        let ends = self.cons(Continuation::EndsAt(place), 0)?;
        let frame = Frame::Starts {
            node: body,
            list: ends,
            count,
            place: from,
            cells: self.cells.len(),
        };
        self.save(frame)?;
        Ok(Next::Fail)
    }

    /// The node past the dead branches that it begins with, in jumps where the program has some.
    fn alive_branch(&self, program: &Program, text: &str, node: usize, list: usize) -> usize
        requires { Fits text.now (Next.Enter node list) self.now }
        ensures { FindsAlike text.now (trees_of program.now) (Next.Enter node list)
            (Next.Enter result list) self.now }
    {
        let mut branch = node;
        while let Some(Node::Alternation(first, second)) = program.node(branch) {
            if let Some(rest) = program.past_branches(text, self.place, branch) {
                branch = rest;
            } else {
                if !program.none_begins_at(text, self.place, *first) {
                    return branch;
                }
                branch = *second;
            }
        }
        branch
    }

    /// Matches the node's first branch and keeps the second for later; a dead one is passed over.
    fn enter_branches(
        &mut self,
        program: &Program,
        text: &str,
        node: usize,
        first: usize,
        second: usize,
        list: usize,
    ) -> Result<Next, AllocError>
        requires fits { Fits text.now (Next.Enter node list) self.old }
        requires is { slice_index_or (trees_of program.now) node nothing
            ≡ alt (slice_index_or (trees_of program.now) first nothing)
            (slice_index_or (trees_of program.now) second nothing) }
        ensures { IfOk result (λ next. Goes text.now (trees_of program.now)
            (Next.Enter node list) self.old next self.new) }
    {
        if program.none_begins_at(text, self.place, first) {
            let node = self.alive_branch(program, text, second, list);
            return Ok(Next::Enter { node, list });
        }
        if program.none_begins_at(text, self.place, second) {
            return Ok(Next::Enter { node: first, list });
        }
        let frame = Frame::Enter {
            node: second,
            list,
            place: self.place,
            cells: self.cells.len(),
        };
        self.save(frame)?;
        Ok(Next::Enter { node: first, list })
    }

    /// Begins the turns of a loop.
    fn enter_loop(
        &mut self,
        program: &Program,
        text: &str,
        turns: Turns,
        greedy: bool,
        body: usize,
        list: usize,
    ) -> Result<Next, AllocError>
        requires fits { Fits text.now (Next.Enter turns.node list) self.old }
        requires is_loop { slice_index_or (trees_of program.now) turns.node nothing
            ≡ repeat greedy turns.least turns.most
            (slice_index_or (trees_of program.now) body nothing) }
        requires left { turns.left ≡ suc (length text.now - self.old.place) }
        ensures { IfOk result (λ next. Goes text.now (trees_of program.now)
            (Next.Enter turns.node list) self.old next self.new) }
    {
        if greedy
            && turns.most.is_none()
            && self.enter_stretch(program, text, turns.least, body, list)?
        {
            return Ok(Next::Fail);
        }
        Ok(Next::Turn { turns, list })
    }

    /// Reads a greedy one-character loop's stretch of ASCII and keeps its ends, the last one first.
    fn enter_stretch(
        &mut self,
        program: &Program,
        text: &str,
        least: u32,
        body: usize,
        list: usize,
    ) -> Result<bool, AllocError>
        requires { Fits text.now (Next.Enter body list) self.old }
        ensures goes { IfOk result
            (λ yes. yes ≡ true → EntersStretch text.now
            (trees_of program.now) least body list self.old self.new) }
        ensures stays { IfOk result (λ yes. yes ≡ false → self.new ≡ self.old) }
    {
        let Some(end) = stretch(program, text, self.place, body) else {
            return Ok(false);
        };
        self.read = self.read.saturating_add(end.saturating_sub(self.place));
        self.worth = self.read / READ_A_STEP;
        let frame = Frame::Stretch {
            list,
            count: (end.saturating_sub(self.place) + 1).saturating_sub(least as usize),
            place: end,
            cells: self.cells.len(),
        };
        self.save(frame)?;
        Ok(true)
    }
}
