//! The turns of a loop.
ghost use Rattle.std.specs.Prelude.{◌≡◌, ◌==◌, if◌then◌else◌, ℕ, ◌+◌, ◌++◌, ◌∷◌, [], length, IfOk, OnOk, Option, suc, true, false};
ghost use Rattle.syntect_pattern_backtrack.specs.Machine.{is_used_up, one_turn_less};

use crate::state::{Continuation, Frame, Next, Search, Turns};
use crate::syntect_pattern_table::node::Node;
use crate::syntect_pattern_table::program::Program;
use std::alloc::AllocError;

/// No turn is left.
fn is_used_up(most: Option<u32>) -> bool
    ensures { result ≡ is_used_up most }
{
    match most {
        Some(n) => n == 0,
        None => false,
    }
}

/// The turns that are left after one.
fn one_turn_less(turns: Turns) -> Turns
    ensures { result ≡ one_turn_less turns }
{
    let most = match turns.most {
        Some(n) => Some(n.saturating_sub(1)),
        None => None,
    };
    Turns {
        node: turns.node,
        left: turns.left.saturating_sub(1),
        least: turns.least.saturating_sub(1),
        most,
    }
}

/// Leaves the loop, if its least number of turns is reached.
fn leave_after(least: u32, list: usize) -> Next
    ensures { result ≡ (if least == 0 then Next.Leave list else Next.Fail) }
{
    if least == 0 {
        Next::Leave { list }
    } else {
        Next::Fail
    }
}

impl Search {
    ghost use Rattle.syntect_pattern_backtrack.specs.syntect_pattern_table.Program.{trees_of};
    ghost use Rattle.syntect_pattern_backtrack.specs.Machine.{Fits, Goes};

    /// Takes a turn of the loop, if one is left.
    pub fn turn(
        &mut self,
        program: &Program,
        text: &str,
        turns: Turns,
        list: usize,
    ) -> Result<Next, AllocError>
        requires { Fits text.now (Next.Turn turns list) self.old }
        ensures { IfOk result (λ next. Goes text.now (trees_of program.now)
            (Next.Turn turns list) self.old next self.new) }
    {
        let Some(found) = program.node(turns.node) else {
            return Ok(Next::Fail);
        };
        let Node::Repeat {
            greedy,
            body,
            least: _,
            most: _,
        } = found
        else {
            return Ok(Next::Fail);
        };
        if turns.left == 0 {
            return Ok(Next::Fail);
        }
        if is_used_up(turns.most) {
            if turns.least == 0 {
                return Ok(Next::Leave { list });
            }
            return Ok(Next::Fail);
        }
        if program.none_begins_at(text, self.place, *body) {
            return Ok(leave_after(turns.least, list));
        }
        let item = Continuation::Again {
            turns: one_turn_less(turns),
            start: self.place,
        };
        if turns.least != 0 {
            return self.take_turn(*body, item, list);
        }
        if self.dead_ends(program, text, list, 1, self.place) != 0 {
            return self.take_turn(*body, item, list);
        }
        self.choose(*greedy, *body, item, list)
    }

    /// Takes another turn, and nothing else is left to try.
    fn take_turn(
        &mut self,
        body: usize,
        item: Continuation,
        list: usize,
    ) -> Result<Next, AllocError>
        ensures cells { OnOk result (self.new.cells.items ≡ self.old.cells.items
            ++ record { item = item; next = list } ∷ []) }
        ensures next { IfOk result (λ next. next
            ≡ Next.Enter body (length self.old.cells.items + 1)) }
        ensures others { self.new ≡ record self.old { cells = self.new.cells } }
    {
        let again = self.cons(item, list)?;
        Ok(Next::Enter {
            node: body,
            list: again,
        })
    }

    /// Takes another turn or leaves, and keeps the other for later.
    fn choose(
        &mut self,
        greedy: bool,
        body: usize,
        item: Continuation,
        list: usize,
    ) -> Result<Next, AllocError>
        ensures cells { OnOk result (self.new.cells.items ≡ self.old.cells.items
            ++ record { item = item; next = list } ∷ []) }
        ensures more { greedy ≡ true
            → IfOk result (λ next. (next ≡ Next.Enter body (length self.old.cells.items + 1))
            × (self.new.frames.items
            ≡ self.old.frames.items
            ++ Frame.Leave list self.old.place (length self.old.cells.items) ∷ [])) }
        ensures leave { greedy ≡ false
            → IfOk result (λ next. (next ≡ Next.Leave list)
            × (self.new.frames.items
            ≡ self.old.frames.items
            ++ Frame.Enter body (suc (length self.old.cells.items)) self.old.place
            (length self.new.cells.items) ∷ [])) }
        ensures place { self.new.place ≡ self.old.place }
        ensures groups { self.new.groups.items ≡ self.old.groups.items }
    {
        let place = self.place;
        let cells = self.cells.len();
        let again = self.cons(item, list)?;
        if greedy {
            self.save(Frame::Leave { list, place, cells })?;
            Ok(Next::Enter {
                node: body,
                list: again,
            })
        } else {
            let frame = Frame::Enter {
                node: body,
                list: again,
                place,
                cells: self.cells.len(),
            };
            self.save(frame)?;
            Ok(Next::Leave { list })
        }
    }
}
