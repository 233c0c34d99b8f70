//! What follows a node, and what a search comes back to.
ghost use Rattle.std.specs.Prelude.{◌≡◌, ℕ, ◌++◌, ◌∷◌, [], ◌<◌, ◌≤◌, length, take, IfOk, IfSome, IfNone, IsSome, OnOk, reverse, slice_index_or, slice_set, None, Some, Option};

use crate::state::{Bound, Continuation, Frame, Next, Search};
use crate::syntect_pattern_table::program::Program;
use std::alloc::AllocError;
use syntect_pattern_steps::text::is_boundary;

impl Search {
    ghost use Rattle.syntect_pattern_backtrack.specs.syntect_pattern_table.Program.{trees_of};
    ghost use Rattle.syntect_pattern_backtrack.specs.Machine.{Fits, Goes, ReturnsTo, Retreats, RestoresGroup, Restarts, ComesOut, Cuts, bound_of, next_of, place_of};

    /// Goes on with the list.
    pub fn leave(&mut self, program: &Program, text: &str, list: usize) -> Result<Next, AllocError>
        requires { Fits text.now (Next.Leave list) self.old }
        ensures { IfOk result (λ next. Goes text.now (trees_of program.now)
            (Next.Leave list) self.old next self.new) }
    {
        if list == 0 {
            return Ok(Next::Found);
        }
        let cell = self.cells[list - 1];
        match cell.item {
            Continuation::Run(node) => Ok(Next::Enter {
                node,
                list: cell.next,
            }),
            Continuation::Close { group, start } => {
                self.close(group, start)?;
                Ok(Next::Leave { list: cell.next })
            }
            Continuation::Again { turns, start } => {
                if self.place == start {
                    Ok(Next::Leave { list: cell.next })
                } else {
                    Ok(Next::Turn {
                        turns,
                        list: cell.next,
                    })
                }
            }
            Continuation::EndsAt(end) => {
                if self.place == end {
                    Ok(Next::Leave { list: cell.next })
                } else {
                    Ok(Next::Fail)
                }
            }
        }
    }

    /// The group matched from the start to the place.
    fn close(&mut self, group: usize, start: usize) -> Result<(), AllocError>
        ensures inside { group < length self.old.groups.items
            → OnOk result (self.new.frames.items
            ≡ self.old.frames.items
            ++ Frame.Restore group (slice_index_or self.old.groups.items group None) ∷ []) }
        ensures outside { length self.old.groups.items ≤ group
            → OnOk result (self.new.frames.items ≡ self.old.frames.items) }
        ensures groups { OnOk result
            (self.new.groups.items ≡ slice_set self.old.groups.items group
            (Some (start, self.old.place))) }
        ensures cells { OnOk result (self.new.cells.items ≡ self.old.cells.items) }
        ensures place { OnOk result (self.new.place ≡ self.old.place) }
    {
        let end = self.place;
        if group < self.groups.len() {
            let old = self.groups[group];
            self.save(Frame::Restore { group, old })?;
            self.groups[group] = Some((start, end));
        }
        Ok(())
    }

    /// Goes back to the frame, which was taken off the stack.
    fn resume(&mut self, text: &str, frame: Frame) -> Result<Next, AllocError>
        ensures enter { (node list place cells : ℕ) → frame ≡ Frame.Enter node list place cells
            → IfOk result (λ next. (next ≡ Next.Enter node list)
            × ReturnsTo place cells self.old self.new) }
        ensures leave { (list place cells : ℕ) → frame ≡ Frame.Leave list place cells
            → IfOk result (λ next. (next ≡ Next.Leave list)
            × ReturnsTo place cells self.old self.new) }
        ensures stretch { (list count place cells : ℕ)
            → frame ≡ Frame.Stretch list count place cells
            → IfOk result (λ next. Retreats list count place cells self.old next self.new) }
        ensures starts { (node list count place cells : ℕ)
            → frame ≡ Frame.Starts node list count place cells
            → IfOk result
            (λ next. Restarts text.now node list count place cells self.old next self.new) }
        ensures within { (bound : Bound) (list place cells : ℕ)
            → frame ≡ Frame.Within bound list place cells
            → IfOk result (λ next. ComesOut bound list place cells self.old next self.new) }
        ensures restore { (group : ℕ) (old : Option (ℕ × ℕ)) → frame ≡ Frame.Restore group old
            → IfOk result (λ next. (next ≡ Next.Fail)
            × RestoresGroup group old self.old self.new) }
    {
        match frame {
            Frame::Enter {
                node,
                list,
                place,
                cells,
            } => {
                self.place = place;
                self.cells.truncate(cells);
                Ok(Next::Enter { node, list })
            }
            Frame::Leave { list, place, cells } => {
                self.place = place;
                self.cells.truncate(cells);
                Ok(Next::Leave { list })
            }
            Frame::Stretch {
                list,
                count,
                place,
                cells,
            } => self.retreat(list, count, place, cells),
            Frame::Starts {
                node,
                list,
                count,
                place,
                cells,
            } => self.restart(text, node, list, count, place, cells),
            Frame::Within {
                bound,
                list,
                place,
                cells,
            } => Ok(self.come_out(bound, list, place, cells)),
            Frame::Restore { group, old } => {
                if group < self.groups.len() {
                    self.groups[group] = old;
                }
                Ok(Next::Fail)
            }
        }
    }

    /// Goes on with the list at the place, if one of so many is left, and keeps those before it.
    fn retreat(
        &mut self,
        list: usize,
        count: usize,
        place: usize,
        cells: usize,
    ) -> Result<Next, AllocError>
        ensures { IfOk result (λ next. Retreats list count place cells self.old next self.new) }
    {
        self.cells.truncate(cells);
        if count == 0 {
            return Ok(Next::Fail);
        }
        self.save(Frame::Stretch {
            list,
            count: count - 1,
            place: place.saturating_sub(1),
            cells,
        })?;
        self.place = place;
        Ok(Next::Leave { list })
    }

    /// Matches the node at the place, if one of so many is left, and keeps those before it.
    fn restart(
        &mut self,
        text: &str,
        node: usize,
        list: usize,
        count: usize,
        place: usize,
        cells: usize,
    ) -> Result<Next, AllocError>
        ensures { IfOk result
            (λ next. Restarts text.now node list count place cells self.old next self.new) }
    {
        self.cells.truncate(cells);
        if count == 0 {
            return Ok(Next::Fail);
        }
        let before = place.saturating_sub(1);
        self.save(Frame::Starts {
            node,
            list,
            count: count - 1,
            place: before,
            cells,
        })?;
        if place != 0 && !is_boundary(text, place) {
            return Ok(Next::Fail);
        }
        self.place = place;
        Ok(Next::Enter { node, list })
    }

    /// A part of which the first match counts alone has none.
    fn come_out(&mut self, bound: Bound, list: usize, place: usize, cells: usize) -> Next
        ensures { ComesOut bound list place cells self.old result self.new }
    {
        self.cells.truncate(cells);
        match bound {
            Bound::Whole | Bound::Holds => Next::Fail,
            Bound::Fails => {
                self.place = place;
                Next::Leave { list }
            }
        }
    }

    /// Goes back to the last frame, if there is one.
    pub fn back(&mut self, program: &Program, text: &str) -> Result<Option<Next>, AllocError>
        requires { Fits text.now Next.Fail self.old }
        ensures goes { IfOk result
            (λ found. IfSome found (λ next.
            Goes text.now (trees_of program.now) Next.Fail self.old next self.new)) }
        ensures over { IfOk result (λ found. IfNone found (self.old.frames.items ≡ [])) }
    {
        let Some(frame) = self.frames.pop() else {
            return Ok(None);
        };
        if let Some(shorter) = self.shortened(program, text, frame) {
            self.save(shorter)?;
            return Ok(Some(Next::Fail));
        }
        let next = self.resume(text, frame)?;
        Ok(Some(next))
    }

    /// What follows a found match of a part of which the first match counts alone: what that part
    /// could still try is forgotten, and its cells are. None if the match is the whole one.
    pub fn finish(&mut self) -> Result<Option<Next>, AllocError>
        ensures whole { IfOk result
            (λ found. IfNone found ((bound_of (reverse self.old.frames.items) ≡ None)
            × (self.new.place ≡ self.old.place)
            × (self.new.groups.items ≡ self.old.groups.items))) }
        ensures part { IfOk result
            (λ found. IfSome found (λ next.
            IfSome (bound_of (reverse self.old.frames.items))
            (λ b. Cuts b self.old next self.new))) }
        ensures has_part { IfOk result
            (λ found. IfSome found (λ next.
            IsSome (bound_of (reverse self.old.frames.items)))) }
    {
        let mut kept = Vec::new(*self.frames.allocator());
        'cut: loop {
            let Some(frame) = self.frames.pop() else {
                return Ok(None);
            };
            match frame {
                Frame::Within {
                    bound,
                    list,
                    place,
                    cells,
                } => {
                    self.give_back(&mut kept)?;
                    return Ok(Some(self.go_out(bound, list, place, cells)));
                }
                Frame::Restore { group, old } => kept.push(Frame::Restore { group, old })?,
                _ => {}
            }
        }
    }

    /// Puts the frames back on the stack, the last one first.
    fn give_back(&mut self, kept: &mut Vec<Frame>) -> Result<(), AllocError>
        ensures frames { OnOk result
            (reverse self.new.frames.items ≡ kept.old.items ++ reverse self.old.frames.items) }
        ensures others { self.new ≡ record self.old { frames = self.new.frames } }
    {
        'frames: while let Some(frame) = kept.pop() {
            self.save(frame)?;
        }
        Ok(())
    }

    /// What follows the first match of a part that began at the place, with so many cells.
    fn go_out(&mut self, bound: Bound, list: usize, place: usize, cells: usize) -> Next
        ensures next { result ≡ next_of (bound, list, place) }
        ensures place { self.new.place ≡ place_of (bound, list, place) self.old.place }
        ensures cells { self.new.cells.items ≡ take cells self.old.cells.items }
        ensures frames { self.new.frames ≡ self.old.frames }
        ensures groups { self.new.groups ≡ self.old.groups }
    {
        self.cells.truncate(cells);
        match bound {
            Bound::Whole => Next::Leave { list },
            Bound::Holds => {
                self.place = place;
                Next::Leave { list }
            }
            Bound::Fails => Next::Fail,
        }
    }
}
