//! Ends of a stretch that are passed over, since what follows has no match there.
ghost use Rattle.std.specs.Prelude.{◌≡◌, ℕ, ◌-◌, ◌<◌, ◌≤◌, ◌∷◌, [], IfSome, IsCharBoundary, length, None};
ghost use Rattle.syntect_pattern_backtrack.specs.syntect_pattern.Matches.{Groups};
ghost use Rattle.syntect_pattern_backtrack.specs.syntect_pattern_table.Program.{trees_of};
ghost use Rattle.syntect_pattern_backtrack.specs.Machine.{CellsFit, FramesFit, IsShorter, list_at};

use crate::state::{Continuation, Frame, Search};
use crate::syntect_pattern_table::node::Node;
use crate::syntect_pattern_table::program::Program;

impl Search {
    /// At how many of these places, this one and those right before it, the list finds nothing,
    /// from the last on, as the byte there tells. Anchors and groups' ends are looked past.
    pub fn dead_ends(
        &self,
        program: &Program,
        text: &str,
        list: usize,
        count: usize,
        place: usize,
    ) -> usize
        requires cells { CellsFit text.now self.now.cells.items }
        requires list { list ≤ length self.now.cells.items }
        requires places { (m : ℕ) → m < count → IsCharBoundary text.now (place - m) }
        ensures inside { result ≤ count }
        ensures dead { (m : ℕ) → m < result → (g : Groups)
            → (list_at text.now (trees_of program.now) self.now.cells.items list
            (place - m) g).found
            ≡ None }
    {
        if list == 0 {
            return 0;
        }
        let cell = self.cells[list - 1];
        match cell.item {
            Continuation::Run(node) => match program.node(node) {
                Some(Node::Anchor(_)) => self.dead_ends(program, text, cell.next, count, place),
                _ => program.dead_ends(text, place, count, node),
            },
            Continuation::Close { group: _, start: _ } => {
                self.dead_ends(program, text, cell.next, count, place)
            }
            _ => 0,
        }
    }

    /// The frame without the ends at which what follows has no match, if it has some.
    pub fn shortened(&self, program: &Program, text: &str, frame: Frame) -> Option<Frame>
        requires cells { CellsFit text.now self.now.cells.items }
        requires frame { FramesFit text.now (length self.now.cells.items) (frame ∷ []) }
        ensures { IfSome result (λ shorter.
            IsShorter text.now (trees_of program.now) self.now.cells.items frame shorter) }
    {
        match frame {
            Frame::Stretch {
                list,
                count,
                place,
                cells,
            } => {
                let ends = self.dead_ends(program, text, list, count, place);
                if ends == 0 {
                    return None;
                }
                Some(Frame::Stretch {
                    list,
                    count: count - ends,
                    place: place.saturating_sub(ends),
                    cells,
                })
            }
            _ => None,
        }
    }
}
