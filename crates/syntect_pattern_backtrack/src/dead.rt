//! A quick look at whether a node can match at a place.
ghost use Rattle.std.specs.Prelude.{◌≡◌, List, [], IsCharBoundary, slice_index_or, true};
ghost use Rattle.syntect_pattern_backtrack.specs.syntect_pattern.Trees.{nothing};
ghost use Rattle.syntect_pattern_backtrack.specs.syntect_pattern.Matches.{Groups, matches};
ghost use Rattle.syntect_pattern_backtrack.specs.syntect_pattern_table.Program.{trees_of};

use crate::syntect_pattern_table::node::Node;
use crate::syntect_pattern_table::program::Program;
use syntect_pattern_steps::anchor::anchor_holds;
use syntect_pattern_steps::first::first_part;
use syntect_pattern_steps::past::{past_char, past_class, past_letters};

/// Whether the node is seen at once to have no match at the place, by what its matches begin with.
pub fn fails_at_once(program: &Program, text: &str, place: usize, node: usize) -> bool
    requires { IsCharBoundary text.now place }
    ensures { result ≡ true → (g : Groups)
        → matches text.now (slice_index_or (trees_of program.now) node nothing) place g ≡ [] }
{
    let Some(first) = first_part(program, node) else {
        return false;
    };
    match first {
        Node::Char(wanted) => past_char(text, place, *wanted).is_none(),
        Node::Class(class) => past_class(text, place, class).is_none(),
        Node::Anchor(anchor) => !anchor_holds(text, place, *anchor),
        Node::Text { letters, rest: _ } => past_letters(text, place, letters).is_none(),
        _ => false,
    }
}
