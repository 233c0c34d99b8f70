//! Stretches of ASCII characters that a loop reads at once.
ghost use Rattle.std.specs.Prelude.{◌≡◌, ◌≤◌, IfSome, length, slice_index_or};
ghost use Rattle.syntect_pattern_backtrack.specs.syntect_pattern.Sets.{range};
ghost use Rattle.syntect_pattern_backtrack.specs.syntect_pattern.Trees.{nothing};
ghost use Rattle.syntect_pattern_backtrack.specs.syntect_pattern_table.Table.{set_of};
ghost use Rattle.syntect_pattern_backtrack.specs.syntect_pattern_table.Program.{trees_of};
ghost use Rattle.syntect_pattern_backtrack.specs.Stretches.{IsStretch, IsStretchOf};

use crate::syntect_pattern_table::node::{Class, Node};
use crate::syntect_pattern_table::program::Program;

/// The end of the character's stretch from the place on. None if one beyond ASCII comes after it.
fn char_stretch(text: &[u8], place: usize, wanted: char) -> Option<usize>
    requires { place ≤ length text.now }
    ensures { IfSome result (λ end. IsStretch text.now (range wanted wanted) place end) }
{
    let mut end = place;
    while end < text.len() {
        if text[end] >= 0x80 {
            return None;
        }
        if text[end] as char != wanted {
            return Some(end);
        }
        end += 1;
    }
    Some(end)
}

/// The end of the class's stretch from the place on. None if one beyond ASCII comes after it.
fn class_stretch(text: &[u8], place: usize, class: &Class) -> Option<usize>
    requires { place ≤ length text.now }
    ensures { IfSome result (λ end. IsStretch text.now (set_of class.now) place end) }
{
    let mut end = place;
    while end < text.len() {
        if text[end] >= 0x80 {
            return None;
        }
        if !class.holds(text[end] as char) {
            return Some(end);
        }
        end += 1;
    }
    Some(end)
}

/// The end of the stretch of characters that the node reads, from the place on. None if the node
/// reads something else or a character beyond ASCII comes after it.
pub fn stretch(program: &Program, text: &str, place: usize, node: usize) -> Option<usize>
    requires { place ≤ length text.now }
    ensures { IfSome result
        (λ end. IsStretchOf text.now
        (slice_index_or (trees_of program.now) node nothing) place end) }
{
    let found = program.node(node)?;
    match found {
        Node::Char(wanted) => char_stretch(text.as_bytes(), place, *wanted),
        Node::Class(class) => class_stretch(text.as_bytes(), place, class),
        _ => None,
    }
}
