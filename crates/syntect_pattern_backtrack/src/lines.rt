//! Patterns whose matches begin where a line does.
ghost use Rattle.std.specs.Prelude.{◌≡◌, ℕ, ◌≤◌, ◌<◌, IsCharBoundary, length, slice_index_or, false, true};
ghost use Rattle.syntect_pattern_backtrack.specs.syntect_pattern.Trees.{nothing};
ghost use Rattle.syntect_pattern_backtrack.specs.syntect_pattern.declared.anchor.Anchor.TheVariants.{LineStart};
ghost use Rattle.syntect_pattern_backtrack.specs.syntect_pattern.Matches as matches;
ghost use Rattle.syntect_pattern_backtrack.specs.syntect_pattern_table.Program.{CannotBegin, trees_of};
ghost use Rattle.syntect_pattern_backtrack.specs.Lines.{IsAtLines};

use crate::syntect_pattern::anchor::Anchor;
use crate::syntect_pattern_table::node::Node;
use crate::syntect_pattern_table::program::Program;
use memchr::memchr;
use syntect_pattern_steps::first::first_part;

/// Whether a match of the program is seen to begin with `^` or `\A`.
pub fn is_at_lines(program: &Program) -> bool
    ensures { result ≡ true
        → IsAtLines (slice_index_or (trees_of program.now) program.now.root nothing) }
{
    matches!(
        first_part(program, program.root),
        Some(Node::Anchor(Anchor::LineStart | Anchor::TextStart))
    )
}

/// The first place from this one on, up to `end`, where a line begins, or `end`.
fn next_line(text: &str, place: usize, end: usize) -> usize
    requires order { place ≤ end }
    requires within { end ≤ length text.now }
    ensures later { place ≤ result }
    ensures inside { result ≤ end }
    ensures skipped { (k : ℕ) → place ≤ k → k < result → IsCharBoundary text.now k
        → matches.anchor_holds text.now LineStart k ≡ false }
{
    if place == 0 {
        return 0;
    }
    match memchr(b'\n', text.as_bytes().split_at(place - 1).1) {
        Some(next) => (place + next).min(end),
        None => end,
    }
}

/// The first place up to `end` where a match can begin, or `end`; with `lines` a line begins there.
pub fn next_start(program: &Program, text: &str, place: usize, end: usize, lines: bool) -> usize
    requires order { place ≤ end }
    requires within { end ≤ length text.now }
    requires lines { lines ≡ true
        → IsAtLines (slice_index_or (trees_of program.now) program.now.root nothing) }
    ensures later { place ≤ result }
    ensures inside { result ≤ end }
    ensures skipped { (k : ℕ) → place ≤ k → k < result → CannotBegin text.now program.now k }
{
    if lines {
        let from = next_line(text, place, end);
        return program.next_start_up_to(text, from, end);
    }
    program.next_start_up_to(text, place, end)
}
