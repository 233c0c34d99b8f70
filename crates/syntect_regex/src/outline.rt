//! What is kept of a pattern that was not searched yet.
ghost use Rattle.std.specs.Prelude.{◌≡◌, ℕ, IfOk, List, Some, slice_index_or, true};
ghost use Rattle.syntect_regex.specs.syntect_pattern.Trees.{nothing};
ghost use Rattle.syntect_regex.specs.syntect_pattern_compile.Compiled.{Compiles};
ghost use Rattle.syntect_regex.specs.syntect_pattern_table.Program.{trees_of};
ghost use Rattle.syntect_regex.specs.syntect_pattern_table.declared.program.Program.{Program};
ghost use Rattle.syntect_regex.specs.Begins.{BeginsAtEdges, BeginsAtLines, NoneBeginsOutside};
ghost use Rattle.syntect_regex.specs.Details.{KnowsGroups};
ghost use Rattle.syntect_regex.specs.Outline.{IsOutlineOf};
ghost use Rattle.syntect_pattern_word_ends.specs.Ends.{StandsBehind};

use crate::below::pattern_table::program::Program;
use crate::below::pattern_table::starts::{Places, anywhere, nowhere};
use crate::below::values::seq::Seq;
use crate::details::Details;
use crate::edges::{is_at_edges, is_at_lines};
use crate::looks::looks_in;
use std::alloc::{AllocError, Global};
use syntect_pattern_word_ends::ends::behind_runs;

/// Where matches of a pattern can begin, and what else is kept of it.
/// It is small compared with a program.
#[derive(Drop)]
pub(crate) struct Outline {
    /// What can stand at a place where a match begins.
    pub begins: Places,
    /// Whether a match is seen at once to begin where a word does, or ends.
    pub at_edges: bool,
    /// Whether a match is seen at once to begin where a line does.
    pub at_lines: bool,
    pub details: Details,
}

impl Outline {
    /// What is kept of a program, and of a text that has none.
    pub(crate) fn new(alloc: Global, program: &Option<Program>) -> Result<Outline, AllocError>
        ensures { IfOk result (λ o. (pattern : List ℕ) → Compiles pattern program.now
            → IsOutlineOf pattern o) }
    {
        let words = behind_of(alloc, false, program)?;
        let blanks = behind_of(alloc, true, program)?;
        let looks = groups_of(alloc, program)?;
        let details = Details::new(alloc, words, blanks, looks)?;
        Ok(Outline {
            begins: begins_of(program),
            at_edges: edges_of(program),
            at_lines: lines_of(program),
            details,
        })
    }
}

/// What can stand at a place where a match of the program begins. Where there is none nothing can.
fn begins_of(program: &Option<Program>) -> Places
    ensures { (pattern : List ℕ) → Compiles pattern program.now
        → NoneBeginsOutside result pattern }
{
    let Some(program) = program else {
        return nowhere();
    };
    match program.firsts.get(program.root) {
        Some(places) => places,
        None => anywhere(),
    }
}

/// Whether matches of the program are seen at once to begin where words do, or end.
fn edges_of(program: &Option<Program>) -> bool
    ensures { (pattern : List ℕ) → Compiles pattern program.now
        → result ≡ true → BeginsAtEdges pattern }
{
    match program {
        Some(program) => is_at_edges(program),
        None => false,
    }
}

/// Whether matches of the program are seen at once to begin where lines do.
fn lines_of(program: &Option<Program>) -> bool
    ensures { (pattern : List ℕ) → Compiles pattern program.now
        → result ≡ true → BeginsAtLines pattern }
{
    match program {
        Some(program) => is_at_lines(program),
        None => false,
    }
}

/// What can come after white space, or else after a word, in which a match of the program begins;
/// anything where there is none.
fn behind_of(alloc: Global, blank: bool, program: &Option<Program>) -> Result<Places, AllocError>
    ensures { IfOk result (λ places. (p : Program) → program.now ≡ Some p
        → StandsBehind blank places (slice_index_or (trees_of p) p.root nothing)) }
{
    match program {
        Some(program) => behind_runs(alloc, blank, program),
        None => Ok(anywhere()),
    }
}

/// Whether the groups of the program stand in lookarounds.
fn groups_of(
    alloc: Global,
    program: &Option<Program>,
) -> Result<Option<Seq<Option<bool>>>, AllocError>
    ensures { IfOk result (λ looks. (pattern : List ℕ) → Compiles pattern program.now
        → KnowsGroups pattern looks) }
{
    match program {
        Some(program) => Ok(Some(looks_in(alloc, program)?)),
        None => Ok(None),
    }
}
