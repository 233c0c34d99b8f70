//! What a search stands on.
use crate::syntect_pattern_table::program::Program;
use crate::syntect_values::seq::Seq;
use syntect_pattern_plan::plan::Plan;

/// What is known of the cells at a place, where anything is.
pub type Known = Vec<Option<Option<usize>>>;

/// The plan of a program, a text, where lookbehinds hold there, and the rows of the places from the
/// text's end on.
#[derive(Clone, Copy)]
pub struct Ground<'a> {
    pub program: &'a Program,
    pub plan: &'a Plan,
    pub text: &'a str,
    pub sights: &'a [Seq<bool>],
    pub rows: &'a [Seq<Option<usize>>],
}
