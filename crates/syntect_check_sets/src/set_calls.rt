//! Calls that can be refused for lack of memory, each made a few times over, with what it answers
//! and what it leaves.
use crate::{folders, patterns, set_copies, sets};
use std::rt::Files;

/// The names of the calls.
pub const NAMES: [&[&str]; 4] = [
    &set_copies::NAMES,
    &folders::NAMES,
    &patterns::NAMES,
    &sets::NAMES,
];

/// Makes the call of this name, and shows each time what it answers and leaves. Shows nothing if
/// there is none.
pub fn show_call(rt: &(impl Print + AllocGlobal + Files), name: &str) {
    set_copies::make(rt, name);
    folders::make(rt, name);
    patterns::make(rt, name);
    sets::make(rt, name);
}
