//! Calls that can be refused for lack of memory, each made a few times over, with what it answers
//! and what it leaves.
use crate::{files, metadata, patterns, scopes, selectors, styles, writers};
use std::rt::Files;

/// The names of the calls.
pub const NAMES: [&[&str]; 7] = [
    &files::NAMES,
    &metadata::NAMES,
    &patterns::NAMES,
    &scopes::NAMES,
    &selectors::NAMES,
    &styles::NAMES,
    &writers::NAMES,
];

/// Makes the call of this name, and shows each time what it answers and leaves. Shows nothing if
/// there is none.
pub fn show_call(rt: &(impl Print + AllocGlobal + Files), name: &str) {
    files::make(rt, name);
    metadata::make(rt, name);
    patterns::make(rt, name);
    scopes::make(rt, name);
    selectors::make(rt, name);
    styles::make(rt, name);
    writers::make(rt, name);
}
