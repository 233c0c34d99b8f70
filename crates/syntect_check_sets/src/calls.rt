//! Calls that can be refused for lack of memory, each made a few times over, with what it answers
//! and what it leaves.
use crate::{metadata, scopes, searches, settings, styles};

/// The names of the calls.
pub const NAMES: [&[&str]; 5] = [
    &metadata::NAMES,
    &scopes::NAMES,
    &searches::NAMES,
    &settings::NAMES,
    &styles::NAMES,
];

/// Makes the call of this name, and shows each time what it answers and leaves. Shows nothing if
/// there is none.
pub fn show_call(rt: &(impl Print + AllocGlobal), name: &str) {
    metadata::make(rt, name);
    scopes::make(rt, name);
    searches::make(rt, name);
    settings::make(rt, name);
    styles::make(rt, name);
}
