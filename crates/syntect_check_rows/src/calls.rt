//! The examples that are made by calls.
use crate::made::{
    another_set, captures_without_effect, first_line, left_start, no_start, unresolved_line,
};
use crate::readers::{faults_behind_lines, readers, theme_readers};
use crate::searching::references;
use std::alloc::Global;
use std::io;
use syntect_check_tables::engine::long_loop;
use syntect_check_tables::styling::flags;

/// An example; the call of its name says what it is.
#[derive(Clone, Copy)]
enum Row {
    FirstLine,
    UnresolvedLine,
    NoStart,
    References,
    /// A loop of many turns.
    LongLoop,
    Readers,
    FaultsBehindLines,
    ThemeReaders,
    /// Flags by their bits, and as texts.
    Flags,
    LeftStart,
    Captures,
    AnotherSet,
}

/// The examples in order, by their labels.
const ROWS: [(&str, Row); 12] = [
    ("17", Row::FirstLine),
    ("R1.1", Row::UnresolvedLine),
    ("R1.2", Row::NoStart),
    ("24", Row::References),
    ("R2.12", Row::LongLoop),
    ("26", Row::Readers),
    ("R5.6", Row::Flags),
    ("R12.2", Row::LeftStart),
    ("R12.3", Row::Captures),
    ("R12.5", Row::AnotherSet),
    ("R13.1", Row::FaultsBehindLines),
    ("R13.2", Row::ThemeReaders),
];

/// Whether an example comes out as it is written. Lack of memory counts as no.
fn holds(alloc: Global, row: Row) -> bool {
    let outcome = match row {
        Row::FirstLine => first_line(alloc),
        Row::UnresolvedLine => unresolved_line(alloc),
        Row::NoStart => no_start(alloc),
        Row::References => references(alloc),
        Row::LongLoop => long_loop(alloc),
        Row::Readers => readers(alloc),
        Row::FaultsBehindLines => faults_behind_lines(alloc),
        Row::ThemeReaders => theme_readers(alloc),
        Row::Flags => flags(alloc),
        Row::LeftStart => left_start(alloc),
        Row::Captures => captures_without_effect(alloc),
        Row::AnotherSet => another_set(alloc),
    };
    outcome.unwrap_or(false)
}

/// Runs the examples, prints of each whether it comes out as written, and answers whether all do.
pub fn run_calls(rt: &(impl Print + AllocGlobal)) -> io::Result<bool> {
    let mut all = true;
    for (label, row) in &ROWS {
        let comes_out = holds(rt.alloc(), *row);
        let outcome = if comes_out { "ok" } else { "fails" };
        all &= comes_out;
        println!(rt; "row {label} {outcome}")?;
    }
    Ok(all)
}
