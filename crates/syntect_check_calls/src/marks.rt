//! What is printed around a call: a line before it and one after it,
//! then its answer and what it left.
use std::fmt;

/// How often a call is made.
pub const TIMES: u32 = 3;

/// Says that the call begins.
pub fn begin(rt: &impl Print) {
    let _ = println!(rt; "call");
}

/// Says that the call has ended.
pub fn end(rt: &impl Print) {
    let _ = println!(rt; "made");
}

/// Shows what the call answered.
pub fn answer<T: fmt::Debug + Drop>(rt: &impl Print, value: T) {
    let _ = println!(rt; "answer {value:?}");
}

/// Shows what a refusal has to leave unchanged.
pub fn left<T: fmt::Debug + Drop>(rt: &impl Print, value: T) {
    let _ = println!(rt; "left {value:?}");
}

/// Shows what stays of a folder, whose files before the faulty one are kept.
pub fn stays(rt: &impl Print, value: &str) {
    let _ = println!(rt; "stays {value}");
}
