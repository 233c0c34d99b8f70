//! Calls that can be refused for lack of memory, each made a few times over, with what it answers
//! and what it leaves: those of this crate and of the crates of calls below.
use crate::below::check_calls::calls as part_calls;
use crate::heard::Heard;
use crate::{files, lines, pages};
use std::alloc::{AllocError, Global};
use std::io;
use std::rt::Files;
use syntect_check_sets::{calls as copy_calls, set_calls as set_calls};

/// The names of this crate's calls.
const NAMES: [&[&str]; 3] = [&files::NAMES, &lines::NAMES, &pages::NAMES];

/// The names, and after them those of groups.
fn with_names(
    names: Vec<&'static str>,
    groups: &[&'static [&'static str]],
) -> Result<Vec<&'static str>, AllocError> {
    let mut all = names;
    for group in groups {
        all.extend_from_slice(*group)?;
    }
    Ok(all)
}

/// The names of the calls.
pub fn names_of_calls(alloc: Global) -> Result<Vec<&'static str>, AllocError> {
    let names = with_names(Vec::new(alloc), &part_calls::NAMES)?;
    let names = with_names(names, &copy_calls::NAMES)?;
    let names = with_names(names, &set_calls::NAMES)?;
    with_names(names, &NAMES)
}

/// Prints the names of the calls.
pub fn show_names(rt: &(impl Print + AllocGlobal)) -> io::Result<()> {
    for name in &names_of_calls(rt.alloc())? {
        println!(rt; "{name}")?;
    }
    Ok(())
}

/// Makes the call of this name, and shows each time what it answers and leaves. Shows nothing if
/// there is none.
pub fn show_call(rt: &(impl Print + AllocGlobal + Files), name: &str) {
    part_calls::show_call(rt, name);
    copy_calls::show_call(rt, name);
    set_calls::show_call(rt, name);
    files::make(rt, name);
    lines::make(rt, name);
    pages::make(rt, name);
}

/// Whether a call answers where there is memory, and never that memory ran out.
fn is_answered(rt: &(impl AllocGlobal + Files), name: &str) -> bool {
    let heard = Heard::new(rt);
    show_call(&heard, name);
    heard.has_answers()
}

/// Makes each call, and prints whether it answers anything but that memory ran out. Answers whether
/// all do.
pub fn all_answered(rt: &(impl Print + AllocGlobal + Files)) -> io::Result<bool> {
    let mut all = true;
    for name in &names_of_calls(rt.alloc())? {
        let is_answered = is_answered(rt, *name);
        all &= is_answered;
        let outcome = if is_answered { "answers" } else { "fails" };
        println!(rt; "call {name} {outcome}")?;
    }
    Ok(all)
}
