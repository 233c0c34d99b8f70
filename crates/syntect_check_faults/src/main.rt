//! Tries the library with faults: calls that are refused memory, texts that have no room, and
//! broken inputs.
//!
//! `scripts/refusals.py` and `scripts/broken_inputs.py` run it with words.
#![tactic(auto)]

mod below;
mod broken;
mod calls;
mod campaign;
mod files;
mod formatted;
mod given;
mod heard;
mod lines;
mod pages;

use crate::calls::{all_answered, show_call, show_names};
use crate::campaign::{fronts_answered, show_input, try_broken};
use crate::formatted::all_formatted;
use std::process::ExitCode;
use std::rt::Files;
use std::{env, io};

const USAGE: &str =
    "usage: syntect_check_faults [calls | call NAME | input FILE | broken FOLDER N SEED [KEPT]]";

/// What broken inputs are made of, and a grammar whose fronts are tried.
const BROKEN: &str = "broken";

const FRONTS: &str = "broken/grammar.yaml";

/// How many inputs are made of each file, and from which seed.
const INPUTS: u32 = 200;

const SEED: u32 = 1;

/// What needs no words: each call with ample memory, texts without room, and broken inputs. Answers
/// whether all comes out.
fn run_all(rt: &(impl Print + Eprint + AllocGlobal + Files)) -> io::Result<bool> {
    let mut all = all_answered(rt)?;
    all &= all_formatted(rt)?;
    let fronts = fronts_answered(rt, FRONTS)?;
    println!(rt; "row fronts {}", if fronts { "ok" } else { "fails" })?;
    Ok(all & fronts & try_broken(rt, (BROKEN, ""), INPUTS, SEED)?)
}

/// A word's number.
fn number(word: &String) -> Option<u32> {
    word.as_str().parse::<u32>().ok()
}

/// Tries broken inputs of a folder's files. None where the numbers are none.
fn run_broken(
    rt: &(impl Print + Eprint + AllocGlobal + Files),
    folders: (&str, &str),
    (inputs, seed): (&String, &String),
) -> io::Result<Option<bool>> {
    match (number(inputs), number(seed)) {
        (Some(inputs), Some(seed)) => Ok(Some(try_broken(rt, folders, inputs, seed)?)),
        _ => Ok(None),
    }
}

/// Does what the words ask for, and answers whether all comes out. None where they ask for nothing.
fn run(
    rt: &(impl Print + Eprint + AllocGlobal + Files),
    words: &[String],
) -> io::Result<Option<bool>> {
    let Some((what, rest)) = words.split_first() else {
        return Ok(Some(run_all(rt)?));
    };
    match (what.as_str(), rest) {
        ("calls", []) => {
            show_names(rt)?;
            Ok(Some(true))
        }
        ("call", [name]) => {
            show_call(rt, name.as_str());
            Ok(Some(true))
        }
        ("input", [file]) => Ok(Some(show_input(rt, file.as_str())?)),
        ("broken", [folder, inputs, seed]) => {
            run_broken(rt, (folder.as_str(), ""), (inputs, seed))
        }
        ("broken", [folder, inputs, seed, kept]) => {
            run_broken(rt, (folder.as_str(), kept.as_str()), (inputs, seed))
        }
        _ => Ok(None),
    }
}

fn main(rt: HostRuntime) -> io::Result<ExitCode> {
    let words: Vec<String> = env::args(&rt)?.skip(1).collect(rt.alloc())?;
    match run(&rt, words.as_slice())? {
        Some(comes_out) => Ok(ExitCode::from(u8::from(!comes_out))),
        None => {
            eprintln!(rt; "{USAGE}")?;
            Ok(ExitCode::from(2))
        }
    }
}
