//! `vulsangi` shows files in colour: in a terminal, as HTML or as LaTeX. `vulsangi --help` tells
//! its words.
//!
//! The status is 0; after wrong words it is 2, and 1 where a file or the theme isn't shown, which a
//! line on standard error tells. The other files are shown then all the same.
#![tactic(auto)]

mod choose;
mod doctor;
mod list;
mod pages;
mod places;
mod run;
mod screen;
mod show;
mod sink;
mod tex;

use crate::run::{perform, write_converted};
use crate::show::is_closed;
use clap::Command;
use std::io::{ErrorKind, IsTerminal};
use std::process::ExitCode;
use std::rt::{Env, Files};
use std::{env, io};
use syntect::assets::AssetsError;
use vulsangi_words::words::{WrongWords, asked_of, command};

/// The words of the program, as texts.
fn words_of(rt: &(impl Env + AllocGlobal)) -> io::Result<Vec<String>> {
    Ok(env::args(rt)?.collect(rt.alloc())?)
}

/// Tells what is wrong with the words, or their help.
fn told(rt: &(impl AllocGlobal + Print + Eprint), e: &clap::Error) -> io::Result<ExitCode> {
    let text = format!(in rt.alloc(); "{e}")?;
    if !e.use_stderr() {
        print!(rt; "{text}")?;
        return Ok(ExitCode::SUCCESS);
    }
    let why = text
        .as_str()
        .strip_prefix("error: ")
        .unwrap_or(text.as_str());
    eprint!(rt; "vulsangi: {why}")?;
    Ok(ExitCode::from(2))
}

/// Tells what is wrong with words that are each one of the program's.
fn told_wrong(rt: &impl Eprint, e: &WrongWords<'_>) -> io::Result<ExitCode> {
    eprintln!(rt; "vulsangi: {e}\n\nFor more information, try '--help'.")?;
    Ok(ExitCode::from(2))
}

/// The status of what was done, and a line about what went wrong. That nobody reads any more what
/// is written is no fault.
fn ended(rt: &impl Eprint, done: Result<bool, AssetsError>) -> io::Result<ExitCode> {
    match done {
        Ok(true) => Ok(ExitCode::SUCCESS),
        Ok(false) => Ok(ExitCode::FAILURE),
        Err(e) if is_closed(&e) => Ok(ExitCode::SUCCESS),
        Err(e) => {
            eprintln!(rt; "vulsangi: {e}")?;
            Ok(ExitCode::FAILURE)
        }
    }
}

/// The same, by the words themselves.
fn perform_words<'a>(
    rt: &(impl AllocGlobal + Print + Eprint + Input + Files + Env),
    words: &'a [String],
    to_terminal: bool,
) -> io::Result<ExitCode> {
    let command: Command<'a> = match command(rt.alloc()) {
        Ok(command) => command,
        Err(e) => return told(rt, &e),
    };
    let matches = match command.try_get_matches_from(words) {
        Ok(matches) => matches,
        Err(e) => return told(rt, &e),
    };
    if let Some(words) = matches.subcommand_matches("convert") {
        let theme = words.get_str("THEME").unwrap_or("");
        return ended(rt, write_converted(rt, theme, words.get_str("output")));
    }
    if let Some(done) = doctor::perform(rt, &matches, to_terminal) {
        return ended(rt, done);
    }
    match asked_of(rt.alloc(), &matches) {
        Ok(asked) => ended(rt, perform(rt, &asked, to_terminal)),
        Err(e) => told_wrong(rt, &e),
    }
}

fn main(rt: HostRuntime) -> io::Result<ExitCode> {
    let words = words_of(&rt)?;
    let to_terminal = rt.stdout().is_terminal();
    match perform_words(&rt, words.as_slice(), to_terminal) {
        Err(e) if e.kind() == ErrorKind::BrokenPipe => Ok(ExitCode::SUCCESS),
        ended => ended,
    }
}
