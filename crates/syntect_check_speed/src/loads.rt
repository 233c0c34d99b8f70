//! How long the loader of grammars takes.
use std::process::ExitCode;
use std::rt::{Clock, Files};
use std::time::Instant;
use std::{fs, io};
use syntect_easy::parsing::{ScopeRepository, SyntaxDefinition};

/// What was loaded of a folder.
#[derive(Clone, Copy)]
struct Loads {
    files: u64,
    /// How many of them are grammars for lines with their line feeds, and for lines without.
    with_newlines: u64,
    without: u64,
    /// The time of both, in nanoseconds.
    nanos: u64,
}

/// Loads a file as a grammar, for lines with their line feeds and for lines without.
fn load_one(
    rt: &(impl AllocGlobal + Files + Clock),
    path: &str,
    repository: &mut ScopeRepository,
    loads: &mut Loads,
) -> io::Result<()> {
    let text = fs::read_to_string(rt, path)?;
    let alloc = rt.alloc();
    let start = Instant::now(rt)?;
    let with = SyntaxDefinition::load_from_str(alloc, text.as_str(), true, None, repository);
    let without = SyntaxDefinition::load_from_str(alloc, text.as_str(), false, None, repository);
    let nanos = u64::try_from(start.elapsed(rt)?.as_nanos()).unwrap_or(u64::MAX);
    loads.nanos = loads.nanos.saturating_add(nanos);
    loads.files = loads.files.saturating_add(1);
    if with.is_ok() {
        loads.with_newlines = loads.with_newlines.saturating_add(1);
    }
    if without.is_ok() {
        loads.without = loads.without.saturating_add(1);
    }
    Ok(())
}

/// Loads the files of a folder as grammars, and prints how many there are, how many of them are
/// grammars for lines with their line feeds and for lines without, and how long both took. A fault
/// of a file is answered as it is.
pub fn time_loads(
    rt: &(impl Print + AllocGlobal + Files + Clock + Clone + Drop),
    folder: &str,
) -> io::Result<ExitCode> {
    let mut repository = ScopeRepository::new(rt.alloc());
    let mut loads = Loads {
        files: 0,
        with_newlines: 0,
        without: 0,
        nanos: 0,
    };
    for entry in fs::read_dir(rt, folder)? {
        let entry = entry?;
        if !entry.file_type()?.is_dir() {
            load_one(
                rt,
                entry.path().to_string_lossy(),
                &mut repository,
                &mut loads,
            )?;
        }
    }
    let Loads {
        files,
        with_newlines,
        without,
        nanos,
    } = loads;
    let micros = nanos / 1000;
    println!(rt;
        "{files} files, {with_newlines} load with newlines, {without} without, {micros} us"
    )?;
    Ok(ExitCode::SUCCESS)
}
