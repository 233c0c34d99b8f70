//! How long the YAML reader takes.
use crate::below::yaml::read::read;
use std::process::ExitCode;
use std::rt::{Clock, Files};
use std::time::Instant;
use std::{fs, io};

/// What was read of a folder.
#[derive(Clone, Copy)]
struct Counts {
    files: u64,
    /// How many of them have a value.
    values: u64,
    /// The time of reading their texts, in nanoseconds.
    nanos: u64,
}

/// Reads the text of a file as YAML.
fn read_one(
    rt: &(impl AllocGlobal + Files + Clock),
    path: &str,
    counts: &mut Counts,
) -> io::Result<()> {
    let text = fs::read_to_string(rt, path)?;
    let start = Instant::now(rt)?;
    let value = read(rt.alloc(), text.as_str());
    let nanos = u64::try_from(start.elapsed(rt)?.as_nanos()).unwrap_or(u64::MAX);
    counts.nanos = counts.nanos.saturating_add(nanos);
    counts.files = counts.files.saturating_add(1);
    if let Ok(Some(_)) = value {
        counts.values = counts.values.saturating_add(1);
    }
    Ok(())
}

/// Reads the files of a folder as YAML, and prints how many there are, how many of them have a
/// value, and how long it took. A fault of a file is answered as it is.
pub fn time_documents(
    rt: &(impl Print + AllocGlobal + Files + Clock + Clone + Drop),
    folder: &str,
) -> io::Result<ExitCode> {
    let mut counts = Counts {
        files: 0,
        values: 0,
        nanos: 0,
    };
    for entry in fs::read_dir(rt, folder)? {
        let entry = entry?;
        if !entry.file_type()?.is_dir() {
            read_one(rt, entry.path().to_string_lossy(), &mut counts)?;
        }
    }
    let Counts {
        files,
        values,
        nanos,
    } = counts;
    let micros = nanos / 1000;
    println!(rt; "{files} files, {values} values, {micros} us")?;
    Ok(ExitCode::SUCCESS)
}
