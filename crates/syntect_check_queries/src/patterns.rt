//! How long the patterns of a file take to be compiled.
use crate::queries::text_of;
use std::alloc::Global;
use std::io;
use std::process::ExitCode;
use std::rt::{Clock, Files};
use std::time::Instant;
use syntect_regex::regex::Regex;

/// How many of the texts are patterns.
fn count_patterns(alloc: Global, texts: &[&str]) -> u32 {
    let mut patterns = 0u32;
    for text in texts {
        if Regex::try_compile(alloc, text).is_none() {
            patterns = patterns.saturating_add(1);
        }
    }
    patterns
}

/// How many of the texts, with a line `%%` between two, are patterns, and the least time of some
/// rounds, in microseconds.
fn least_time(rt: &(impl AllocGlobal + Clock), text: &str, rounds: u32) -> io::Result<(u32, u64)> {
    let texts: Vec<&str> = text.split("\n%%\n").collect(rt.alloc())?;
    let mut least = u64::MAX;
    let mut patterns = 0u32;
    for _ in 0..rounds {
        let start = Instant::now(rt)?;
        patterns = count_patterns(rt.alloc(), texts.as_slice());
        let micros = start.elapsed(rt)?.as_micros();
        least = least.min(u64::try_from(micros).unwrap_or(u64::MAX));
    }
    Ok((patterns, least))
}

/// Prints how long the patterns of a file, with a line `%%` between two, take to be compiled, by
/// the least of some rounds, and how much that is of the time that another engine takes for them,
/// which is given in microseconds.
pub fn time_patterns(
    rt: &(impl Print + Eprint + AllocGlobal + Files + Clock),
    path: &str,
    rounds: u32,
    other: u64,
) -> io::Result<ExitCode> {
    let Some(text) = text_of(rt, path)? else {
        return Ok(ExitCode::from(1));
    };
    let (patterns, least) = least_time(rt, text.as_str(), rounds)?;
    let percent = least.saturating_mul(100).checked_div(other).unwrap_or(0);
    println!(rt; "{patterns} patterns: {least} us, {percent} % of {other} us (aimed at: 10 %)")?;
    Ok(ExitCode::SUCCESS)
}
