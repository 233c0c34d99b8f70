//! Queries to the pattern engine from a file: a line of it has a pattern, a text and the byte
//! position to search from, with tabs between. In pattern and text a backslash, a tab, a line feed
//! and the like are escaped as in Rust.
use crate::escapes::unescaped;
use std::alloc::Global;
use std::process::ExitCode;
use std::rt::{Clock, Files};
use std::time::Instant;
use std::{fs, io};
use syntect_regex::error::PatternError;
use syntect_regex::regex::Regex;
use syntect_regex::region::Region;

/// How many searches are timed at once.
const SEARCHES: u32 = 20;

/// How many groups are printed at most.
const GROUPS: usize = 1000;

/// A pattern, and what it is searched in.
#[derive(Drop)]
struct Query {
    regex: Regex,
    is_pattern: bool,
    text: String,
    begin: usize,
}

/// The query of a line, if it is one.
fn read_query(alloc: Global, line: &str) -> io::Result<Option<Query>> {
    let Some((pattern, rest)) = line.split_once('\t') else {
        return Ok(None);
    };
    let Some((text, begin)) = rest.split_once('\t') else {
        return Ok(None);
    };
    let Ok(begin) = begin.parse::<usize>() else {
        return Ok(None);
    };
    let pattern = unescaped(alloc, pattern)?;
    let is_pattern = Regex::try_compile(alloc, pattern.as_str()).is_none();
    Ok(Some(Query {
        regex: Regex::ready(alloc, pattern)?,
        is_pattern,
        text: unescaped(alloc, text)?,
        begin,
    }))
}

/// Searches, if the position is one of the text.
fn search(query: &Query, region: &mut Region) -> io::Result<bool> {
    let text = query.text.as_str();
    if query.begin > text.len() || !text.is_char_boundary(query.begin) {
        return Ok(false);
    }
    Ok(
        query
            .regex
            .search_into(text, query.begin, text.len(), region)?,
    )
}

/// Adds where the groups stand, up to the last one that is set.
fn describe_groups(out: &mut String, region: &Region) -> io::Result<()> {
    let mut unset = 0u32;
    for group in 0..GROUPS {
        match region.pos(group) {
            None => unset = unset.saturating_add(1),
            Some((start, end)) => {
                for _ in 0..unset {
                    out.push_str("- ")?;
                }
                unset = 0;
                describe_group(out, start, end)?;
            }
        }
    }
    Ok(())
}

/// Adds one group, and a space.
fn describe_group(out: &mut String, start: usize, end: usize) -> io::Result<()> {
    if write!(out, "{start}..{end} ").is_err() {
        return Err(io::Error::from(io::ErrorKind::OutOfMemory));
    }
    Ok(())
}

/// Adds the answer to a query, as a line.
pub fn answer(alloc: Global, line: &str, out: &mut String) -> io::Result<()> {
    let Some(query) = read_query(alloc, line)? else {
        out.push_str("no query\n")?;
        return Ok(());
    };
    let mut region = Region::new(alloc);
    if !query.is_pattern {
        out.push_str("BAD\n")?;
    } else if search(&query, &mut region)? {
        describe_groups(out, &region)?;
        out.push('\n')?;
    } else {
        out.push_str("NONE\n")?;
    }
    Ok(())
}

/// The text of a file. Where it cannot be read, that is said.
pub fn text_of(rt: &(impl Eprint + AllocGlobal + Files), path: &str) -> io::Result<Option<String>> {
    match fs::read_to_string(rt, path) {
        Ok(text) => Ok(Some(text)),
        Err(_) => {
            eprintln!(rt; "syntect_bench: cannot read {path}")?;
            Ok(None)
        }
    }
}

/// The answers to the queries of a text, a line each.
fn answers_of(alloc: Global, text: &str) -> io::Result<String> {
    let mut out = String::new(alloc);
    for line in text.lines() {
        answer(alloc, line, &mut out)?;
    }
    Ok(out)
}

/// Prints the answer to each query of a file: `BAD` for no pattern, `NONE` where nothing is found,
/// or where the groups stand, each with a space after it, `-` for one that is not set.
pub fn answers(
    rt: &(impl Print + Eprint + AllocGlobal + Files),
    path: &str,
) -> io::Result<ExitCode> {
    let Some(text) = text_of(rt, path)? else {
        return Ok(ExitCode::from(1));
    };
    let out = answers_of(rt.alloc(), text.as_str())?;
    print!(rt; "{out}")?;
    Ok(ExitCode::SUCCESS)
}

/// The text of a file in `data`.
fn read_below(rt: &(impl AllocGlobal + Files), name: &str) -> io::Result<String> {
    let path = format!(in rt.alloc(); "data/{name}")?;
    fs::read_to_string(rt, path.as_str())
}

/// The text of a file in the folder, or in `data` below it.
fn read_data(rt: &(impl AllocGlobal + Files), name: &str) -> io::Result<String> {
    match fs::read_to_string(rt, name) {
        Ok(text) => Ok(text),
        Err(_) => read_below(rt, name),
    }
}

/// Whether the query of a line, which comes after its answer, is answered so.
fn is_answered(alloc: Global, line: &str) -> io::Result<bool> {
    let Some((wanted, query)) = line.split_once('\t') else {
        return Ok(false);
    };
    let mut out = String::new(alloc);
    answer(alloc, query, &mut out)?;
    Ok(out.as_str().trim_end() == wanted)
}

/// How many of the queries of a text, each of which comes after its answer, are answered so, and
/// how many otherwise.
fn count_lines(alloc: Global, text: &str) -> io::Result<(u32, u32)> {
    let mut answered = 0u32;
    let mut others = 0u32;
    for line in text.lines() {
        if is_answered(alloc, line)? {
            answered = answered.saturating_add(1);
        } else {
            others = others.saturating_add(1);
        }
    }
    Ok((answered, others))
}

/// How many of the queries of a file, each of which comes after its answer, are answered so, and
/// how many otherwise.
pub fn count_answers(rt: &(impl AllocGlobal + Files), name: &str) -> io::Result<(u32, u32)> {
    count_lines(rt.alloc(), read_data(rt, name)?.as_str())
}

/// How many texts, with a line `%%` between two, are patterns, and how many are none.
pub fn count_texts(alloc: Global, text: &str) -> io::Result<(u32, u32)> {
    let mut patterns = 0u32;
    let mut others = 0u32;
    for pattern in text.split("\n%%\n") {
        match Regex::try_compile(alloc, pattern) {
            None => patterns = patterns.saturating_add(1),
            Some(PatternError::NotAPattern) => others = others.saturating_add(1),
            Some(PatternError::Memory) => {
                return Err(io::Error::from(io::ErrorKind::OutOfMemory));
            }
        }
    }
    Ok((patterns, others))
}

/// How many texts of a file, with a line `%%` between two, are patterns, and how many are none.
pub fn count_patterns(rt: &(impl AllocGlobal + Files), name: &str) -> io::Result<(u32, u32)> {
    count_texts(rt.alloc(), read_data(rt, name)?.as_str())
}

/// The least time of some rounds of searches, in nanoseconds a search.
fn least_time(rt: &(impl AllocGlobal + Clock), query: &Query, rounds: u32) -> io::Result<u64> {
    let mut region = Region::new(rt.alloc());
    let mut least = u64::MAX;
    for _ in 0..rounds {
        let start = Instant::now(rt)?;
        for _ in 0..SEARCHES {
            let _ = search(query, &mut region)?;
        }
        let nanos = start.elapsed(rt)?.as_nanos();
        least = least.min(u64::try_from(nanos).unwrap_or(u64::MAX));
    }
    Ok(least / u64::from(SEARCHES))
}

/// The sum of these times.
fn sum(times: &[u64]) -> u64 {
    let mut all = 0u64;
    for time in times {
        all = all.saturating_add(*time);
    }
    all
}

/// The time of a line's query, if it is one and has a pattern.
fn time_of_line(
    rt: &(impl AllocGlobal + Clock),
    line: &str,
    rounds: u32,
) -> io::Result<Option<u64>> {
    match read_query(rt.alloc(), line)? {
        Some(query) if query.is_pattern => Ok(Some(least_time(rt, &query, rounds)?)),
        _ => Ok(None),
    }
}

/// The times of a text's queries, the least first.
fn times_of(rt: &(impl AllocGlobal + Clock), text: &str, rounds: u32) -> io::Result<Vec<u64>> {
    let mut times = Vec::new(rt.alloc());
    for line in text.lines() {
        if let Some(time) = time_of_line(rt, line, rounds)? {
            times.push(time)?;
        }
    }
    times.sort()?;
    Ok(times)
}

/// Prints the sum of times, of which the least come first, the sum without the slowest hundredth,
/// the median, what 99 of 100 lie below, and the slowest.
fn show_times(rt: &impl Print, times: &[u64]) -> io::Result<()> {
    let most = times.len() - times.len() / 100;
    let all = sum(times);
    let quick = sum(times.split_at(most).0);
    println!(rt; "sum {all} ns, without the slowest hundredth {quick} ns")?;
    for (name, place) in [
        ("median", times.len() / 2),
        ("99 of 100 below", most),
        ("slowest", times.len().saturating_sub(1)),
    ] {
        if let Some(nanos) = times.get(place) {
            println!(rt; "{name} {nanos} ns")?;
        }
    }
    Ok(())
}

/// Prints how long the queries of a file take.
pub fn time_queries(
    rt: &(impl Print + Eprint + AllocGlobal + Files + Clock),
    path: &str,
    rounds: u32,
) -> io::Result<ExitCode> {
    let Some(text) = text_of(rt, path)? else {
        return Ok(ExitCode::from(1));
    };
    let times = times_of(rt, text.as_str(), rounds)?;
    show_times(rt, times.as_slice())?;
    Ok(ExitCode::SUCCESS)
}
