//! What the pattern engine answers.
use crate::below::regexes::regex::{Regex, escape};
use crate::below::regexes::region::Region;
use std::alloc::Global;
use syntect_check_queries::escapes::unescaped;
use syntect_check_queries::queries::answer;

/// How long the line of a long loop is.
const LONG: usize = 100000;

/// Adds whether a pattern matches at the front of a text.
pub fn write_is_match(alloc: Global, question: &str, out: &mut String) -> Option<()> {
    let (pattern, text) = question.split_once('\t')?;
    let regex = Regex::new(alloc, unescaped(alloc, pattern).ok()?).ok()?;
    let text = unescaped(alloc, text).ok()?;
    write!(out, "{}", regex.is_match(alloc, text.as_str()).ok()?).ok()
}

/// Adds whether a group of a pattern stands in a lookaround.
pub fn write_group(alloc: Global, question: &str, out: &mut String) -> Option<()> {
    let (pattern, number) = question.split_once('\t')?;
    let regex = Regex::new(alloc, unescaped(alloc, pattern).ok()?).ok()?;
    match regex.group(number.parse::<usize>().ok()?) {
        Some(true) => out.push_str("in a lookaround").ok(),
        Some(false) => out.push_str("in none").ok(),
        None => out.push_str("no group").ok(),
    }
}

/// Adds the escaped text.
pub fn write_escaped(alloc: Global, question: &str, out: &mut String) -> Option<()> {
    let text = unescaped(alloc, question).ok()?;
    out.push_str(escape(alloc, text.as_str()).ok()?.as_str())
        .ok()
}

/// Adds each query to the pattern engine after its answer.
pub fn write_queries(alloc: Global, body: &str, out: &mut String) -> Option<()> {
    let mut answered = String::new(alloc);
    for line in body.lines() {
        let (_, query) = line.split_once('\t')?;
        answered.clear();
        answer(alloc, query, &mut answered).ok()?;
        writeln!(out, "{}\t{query}", answered.as_str().trim_end()).ok()?;
    }
    Some(())
}

/// The choices of a long loop stand in lists.
pub fn long_loop(alloc: Global) -> Option<bool> {
    let mut line = String::new(alloc);
    for _ in 0..LONG {
        line.push('a').ok()?;
    }
    let line = line.as_str();
    let regex = Regex::new(alloc, String::from_str(alloc, "(a|b)*").ok()?).ok()?;
    let mut region = Region::new(alloc);
    let found = regex.search_into(line, 0, line.len(), &mut region).ok()?;
    Some(found && region.pos(0) == Some((0, LONG)) && region.pos(1) == Some((LONG - 1, LONG)))
}
