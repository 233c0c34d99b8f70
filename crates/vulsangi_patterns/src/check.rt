//! What is said of a pattern by itself: groups that aren't there, matches that never come or do
//! nothing, and what costs much.
use crate::costs::{Cause, Costly, behind_in, cause_of, costly_text, reference_in};
use crate::facts::{Facts, facts_of, unknown};
use crate::letters::{Front, front_of};
use crate::places::is_plain;
use std::alloc::{AllocError, Global};
use syntect_regex::below::pattern_compile::compiler::compile;
use syntect_regex::below::pattern_table::program::Program;
use vulsangi_grammar::findings::{Findings, Lines};
use vulsangi_grammar::grammar::{Grammar, Item, inline_of, steps_and};
use vulsangi_grammar::place::{Step, place_of};
use vulsangi_grammar::rules::{COSTLY, DOES_NOTHING, LONG_PATTERN, NEVER_MATCHES, NO_GROUP, Rule};
use vulsangi_grammar::syntect::parsing::syntax_definition::{
    Context, MatchOperation, MatchPattern, Pattern,
};
use vulsangi_grammar::syntect_yaml::value::Yaml;

/// A longer pattern, with its variables put in, is told.
const LONG: usize = 8192;

/// What is known of an item's pattern.
#[derive(Drop)]
pub struct Known {
    pub facts: Facts,
    /// The letters that each match begins with.
    pub front: Front,
}

/// What is known of a pattern of which a part is put in when its context is opened.
fn known_late(alloc: Global) -> Known {
    Known {
        facts: unknown(),
        front: Front {
            text: String::new(alloc),
            is_whole: false,
        },
    }
}

/// The table of a pattern that is searched as it stands.
fn program_of(alloc: Global, pattern: &MatchPattern) -> Result<Option<Program>, AllocError> {
    if pattern.has_captures {
        return Ok(None);
    }
    compile(alloc, pattern.regex.regex_str())
}

/// What is known of a pattern by its table, if it has one.
fn known_by(
    alloc: Global,
    pattern: &MatchPattern,
    program: &Option<Program>,
) -> Result<Known, AllocError> {
    let Some(program) = program else {
        return Ok(known_late(alloc));
    };
    Ok(Known {
        facts: facts_of(alloc, program, is_plain(pattern.regex.regex_str()))?,
        front: front_of(alloc, program)?,
    })
}

/// Whether an item opens or leaves contexts.
pub fn does_something(map: &Yaml) -> bool {
    map.get("push").is_some()
        || map.get("set").is_some()
        || map.get("pop").is_some()
        || map.get("embed").is_some()
}

/// Adds a finding on the pattern of an item.
fn tell(
    alloc: Global,
    rule: Rule,
    lines: &Lines<'_>,
    item: &Item<'_>,
    message: &str,
    findings: &mut Findings,
) -> Result<(), AllocError> {
    let message = String::from_str(alloc, message)?;
    findings.add_key(rule, lines, item.steps.as_slice(), "match", message)
}

/// Adds the groups that a map at a key names and a pattern doesn't have.
fn check_groups(
    alloc: Global,
    lines: &Lines<'_>,
    item: &Item<'_>,
    key: &str,
    pattern: &MatchPattern,
    findings: &mut Findings,
) -> Result<(), AllocError> {
    if pattern.has_captures || pattern.regex.group(0).is_none() {
        return Ok(());
    }
    let Some(captures) = item.map.get(key) else {
        return Ok(());
    };
    for entry in captures.as_map().unwrap_or(&[]) {
        let number = entry.0.as_i64().unwrap_or(-1);
        let is_there = number >= 0 && pattern.regex.group(number as usize) == Some(false);
        if !is_there && number >= 0 {
            let message = format!(in alloc; "no group {number} gives its text")?;
            findings.add_key(NO_GROUP, lines, item.steps.as_slice(), key, message)?;
        }
    }
    Ok(())
}

/// The pattern by which an `embed` is left, which stands in the first context that it opens.
fn escape_of<'y>(grammar: &'y Grammar, pattern: &'y MatchPattern) -> Option<&'y MatchPattern> {
    let MatchOperation::Push(references) = &pattern.operation else {
        return None;
    };
    let (_, context): (&str, &Context) = inline_of(grammar, references.as_slice().first())?;
    match context.patterns.as_slice().first() {
        Some(Pattern::Match(escape)) => Some(escape),
        _ => None,
    }
}

/// Appends what is said of a text that costs.
fn push_costly(
    alloc: Global,
    message: &mut String,
    costly: &Option<Costly>,
) -> Result<(), AllocError> {
    let Some(costly) = costly else {
        return message.push_str("; of the texts that were tried none costs more than its length");
    };
    let (unit, times) = (costly.unit.as_str(), costly.times);
    let (steps, half) = (costly.steps, costly.half);
    let short = times / 2;
    let told = format!(in alloc;
        "; `{unit}` {times} times takes {steps} steps, {short} times {half}"
    )?;
    message.push_str(told.as_str())
}

/// What makes the pattern of an item costly, and the part of its text, if it stands there.
fn cause_in<'t>(
    alloc: Global,
    program: &Program,
    text: &'t str,
) -> Result<(Cause, Option<(usize, &'t str)>), AllocError> {
    let cause = cause_of(program);
    if cause == Cause::Refers {
        return Ok((cause, reference_in(text)));
    }
    match behind_in(alloc, text)? {
        Some(part) => Ok((Cause::LooksBehind, Some(part))),
        None => Ok((cause, None)),
    }
}

/// Adds that searches of an item's pattern aren't linear, with the part and a text.
fn add_costly(
    alloc: Global,
    lines: &Lines<'_>,
    item: &Item<'_>,
    text: &str,
    pattern: &MatchPattern,
    program: &Program,
    findings: &mut Findings,
) -> Result<(), AllocError> {
    let (cause, part) = cause_in(alloc, program, text)?;
    let name = cause.name();
    let mut message = format!(in alloc; "searches of this pattern aren't linear: {name}")?;
    let steps = steps_and(alloc, item.steps.as_slice(), Step::Key("match"))?;
    let mut place = place_of(lines.lines.as_slice(), steps.as_slice());
    if let Some((byte, part)) = part {
        let shown = format!(in alloc; ", `{part}`")?;
        message.push_str(shown.as_str())?;
        place = lines.place_in(place, text, byte);
    }
    let costly = costly_text(alloc, &pattern.regex, program)?;
    push_costly(alloc, &mut message, &costly)?;
    findings.add_at(COSTLY, lines, place, message)
}

/// What is written where nothing is to match.
const MEANT: &str = "(?!)";

/// Adds what is said of what a pattern's matches read.
fn check_facts(
    alloc: Global,
    lines: &Lines<'_>,
    item: &Item<'_>,
    (text, facts): (&str, &Facts),
    findings: &mut Findings,
) -> Result<(), AllocError> {
    if facts.is_dead && text.trim() == MEANT {
        return Ok(());
    }
    if facts.is_dead {
        let message = "nothing matches this pattern";
        tell(alloc, NEVER_MATCHES, lines, item, message, findings)?;
    } else if facts.stays && !does_something(item.map) {
        let message = "the match takes nothing and does nothing";
        tell(alloc, DOES_NOTHING, lines, item, message, findings)?;
    }
    Ok(())
}

/// Adds what is said of the pattern of an item, and answers what is known of it.
pub fn check_item(
    alloc: Global,
    grammar: &Grammar,
    lines: &Lines<'_>,
    item: &Item<'_>,
    pattern: &MatchPattern,
    findings: &mut Findings,
) -> Result<Known, AllocError> {
    let program = program_of(alloc, pattern)?;
    let known = known_by(alloc, pattern, &program)?;
    let text = match item.map.get("match") {
        Some(value) => value.as_str().unwrap_or(""),
        None => "",
    };
    check_facts(alloc, lines, item, (text, &known.facts), findings)?;
    check_groups(alloc, lines, item, "captures", pattern, findings)?;
    if item.map.get("embed").is_some() {
        if let Some(escape) = escape_of(grammar, pattern) {
            check_groups(alloc, lines, item, "escape_captures", escape, findings)?;
        }
    }
    if let Some(program) = &program {
        if !pattern.regex.is_linear(alloc)? {
            add_costly(alloc, lines, item, text, pattern, program, findings)?;
        }
    }
    let size = pattern.regex.regex_str().len();
    if size > LONG {
        let message = format!(in alloc; "with its variables this pattern has {size} bytes")?;
        findings.add_key(LONG_PATTERN, lines, item.steps.as_slice(), "match", message)?;
    }
    Ok(known)
}
