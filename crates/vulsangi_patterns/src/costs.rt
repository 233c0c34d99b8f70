//! What makes searches of a pattern costly: the part of it, and a text.
use std::alloc::{AllocError, Global};
use syntect_regex::below::count::meter::Meter;
use syntect_regex::below::count::stop::Stop;
use syntect_regex::below::pattern_table::node::Node;
use syntect_regex::below::pattern_table::program::Program;
use syntect_regex::below::pattern_table::starts::{places_of_char, places_of_letter};
use syntect_regex::regex::Regex;
use syntect_regex::region::Region;
use vulsangi_grammar::scan::first_group;

/// What makes searches of a pattern not linear.
#[derive(Clone, Copy, Debug, PartialEq, Eq)]
pub enum Cause {
    Refers,
    LooksBehind,
    LooksAhead,
    IsLarge,
}

impl Cause {
    /// What is said of it.
    pub fn name(self) -> &'static str {
        match self {
            Cause::Refers => "it refers back to a group",
            Cause::LooksBehind => "a lookbehind looks for more than can be searched at once",
            Cause::LooksAhead => "a lookahead in a loop sets groups",
            Cause::IsLarge => "it is too large with its counted loops written out",
        }
    }
}

/// What a pattern that isn't linear owes that to, but for lookbehinds.
pub fn cause_of(program: &Program) -> Cause {
    let mut cause = Cause::IsLarge;
    for node in program.nodes.as_slice() {
        match node {
            Node::Same { .. } => return Cause::Refers,
            Node::Ahead { .. } => cause = Cause::LooksAhead,
            _ => {}
        }
    }
    cause
}

/// What lookbehinds begin with.
const BEHIND: &[&str] = &["(?<=", "(?<!"];

/// The first lookbehind of a text which makes it costly, by the byte where it begins.
pub fn behind_in(alloc: Global, text: &str) -> Result<Option<(usize, &str)>, AllocError> {
    for (place, _) in text.char_indices() {
        let rest = text.get(place..).unwrap_or("");
        if !BEHIND.iter().any(|front| rest.starts_with(*front)) {
            continue;
        }
        let group = first_group(rest);
        let pattern = Regex::new(alloc, String::from_str(alloc, group)?)?;
        if !pattern.is_linear(alloc)? {
            return Ok(Some((place, group)));
        }
    }
    Ok(None)
}

/// The first reference back to a group in a text, by the byte where it begins.
pub fn reference_in(text: &str) -> Option<(usize, &str)> {
    let mut is_escaped = false;
    for (place, c) in text.char_indices() {
        if is_escaped && (('1'..='9').contains(&c) || c == 'k') {
            let from = place.saturating_sub(1);
            let rest = text.get(from..).unwrap_or("");
            let to = match rest.split_once('>') {
                Some((name, _)) if c == 'k' => name.len().saturating_add(1),
                _ => 2,
            };
            return Some((from, rest.get(..to).unwrap_or("")));
        }
        is_escaped = !is_escaped && c == '\\';
    }
    None
}

/// So many times a text is repeated at first.
const SHORT: usize = 32;

/// No more steps are made of a try.
const MOST_STEPS: usize = 40_000;

/// A text that costs.
#[derive(Drop)]
pub struct Costly {
    /// What is repeated.
    pub unit: String,
    /// How many times, and how many steps are made then.
    pub times: usize,
    pub steps: usize,
    /// How many steps are made of half as many.
    pub half: usize,
}

/// How many steps the search of a text takes.
fn steps_in(alloc: Global, pattern: &Regex, text: &str) -> Result<usize, AllocError> {
    let mut meter = Meter::within(MOST_STEPS);
    let mut region = Region::new(alloc);
    match pattern.search_by_meter(text, 0, text.len(), &mut region, &mut meter) {
        Ok(_) | Err(Stop::Spent) => {}
        Err(Stop::Memory) => return Err(AllocError),
    }
    Ok(MOST_STEPS.saturating_sub(meter.left().unwrap_or(0)))
}

/// How many steps the search of a text takes that is so many times the same.
fn steps_of(alloc: Global, pattern: &Regex, unit: &str, times: usize) -> Result<usize, AllocError> {
    let mut text = String::new(alloc);
    for _ in 0..times {
        text.push_str(unit)?;
    }
    steps_in(alloc, pattern, text.as_str())
}

/// So many characters are tried.
const MOST_UNITS: usize = 8;

/// Adds the first visible character of some, if it isn't there yet.
fn add_unit(ascii: u128, units: &mut Vec<char>) -> Result<(), AllocError> {
    for number in 32..127u8 {
        if (ascii >> number) & 1 == 1 {
            let c = number as char;
            if !units.as_slice().contains(&c) && units.len() < MOST_UNITS {
                units.push(c)?;
            }
            return Ok(());
        }
    }
    Ok(())
}

/// Characters that a pattern reads.
fn units_of(alloc: Global, program: &Program) -> Result<Vec<char>, AllocError> {
    let mut units = Vec::new(alloc);
    for node in program.nodes.as_slice().iter().rev() {
        match node {
            Node::Char(c) => add_unit(places_of_char(*c).ascii, &mut units)?,
            Node::Class(class) => add_unit(class.ascii(), &mut units)?,
            Node::Text { letters, .. } => {
                let places = places_of_letter(letters.fold, letters.first);
                add_unit(places.ascii, &mut units)?;
            }
            _ => {}
        }
    }
    Ok(units)
}

/// Tries a text, and keeps it if it costs more than the one before.
fn try_text(
    alloc: Global,
    pattern: &Regex,
    unit: &str,
    best: Option<Costly>,
) -> Result<Option<Costly>, AllocError> {
    let half = steps_of(alloc, pattern, unit, SHORT)?;
    let times = SHORT.saturating_mul(2);
    let steps = steps_of(alloc, pattern, unit, times)?;
    let before = match &best {
        Some(costly) => costly.steps,
        None => 0,
    };
    let is_costly = steps > half.saturating_mul(3) || half >= MOST_STEPS;
    if !is_costly || steps <= before {
        return Ok(best);
    }
    Ok(Some(Costly {
        unit: String::from_str(alloc, unit)?,
        times,
        steps,
        half,
    }))
}

/// The text that costs most, of those that are tried: a character of the pattern again and again,
/// and two of them in turn. None, if none of them costs more than its length.
pub fn costly_text(
    alloc: Global,
    pattern: &Regex,
    program: &Program,
) -> Result<Option<Costly>, AllocError> {
    let units = units_of(alloc, program)?;
    let mut best = None;
    for first in units.as_slice() {
        best = try_with(alloc, pattern, *first, units.as_slice(), best)?;
    }
    Ok(best)
}

/// The same of one character, and of it in turn with each other one.
fn try_with(
    alloc: Global,
    pattern: &Regex,
    first: char,
    units: &[char],
    best: Option<Costly>,
) -> Result<Option<Costly>, AllocError> {
    let mut best = best;
    for unit in units {
        let mut text = String::new(alloc);
        text.push(first)?;
        if *unit != first {
            text.push(*unit)?;
        }
        best = try_text(alloc, pattern, text.as_str(), best)?;
    }
    Ok(best)
}
