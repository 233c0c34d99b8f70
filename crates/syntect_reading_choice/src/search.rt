//! Which match a turn takes.
ghost use Rattle.std.specs.Prelude.{◌≡◌, ◌+◌, ◌≤◌, IfErr, IfNone, IfOk, IfSome, OnOk, unwrap_or, if◌then◌else◌, true, false, Some, None};
ghost use Rattle.std.specs.Option.{option_copied};
ghost use Rattle.syntect_reading_choice.specs.Engine.{dialect};
ghost use Rattle.syntect_reading_choice.specs.Turn.{searched_text, loops, counts, turns_back, char_len};
ghost use Rattle.syntect_reading_choice.specs.Best.{choice_by};
ghost use Rattle.syntect_reading_choice.specs.ChoiceViews.{SkipsTo, text_of, choice_view};
ghost use Rattle.syntect_reading_choice.specs.Reader.{seen_by};
ghost use Rattle.syntect_reading_choice.specs.Steps.{putting};
ghost use Rattle.syntect_reading_choice.specs.syntect_count.Meter.{Advances, StopsAt};
ghost use Rattle.syntect_reading_state.specs.Puts.{least_steps};

use crate::below::count::meter::Meter;
use crate::below::count::stop::Stop;
use crate::below::grammar::syntax_definition::{MatchOperation, MatchPattern};
use crate::below::pattern_steps::text::char_at;
use crate::below::regexes::regex::Regex;
use crate::below::regexes::region::Region;
use crate::position::{MOST_IDLE, MOST_LEVELS, Position};
use crate::reader::LineReader;
use std::alloc::{AllocError, Global};
use std::marker::Model;
use std::mem;
use syntect_reading_state::memory::Memory;
use syntect_reading_state::opening::Opening;
use syntect_reading_state::substitutes::{Substitute, Substitutes};

/// Where searches put the groups of their matches, those of the best match so far, the meter of
/// their steps, what is known of the patterns in the line that is read, and patterns with the texts
/// of groups put in.
#[derive(Drop)]
pub struct Regions {
    pub searched: Region,
    pub best: Region,
    pub steps: Meter,
    pub memory: Memory,
    pub substitutes: Substitutes,
}

impl Regions {
    /// Two without groups, no step, and nothing known. Takes no memory.
    pub fn new(alloc: Global) -> Regions
        ensures made { result.steps.made ≡ 0 }
        ensures left { result.steps.left ≡ None }
    {
        Regions {
            searched: Region::new(alloc),
            best: Region::new(alloc),
            steps: Meter::unlimited(),
            memory: Memory::new(alloc),
            substitutes: Substitutes::new(alloc),
        }
    }

    /// Keeps the groups that were found last as those of the best match.
    pub fn keep(&mut self)
        ensures best { self.new.best ≡ self.old.searched }
        ensures steps { self.new.steps ≡ self.old.steps }
        ensures memory { self.new.memory ≡ self.old.memory }
    {
        mem::swap(&mut self.searched, &mut self.best);
    }
}

/// A pattern of the chain, with the opening match that it is searched with, and whether it is from
/// a `with_prototype`.
#[derive(Clone, Copy)]
pub struct Entry<'s, 'p> {
    pub pattern: &'s MatchPattern,
    pub opening: Option<&'p Opening>,
    pub from_with_prototype: bool,
}

/// A pattern in a place of its own, so that what holds it is small and quickly moved.
/// Seen as the pattern.
#[derive(Drop)]
pub struct OwnRegex {
    regex: Box<Regex>,
}

impl Model for OwnRegex {
    ghost use Rattle.std.specs.Prelude.{List, ℕ};

    ghost Value = { List ℕ };

    ghost view = { λ own. own.regex.value };
}

impl OwnRegex {
    /// The pattern, put into a place of its own.
    pub fn new(alloc: Global, regex: Regex) -> Result<OwnRegex, AllocError>
        ensures { IfOk result (λ own. own ≡ regex) }
    {
        Ok(OwnRegex {
            regex: Box::new(alloc, regex)?,
        })
    }

    /// The pattern.
    pub fn regex(&self) -> &Regex
        ensures { result.now ≡ self.now }
    {
        &self.regex
    }
}

/// A match of a pattern of the chain.
#[derive(Drop)]
pub struct Candidate<'s> {
    pub pattern: &'s MatchPattern,
    /// What was searched in its place, if back references were replaced.
    pub substituted: Option<OwnRegex>,
    pub from_with_prototype: bool,
    pub start: usize,
    pub end: usize,
}

/// What a turn has found in a part of the chain.
#[derive(Drop)]
pub struct Best<'s> {
    /// No match that was looked for begins before it.
    pub start: usize,
    /// Whether one begins there.
    pub is_match: bool,
    /// The first of those that doesn't go round in circles.
    pub candidate: Option<Candidate<'s>>,
}

impl<'s> Best<'s> {
    /// Nothing is found, and nothing is looked for.
    pub fn none() -> Best<'s>
        ensures is_match { result.is_match ≡ false }
        ensures candidate { result.candidate ≡ None }
    {
        Best {
            start: 0,
            is_match: false,
            candidate: None,
        }
    }
}

/// What a turn does: take a match, pass over a character, or end the line.
#[derive(Clone, Copy)]
pub enum Choice<'m, 's> {
    Take(&'m Candidate<'s>),
    /// Up to this place.
    Skip(usize),
    End,
}

impl<'s> Candidate<'s> {
    /// The pattern that was searched.
    pub fn regex(&self) -> &Regex
        ensures { result.now ≡ text_of self.now }
    {
        match &self.substituted {
            Some(own) => own.regex(),
            None => &self.pattern.regex,
        }
    }
}

/// Whether a match counts at this height.
pub fn counts(height: usize, operation: &MatchOperation, start: usize, end: usize) -> bool
    ensures { result ≡ counts height operation.now start end }
{
    match operation {
        MatchOperation::Push(_) => height < MOST_LEVELS,
        MatchOperation::Set(_) => true,
        MatchOperation::Pop => true,
        MatchOperation::None => start != end,
    }
}

/// What is searched in place of the pattern where it uses back references and has an opening match,
/// which is paid for.
pub fn substituted(
    alloc: Global,
    pattern: &MatchPattern,
    opening: Option<&Opening>,
    kept: &mut Substitutes,
    meter: &mut Meter,
) -> Result<Option<Substitute>, Stop>
    ensures text { IfOk result (λ r. unwrap_or r pattern.now.regex
        ≡ searched_text dialect pattern.now (option_copied opening.entry)) }
    ensures steps { OnOk result (meter.new.made
        ≤ meter.old.made + putting pattern.now (option_copied opening.entry)) }
    ensures least { IfOk result (λ r. IfSome r (λ _.
        meter.old.made + least_steps ≤ meter.new.made)) }
    ensures none { IfOk result (λ r. IfNone r (meter.new.made ≡ meter.old.made)) }
    ensures advances { Advances meter.old meter.new }
    ensures stops { IfErr result (StopsAt meter.new) }
{
    let Some(opening) = opening else {
        return Ok(None);
    };
    if !pattern.has_captures {
        return Ok(None);
    }
    match kept.take_or_make(alloc, pattern, opening, meter) {
        Ok(substitute) => Ok(Some(substitute)),
        Err(stop) => Err(stop),
    }
}

/// Whether an operation at the place itself would go round in circles.
fn turns_back(p: &Position, operation: &MatchOperation) -> bool
    ensures { result ≡ turns_back p.now operation.now }
{
    match operation {
        MatchOperation::Push(_) => p.idle == MOST_IDLE,
        MatchOperation::Set(_) => p.idle == MOST_IDLE,
        MatchOperation::Pop => match p.last {
            None => false,
            Some(r) => r.place == p.place && r.height == p.levels.len(),
        },
        MatchOperation::None => false,
    }
}

/// Whether a match would.
fn loops(reader: &LineReader<'_, '_>, m: &Candidate<'_>) -> bool
    ensures { result ≡ loops reader.now.position.now (seen_by reader.now m.now) }
{
    m.end == reader.position.place && turns_back(reader.position, &m.pattern.operation)
}

/// What is found once this match is: it begins first.
pub fn led_by<'s>(reader: &LineReader<'_, '_>, m: Candidate<'s>) -> Best<'s>
    ensures start { result.start ≡ m.entry.start }
    ensures is_match { result.is_match ≡ true }
    ensures candidate { result.candidate ≡ (if loops reader.now.position.now
        (seen_by reader.now m.entry) then None else Some m.entry) }
{
    let start = m.start;
    let candidate = if loops(reader, &m) { None } else { Some(m) };
    Best {
        start,
        is_match: true,
        candidate,
    }
}

/// The place after the character that the reader stands before, or past the end by one.
fn past_character(reader: &LineReader<'_, '_>) -> usize
    ensures { result ≡ reader.now.position.now.place
        + char_len reader.now.line.now reader.now.position.now.place }
{
    let place = reader.position.place;
    match char_at(reader.line, place) {
        Some(c) => place + c.len_utf8(),
        None => place + 1,
    }
}

/// What a turn does: it takes the first match of least start that doesn't loop, or passes over a
/// character, or ends.
pub fn choose<'m, 's>(reader: &LineReader<'_, '_>, best: &'m Best<'s>) -> Choice<'m, 's>
    ensures chosen { choice_view reader.now.line.now reader.now.position.now.place result
        ≡ choice_by reader.now.line.now reader.now.position.now.place best.now }
    ensures skips { SkipsTo (reader.now.position.now.place
        + char_len reader.now.line.now reader.now.position.now.place) result }
{
    if let Some(m) = &best.candidate {
        return Choice::Take(m);
    }
    let next = past_character(reader);
    if best.is_match && next < reader.line.len() {
        Choice::Skip(next)
    } else {
        Choice::End
    }
}
