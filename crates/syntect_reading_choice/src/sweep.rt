//! What a turn finds: it goes place by place, and tries at each the patterns that can begin there,
//! in the order of the chain.
ghost use Rattle.std.specs.Prelude.{◌≡◌, ◌⊎◌, ◌≤◌, ◌<◌, ◌+◌, ◌*◌, Bool, List, ℕ, length, IfErr, IfOk, OnOk, Some, None, true, false, slice_index_or, unwrap_or};
ghost use Rattle.std.specs.Option.{option_copied};
ghost use Rattle.std.specs.List.{All, flat_map};
ghost use Rattle.syntect_reading_choice.specs.syntect_pattern.Matches.{anchor_holds, is_word_edge};
ghost use Rattle.syntect_reading_choice.specs.syntect_pattern.declared.anchor.Anchor.TheVariants.{LineStart};
ghost use Rattle.syntect_reading_choice.specs.syntect_pattern_table.Starts.{is_in, start_at};
ghost use Rattle.syntect_reading_choice.specs.syntect_pattern.Text.{is_boundary};
ghost use Rattle.syntect_reading_choice.specs.syntect_pattern_word_ends.Ends.{IsRunUpTo};
ghost use Rattle.syntect_reading_choice.specs.declared.runs.Run.{Run as ARun};
ghost use Rattle.syntect_reading_choice.specs.Ahead.{AddsAll, AddsAt, AddsMember, AddsRun, AllAhead, AreAhead, AreAheadFrom, BeginIn, IsAhead, IsBestAt, IsRuledOut, IsRun, Reaches, Sees, list_in, run_members};
ghost use Rattle.syntect_reading_choice.specs.Best.{choice_by};
ghost use Rattle.syntect_reading_choice.specs.ChoiceViews.{member_of};
ghost use Rattle.syntect_reading_choice.specs.Engine.{dialect};
ghost use Rattle.syntect_reading_choice.specs.syntect_count.Meter.{Advances};
ghost use Rattle.syntect_reading_choice.specs.Halt.{HaltsAt};
ghost use Rattle.syntect_reading_state.specs.Losses.{LosesAtMost, LosesInPart, marks_of};
ghost use Rattle.syntect_reading_state.specs.Memory.{Remembers, origin_pattern};
ghost use Rattle.syntect_reading_choice.specs.Parts.{part_members};
ghost use Rattle.syntect_reading_choice.specs.Reader.{AreGroupsBy, matches_of};
ghost use Rattle.syntect_reading_choice.specs.Steps.{ArePutWithin, AreWithin, IsWithin, place_steps, turn_steps, turn_work};
ghost use Rattle.syntect_reading_choice.specs.Turn.{Live, searched_text, winner};

use crate::below::grammar_lists::flats::{Flat, Origin, Outlook};
use crate::below::pattern::anchor::Anchor;
use crate::below::pattern_steps::anchor::anchor_holds;
use crate::below::pattern_steps::text::is_boundary;
use crate::below::pattern_table::starts::{Places, either, is_in, nowhere, start_at};
use crate::below::pattern_word_ends::ends::{is_blank_byte, is_word_byte, run_end};
use crate::below::regexes::regex::Regex;
use crate::chain::Part;
use crate::halt::Halt;
use crate::here::is_here;
use crate::laws::dialect_finds_in_text;
use crate::reader::LineReader;
use crate::runs::{Run, keep_replaced, list_in, runs_of};
use crate::search::{Best, Candidate, Entry, OwnRegex, Regions, counts, led_by};
use std::alloc::{AllocError, Global};
use syntect_reading_state::losses::Losses;

/// After so many places that a turn looked at it looks farther ahead for the end of a run.
const PLACES: usize = 32;

/// How many bytes farther each time.
const FAR: usize = 8192;

/// Whether no word begins or ends at the place.
fn is_off_edges(line: &str, place: usize) -> bool
    ensures { result ≡ true → is_word_edge line.now place ≡ false }
{
    is_boundary(line, place) && !anchor_holds(line, place, Anchor::WordEdge)
}

/// Whether no line begins at the place.
fn is_off_lines(line: &str, place: usize) -> bool
    ensures { result ≡ true → anchor_holds line.now LineStart place ≡ false }
{
    place > 0 && is_boundary(line, place) && !anchor_holds(line, place, Anchor::LineStart)
}

/// Up to where white space, or else a word goes on, and what comes after it.
#[derive(Clone, Copy)]
pub struct Reach {
    pub blank: bool,
    pub end: usize,
    pub behind: u8,
}

/// Up to where the characters from a place on are white space, or a word's. Not all of a run that
/// goes beyond `far` is looked at.
fn run_as_far(line: &str, place: usize, blank: bool, far: usize) -> usize
    requires { place ≤ length line.now }
    ensures { IsRunUpTo blank line.now place result }
{
    let mut end = run_end(line, place, blank);
    'runs: while end < far {
        let next = run_end(line, end, blank);
        if next == end {
            return end;
        }
        end = next;
    }
    end
}

/// How far from a place the end of a run is looked for by a turn that looked at so many places: the
/// more, the farther, so that all that looking takes no longer than trying patterns
/// at those places did.
fn far_from(place: usize, tried: usize) -> usize {
    place.saturating_add((tried / PLACES).saturating_mul(FAR))
}

/// How far what stands at the place goes on, white space, or else a word: as it is known, or else
/// is looked for now.
fn reach_at(line: &str, place: usize, here: u8, known: Reach, tried: usize) -> Reach
    requires within { place ≤ length line.now }
    requires known { Reaches line.now place known }
    ensures run { IsRunUpTo result.blank line.now place result.end }
    ensures behind { result.behind ≡ start_at line.now result.end }
    ensures bound { result.behind < 130 }
{
    if place < known.end {
        return known;
    }
    let blank = is_blank_byte(here);
    let end = run_as_far(line, place, blank, far_from(place, tried));
    Reach {
        blank,
        end,
        behind: start_at(line, end),
    }
}

/// What is seen of a place; with `asks` what comes after the white space or the word there too.
/// That is looked for where it isn't known from an earlier place.
/// The turn looked at `tried` places before.
fn outlook_of(line: &str, place: usize, asks: bool, reach: &mut Reach, tried: usize) -> Outlook
    requires within { place ≤ length line.now }
    requires reach { Reaches line.now place reach.old }
    ensures reach { Reaches line.now place reach.new }
    ensures here { result.here < 130 }
    ensures behind { result.behind < 130 }
    ensures sees { Sees result line.now place }
{
    let here = start_at(line, place);
    let off_edges = (here >= 128 || is_word_byte(here)) && is_off_edges(line, place);
    let off_lines = is_off_lines(line, place);
    if !asks {
        return Outlook {
            here,
            blank: false,
            behind: here,
            off_edges,
            off_lines,
        };
    }
    let seen = reach_at(line, place, here, *reach, tried);
    *reach = seen;
    Outlook {
        here,
        blank: seen.blank,
        behind: seen.behind,
        off_edges,
        off_lines,
    }
}

/// An index of a part, not below this one: no pattern from this one up to it can begin at a place
/// of which this is seen. Of patterns that may be replaced a list tells nothing, so that none of
/// them is passed over. Once a match is found, none is looked for.
fn next_in(run: &Run<'_, '_>, outlook: Outlook, is_found: bool, from: usize) -> usize
    requires here { outlook.here < 130 }
    requires behind { outlook.behind < 130 }
    ensures later { from ≤ result }
    ensures passed { (line : List ℕ) (place : ℕ) → Sees outlook line place
        → (k : ℕ) (d : Flat) → from ≤ k → k < result → k < length (list_in run.now.flats)
        → IsRuledOut line place (slice_index_or (list_in run.now.flats) k d) }
{
    if is_found {
        return from;
    }
    list_in(&run.flats).next(outlook, from)
}

/// What can stand at a place where a match of a pattern of the parts begins.
fn begins_of(runs: &[Run<'_, '_>]) -> Places
    ensures { BeginIn result runs.now }
{
    let mut begins = nowhere();
    for run in runs {
        begins = either(begins, list_in(&run.flats).any());
    }
    begins
}

/// Whether one of these stands at the place, where a character begins: within one no match does.
#[inline]
fn may_begin(line: &str, begins: Places, place: usize) -> bool
    ensures { result ≡ false → (is_in begins (start_at line.now place) ≡ false)
        ⊎ (is_boundary line.now place ≡ false) }
{
    is_in(begins, start_at(line, place)) && is_boundary(line, place)
}

/// The first place, from this one on, with one of these, where a character begins; the line's end
/// at the latest. None that was ahead has a match before it.
fn next_place(reader: &LineReader<'_, '_>, begins: Places, place: usize) -> usize
    requires { place ≤ length reader.now.line.now }
    ensures later { place ≤ result }
    ensures within { result ≤ length reader.now.line.now }
    ensures ahead { (losses : List (List Bool)) (runs : List ARun) → BeginIn begins runs
        → All (IsRun reader.now.set.now) runs
        → AllAhead reader.now losses place runs → AllAhead reader.now losses result runs }
{
    dialect_finds_in_text();
    let mut next = place;
    while next < reader.line.len() && !may_begin(reader.line, begins, next) {
        next += 1;
    }
    next
}

/// A copy of what stands in a pattern's place.
fn copy_of(alloc: Global, replaced: Option<&Regex>) -> Result<Option<OwnRegex>, AllocError>
    ensures { IfOk result (λ r. r ≡ option_copied replaced.entry) }
{
    match replaced {
        Some(regex) => Ok(Some(OwnRegex::new(alloc, regex.clone(alloc)?)?)),
        None => Ok(None),
    }
}

/// What is searched in place of the pattern at an index.
fn replaced_at<'r>(run: &'r Run<'_, '_>, index: usize) -> Option<&'r Regex>
    ensures { option_copied result ≡ slice_index_or run.now.replaced.items index None }
{
    Some(run.replaced.get(index)?.as_ref()?.regex())
}

/// What is found with a member of the chain more, none of whose matches begins before the place.
/// `lost`: one there doesn't count.
fn with_entry<'s>(
    reader: &LineReader<'_, '_>,
    entry: &Entry<'s, '_>,
    replaced: Option<&Regex>,
    origin: Origin,
    place: usize,
    best: Best<'s>,
    lost: &mut bool,
    regions: &mut Regions,
) -> Result<Best<'s>, Halt>
    requires known { Remembers reader.now.set.now reader.now.line.now regions.old.memory }
    requires origin { origin_pattern reader.now.set.now origin ≡ Some entry.now.pattern.now }
    requires order { reader.now.position.now.place ≤ place }
    requires text { unwrap_or (option_copied replaced) entry.now.pattern.now.regex
        ≡ searched_text dialect entry.now.pattern.now (option_copied entry.now.opening) }
    requires lost { lost.old ≡ false }
    ensures groups { IsAhead reader.now false place (member_of entry.now)
        → IfOk result (λ b.
        AreGroupsBy reader.now best.entry.candidate regions.old.best
        → AreGroupsBy reader.now b.candidate regions.new.best) }
    ensures grows { IfOk result (λ b. b.is_match ≡ false → best.entry.is_match ≡ false) }
    ensures best { (ms : List Live) → IsAhead reader.now false place (member_of entry.now)
        → best.entry.candidate ≡ None → IsBestAt reader.now place ms best.entry
        → IfOk result (AddsMember reader.now place lost.new (member_of entry.now) ms) }
    ensures known { OnOk result
        (Remembers reader.now.set.now reader.now.line.now regions.new.memory) }
    ensures steps { (w : ℕ) → IsWithin (length reader.now.line.now) w (member_of entry.now)
        → OnOk result (regions.new.steps.made ≤ regions.old.steps.made + w) }
    ensures advances { Advances regions.old.steps regions.new.steps }
    ensures halts { IfErr result (HaltsAt regions.new.steps) }
{
    dialect_finds_in_text();
    if !is_here(reader, entry, replaced, origin, place, regions)? {
        return Ok(best);
    }
    let Some((start, end)) = regions.searched.pos(0) else {
        *lost = true;
        return Ok(best);
    };
    let height = reader.position.levels.len();
    if !counts(height, &entry.pattern.operation, start, end) {
        *lost = true;
        return Ok(best);
    }
    let substituted = copy_of(reader.alloc, replaced)?;
    regions.keep();
    Ok(led_by(
        reader,
        Candidate {
            pattern: entry.pattern,
            substituted,
            from_with_prototype: entry.from_with_prototype,
            start,
            end,
        },
    ))
}

/// What is found with the pattern of a part at an index more. One that is out for
/// this turn isn't tried.
fn with_pattern<'s>(
    reader: &LineReader<'s, '_>,
    run: &Run<'s, '_>,
    part: usize,
    index: usize,
    place: usize,
    best: Best<'s>,
    losses: &mut Losses,
    regions: &mut Regions,
) -> Result<Best<'s>, Halt>
    requires known { Remembers reader.now.set.now reader.now.line.now regions.old.memory }
    requires order { reader.now.position.now.place ≤ place }
    requires run { IsRun reader.now.set.now run.now }
    requires inside { index < length (list_in run.now.flats) }
    ensures losses { OnOk result (LosesAtMost part index losses.old losses.new) }
    ensures groups { AreAheadFrom reader.now (marks_of losses.old part) place run.now index
        → IfOk result (λ b.
        AreGroupsBy reader.now best.entry.candidate regions.old.best
        → AreGroupsBy reader.now b.candidate regions.new.best) }
    ensures grows { IfOk result (λ b. b.is_match ≡ false → best.entry.is_match ≡ false) }
    ensures best { (ms : List Live)
        → AreAheadFrom reader.now (marks_of losses.old part) place run.now index
        → best.entry.candidate ≡ None → IsBestAt reader.now place ms best.entry
        → IfOk result (AddsAt reader.now place (marks_of losses.new part) run.now index ms) }
    ensures known { OnOk result
        (Remembers reader.now.set.now reader.now.line.now regions.new.memory) }
    ensures steps { (w : ℕ) → AreWithin (length reader.now.line.now) w
        (run_members reader.now.set.now run.now)
        → OnOk result (regions.new.steps.made ≤ regions.old.steps.made + w) }
    ensures advances { Advances regions.old.steps regions.new.steps }
    ensures halts { IfErr result (HaltsAt regions.new.steps) }
{
    if losses.has(part, index) {
        return Ok(best);
    }
    let origin = list_in(&run.flats).origin_at(index);
    let Some(pattern) = reader.set.pattern_at(origin) else {
        return Ok(best);
    };
    let entry = Entry {
        pattern,
        opening: run.part.opening,
        from_with_prototype: run.part.from_with_prototype,
    };
    let replaced = replaced_at(run, index);
    let mut lost = false;
    let best = with_entry(
        reader, &entry, replaced, origin, place, best, &mut lost, regions,
    )?;
    if lost {
        losses.add(part, index)?;
    }
    Ok(best)
}

/// What is found with a part's patterns more, none of whose matches that count begins before the
/// place, of which this is seen.
fn with_run<'s>(
    reader: &LineReader<'s, '_>,
    run: &Run<'s, '_>,
    part: usize,
    place: usize,
    outlook: Outlook,
    best: Best<'s>,
    losses: &mut Losses,
    regions: &mut Regions,
) -> Result<Best<'s>, Halt>
    requires known { Remembers reader.now.set.now reader.now.line.now regions.old.memory }
    requires order { reader.now.position.now.place ≤ place }
    requires here { outlook.here < 130 }
    requires behind { outlook.behind < 130 }
    requires sees { Sees outlook reader.now.line.now place }
    requires run { IsRun reader.now.set.now run.now }
    ensures losses { OnOk result (LosesInPart part losses.old losses.new) }
    ensures groups { AreAhead reader.now (marks_of losses.old part) place run.now
        → IfOk result (λ b.
        AreGroupsBy reader.now best.entry.candidate regions.old.best
        → AreGroupsBy reader.now b.candidate regions.new.best) }
    ensures grows { IfOk result (λ b. b.is_match ≡ false → best.entry.is_match ≡ false) }
    ensures best { (ms : List Live)
        → AreAhead reader.now (marks_of losses.old part) place run.now
        → IsBestAt reader.now place ms best.entry
        → IfOk result (AddsRun reader.now place (marks_of losses.new part) run.now ms) }
    ensures known { OnOk result
        (Remembers reader.now.set.now reader.now.line.now regions.new.memory) }
    ensures steps { (w : ℕ) → AreWithin (length reader.now.line.now) w
        (run_members reader.now.set.now run.now)
        → OnOk result (regions.new.steps.made ≤ regions.old.steps.made
        + place_steps (length (run_members reader.now.set.now run.now)) w) }
    ensures advances { Advances regions.old.steps regions.new.steps }
    ensures halts { IfErr result (HaltsAt regions.new.steps) }
{
    dialect_finds_in_text();
    let count = list_in(&run.flats).len();
    let mut best = best;
    let mut index = next_in(run, outlook, best.candidate.is_some(), 0);
    while index < count && best.candidate.is_none() {
        best = with_pattern(reader, run, part, index, place, best, losses, regions)?;
        index = next_in(run, outlook, best.candidate.is_some(), index + 1);
    }
    Ok(best)
}

/// What a chain has at a place, where none of its matches that count begins before.
fn best_at<'s>(
    reader: &LineReader<'s, '_>,
    runs: &[Run<'s, '_>],
    place: usize,
    outlook: Outlook,
    losses: &mut Losses,
    regions: &mut Regions,
) -> Result<Best<'s>, Halt>
    requires known { Remembers reader.now.set.now reader.now.line.now regions.old.memory }
    requires order { reader.now.position.now.place ≤ place }
    requires here { outlook.here < 130 }
    requires behind { outlook.behind < 130 }
    requires sees { Sees outlook reader.now.line.now place }
    requires runs { All (IsRun reader.now.set.now) runs.now }
    ensures groups { AllAhead reader.now losses.old place runs.now → IfOk result (λ b.
        AreGroupsBy reader.now b.candidate regions.new.best) }
    ensures best { AllAhead reader.now losses.old place runs.now
        → IfOk result (AddsAll reader.now place losses.new runs.now) }
    ensures known { OnOk result
        (Remembers reader.now.set.now reader.now.line.now regions.new.memory) }
    ensures steps { (w : ℕ) → AreWithin (length reader.now.line.now) w
        (flat_map (run_members reader.now.set.now) runs.now)
        → OnOk result (regions.new.steps.made ≤ regions.old.steps.made
        + place_steps (length (flat_map (run_members reader.now.set.now) runs.now)) w) }
    ensures advances { Advances regions.old.steps regions.new.steps }
    ensures halts { IfErr result (HaltsAt regions.new.steps) }
{
    let mut best = Best {
        start: place + 1,
        is_match: false,
        candidate: None,
    };
    for (part, run) in runs.iter().enumerate() {
        best = with_run(reader, run, part, place, outlook, best, losses, regions)?;
    }
    Ok(best)
}

/// What the runs of a chain have: places are gone through from the turn's own on, up to the first
/// where a match that counts begins.
fn best_of_runs<'s>(
    reader: &LineReader<'s, '_>,
    runs: &[Run<'s, '_>],
    regions: &mut Regions,
) -> Result<Best<'s>, Halt>
    requires runs { All (IsRun reader.now.set.now) runs.now }
    requires known { Remembers reader.now.set.now reader.now.line.now regions.old.memory }
    ensures groups { IfOk result (λ b. AreGroupsBy reader.now b.candidate regions.new.best) }
    ensures best { IfOk result (λ b. choice_by reader.now.line.now reader.now.position.now.place b
        ≡ winner reader.now.line.now reader.now.position.now
        (matches_of reader.now (flat_map (run_members reader.now.set.now) runs.now))) }
    ensures known { OnOk result
        (Remembers reader.now.set.now reader.now.line.now regions.new.memory) }
    ensures steps { (w : ℕ) → AreWithin (length reader.now.line.now) w
        (flat_map (run_members reader.now.set.now) runs.now)
        → OnOk result (regions.new.steps.made ≤ regions.old.steps.made
        + turn_steps (length (flat_map (run_members reader.now.set.now) runs.now)) w
        (length reader.now.line.now)) }
    ensures advances { Advances regions.old.steps regions.new.steps }
    ensures halts { IfErr result (HaltsAt regions.new.steps) }
{
    dialect_finds_in_text();
    let begins = begins_of(runs);
    let asks = runs.iter().any(|run| list_in(&run.flats).asks());
    let mut reach = Reach {
        blank: false,
        end: 0,
        behind: 0,
    };
    let mut losses = Losses::new(reader.alloc);
    let mut place = reader.position.place;
    let mut tried = 0;
    'places: loop {
        let next = next_place(reader, begins, place);
        let outlook = outlook_of(reader.line, next, asks, &mut reach, tried);
        let found = best_at(reader, runs, next, outlook, &mut losses, regions)?;
        if found.is_match {
            return Ok(found);
        }
        if next >= reader.line.len() {
            return Ok(found);
        }
        place = next + 1;
        tried = tried.saturating_add(1);
    }
}

/// What a chain has. What is searched in its patterns' places is paid for, and kept for later
/// turns. Steps of linear patterns are within a bound.
pub fn best_of_chain<'s>(
    reader: &LineReader<'s, '_>,
    parts: &[Part<'_>],
    regions: &mut Regions,
) -> Result<Best<'s>, Halt>
    requires known { Remembers reader.now.set.now reader.now.line.now regions.old.memory }
    ensures groups { IfOk result (λ b. AreGroupsBy reader.now b.candidate regions.new.best) }
    ensures best { IfOk result (λ b. choice_by reader.now.line.now reader.now.position.now.place b
        ≡ winner reader.now.line.now reader.now.position.now
        (matches_of reader.now (flat_map (part_members reader.now.set.now) parts.now))) }
    ensures known { OnOk result
        (Remembers reader.now.set.now reader.now.line.now regions.new.memory) }
    ensures steps { (w put : ℕ) → AreWithin (length reader.now.line.now) w
        (flat_map (part_members reader.now.set.now) parts.now)
        → ArePutWithin put (flat_map (part_members reader.now.set.now) parts.now)
        → OnOk result (regions.new.steps.made ≤ regions.old.steps.made
        + turn_work (length (flat_map (part_members reader.now.set.now) parts.now)) w put
        (length reader.now.line.now)) }
    ensures advances { Advances regions.old.steps regions.new.steps }
    ensures halts { IfErr result (HaltsAt regions.new.steps) }
{
    let runs = runs_of(reader, parts, &mut regions.substitutes, &mut regions.steps)?;
    let found = best_of_runs(reader, runs.as_slice(), regions)?;
    keep_replaced(runs, &mut regions.substitutes);
    Ok(found)
}
