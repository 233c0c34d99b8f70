//! Whether a pattern matches at a place of the line, by what is known of it there.
ghost use Rattle.std.specs.Prelude.{◌≡◌, ◌≤◌, ◌+◌, length, IfErr, IfOk, OnOk, Some, true, unwrap_or};
ghost use Rattle.std.specs.Option.{option_copied};
ghost use Rattle.syntect_reading_choice.specs.syntect_regex.Bounds.{pattern_is_linear, search_bound};
ghost use Rattle.syntect_reading_choice.specs.syntect_regex.Region.{TriesAt};
ghost use Rattle.syntect_reading_choice.specs.syntect_count.Meter.{Advances, Reading, StopsAt};
ghost use Rattle.syntect_reading_choice.specs.Halt.{HaltsAt};
ghost use Rattle.syntect_reading_state.specs.Memory.{Remembers, origin_pattern};

use crate::below::count::stop::Stop;
use crate::below::grammar_lists::flats::Origin;
use crate::below::regexes::regex::Regex;
use crate::halt::Halt;
use crate::reader::LineReader;
use crate::search::{Entry, Regions};

/// The turn halts as a search stops, or as a text is put in, for the pattern that stands there and
/// at the place.
pub fn halt_at(stop: Stop, pattern: Origin, place: usize) -> Halt
    ensures { (r : Reading) → StopsAt r stop → HaltsAt r result }
{
    match stop {
        Stop::Memory => Halt::Memory,
        Stop::Spent => Halt::Spent { pattern, place },
    }
}

/// Whether a match of what is searched in a pattern's place begins here. What is known of it is
/// asked first, and kept in mind.
fn is_replaced_here(
    reader: &LineReader<'_, '_>,
    regex: &Regex,
    origin: Origin,
    place: usize,
    regions: &mut Regions,
) -> Result<bool, Halt>
    requires known { Remembers reader.now.set.now reader.now.line.now regions.old.memory }
    ensures tries { IfOk result (λ b. TriesAt regex.now reader.now.line.now place
        regions.old.searched b regions.new.searched) }
    ensures best { regions.new.best ≡ regions.old.best }
    ensures known { OnOk result
        (Remembers reader.now.set.now reader.now.line.now regions.new.memory) }
    ensures steps { pattern_is_linear regex.now ≡ true
        → OnOk result (regions.new.steps.made ≤ regions.old.steps.made
        + search_bound regex.now (length reader.now.line.now)) }
    ensures advances { Advances regions.old.steps regions.new.steps }
    ensures halts { IfErr result (HaltsAt regions.new.steps) }
{
    let known = regions.memory.hints.recall(regex.regex_str());
    let mut prospect = known;
    let is_here = match regex.match_at_known(
        reader.line,
        place,
        &mut prospect,
        &mut regions.memory.depths,
        &mut regions.searched,
        &mut regions.steps,
    ) {
        Ok(found) => found,
        Err(stop) => return Err(halt_at(stop, origin, place)),
    };
    if prospect.differs(&known) {
        regions.memory.hints.keep(regex.regex_str(), prospect);
    }
    Ok(is_here)
}

/// Whether a match of what is searched for an entry begins at the place. What is known of it is
/// asked first, and kept in mind.
pub fn is_here(
    reader: &LineReader<'_, '_>,
    entry: &Entry<'_, '_>,
    replaced: Option<&Regex>,
    origin: Origin,
    place: usize,
    regions: &mut Regions,
) -> Result<bool, Halt>
    requires known { Remembers reader.now.set.now reader.now.line.now regions.old.memory }
    requires origin { origin_pattern reader.now.set.now origin ≡ Some entry.now.pattern.now }
    ensures tries { IfOk result (λ b.
        TriesAt (unwrap_or (option_copied replaced.entry) entry.now.pattern.now.regex)
        reader.now.line.now place regions.old.searched b regions.new.searched) }
    ensures best { regions.new.best ≡ regions.old.best }
    ensures known { OnOk result
        (Remembers reader.now.set.now reader.now.line.now regions.new.memory) }
    ensures steps { pattern_is_linear
        (unwrap_or (option_copied replaced.entry) entry.now.pattern.now.regex) ≡ true
        → OnOk result (regions.new.steps.made ≤ regions.old.steps.made
        + search_bound (unwrap_or (option_copied replaced.entry) entry.now.pattern.now.regex)
        (length reader.now.line.now)) }
    ensures advances { Advances regions.old.steps regions.new.steps }
    ensures halts { IfErr result (HaltsAt regions.new.steps) }
{
    if let Some(regex) = replaced {
        return is_replaced_here(reader, regex, origin, place, regions);
    }
    let known = regions.memory.memos.recall(origin);
    let mut prospect = known;
    let begins = match entry.pattern.regex.match_at_known(
        reader.line,
        place,
        &mut prospect,
        &mut regions.memory.depths,
        &mut regions.searched,
        &mut regions.steps,
    ) {
        Ok(found) => found,
        Err(stop) => return Err(halt_at(stop, origin, place)),
    };
    if prospect.differs(&known) {
        regions.memory.memos.keep(origin, prospect);
    }
    Ok(begins)
}
