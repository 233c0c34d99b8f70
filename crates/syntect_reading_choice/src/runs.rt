//! The parts of a chain with their patterns, in the form that these are searched in.
ghost use Rattle.std.specs.Prelude.{◌≡◌, ◌≤◌, ◌+◌, ◌*◌, ℕ, length, map, IfErr, IfNone, IfOk, IfSome, OnOk, Some, true, unwrap_or};
ghost use Rattle.std.specs.Option.{option_copied};
ghost use Rattle.std.specs.List.{All, flat_map};
ghost use Rattle.syntect_reading_choice.specs.syntect_grammar_contexts.declared.context.MatchPattern.{MatchPattern as APattern};
ghost use Rattle.syntect_reading_choice.specs.syntect_grammar_lists.Slims.{origin_of};
ghost use Rattle.syntect_reading_choice.specs.syntect_grammar.Flats.{AreFlatsOf, pattern_at};
ghost use Rattle.syntect_reading_choice.specs.syntect_count.Meter.{Advances};
ghost use Rattle.syntect_reading_state.specs.Puts.{least_steps};
ghost use Rattle.syntect_reading_choice.specs.Ahead.{AreReplaced, IsRun, list_in};
ghost use Rattle.syntect_reading_choice.specs.Engine.{dialect};
ghost use Rattle.syntect_reading_choice.specs.Halt.{HaltsAt};
ghost use Rattle.syntect_reading_choice.specs.Parts.{part_members, seen_part};
ghost use Rattle.syntect_reading_choice.specs.Shorter.{AreShorter, HasSame};
ghost use Rattle.syntect_reading_choice.specs.Steps.{ArePutWithin, putting};
ghost use Rattle.syntect_reading_choice.specs.Turn.{searched_text};

use crate::below::count::meter::Meter;
use crate::below::grammar::syntax_definition::ContextId;
use crate::below::grammar_lists::flats::{Flat, Origin};
use crate::below::grammar_lists::list::FlatList;
use crate::chain::Part;
use crate::halt::Halt;
use crate::here::halt_at;
use crate::reader::LineReader;
use crate::search::substituted;
use std::alloc::AllocError;
use syntect_reading_state::substitutes::{LEAST_STEPS, Substitute, Substitutes};

/// A flat list: one that the set keeps, or one of this turn alone.
#[derive(Drop)]
pub enum Kept<'s> {
    Lent(&'s FlatList),
    Own(Box<FlatList>),
}

/// A part of the chain with the patterns that it stands for.
#[derive(Drop)]
pub struct Run<'s, 'p> {
    pub part: Part<'p>,
    pub flats: Kept<'s>,
    /// What is searched in place of each pattern; empty where each is searched as it stands.
    pub replaced: Vec<Option<Substitute>>,
}

/// The list itself.
pub fn list_in<'k>(kept: &'k Kept<'_>) -> &'k FlatList
    ensures { result.now ≡ list_in kept.now }
{
    match kept {
        Kept::Lent(flats) => flats,
        Kept::Own(flats) => &**flats,
    }
}

/// What is searched in place of the pattern that stands at a place, if it uses back references.
fn replacement(
    reader: &LineReader<'_, '_>,
    part: &Part<'_>,
    origin: Origin,
    kept: &mut Substitutes,
    meter: &mut Meter,
) -> Result<Option<Substitute>, Halt>
    ensures text { IfOk result (λ r. (flat : Flat) (m : APattern) → origin_of flat ≡ origin
        → pattern_at reader.now.set.now flat ≡ Some m
        → unwrap_or r m.regex ≡ searched_text dialect m (option_copied part.now.opening)) }
    ensures steps { (flat : Flat) (put : ℕ) → origin_of flat ≡ origin
        → ((m : APattern) → pattern_at reader.now.set.now flat ≡ Some m
        → putting m (option_copied part.now.opening) ≤ put)
        → OnOk result (meter.new.made ≤ meter.old.made + put) }
    ensures least { IfOk result (λ r. IfSome r (λ _.
        meter.old.made + least_steps ≤ meter.new.made)) }
    ensures none { IfOk result (λ r. IfNone r (meter.new.made ≡ meter.old.made)) }
    ensures advances { Advances meter.old meter.new }
    ensures halts { IfErr result (HaltsAt meter.new) }
{
    let Some(pattern) = reader.set.pattern_at(origin) else {
        return Ok(None);
    };
    match substituted(reader.alloc, pattern, part.opening, kept, meter) {
        Ok(replaced) => Ok(replaced),
        Err(stop) => Err(halt_at(stop, origin, reader.position.place)),
    }
}

/// How many patterns of a list were passed over and not paid for, and whether a text was put into
/// one of the list, from when on they are paid for.
#[derive(Drop)]
struct Passed {
    count: usize,
    is_put: bool,
}

/// Pays for the patterns that were passed over, once a text was put into one of the list.
fn pay_for_passed(
    reader: &LineReader<'_, '_>,
    origin: Origin,
    passed: &mut Passed,
    meter: &mut Meter,
) -> Result<(), Halt>
    ensures steps { (put : ℕ) → (passed.old.is_put ≡ true → least_steps ≤ put) → OnOk result
        (meter.new.made + passed.new.count * put ≤ meter.old.made + passed.old.count * put) }
    ensures same { passed.new.is_put ≡ passed.old.is_put }
    ensures advances { Advances meter.old meter.new }
    ensures halts { IfErr result (HaltsAt meter.new) }
{
    if !passed.is_put {
        return Ok(());
    }
    match meter.spend(passed.count.saturating_mul(LEAST_STEPS)) {
        Ok(()) => {}
        Err(stop) => return Err(halt_at(stop, origin, reader.position.place)),
    }
    passed.count = 0;
    Ok(())
}

/// What is searched in place of the pattern, which is paid for,
/// and so are those that were passed over.
fn replacement_paid(
    reader: &LineReader<'_, '_>,
    part: &Part<'_>,
    origin: Origin,
    kept: &mut Substitutes,
    passed: &mut Passed,
    meter: &mut Meter,
) -> Result<Option<Substitute>, Halt>
    ensures text { IfOk result (λ r. (flat : Flat) (m : APattern) → origin_of flat ≡ origin
        → pattern_at reader.now.set.now flat ≡ Some m
        → unwrap_or r m.regex ≡ searched_text dialect m (option_copied part.now.opening)) }
    ensures steps { (flat : Flat) (put : ℕ) → origin_of flat ≡ origin
        → ((m : APattern) → pattern_at reader.now.set.now flat ≡ Some m
        → putting m (option_copied part.now.opening) ≤ put)
        → (passed.old.is_put ≡ true → least_steps ≤ put)
        → OnOk result ((passed.new.is_put ≡ true → least_steps ≤ put)
        × (meter.new.made + passed.new.count * put
        ≤ meter.old.made + (passed.old.count + 1) * put)) }
    ensures advances { Advances meter.old meter.new }
    ensures halts { IfErr result (HaltsAt meter.new) }
{
    let found = replacement(reader, part, origin, kept, meter)?;
    if found.is_some() {
        passed.is_put = true;
    } else {
        passed.count = passed.count.saturating_add(1);
    }
    pay_for_passed(reader, origin, passed, meter)?;
    Ok(found)
}

/// What is searched in place of each pattern of a part; nothing where each is searched as it
/// stands. Where a text is put into one, to pass over each of the others is paid for.
fn replaced_in(
    reader: &LineReader<'_, '_>,
    part: &Part<'_>,
    flats: &FlatList,
    kept: &mut Substitutes,
    meter: &mut Meter,
) -> Result<Vec<Option<Substitute>>, Halt>
    requires { AreFlatsOf reader.now.set.now part.now.id flats.now }
    ensures texts { IfOk result (λ v. AreReplaced reader.now.set.now part.now flats.now v.items) }
    ensures steps { (put : ℕ) → ArePutWithin put (part_members reader.now.set.now part.now)
        → OnOk result (meter.new.made
        ≤ meter.old.made + length (part_members reader.now.set.now part.now) * put) }
    ensures advances { Advances meter.old meter.new }
    ensures halts { IfErr result (HaltsAt meter.new) }
{
    let mut replaced = Vec::new(reader.alloc);
    if part.opening.is_none() || !flats.has_captures() {
        return Ok(replaced);
    }
    let mut passed = Passed {
        count: 0,
        is_put: false,
    };
    for index in 0..flats.len() {
        let origin = flats.origin_at(index);
        let found = replacement_paid(reader, part, origin, kept, &mut passed, meter)?;
        match replaced.push(found) {
            Ok(()) => {}
            Err(_) => return Err(Halt::Memory),
        }
    }
    Ok(replaced)
}

/// The flat list of a context: the one that the set keeps, or else one of its own.
fn flats_of<'s>(reader: &LineReader<'s, '_>, id: ContextId) -> Result<Kept<'s>, AllocError>
    ensures { IfOk result (λ kept. AreFlatsOf reader.now.set.now id (list_in kept)) }
{
    if let Some(flats) = reader.set.flats_of(id) {
        return Ok(Kept::Lent(flats));
    }
    let walked = reader.set.flats_walked(reader.alloc, id)?;
    Ok(Kept::Own(Box::new(reader.alloc, walked)?))
}

/// How many of the first parts a later one is compared with.
const COMPARED: usize = 16;

/// Whether the parts have the same patterns, each of which is searched as it stands.
fn is_repeated(a: &Part<'_>, b: &Part<'_>) -> bool
    ensures { result ≡ true → seen_part a.now ≡ seen_part b.now }
{
    a.id == b.id
        && a.from_with_prototype == b.from_with_prototype
        && a.opening.is_none()
        && b.opening.is_none()
}

/// Whether one of the first runs has the same patterns as the part: then no match of the part is
/// ever picked.
fn has_repeat(runs: &[Run<'_, '_>], part: &Part<'_>) -> bool
    ensures { result ≡ true → HasSame (map (λ r. r.part) runs.now) part.now }
{
    for place in 0..runs.len().min(COMPARED) {
        if is_repeated(&runs[place].part, part) {
            return true;
        }
    }
    false
}

/// A part with its patterns.
fn run_of<'s, 'p>(
    reader: &LineReader<'s, '_>,
    part: &Part<'p>,
    kept: &mut Substitutes,
    meter: &mut Meter,
) -> Result<Run<'s, 'p>, Halt>
    ensures part { IfOk result (λ r. r.part ≡ part.now) }
    ensures run { IfOk result (IsRun reader.now.set.now) }
    ensures steps { (put : ℕ) → ArePutWithin put (part_members reader.now.set.now part.now)
        → OnOk result (meter.new.made
        ≤ meter.old.made + length (part_members reader.now.set.now part.now) * put) }
    ensures advances { Advances meter.old meter.new }
    ensures halts { IfErr result (HaltsAt meter.new) }
{
    let flats = flats_of(reader, part.id)?;
    let replaced = replaced_in(reader, part, list_in(&flats), kept, meter)?;
    Ok(Run {
        part: *part,
        flats,
        replaced,
    })
}

/// The parts of a chain with their patterns, but for those that have the patterns of an earlier
/// one. To put the texts of groups into some is paid for.
pub fn runs_of<'s, 'p>(
    reader: &LineReader<'s, '_>,
    parts: &[Part<'p>],
    kept: &mut Substitutes,
    meter: &mut Meter,
) -> Result<Vec<Run<'s, 'p>>, Halt>
    ensures parts { IfOk result (λ v. AreShorter reader.now.set.now
        (map (λ r. r.part) v.items) parts.now) }
    ensures runs { IfOk result (λ v. All (IsRun reader.now.set.now) v.items) }
    ensures steps { (put : ℕ)
        → ArePutWithin put (flat_map (part_members reader.now.set.now) parts.now)
        → OnOk result (meter.new.made ≤ meter.old.made
        + length (flat_map (part_members reader.now.set.now) parts.now) * put) }
    ensures advances { Advances meter.old meter.new }
    ensures halts { IfErr result (HaltsAt meter.new) }
{
    let mut runs = Vec::with_capacity(reader.alloc, parts.len())?;
    for part in parts {
        if has_repeat(runs.as_slice(), part) {
            continue;
        }
        let run = run_of(reader, part, kept, meter)?;
        match runs.push(run) {
            Ok(()) => {}
            Err(_) => return Err(Halt::Memory),
        }
    }
    Ok(runs)
}

/// Keeps what was searched in place of patterns for later turns.
pub fn keep_replaced(runs: Vec<Run<'_, '_>>, kept: &mut Substitutes) {
    for run in runs {
        for replaced in run.replaced {
            if let Some(substitute) = replaced {
                kept.put(substitute);
            }
        }
    }
}
