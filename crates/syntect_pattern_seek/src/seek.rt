//! Searches whose steps are bounded: one that backs up too often goes on by the pattern's plan,
//! which doesn't back up at all. From the text's end on it is worked out which cells of the plan
//! lead to the end of a match, which tells of each place whether one begins there.
ghost use Rattle.std.specs.Prelude.{◌≡◌, ◌≤◌, ◌<◌, ◌+◌, ◌*◌, IfErr, IfNone, IfOk, IfSome, OnOk, None, Some, false, true, length, min};
ghost use Rattle.syntect_pattern_seek.specs.syntect_count.Meter.{Advances, StopsAt};
ghost use Rattle.syntect_pattern_compile.specs.Compiled.{IsCompiled};
ghost use Rattle.syntect_pattern_seek.specs.syntect_pattern_plan.Linear.{is_linear, most_cells};
ghost use Rattle.syntect_pattern_seek.specs.syntect_pattern_plan.Order.{in_64_bits};
ghost use Rattle.syntect_pattern_seek.specs.syntect_pattern_plan.Passes.{passes};
ghost use Rattle.syntect_pattern_seek.specs.syntect_pattern_plan.Plan.{plan_cells};
ghost use Rattle.syntect_pattern_seek.specs.syntect_pattern_table.declared.program.Program.{Program as AProgram};
ghost use Rattle.syntect_pattern_backtrack.specs.Machine.{FindsAt, FindsGroups, groups_of};
ghost use Rattle.syntect_pattern_linear.specs.Finds as linear;
ghost use Rattle.syntect_pattern_linear.specs.Guide.{IsGuideIn};
ghost use Rattle.syntect_pattern_linear.specs.Steps.{step_weight};
ghost use Rattle.syntect_pattern_seek.specs.Bounds.{IsWithinBound, IsWithinPlan, IsWithinTry, root_tree};
ghost use Rattle.syntect_pattern_seek.specs.Depths.{AreDepthsIn, StandsFor};
ghost use Rattle.syntect_pattern_seek.specs.Prospect.{IsProspectOf};

use crate::depths::{Depth, Depths};
use crate::prospect::Prospect;
use crate::syntect_count::count::GhostCount;
use crate::syntect_count::meter::Meter;
use crate::syntect_count::stop::Stop;
use crate::syntect_pattern_plan::passes::passes_of;
use crate::syntect_pattern_plan::plan::{MOST_CELLS, Plan};
use crate::syntect_pattern_plan::spelt::spelt;
use crate::syntect_pattern_table::program::Program;
use std::alloc::Global;
use syntect_pattern_backtrack::state::Search;
use syntect_pattern_linear::find::Guide;

/// In how many steps a search may back up for each byte of the text, and in how many more in all.
const STEPS_A_BYTE: usize = 64;

const STEPS: usize = 16384;

/// In how many steps the tries of a pattern at place after place of a text may back up for each
/// byte of it. Marking a place takes about as long as some steps, where the same stood at another
/// place.
const TRIED_A_BYTE: usize = 8;

const TRIED: usize = 2048;

/// In how many it may for each byte of the pattern, as a plan takes long to make, but in no more
/// than the text has bytes.
const STEPS_A_PLAN: usize = 16;

/// In how many steps a search of the text may back up for a pattern of so many bytes.
#[inline]
fn steps_in(size: usize, text: &str) -> usize
    ensures { result
        ≤ length text.now * 64 + min size most_cells * min (length text.now) 16 + 16384 }
{
    let bytes = text.len().saturating_mul(STEPS_A_BYTE);
    let plan = size
        .min(MOST_CELLS)
        .saturating_mul(text.len().min(STEPS_A_PLAN));
    bytes.saturating_add(plan).saturating_add(STEPS)
}

/// In how many steps tries at place after place of the text may back up for a pattern
/// of so many bytes.
#[inline]
fn tried_steps_in(size: usize, text: &str) -> usize
    ensures { result
        ≤ length text.now * 8 + min size most_cells * min (length text.now) 16 + 2048 }
{
    let bytes = text.len().saturating_mul(TRIED_A_BYTE);
    let plan = size
        .min(MOST_CELLS)
        .saturating_mul(text.len().min(STEPS_A_PLAN));
    bytes.saturating_add(plan).saturating_add(TRIED)
}

/// As how many steps so many passes over the text for lookbehinds count: a step for each four bytes
/// of each.
fn pass_steps(passes: usize, text: &str) -> usize
    ensures bound { result ≤ passes * (length text.now + 1) }
    ensures counted { passes ≤ result }
{
    passes.saturating_mul(text.len() / 4 + 1)
}

/// The program's plan in the text, if the program is linear. It costs a step for each of its cells,
/// and those of the passes over the text for lookbehinds, which are paid for before they are made.
fn guide_of(
    alloc: Global,
    program: &Program,
    text: &str,
    meter: &mut Meter,
) -> Result<Option<Guide>, Stop>
    ensures guides { IfOk result (λ made. IfSome made (λ g. IsGuideIn text.now g)) }
    ensures program { IfOk result (λ made. IfSome made (λ g. StandsFor program.now g.program)) }
    ensures root { IfOk result (λ made. IfSome made (λ g.
        root_tree g.program ≡ root_tree program.now)) }
    ensures cells { IfOk result (λ made. IfSome made (λ g.
        length g.plan.cells ≡ plan_cells (root_tree program.now))) }
    ensures hard { IfOk result (λ made. IfNone made (is_linear (root_tree program.now) ≡ false)) }
    ensures steps { OnOk result (meter.new.made
        ≤ meter.old.made + plan_cells (root_tree program.now)
        + passes (root_tree program.now) * (length text.now + 1)) }
    ensures counted { IfOk result (λ made. IfSome made (λ g. meter.old.made + length g.plan.cells
        + in_64_bits (passes (root_tree program.now)) ≤ meter.new.made)) }
    ensures advances { Advances meter.old meter.new }
    ensures stops { IfErr result (StopsAt meter.new) }
{
    let spelt = spelt(alloc, program)?;
    let Some(plan) = Plan::new(alloc, &spelt, &mut GhostCount::none())? else {
        return Ok(None);
    };
    meter.spend(plan.cells.len())?;
    let passes = passes_of(alloc, &spelt)?;
    meter.spend(pass_steps(passes, text))?;
    Ok(Some(Guide::new(alloc, spelt, plan, text)?))
}

/// Whether the program matches at the place or at a later one, of which the least counts. Where it
/// does, the search's groups are the match's. The pattern's text has so many bytes as `size` says.
#[inline]
pub fn find(
    search: &mut Search,
    program: &Program,
    size: usize,
    text: &str,
    begin: usize,
    meter: &mut Meter,
) -> Result<bool, Stop>
    ensures finds { IfOk result (λ found.
        FindsGroups text.now program.now begin (groups_of found search.new)) }
    ensures steps { OnOk result (IsWithinBound program.now size (length text.now)
        meter.old.made meter.new.made) }
    ensures advances { Advances meter.old meter.new }
    ensures stops { IfErr result (StopsAt meter.new) }
    ensures counted { IfOk result (λ found. found ≡ true → meter.old.made < meter.new.made) }
{
    match find_within(search, program, text, begin, steps_in(size, text), meter)? {
        Some(found) => Ok(found),
        None => find_planned(search, program, text, begin, meter),
    }
}

/// Whether the program matches at a place from `begin` on, by backing up in at most so many steps.
/// None where they don't suffice.
#[inline]
fn find_within(
    search: &mut Search,
    program: &Program,
    text: &str,
    begin: usize,
    steps: usize,
    meter: &mut Meter,
) -> Result<Option<bool>, Stop>
    ensures finds { IfOk result (λ told. IfSome told (λ found.
        FindsGroups text.now program.now begin (groups_of found search.new))) }
    ensures steps { meter.new.made ≤ meter.old.made + steps }
    ensures advances { Advances meter.old meter.new }
    ensures stops { IfErr result (StopsAt meter.new) }
    ensures spent { IfOk result (λ told. told ≡ None
        → meter.old.left ≡ Some steps → meter.new.left ≡ Some 0) }
    ensures counted { IfOk result (λ told. told ≡ Some true → meter.old.made < meter.new.made) }
{
    let allowed = meter.allowed(steps);
    search.left = allowed;
    let mut count = meter.count().copy();
    let told = search.find(program, text, begin, true, &mut count)?;
    meter.follow(&count, allowed - search.left);
    if told.is_none() && allowed < steps {
        return Err(Stop::Spent);
    }
    Ok(told)
}

/// Whether the program matches at a place from `begin` on, by backing up to the end.
fn find_backing_up(
    search: &mut Search,
    program: &Program,
    text: &str,
    begin: usize,
    meter: &mut Meter,
) -> Result<bool, Stop>
    ensures finds { IfOk result (λ found.
        FindsGroups text.now program.now begin (groups_of found search.new)) }
    ensures advances { Advances meter.old meter.new }
    ensures stops { IfErr result (StopsAt meter.new) }
    ensures counted { IfOk result (λ found. found ≡ true → meter.old.made < meter.new.made) }
{
    let Some(left) = meter.left() else {
        let mut count = GhostCount::none();
        let told = search.find(program, text, begin, false, &mut count)?;
        meter.add(&count);
        return Ok(told.unwrap_or(false));
    };
    match find_within(search, program, text, begin, left, meter)? {
        Some(found) => Ok(found),
        None => Err(Stop::Spent),
    }
}

/// Whether the program matches at a place from `begin` on,
/// where backing up in limited steps didn't tell.
#[inline(never)]
fn find_planned(
    search: &mut Search,
    program: &Program,
    text: &str,
    begin: usize,
    meter: &mut Meter,
) -> Result<bool, Stop>
    ensures finds { IfOk result (λ found.
        FindsGroups text.now program.now begin (groups_of found search.new)) }
    ensures steps { OnOk result (IsWithinPlan program.now (length text.now)
        meter.old.made meter.new.made) }
    ensures advances { Advances meter.old meter.new }
    ensures stops { IfErr result (StopsAt meter.new) }
    ensures counted { IfOk result (λ found. found ≡ true → meter.old.made < meter.new.made) }
{
    if begin > text.len() {
        return Ok(false);
    }
    let alloc = *search.frames.allocator();
    let Some(guide) = guide_of(alloc, program, text, meter)? else {
        return find_backing_up(search, program, text, begin, meter);
    };
    find_marked(search, guide, text, begin, text.len(), meter)
}

/// Whether the program matches at a place from `begin` on, by the marks of these places.
fn find_marked(
    search: &mut Search,
    guide: Guide,
    text: &str,
    begin: usize,
    last: usize,
    meter: &mut Meter,
) -> Result<bool, Stop>
    requires order { begin ≤ last }
    requires guides { IsGuideIn text.now guide }
    ensures finds { IfOk result (λ found. linear.FindsUpTo text.now guide.program begin last
        (linear.groups_of found search.new.groups.items)) }
    ensures steps { OnOk result (meter.new.made ≤ meter.old.made
        + step_weight (length guide.plan.cells) (root_tree guide.program) * (length text.now + 1)) }
    ensures advances { Advances meter.old meter.new }
    ensures stops { IfErr result (StopsAt meter.new) }
    ensures counted { IfOk result (λ found. found ≡ true → meter.old.made < meter.new.made) }
{
    if begin > text.len() {
        return Ok(false);
    }
    let mut guide = guide;
    guide.mark(text, begin, meter)?;
    guide.find_up_to(text, begin, last, &mut search.groups, meter)
}

/// Whether a match begins at this place alone of a text in which the pattern is tried at place
/// after place, by what is known of it there, of which more is known after. The program is the
/// pattern's. Its tries share so many steps: after that its plan tells of this place and all later
/// ones whether a match begins there.
#[inline]
pub fn begins_known(
    search: &mut Search,
    program: &Program,
    pattern: &str,
    text: &str,
    place: usize,
    known: &mut Prospect,
    depths: &mut Depths,
    meter: &mut Meter,
) -> Result<bool, Stop>
    requires program { IsCompiled pattern.now program.now }
    requires depths { AreDepthsIn text.now depths.old }
    ensures finds { IfOk result (λ found.
        FindsAt text.now program.now place (groups_of found search.new)) }
    ensures known { IsProspectOf pattern.now text.now known.old
        → IsProspectOf pattern.now text.now known.new }
    ensures depths { OnOk result (AreDepthsIn text.now depths.new) }
    ensures steps { OnOk result (IsWithinTry program.now (length pattern.now) (length text.now)
        meter.old.made meter.new.made) }
    ensures advances { Advances meter.old meter.new }
    ensures stops { IfErr result (StopsAt meter.new) }
    ensures counted { IfOk result (λ found. found ≡ true → meter.old.made < meter.new.made) }
{
    if known.is_settled() {
        return begins_settled(search, program, pattern, text, place, known, depths, meter);
    }
    begins_tried(search, program, pattern, text, place, known, depths, meter)
}

/// Whether a match begins at the place, by the marks. Where these were dropped, since others came,
/// tries have all steps again before they are made anew.
fn begins_settled(
    search: &mut Search,
    program: &Program,
    pattern: &str,
    text: &str,
    place: usize,
    known: &mut Prospect,
    depths: &mut Depths,
    meter: &mut Meter,
) -> Result<bool, Stop>
    requires program { IsCompiled pattern.now program.now }
    requires depths { AreDepthsIn text.now depths.old }
    ensures finds { IfOk result (λ found.
        FindsAt text.now program.now place (groups_of found search.new)) }
    ensures known { IsProspectOf pattern.now text.now known.old
        → IsProspectOf pattern.now text.now known.new }
    ensures depths { OnOk result (AreDepthsIn text.now depths.new) }
    ensures steps { OnOk result (IsWithinTry program.now (length pattern.now) (length text.now)
        meter.old.made meter.new.made) }
    ensures advances { Advances meter.old meter.new }
    ensures stops { IfErr result (StopsAt meter.new) }
    ensures counted { IfOk result (λ found. found ≡ true → meter.old.made < meter.new.made) }
{
    if let Some(found) = depths.begins_at(pattern, text, place, &mut search.groups, meter)? {
        return Ok(found);
    }
    known.renew();
    begins_tried(search, program, pattern, text, place, known, depths, meter)
}

/// Whether a match begins at the place, by backing up first.
#[inline]
fn begins_tried(
    search: &mut Search,
    program: &Program,
    pattern: &str,
    text: &str,
    place: usize,
    known: &mut Prospect,
    depths: &mut Depths,
    meter: &mut Meter,
) -> Result<bool, Stop>
    requires program { IsCompiled pattern.now program.now }
    requires depths { AreDepthsIn text.now depths.old }
    ensures finds { IfOk result (λ found.
        FindsAt text.now program.now place (groups_of found search.new)) }
    ensures known { IsProspectOf pattern.now text.now known.old
        → IsProspectOf pattern.now text.now known.new }
    ensures depths { OnOk result (AreDepthsIn text.now depths.new) }
    ensures steps { OnOk result (IsWithinTry program.now (length pattern.now) (length text.now)
        meter.old.made meter.new.made) }
    ensures advances { Advances meter.old meter.new }
    ensures stops { IfErr result (StopsAt meter.new) }
    ensures counted { IfOk result (λ found. found ≡ true → meter.old.made < meter.new.made) }
{
    let all = tried_steps_in(pattern.len(), text);
    let granted = known.allowed(all);
    let allowed = meter.allowed(granted);
    match begins_within(search, program, text, place, granted, meter)? {
        Some(found) => {
            // A character of a stretch, which is gone through back and forth,
            // counts as a step more here
            let steps = allowed.saturating_sub(search.left);
            known.spend(all, steps.saturating_add(search.read));
            Ok(found)
        }
        None => {
            known.spend(all, granted);
            begins_after(search, program, pattern, text, place, known, depths, meter)
        }
    }
}

/// Whether a match begins at the place, by backing up in at most so many steps. None where they
/// don't suffice.
#[inline]
fn begins_within(
    search: &mut Search,
    program: &Program,
    text: &str,
    place: usize,
    steps: usize,
    meter: &mut Meter,
) -> Result<Option<bool>, Stop>
    ensures finds { IfOk result (λ told. IfSome told (λ found.
        FindsAt text.now program.now place (groups_of found search.new))) }
    ensures steps { meter.new.made ≤ meter.old.made + steps }
    ensures advances { Advances meter.old meter.new }
    ensures stops { IfErr result (StopsAt meter.new) }
    ensures spent { IfOk result (λ told. told ≡ None
        → meter.old.left ≡ Some steps → meter.new.left ≡ Some 0) }
    ensures counted { IfOk result (λ told. told ≡ Some true → meter.old.made < meter.new.made) }
{
    let allowed = meter.allowed(steps);
    search.left = allowed;
    search.read = 0;
    let mut count = meter.count().copy();
    let told = search.begins_at(program, text, place, true, &mut count)?;
    meter.follow(&count, allowed - search.left);
    if told.is_none() && allowed < steps {
        return Err(Stop::Spent);
    }
    Ok(told)
}

/// Whether a match begins at the place, where backing up in limited steps didn't tell.
#[inline(never)]
fn begins_after(
    search: &mut Search,
    program: &Program,
    pattern: &str,
    text: &str,
    place: usize,
    known: &mut Prospect,
    depths: &mut Depths,
    meter: &mut Meter,
) -> Result<bool, Stop>
    requires program { IsCompiled pattern.now program.now }
    requires depths { AreDepthsIn text.now depths.old }
    ensures finds { IfOk result (λ found.
        FindsAt text.now program.now place (groups_of found search.new)) }
    ensures known { IsProspectOf pattern.now text.now known.old
        → IsProspectOf pattern.now text.now known.new }
    ensures depths { OnOk result (AreDepthsIn text.now depths.new) }
    ensures steps { OnOk result (IsWithinPlan program.now (length text.now)
        meter.old.made meter.new.made) }
    ensures advances { Advances meter.old meter.new }
    ensures stops { IfErr result (StopsAt meter.new) }
    ensures counted { IfOk result (λ found. found ≡ true → meter.old.made < meter.new.made) }
{
    if let Some(found) = depths.begins_at(pattern, text, place, &mut search.groups, meter)? {
        known.settle();
        return Ok(found);
    }
    begins_planned(search, program, pattern, text, place, known, depths, meter)
}

/// Whether a match begins at the place, where no marks of the pattern are kept, by new ones if it
/// is linear.
fn begins_planned(
    search: &mut Search,
    program: &Program,
    pattern: &str,
    text: &str,
    place: usize,
    known: &mut Prospect,
    depths: &mut Depths,
    meter: &mut Meter,
) -> Result<bool, Stop>
    requires program { IsCompiled pattern.now program.now }
    requires depths { AreDepthsIn text.now depths.old }
    ensures finds { IfOk result (λ found.
        FindsAt text.now program.now place (groups_of found search.new)) }
    ensures known { IsProspectOf pattern.now text.now known.old
        → IsProspectOf pattern.now text.now known.new }
    ensures depths { OnOk result (AreDepthsIn text.now depths.new) }
    ensures steps { OnOk result (IsWithinPlan program.now (length text.now)
        meter.old.made meter.new.made) }
    ensures advances { Advances meter.old meter.new }
    ensures stops { IfErr result (StopsAt meter.new) }
    ensures counted { IfOk result (λ found. found ≡ true → meter.old.made < meter.new.made) }
{
    if depths.is_hard(pattern) {
        known.renew();
        return backs_up(search, program, text, place, meter);
    }
    let alloc = *search.frames.allocator();
    let Some(guide) = guide_of(alloc, program, text, meter)? else {
        known.renew();
        depths.push(Depth {
            pattern: String::from_str(alloc, pattern)?,
            guide: None,
        })?;
        return backs_up(search, program, text, place, meter);
    };
    known.settle();
    begins_marked(search, guide, pattern, text, place, depths, meter)
}

/// Whether a match begins at the place, by backing up to the end,
/// as for a pattern that is not linear.
fn backs_up(
    search: &mut Search,
    program: &Program,
    text: &str,
    place: usize,
    meter: &mut Meter,
) -> Result<bool, Stop>
    ensures finds { IfOk result (λ found.
        FindsAt text.now program.now place (groups_of found search.new)) }
    ensures advances { Advances meter.old meter.new }
    ensures stops { IfErr result (StopsAt meter.new) }
    ensures counted { IfOk result (λ found. found ≡ true → meter.old.made < meter.new.made) }
{
    let Some(left) = meter.left() else {
        let mut count = GhostCount::none();
        let told = search.begins_at(program, text, place, false, &mut count)?;
        meter.add(&count);
        return Ok(told.unwrap_or(false));
    };
    match begins_within(search, program, text, place, left, meter)? {
        Some(found) => Ok(found),
        None => Err(Stop::Spent),
    }
}

/// Whether a match begins at the place, by the marks of it and all later places, which are kept.
fn begins_marked(
    search: &mut Search,
    guide: Guide,
    pattern: &str,
    text: &str,
    place: usize,
    depths: &mut Depths,
    meter: &mut Meter,
) -> Result<bool, Stop>
    requires guides { IsGuideIn text.now guide }
    requires depths { AreDepthsIn text.now depths.old }
    ensures finds { IfOk result (λ found.
        linear.FindsAt text.now guide.program place
        (linear.groups_of found search.new.groups.items)) }
    ensures depths { (p : AProgram) → IsCompiled pattern.now p → StandsFor p guide.program
        → OnOk result (AreDepthsIn text.now depths.new) }
    ensures steps { OnOk result (meter.new.made ≤ meter.old.made
        + step_weight (length guide.plan.cells) (root_tree guide.program) * (length text.now + 1)) }
    ensures advances { Advances meter.old meter.new }
    ensures stops { IfErr result (StopsAt meter.new) }
    ensures counted { IfOk result (λ found. found ≡ true → meter.old.made < meter.new.made) }
{
    if place > text.len() {
        return Ok(false);
    }
    let alloc = *search.frames.allocator();
    let mut guide = guide;
    guide.mark(text, place, meter)?;
    let found = guide.begins_at(text, place, &mut search.groups, meter)?;
    depths.push(Depth {
        pattern: String::from_str(alloc, pattern)?,
        guide: Some(guide),
    })?;
    Ok(found)
}
