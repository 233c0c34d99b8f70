//! The search of a pattern, in steps bounded by the pattern times the text: the marks of a text
//! tell of each place whether a match begins there, and the match is read along them.
ghost use Rattle.std.specs.Prelude.{◌≡◌, ◌≤◌, ◌+◌, ◌*◌, ◌<◌, IfErr, IfOk, OnErr, OnOk, true, None, if◌then◌else◌, length, replicate, slice_index_or};
ghost use Rattle.syntect_pattern_linear.specs.Finds.{Covers, FindsAt, FindsUpTo, groups_of};
ghost use Rattle.syntect_pattern_linear.specs.Guide.{IsGuideIn};
ghost use Rattle.syntect_pattern_linear.specs.syntect_count.Meter.{Advances, StopsAt};
ghost use Rattle.syntect_pattern_plan.specs.PlanOf.{IsPlanOf};
ghost use Rattle.syntect_pattern_linear.specs.Steps.{look_cost, stops, walk_cost};
ghost use Rattle.syntect_pattern_linear.specs.syntect_pattern.Trees.{nothing};
ghost use Rattle.syntect_pattern_linear.specs.syntect_pattern_table.Program.{trees_of};

use crate::ground::Ground;
use crate::marking::marks_from;
use crate::marks::Marks;
use crate::syntect_count::meter::Meter;
use crate::syntect_count::stop::Stop;
use crate::syntect_pattern_steps::text::is_boundary;
use crate::syntect_pattern_table::program::Program;
use crate::syntect_values::seq::Seq;
use crate::walk::{Span, leads, walk};
use std::alloc::{AllocError, Global};
use syntect_pattern_plan::plan::Plan;
use syntect_pattern_plan::sight::sights_of;

/// The cell of the whole pattern.
const WHOLE: usize = 1;

/// The groups of a match before any is set: so many of them.
fn no_groups(alloc: Global, count: usize) -> Result<Vec<Option<Span>>, AllocError>
    ensures { IfOk result (λ groups. groups.items ≡ replicate count None) }
{
    let mut groups = Vec::new(alloc);
    for _group in 0..count {
        groups.push(None)?;
    }
    Ok(groups)
}

/// Whether a match begins at the place, whose marks are there. If so, the groups are the match's.
fn begins_here(
    alloc: Global,
    ground: &Ground,
    marks: &Marks,
    begin: usize,
    place: usize,
    groups: &mut Vec<Option<Span>>,
    meter: &mut Meter,
) -> Result<bool, Stop>
    requires covers { Covers ground.now marks.now begin }
    requires later { begin ≤ place }
    ensures finds { IfOk result (λ found. FindsAt ground.now.text.now ground.now.program.now place
        (groups_of found groups.new.items)) }
    ensures steps { IfOk result (λ found. meter.new.made ≤ meter.old.made + (if found
        then (walk_cost
        (slice_index_or (trees_of ground.now.program.now) ground.now.program.now.root nothing)
        + look_cost
        (slice_index_or (trees_of ground.now.program.now) ground.now.program.now.root nothing))
        * (length ground.now.text.now + 1) else 0)) }
    ensures counted { IfOk result (λ found. found ≡ true → meter.old.made < meter.new.made) }
    ensures advances { Advances meter.old meter.new }
    ensures stops { IfErr result (StopsAt meter.new) }
{
    if !is_boundary(ground.text, place) {
        return Ok(false);
    }
    if !leads(ground, marks, place, WHOLE) {
        return Ok(false);
    }
    let mut unset = no_groups(alloc, ground.program.groups)?;
    walk(ground, marks, place, WHOLE, &mut unset, meter)?;
    *groups = unset;
    Ok(true)
}

/// A pattern's plan in a text, with the marks of its places from one on.
pub struct Guide {
    /// The pattern, each letter in a node of its own.
    pub program: Program,
    pub plan: Plan,
    /// Where lookbehinds hold.
    pub sights: Vec<Seq<bool>>,
    pub marks: Marks,
}

/// Written out, so that crates above call it and needn't prove each part's drop again.
impl Drop for Guide {
    fn drop(self) {
        let Guide {
            program: _,
            plan: _,
            sights: _,
            marks: _,
        } = self;
    }
}

impl Guide {
    /// The plan in a text of which no place is marked.
    pub fn new(alloc: Global, program: Program, plan: Plan, text: &str) -> Result<Guide, AllocError>
        requires { IsPlanOf program plan }
        ensures guides { IfOk result (λ guide. IsGuideIn text.now guide) }
        ensures program { IfOk result (λ guide. guide.program ≡ program) }
        ensures plan { IfOk result (λ guide. guide.plan ≡ plan) }
    {
        let sights = sights_of(alloc, &program, &plan, text)?;
        Ok(Guide {
            program,
            plan,
            sights,
            marks: Marks::new(alloc),
        })
    }

    /// Marks the places from this one on. A row is paid for before it is worked out; where it
    /// stops, what was marked stays.
    pub fn mark(&mut self, text: &str, begin: usize, meter: &mut Meter) -> Result<(), Stop>
        requires guides { IsGuideIn text.now self.old }
        requires begin { begin ≤ length text.now }
        ensures guides { OnOk result (IsGuideIn text.now self.new) }
        ensures there { OnOk result (length text.now < length self.new.marks + begin) }
        ensures program { self.new.program ≡ self.old.program }
        ensures plan { self.new.plan ≡ self.old.plan }
        ensures kept { OnErr result (self.new ≡ self.old) }
        ensures steps { OnOk result (meter.new.made ≤ meter.old.made
            + 7 * length self.old.plan.cells * (length text.now + 1)) }
        ensures counted { OnOk result (meter.old.made + stops text.now (length self.new.marks)
            ≤ meter.new.made) }
        ensures advances { Advances meter.old meter.new }
        ensures stops { IfErr result (StopsAt meter.new) }
    {
        let alloc = *self.sights.allocator();
        let sights = self.sights.as_slice();
        self.marks = marks_from(alloc, &self.program, &self.plan, text, sights, begin, meter)?;
        Ok(())
    }

    /// Whether the place is marked.
    #[inline]
    pub fn tells(&self, text: &str, place: usize) -> bool
        ensures { result ≡ true → length text.now < length self.now.marks + place }
    {
        match self.marks.len().checked_add(place) {
            Some(sum) => text.len() < sum,
            None => true,
        }
    }

    /// Whether a match begins at the place, which it does on boundaries of characters alone. Where
    /// one does, the groups are the match's. Stops where memory or steps run out.
    pub fn begins_at(
        &self,
        text: &str,
        place: usize,
        groups: &mut Vec<Option<Span>>,
        meter: &mut Meter,
    ) -> Result<bool, Stop>
        requires guides { IsGuideIn text.now self.now }
        requires there { length text.now < length self.now.marks + place }
        ensures finds { IfOk result (λ found. FindsAt text.now self.now.program place
            (groups_of found groups.new.items)) }
        ensures steps { OnOk result (meter.new.made ≤ meter.old.made + (walk_cost
            (slice_index_or (trees_of self.now.program) self.now.program.root nothing)
            + look_cost (slice_index_or (trees_of self.now.program) self.now.program.root nothing))
            * (length text.now + 1)) }
        ensures counted { IfOk result (λ found. found ≡ true → meter.old.made < meter.new.made) }
        ensures advances { Advances meter.old meter.new }
        ensures stops { IfErr result (StopsAt meter.new) }
    {
        if place > text.len() {
            return Ok(false);
        }
        let ground = Ground {
            program: &self.program,
            plan: &self.plan,
            text,
            sights: self.sights.as_slice(),
            rows: &[],
        };
        let alloc = *self.sights.allocator();
        begins_here(alloc, &ground, &self.marks, place, place, groups, meter)
    }

    /// Whether a match begins at the place or at a later one up to `last`, of which the least
    /// counts. Where one does, the groups are the match's. Stops where memory or steps run out.
    pub fn find_up_to(
        &self,
        text: &str,
        begin: usize,
        last: usize,
        groups: &mut Vec<Option<Span>>,
        meter: &mut Meter,
    ) -> Result<bool, Stop>
        requires guides { IsGuideIn text.now self.now }
        requires there { length text.now < length self.now.marks + begin }
        requires order { begin ≤ last }
        ensures finds { IfOk result (λ found. FindsUpTo text.now self.now.program begin last
            (groups_of found groups.new.items)) }
        ensures steps { OnOk result (meter.new.made ≤ meter.old.made + (walk_cost
            (slice_index_or (trees_of self.now.program) self.now.program.root nothing)
            + look_cost (slice_index_or (trees_of self.now.program) self.now.program.root nothing))
            * (length text.now + 1)) }
        ensures counted { IfOk result (λ found. found ≡ true → meter.old.made < meter.new.made) }
        ensures advances { Advances meter.old meter.new }
        ensures stops { IfErr result (StopsAt meter.new) }
    {
        let ground = Ground {
            program: &self.program,
            plan: &self.plan,
            text,
            sights: self.sights.as_slice(),
            rows: &[],
        };
        let alloc = *self.sights.allocator();
        let mut place = begin;
        'starts: while place <= last && place <= text.len() {
            if begins_here(alloc, &ground, &self.marks, begin, place, groups, meter)? {
                return Ok(true);
            }
            place += 1;
        }
        Ok(false)
    }
}
