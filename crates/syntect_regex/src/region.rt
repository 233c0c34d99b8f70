//! Where the groups of a match stand.
ghost use Rattle.std.specs.Prelude.{◌≡◌, ◌≤◌, ◌<◌, ◌↔◌, ℕ, List, true, [], IfErr, IfOk, OnErr, OnOk, None, length, slice_index_or};
ghost use Rattle.syntect_regex.specs.syntect_pattern.Matches.{Groups};
ghost use Rattle.syntect_pattern_seek.specs.Bounds.{IsWithinBound, IsWithinTry};
ghost use Rattle.syntect_regex.specs.syntect_pattern_compile.Compiled.{IsCompiled};
ghost use Rattle.syntect_pattern_seek.specs.Depths.{AreDepthsIn};
ghost use Rattle.syntect_pattern_seek.specs.Prospect.{IsProspectOf};
ghost use Rattle.syntect_regex.specs.syntect_count.Meter.{Advances, StopsAt};
ghost use Rattle.syntect_regex.specs.Region.{Takes, TakesHere, same_groups, same_groups-equiv};
ghost use Rattle.std.specs.Cmp.{partial_equiv_from_equiv};

use crate::below::count::meter::Meter;
use crate::below::count::stop::Stop;
use crate::below::pattern_backtrack::state::{Search, Span};
use crate::below::pattern_table::program::Program;
use std::alloc::{AllocError, Global};
use std::marker::Model;
use std::mem;
use syntect_pattern_seek::depths::Depths;
use syntect_pattern_seek::prospect::Prospect;
use syntect_pattern_seek::seek::{begins_known, find};

/// Where each group of a match stands, from 0, which is the whole match. A region also keeps the
/// memory of the last search for the next one: to search many times, hand in the same one.
pub struct Region {
    positions: Vec<Option<Span>>,
    search: Search,
}

/// Written out, so that crates above call it and needn't prove each part's drop again.
impl Drop for Region {
    fn drop(self) {
        let Region {
            positions: _,
            search: _,
        } = self;
    }
}

impl Model for Region {
    ghost use Rattle.std.specs.Prelude.{List, ℕ, Option};

    ghost Value = { List (Option (ℕ × ℕ)) };

    ghost view = { λ a. a.positions.items };
}

impl Clone for Region {
    ghost is_clone = { λ x y. y ≡ x };

    fn clone(&self) -> Result<Region, AllocError> {
        Region::clone(self, *self.positions.allocator())
    }
}

impl Region {
    /// A region without groups. Takes no memory.
    pub fn new(alloc: Global) -> Region
        ensures { result ≡ [] }
    {
        Region {
            positions: Vec::new(alloc),
            search: Search::new(alloc),
        }
    }

    /// A region without groups. Takes no memory.
    pub fn default(alloc: Global) -> Region
        ensures { result ≡ [] }
    {
        Region::new(alloc)
    }

    /// The place where the group of that number begins and the place after it, both in bytes. None
    /// for a group that is unset and for a number that is no group's.
    pub fn pos(&self, group: usize) -> Option<(usize, usize)>
        ensures { result ≡ slice_index_or self.now group None }
    {
        self.positions.get(group).copied().unwrap_or(None)
    }

    /// A copy of the region.
    pub fn clone(&self, alloc: Global) -> Result<Region, AllocError>
        ensures { IfOk result (λ r. r ≡ self.now) }
    {
        Ok(Region {
            positions: Vec::from_slice(alloc, self.positions.as_slice())?,
            search: Search::new(alloc),
        })
    }

    /// Searches the text from `begin` on: whether the program matches at some place there, of which
    /// the least counts. Where it does, the region has the groups of that match. The pattern's text
    /// has so many bytes as `size` says.
    pub(crate) fn find(
        &mut self,
        program: &Program,
        size: usize,
        text: &str,
        begin: usize,
        meter: &mut Meter,
    ) -> Result<bool, Stop>
        ensures found { IfOk result (λ b. Takes text.now program.now begin self.old b self.new) }
        ensures err { OnErr result (self.new ≡ self.old) }
        ensures steps { OnOk result (IsWithinBound program.now size (length text.now)
            meter.old.made meter.new.made) }
        ensures advances { Advances meter.old meter.new }
        ensures stops { IfErr result (StopsAt meter.new) }
        ensures counted { IfOk result (λ found. found ≡ true → meter.old.made < meter.new.made) }
    {
        let found = find(&mut self.search, program, size, text, begin, meter)?;
        if found {
            mem::swap(&mut self.positions, &mut self.search.groups);
        }
        Ok(found)
    }

    /// Whether the program matches at this place alone of a text in which the pattern is tried at
    /// place after place, by what is known of it there, of which more is known after. Where it
    /// does, the region has the groups of that match. The program is the pattern's.
    pub(crate) fn find_known(
        &mut self,
        program: &Program,
        pattern: &str,
        text: &str,
        place: usize,
        known: &mut Prospect,
        depths: &mut Depths,
        meter: &mut Meter,
    ) -> Result<bool, Stop>
        requires program { IsCompiled pattern.now program.now }
        requires depths { AreDepthsIn text.now depths.old }
        ensures found { IfOk result
            (λ b. TakesHere text.now program.now place self.old b self.new) }
        ensures known { IsProspectOf pattern.now text.now known.old
            → IsProspectOf pattern.now text.now known.new }
        ensures depths { OnOk result (AreDepthsIn text.now depths.new) }
        ensures err { OnErr result (self.new ≡ self.old) }
        ensures steps { OnOk result (IsWithinTry program.now (length pattern.now)
            (length text.now) meter.old.made meter.new.made) }
        ensures advances { Advances meter.old meter.new }
        ensures stops { IfErr result (StopsAt meter.new) }
        ensures counted { IfOk result (λ found. found ≡ true → meter.old.made < meter.new.made) }
    {
        let search = &mut self.search;
        let is_here = begins_known(search, program, pattern, text, place, known, depths, meter)?;
        if is_here {
            mem::swap(&mut self.positions, &mut self.search.groups);
        }
        Ok(is_here)
    }
}

impl PartialEq for Region {
    ghost eq = { same_groups };

    ghost laws = { partial_equiv_from_equiv same_groups-equiv };

    fn eq(&self, other: &Self) -> bool {
        self.positions == other.positions
    }
}

impl Eq for Region {
    ghost laws = { same_groups-equiv };
}

/// Two regions are equal exactly where their groups are.
pub fn equal_regions_have_equal_groups()
    ensures { (x y : Groups) → (same_groups x y ≡ true) ↔ (x ≡ y) }
{}
