//! What not every pattern has: what can come after words and white space in which matches begin,
//! and groups.
ghost use Rattle.std.specs.Prelude.{◌≡◌, ℕ, IfOk, IfSome, List, Some, None, false, length, option_and_then, replicate, slice_index_or, true};
ghost use Rattle.syntect_regex.specs.syntect_pattern.Trees.{group_in_look};
ghost use Rattle.syntect_regex.specs.syntect_pattern.Pattern.{pattern_tree};
ghost use Rattle.syntect_regex.specs.Details.{KnowsGroups, anything, groups_alone, look_of};
ghost use Rattle.syntect_regex.specs.Groups.{free_groups};

use crate::below::pattern_table::starts::Places;
use crate::below::values::seq::Seq;
use std::alloc::{AllocError, Global};
use std::marker::Model;

/// Each character, and the end of the text.
const ANYTHING: Places = Places {
    ascii: u128::MAX,
    wide: true,
    end: true,
};

/// Whether the groups of a pattern stand in lookarounds.
#[derive(Drop)]
enum GroupLooks {
    /// So many groups, none of which stands in a lookaround.
    Free(u32),
    /// Of each group whether it does, or None if the text is no pattern.
    Each(Box<Option<Seq<Option<bool>>>>),
}

/// Of each group, the whole match aside, whether it stands in a lookaround, seen as one list, or
/// none where the text is no pattern.
#[derive(Drop)]
struct Looks {
    groups: GroupLooks,
}

impl Model for Looks {
    ghost use Rattle.std.specs.Prelude.{Bool, List, Option};
    ghost use Rattle.syntect_regex.specs.Groups.{groups_in};

    ghost Value = { Option (List (Option Bool)) };

    ghost view = { λ a. groups_in a.groups };
}

/// What is kept of a pattern besides where its matches begin.
#[derive(Drop)]
struct Detail {
    /// What can come after a word in which a match begins, and after white space in which one does.
    words: Places,
    blanks: Places,
    looks: Looks,
}

/// What not every pattern has.
#[derive(Drop)]
enum Rare {
    /// Anything can come after words and white space, and none of so many groups stands in a
    /// lookaround, as in most patterns.
    Free(u32),
    /// Groups alone: of each whether it stands in a lookaround, or None if the text is no pattern.
    /// (`Looks` in its place would make each pattern larger.)
    Groups(Box<Option<Seq<Option<bool>>>>),
    /// Something that can't come after words or white space.
    All(Box<Detail>),
}

/// What not every pattern has, seen as a `Detail`. It stands in a place of its own, so that a
/// pattern is small.
#[derive(Drop)]
pub(crate) struct Details {
    rare: Rare,
}

impl Model for Details {
    ghost use Rattle.syntect_regex.specs.Details.{detail_in};
    ghost use Rattle.syntect_regex.specs.declared.details.Detail.{Detail};

    ghost Value = { Detail };

    ghost view = { λ a. detail_in a.rare };
}

impl Details {
    /// What can come after words, and what after white space, and of each group whether it stands
    /// in a lookaround.
    pub(crate) fn new(
        alloc: Global,
        words: Places,
        blanks: Places,
        looks: Option<Seq<Option<bool>>>,
    ) -> Result<Details, AllocError>
        ensures { IfOk result (λ d. d ≡ record { words = words; blanks = blanks; looks = looks }) }
    {
        if is_anything(&words) && is_anything(&blanks) {
            return Details::of_groups(alloc, looks);
        }
        let detail = Detail {
            words,
            blanks,
            looks: Looks::new(alloc, looks)?,
        };
        let rare = Rare::All(Box::new(alloc, detail)?);
        Ok(Details { rare })
    }

    /// The details of a pattern where anything can come after words and white space.
    fn of_groups(alloc: Global, looks: Option<Seq<Option<bool>>>) -> Result<Details, AllocError>
        ensures { IfOk result (λ d. d ≡ groups_alone looks) }
    {
        let rare = match free_count(&looks) {
            Some(count) => Rare::Free(count),
            None => Rare::Groups(Box::new(alloc, looks)?),
        };
        Ok(Details { rare })
    }

    /// A copy of the details.
    pub(crate) fn clone(&self, alloc: Global) -> Result<Details, AllocError>
        ensures { IfOk result (λ d. d ≡ self.now) }
    {
        let rare = match &self.rare {
            Rare::Free(count) => Rare::Free(*count),
            Rare::Groups(looks) => Rare::Groups(Box::new(alloc, copied_looks(alloc, &**looks)?)?),
            Rare::All(detail) => Rare::All(Box::new(alloc, copied(alloc, &**detail)?)?),
        };
        Ok(Details { rare })
    }

    /// What can come after a word in which a match begins.
    pub(crate) fn words(&self) -> Places
        ensures { result ≡ self.now.words }
    {
        match &self.rare {
            Rare::All(detail) => detail.words,
            _ => ANYTHING,
        }
    }

    /// What can come after white space in which one does.
    pub(crate) fn blanks(&self) -> Places
        ensures { result ≡ self.now.blanks }
    {
        match &self.rare {
            Rare::All(detail) => detail.blanks,
            _ => ANYTHING,
        }
    }

    /// Whether the group of the number stands in a lookaround, which group 0 never does. None
    /// without such a group.
    pub(crate) fn group(&self, number: usize) -> Option<bool>
        ensures { (pattern : List ℕ) → KnowsGroups pattern self.now.looks
            → result ≡ option_and_then (λ tree. group_in_look tree number) (pattern_tree pattern) }
    {
        match &self.rare {
            Rare::All(detail) => detail.looks.group(number),
            Rare::Groups(looks) => group_among(&**looks, number),
            Rare::Free(count) => free_group(*count, number),
        }
    }
}

impl Looks {
    /// The groups of a pattern, by their number alone where none stands in a lookaround.
    fn new(alloc: Global, looks: Option<Seq<Option<bool>>>) -> Result<Looks, AllocError>
        ensures { IfOk result (λ l. l ≡ looks) }
    {
        let groups = match free_count(&looks) {
            Some(count) => GroupLooks::Free(count),
            None => GroupLooks::Each(Box::new(alloc, looks)?),
        };
        Ok(Looks { groups })
    }

    /// A copy of the list.
    fn clone(&self, alloc: Global) -> Result<Looks, AllocError>
        ensures { IfOk result (λ l. l ≡ self.now) }
    {
        let groups = match &self.groups {
            GroupLooks::Free(count) => GroupLooks::Free(*count),
            GroupLooks::Each(looks) => GroupLooks::Each(Box::new(
                alloc,
                copied_looks(alloc, &**looks)?,
            )?),
        };
        Ok(Looks { groups })
    }

    /// Whether the group of the number stands in a lookaround. None without such a group.
    fn group(&self, number: usize) -> Option<bool>
        ensures { (pattern : List ℕ) → KnowsGroups pattern self.now
            → result ≡ option_and_then (λ tree. group_in_look tree number) (pattern_tree pattern) }
    {
        match &self.groups {
            GroupLooks::Free(count) => free_group(*count, number),
            GroupLooks::Each(looks) => group_among(&**looks, number),
        }
    }
}

/// Whether the group of the number stands in a lookaround, where none of so many does. None without
/// such a group.
fn free_group(count: u32, number: usize) -> Option<bool>
    ensures { result ≡ look_of (free_groups count) number }
{
    if number <= count as usize {
        Some(false)
    } else {
        None
    }
}

/// Whether all groups are there, and none stands in a lookaround.
fn are_free(looks: &[Option<bool>]) -> bool
    ensures { result ≡ true → looks.now ≡ replicate (length looks.now) (Some false) }
{
    let mut count = 0;
    while count < looks.len() {
        if looks[count] != Some(false) {
            return false;
        }
        count += 1;
    }
    true
}

/// How many groups it is of, if none of them stands in a lookaround.
fn free_count(looks: &Option<Seq<Option<bool>>>) -> Option<u32>
    ensures { IfSome result (λ count. looks.now ≡ Some (free_groups count)) }
{
    let Some(looks) = looks else {
        return None;
    };
    if looks.is_empty() {
        return Some(0);
    }
    if looks.len() < 2 || !are_free(looks.as_slice()) {
        return None;
    }
    u32::try_from(looks.len() - 1).ok()
}

/// What is kept of the group of the number, by what is kept of all.
fn group_among(looks: &Option<Seq<Option<bool>>>, number: usize) -> Option<bool>
    ensures { (pattern : List ℕ) → KnowsGroups pattern looks.now
        → result ≡ option_and_then (λ tree. group_in_look tree number) (pattern_tree pattern) }
{
    let Some(looks) = looks else {
        return None;
    };
    if number == 0 {
        return Some(false);
    }
    look_at(looks.as_slice(), number)
}

/// What is kept of the group of the number, and none past the end.
fn look_at(looks: &[Option<bool>], number: usize) -> Option<bool>
    ensures { result ≡ slice_index_or looks.now number None }
{
    looks.get(number).copied().unwrap_or(None)
}

/// A copy of what is kept of groups.
fn copied_looks(
    alloc: Global,
    looks: &Option<Seq<Option<bool>>>,
) -> Result<Option<Seq<Option<bool>>>, AllocError>
    ensures { IfOk result (λ l. l ≡ looks.now) }
{
    match looks {
        Some(looks) => Ok(Some(Seq::from_slice(alloc, looks.as_slice())?)),
        None => Ok(None),
    }
}

/// A copy of the detail.
fn copied(alloc: Global, detail: &Detail) -> Result<Detail, AllocError>
    ensures { IfOk result (λ d. d ≡ detail.now) }
{
    Ok(Detail {
        words: detail.words,
        blanks: detail.blanks,
        looks: detail.looks.clone(alloc)?,
    })
}

/// Whether anything is among these.
fn is_anything(places: &Places) -> bool
    ensures { result ≡ true → places.now ≡ anything }
{
    places.ascii == u128::MAX && places.wide && places.end
}
