//! Where matches of the nodes of a table can begin. Few of those places differ.
ghost use Rattle.std.specs.Prelude.{◌≡◌, ◌<◌, ◌++◌, ◌∷◌, [], ℕ, IfOk, IfSome, OnErr, OnOk, Some, length, slice_get, true};
ghost use Rattle.syntect_pattern_table.specs.declared.starts.Places.{Places as APlaces};

use crate::starts::Places;
use std::alloc::{AllocError, Global};
use std::marker::Model;

/// Numbers of places, each in the slot that a sum over those gives. Where two share a slot, the
/// first is no longer found there, and is kept once more if it comes again.
pub type Slots = [u32; 256];

/// Where matches of nodes can begin, seen as the list of each's. Most equal ones are kept once.
#[derive(Drop)]
pub struct PlaceList {
    known: Vec<Places>,
    /// For each node the number of its places among those.
    numbers: Vec<u32>,
}

impl Model for PlaceList {
    ghost use Rattle.std.specs.Prelude.{List};
    ghost use Rattle.syntect_pattern_table.specs.declared.starts.Places.{Places as APlaces};
    ghost use Rattle.syntect_pattern_table.specs.PlaceLists.{AreKnown, places_by_number};

    ghost Value = { List APlaces };

    ghost view = { λ l. places_by_number l.known.items l.numbers.items };

    ghost invariant = { λ l. AreKnown l.known.items l.numbers.items };
}

/// Whether both are the same.
#[inline]
fn are_same(a: &Places, b: &Places) -> bool
    ensures { result ≡ true → a.now ≡ b.now }
{
    a.ascii == b.ascii && a.wide == b.wide && a.end == b.end
}

/// Whether these have the number.
#[inline]
fn is_known(known: &[Places], number: u32, wanted: &Places) -> bool
    ensures { result ≡ true → slice_get known.now number ≡ Some wanted.now }
{
    match known.get(number as usize) {
        Some(places) => are_same(places, wanted),
        None => false,
    }
}

/// The slot of these. An odd factor without pattern mixes the bits: similar ones seldom share one.
fn slot_of(places: &Places) -> usize
    ensures { result < 256 }
{
    const ODD: u64 = 0x9E37_79B9_7F4A_7C15;
    let low = (places.ascii % (1 << 64)) as u64;
    let high = (places.ascii >> 64) as u64;
    let others = u64::from(places.wide) + 2 * u64::from(places.end);
    let sum = (low.wrapping_mul(ODD).rotate_left(29) ^ high ^ others).wrapping_mul(ODD);
    (sum >> 32) as usize % 256
}

/// The number of these, which are added where their slot has another's. More than such numbers can
/// tell apart have no place in memory.
fn number_of(known: &mut Vec<Places>, slots: &mut Slots, wanted: Places) -> Result<u32, AllocError>
    ensures number { IfOk result (λ n. slice_get known.new.items n ≡ Some wanted) }
    ensures stays { (n : ℕ) (p : APlaces) → slice_get known.old.items n ≡ Some p
        → slice_get known.new.items n ≡ Some p }
{
    let slot = slot_of(&wanted);
    let number = slots[slot];
    if is_known(known.as_slice(), number, &wanted) {
        return Ok(number);
    }
    let Ok(number) = u32::try_from(known.len()) else {
        return Err(AllocError);
    };
    known.push(wanted)?;
    slots[slot] = number;
    Ok(number)
}

impl PlaceList {
    /// A list of none, with room for the numbers of so many.
    pub fn with_capacity(alloc: Global, count: usize) -> Result<PlaceList, AllocError>
        ensures { IfOk result (λ l. l ≡ []) }
    {
        Ok(PlaceList {
            known: Vec::new(alloc),
            numbers: Vec::with_capacity(alloc, count)?,
        })
    }

    /// Appends the places of one more node. The slots are this list's; others only find less.
    pub fn push(&mut self, slots: &mut Slots, places: Places) -> Result<(), AllocError>
        ensures ok { OnOk result (self.new ≡ self.old ++ places ∷ []) }
        ensures err { OnErr result (self.new ≡ self.old) }
    {
        let number = number_of(&mut self.known, slots, places)?;
        self.numbers.push(number)?;
        Ok(())
    }

    /// Where matches of a node can begin, and nothing past the last one.
    #[inline]
    pub fn get(&self, place: usize) -> Option<Places>
        ensures { result ≡ slice_get self.now place }
    {
        match self.numbers.get(place) {
            Some(number) => Some(self.known[*number as usize]),
            None => None,
        }
    }

    /// How many nodes it is about.
    pub fn len(&self) -> usize
        ensures { result ≡ length self.now }
    {
        self.numbers.len()
    }

    /// Gives back the memory that isn't needed, where that can be done.
    pub fn shrink_to_fit(&mut self)
        ensures { self.new ≡ self.old }
    {
        self.known.shrink_to_fit();
    }
}
