//! What is known, while a line is read, of the patterns that were tried in it.
ghost use Rattle.std.specs.Prelude.{◌≡◌, ◌<◌, IfSome, List, ℕ, length, slice_index_or, true};
ghost use Rattle.syntect_reading_state.specs.Memory.{AreKnown, IsKnownAt, Remembers};
ghost use Rattle.syntect_reading_state.specs.declared.memory.Memo.{Memo as AMemo};
ghost use Rattle.syntect_grammar.specs.declared.syntax_set.SyntaxSet.{SyntaxSet};

use crate::below::grammar_lists::flats::Origin;
use crate::below::pattern_seek::depths::Depths;
use crate::below::pattern_seek::prospect::Prospect;
use crate::hints::Hints;
use std::alloc::Global;
use std::marker::Model;

/// How many patterns are kept in mind at most, and how many slots lead to them.
const SLOTS: usize = 2048;

/// In how many slots, from its own on, a pattern is looked for. One that finds no room asks anew at
/// each try, which may take it to the line's end each time.
const LOOKS: usize = 4;

/// What is known of the pattern that stands there.
#[derive(Clone, Copy)]
pub struct Memo {
    pub origin: Origin,
    pub prospect: Prospect,
}

/// What is known of the patterns that were tried in a line, seen as a list.
#[derive(Drop)]
pub struct Memos {
    kept: Vec<Memo>,
    /// Where a pattern's memo may stand, as a number from `base` on. What a slot says is looked at
    /// before it is believed, so that none need be wiped from line to line.
    slots: [u32; SLOTS],
    /// It rises with each line by as many as memos are kept at most, so that what earlier lines
    /// left in the slots leads to none.
    base: u32,
}

/// The slot of the pattern that stands there.
#[inline]
fn slot_of(origin: Origin) -> usize
    ensures { result < 2048 }
{
    let context = origin.context;
    let mixed = context
        .syntax_index
        .wrapping_mul(0x9E37_79B9_7F4A_7C15)
        .wrapping_add(context.context_index)
        .wrapping_mul(0xD6E8_FEB8_6659_FD93)
        .wrapping_add(origin.index)
        .wrapping_mul(0x9E37_79B9_7F4A_7C15);
    (mixed >> 32) % SLOTS
}

/// Whether the same pattern stands there.
#[inline]
fn is_same(a: Origin, b: Origin) -> bool
    ensures { result ≡ true → a ≡ b }
{
    a.index == b.index
        && a.context.context_index == b.context.context_index
        && a.context.syntax_index == b.context.syntax_index
}

impl Model for Memos {
    ghost use Rattle.std.specs.Prelude.{List};
    ghost use Rattle.syntect_reading_state.specs.declared.memory.Memo.{Memo as AMemo};

    ghost Value = { List AMemo };

    ghost view = { λ m. m.kept.items };
}

/// What is known of a line: of patterns tried in it, of those searched in others' places, and plans
/// of those that backed up often.
#[derive(Drop)]
pub struct Memory {
    pub memos: Memos,
    pub hints: Hints,
    pub depths: Depths,
}

impl Memory {
    /// Nothing is known. Takes no memory.
    pub fn new(alloc: Global) -> Memory
        ensures { (set : SyntaxSet) (line : List ℕ) → Remembers set line result }
    {
        Memory {
            memos: Memos::new(alloc),
            hints: Hints::new(alloc),
            depths: Depths::new(alloc),
        }
    }

    /// Forgets everything: what is known of a line says nothing of another one.
    pub fn begin_line(&mut self)
        ensures { (set : SyntaxSet) (line : List ℕ) → Remembers set line self.new }
    {
        self.memos.forget();
        self.hints.forget();
        self.depths.forget();
    }
}

impl Memos {
    /// Nothing is known. Takes no memory.
    pub fn new(alloc: Global) -> Memos
        ensures { (set : SyntaxSet) (line : List ℕ) → AreKnown set line result }
    {
        Memos {
            kept: Vec::new(alloc),
            slots: [0; SLOTS],
            base: 1,
        }
    }

    /// Forgets everything.
    pub fn forget(&mut self)
        ensures { (set : SyntaxSet) (line : List ℕ) → AreKnown set line self.new }
    {
        self.kept.clear();
        self.base = self.base.wrapping_add(2048);
    }

    /// The number of the memo to which the slot leads, and that of none where it leads nowhere.
    #[inline]
    fn number_in(&self, slot: usize) -> usize
        requires { slot < 2048 }
    {
        self.slots[slot].wrapping_sub(self.base) as usize
    }

    /// Where what is known of the pattern that stands there is kept.
    #[inline]
    fn place_of(&self, origin: Origin) -> Option<usize>
        ensures inside { IfSome result (λ i. i < length self.now) }
        ensures same { IfSome result (λ i. (memo : AMemo)
            → (slice_index_or self.now i memo).origin ≡ origin) }
    {
        let slot = slot_of(origin);
        for look in 0..LOOKS {
            let number = self.number_in((slot + look) % SLOTS);
            if number >= self.kept.len() {
                return None;
            }
            if is_same(self.kept[number].origin, origin) {
                return Some(number);
            }
        }
        None
    }

    /// What is known of the pattern that stands there.
    #[inline]
    pub fn recall(&self, origin: Origin) -> Prospect
        ensures { (set : SyntaxSet) (line : List ℕ) → AreKnown set line self.now
            → IsKnownAt set line origin result }
    {
        let number = self.number_in(slot_of(origin));
        let Some(memo) = self.kept.get(number) else {
            return Prospect::new();
        };
        if is_same(memo.origin, origin) {
            return memo.prospect;
        }
        self.recall_beside(origin)
    }

    /// What is known of a pattern whose own slot leads to another one's memo.
    #[inline(never)]
    fn recall_beside(&self, origin: Origin) -> Prospect
        ensures { (set : SyntaxSet) (line : List ℕ) → AreKnown set line self.now
            → IsKnownAt set line origin result }
    {
        match self.place_of(origin) {
            Some(number) => self.kept[number].prospect,
            None => Prospect::new(),
        }
    }

    /// Whether a memo of this line stands in the slot.
    fn is_taken(&self, slot: usize) -> bool
        requires { slot < 2048 }
    {
        let number = self.number_in(slot);
        if number >= self.kept.len() {
            return false;
        }
        let own = slot_of(self.kept[number].origin);
        (slot + SLOTS - own) % SLOTS < LOOKS
    }

    /// The slot for the pattern that stands there, in which no memo of this line stands if one of
    /// those is free.
    fn room_for(&self, origin: Origin) -> usize
        ensures { result < 2048 }
    {
        let slot = slot_of(origin);
        for look in 0..LOOKS {
            let next = (slot + look) % SLOTS;
            if !self.is_taken(next) {
                return next;
            }
        }
        slot
    }

    /// Keeps one more, to which the slot leads, where there is room.
    fn push(&mut self, memo: Memo, slot: usize)
        requires { slot < 2048 }
        ensures { (set : SyntaxSet) (line : List ℕ) → AreKnown set line self.old
            → IsKnownAt set line memo.origin memo.prospect → AreKnown set line self.new }
    {
        let next = self.kept.len();
        if next < SLOTS && self.kept.push(memo).is_ok() {
            self.slots[slot] = self.base.wrapping_add(next as u32);
        }
    }

    /// Keeps a memo where something stands in its pattern's own slot.
    #[inline(never)]
    fn keep_beside(&mut self, memo: Memo)
        ensures { (set : SyntaxSet) (line : List ℕ) → AreKnown set line self.old
            → IsKnownAt set line memo.origin memo.prospect → AreKnown set line self.new }
    {
        if let Some(number) = self.place_of(memo.origin) {
            self.kept[number] = memo;
            return;
        }
        let slot = self.room_for(memo.origin);
        let number = self.number_in(slot);
        if self.is_taken(slot) && number < self.kept.len() {
            self.kept[number] = memo;
            return;
        }
        self.push(memo, slot);
    }

    /// Keeps in mind what is known of the pattern that stands there, in place of another one where
    /// there is no room.
    pub fn keep(&mut self, origin: Origin, prospect: Prospect)
        ensures { (set : SyntaxSet) (line : List ℕ) → AreKnown set line self.old
            → IsKnownAt set line origin prospect → AreKnown set line self.new }
    {
        let memo = Memo { origin, prospect };
        let slot = slot_of(origin);
        if self.number_in(slot) >= self.kept.len() {
            self.push(memo, slot);
            return;
        }
        self.keep_beside(memo);
    }
}
