//! Looking for what each match needs.
ghost use Rattle.std.specs.Prelude.{◌≡◌, ℕ, ◌≤◌, ◌<◌, ◌==◌, IfNone, None, length, false};
ghost use Rattle.syntect_pattern_backtrack.specs.syntect_pattern.Matches.{found_at};
ghost use Rattle.syntect_pattern_backtrack.specs.syntect_pattern.Trees.{Tree};
ghost use Rattle.syntect_pattern_backtrack.specs.syntect_pattern_table.Needs.{IsAbsent, MayNeed};
ghost use Rattle.syntect_pattern_backtrack.specs.syntect_pattern_table.Program.{CannotBeginFrom};
ghost use Rattle.syntect_pattern_backtrack.specs.syntect_pattern_table.Starts as starts;

use crate::syntect_pattern_table::needs::Need;
use crate::syntect_pattern_table::program::Program;
use crate::syntect_pattern_table::starts::{Places, is_in, start_at};
use memchr::memchr;

/// Up to where each need isn't looked for again. It saves time alone: whatever it is, answers hold.
#[derive(Clone, Copy)]
pub struct Met {
    rarest: usize,
    other: usize,
}

/// Up to where it was looked for a need: nowhere where nothing is known of it.
#[inline]
fn reached(behind: usize) -> usize {
    if behind == usize::MAX { 0 } else { behind }
}

impl Met {
    /// Nothing was looked for yet.
    pub fn new() -> Met {
        Met {
            rarest: 0,
            other: 0,
        }
    }

    /// Whether something else was met than there.
    #[inline]
    pub fn differs(&self, other: &Met) -> bool {
        self.rarest != other.rarest || self.other != other.other
    }

    /// Up to where it was looked for any of them, as far as it was met.
    #[inline]
    pub fn farthest(&self) -> usize {
        reached(self.rarest).max(reached(self.other))
    }

    /// Whether what matches need stands at the place or after it, as far as is known: else no match
    /// begins from here on. What was met is kept, so that each need is looked for once in a text.
    #[inline]
    pub fn may_begin_from(&mut self, program: &Program, text: &str, place: usize) -> bool
        requires { place ≤ length text.now }
        ensures { result ≡ false → CannotBeginFrom text.now program.now place }
    {
        if place >= self.rarest {
            match behind_need(&program.needs.rarest, text, place) {
                Some(behind) => self.rarest = behind,
                None => return false,
            }
        }
        if place >= self.other {
            match behind_need(&program.needs.other, text, place) {
                Some(behind) => self.other = behind,
                None => return false,
            }
        }
        true
    }
}

/// The place after the next one, from this one on, where what is needed stands, or the greatest
/// number if nothing is known. None where it stands nowhere: no match begins from this place on.
#[inline]
fn behind_need(need: &Need, text: &str, place: usize) -> Option<usize>
    requires { place ≤ length text.now }
    ensures { IfNone result ((tree : Tree) (k : ℕ) → MayNeed need.now tree → place ≤ k
        → found_at text.now tree k ≡ None) }
{
    match need {
        Need::Unknown => Some(usize::MAX),
        Need::Byte { byte, next } => behind_byte(*byte, next, text, place),
        Need::One { here, next } => behind_one(here, next, text, place),
    }
}

/// The place after the next one from here on where the byte stands right before one of `next`.
fn behind_byte(byte: u8, next: &Places, text: &str, place: usize) -> Option<usize>
    requires { place ≤ length text.now }
    ensures { IfNone result (byte < 128
        → IsAbsent (λ x. x == byte) (starts.is_in next.now) text.now place) }
{
    let mut from = place;
    loop {
        let rest = text.as_bytes().split_at(from).1;
        let Some(found) = memchr(byte, rest) else {
            return None;
        };
        from += found + 1;
        if is_in(*next, start_at(text, from)) {
            return Some(from);
        }
    }
}

/// The place after the next one from here on where one of `here` stands right before one of `next`.
fn behind_one(here: &Places, next: &Places, text: &str, place: usize) -> Option<usize>
    ensures { IfNone result (here.now.end ≡ false
        → IsAbsent (starts.is_in here.now) (starts.is_in next.now) text.now place) }
{
    for from in place..text.len() {
        if is_in(*here, start_at(text, from)) && is_in(*next, start_at(text, from + 1)) {
            return Some(from + 1);
        }
    }
    None
}
