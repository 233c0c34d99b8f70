//! Scores of single rules.
ghost use Rattle.std.specs.Prelude.{◌+◌, ◌≤◌, ◌<◌, ◌^◌};

use crate::syntect_scope::scope::Scope;
use syntect_theme::style::StyleModifier;

/// A scope with the change that its rule makes.
#[derive(Clone, Copy, Debug)]
pub(crate) struct Rule {
    pub(crate) scope: Scope,
    pub(crate) style: StyleModifier,
}

/// The score of a single rule: a number of atoms times eight to the power of a place.
#[derive(Clone, Copy, Debug)]
pub(crate) struct SingleScore {
    pub(crate) atoms: u32,
    pub(crate) place: usize,
    ghost limit: { atoms ≤ 8 },
    ghost room: { place + 1 < 2 ^ 64 },
}

/// How many base-8 digits a `u64` can have.
const U64_PLACES: usize = 22;

impl SingleScore {
    ghost use Rattle.std.specs.Prelude.{◌≡◌, ◌*◌, ◌+◌, ◌<◌, ◌↔◌, nat_lt};
    ghost use Rattle.syntect_style.specs.Candidates.{beats};
    ghost use Rattle.syntect_style.specs.Rules.{score_from};

    /// The score as digits to the base of eight, of which at most one isn't zero: its place, and
    /// the digit.
    fn leading(&self) -> (usize, u32)
        ensures value { result.1 * 8 ^ result.0 ≡ self.now.atoms * 8 ^ self.now.place }
        ensures digit { result.1 < 8 }
        ensures zero { result.1 ≡ 0 → result.0 ≡ 0 }
    {
        match self.atoms {
            0 => (0, 0),
            8 => (self.place + 1, 1),
            atoms => (self.place, atoms),
        }
    }

    /// Whether it is less than a number.
    pub(crate) fn is_below(&self, number: u64) -> bool
        ensures { result ≡ nat_lt (self.now.atoms * 8 ^ self.now.place) number }
    {
        let (place, digit) = self.leading();
        if digit == 0 {
            return number > 0;
        }
        if place >= U64_PLACES {
            return false;
        }
        u128::from(digit) * 8u128.pow(place as u32) < u128::from(number)
    }

    /// Whether it is the greater one, or an equal one at a lower place.
    pub(crate) fn beats(&self, other: &SingleScore) -> bool
        ensures { result ≡ beats (score_from self.now) (score_from other.now) }
    {
        let (place, digit) = self.leading();
        let (other_place, other_digit) = other.leading();
        if place != other_place {
            place > other_place
        } else if digit != other_digit {
            digit > other_digit
        } else {
            self.place < other.place
        }
    }
}
