//! Scores: whole numbers of any size.
ghost use Rattle.std.specs.Prelude.{◌≡◌, ◌==◌, ◌<◌, ◌≤◌, ◌+◌, ◌-◌, ◌*◌, ◌^◌, ℕ, List, [], length, max, IfSome, IfNone, IfOk, OnOk, OnErr, vec_capacity, slice_index};
ghost use Rattle.std.specs.Ordering.{nat_cmp, as_partial_cmp};
ghost use Rattle.std.proofs.Common.{rules};
ghost use Rattle.std.specs.Cmp.{partial_order_from_own_ties};
ghost use Rattle.std.specs.Cmp.Rules.{comparing, hashing};
ghost use Rattle.syntect_scope.specs.Digits.{number_of, AreDigits, IsNormal};

use std::alloc::{AllocError, Global};
use std::cmp::Ordering;
use std::marker::Model;

/// The score of a selector, an exact whole number. The score of a path is a sum of
/// `count * 8^place`, and the place is a depth in a stack, so that no machine number holds it.
#[derive(Debug, Drop)]
pub struct MatchPower {
    /// The base-8 digits, the lowest first, without zeros at the end.
    digits: Vec<u8>,
}

impl Model for MatchPower {
    ghost use Rattle.std.specs.Prelude.{ℕ};

    ghost Value = { ℕ };

    ghost use Rattle.syntect_scope.specs.Digits.{number_of, IsNormal};

    ghost view = { λ a. number_of a.digits.items };

    ghost invariant = { λ a. IsNormal a.digits.items };
}

/// How many digits a `u32` can have.
const COUNT_DIGITS: usize = 11;

/// Adds zeros at the end, up to `n` digits, for which there is room.
#[tactic(auto, using(crate::proofs::DigitLaws::push_digit, crate::proofs::DigitLaws::digits_push))]
fn pad(digits: &mut Vec<u8>, n: usize)
    requires room { n ≤ vec_capacity digits.old }
    requires digits { AreDigits digits.old.items }
    ensures value { number_of digits.new.items ≡ number_of digits.old.items }
    ensures digits { AreDigits digits.new.items }
    ensures len { length digits.new.items ≡ max (length digits.old.items) n }
    ensures kept { n ≤ length digits.old.items → digits.new.items ≡ digits.old.items }
    ensures room { vec_capacity digits.new ≡ vec_capacity digits.old }
{
    while digits.len() < n {
        digits.push_reserved(0);
    }
}

/// Adds a number that isn't 0 at a place up to the end of the digits, with room for the sum. The
/// highest digit isn't 0 then, if the place is the end or it wasn't 0 before.
fn add_at(digits: &mut Vec<u8>, count: u32, place: usize)
    requires some { 0 < count }
    requires within { place ≤ length digits.old.items }
    requires room { number_of digits.old.items + count * 8 ^ place < 8 ^ vec_capacity digits.old }
    requires digits { AreDigits digits.old.items }
    requires highest { place < length digits.old.items
        → 0 < slice_index digits.old.items (length digits.old.items - 1) }
    ensures value { number_of digits.new.items ≡ number_of digits.old.items + count * 8 ^ place }
    ensures normal { IsNormal digits.new.items }
{
    let mut rest = u64::from(count);
    let mut i = place;
    while rest > 0 {
        if i < digits.len() {
            let sum = rest + u64::from(digits[i]);
            digits[i] = (sum % 8) as u8;
            rest = sum / 8;
        } else {
            digits.push_reserved((rest % 8) as u8);
            rest /= 8;
        }
        i += 1;
    }
}

/// Compares two numbers of as many digits, from the highest digit down.
fn compare(a: &[u8], b: &[u8]) -> Ordering
    requires len { length a.now ≡ length b.now }
    requires a { AreDigits a.now }
    requires b { AreDigits b.now }
    ensures { result ≡ nat_cmp (number_of a.now) (number_of b.now) }
{
    let mut i = a.len();
    while i > 0 {
        i -= 1;
        if a[i] != b[i] {
            return a[i].cmp(&b[i]);
        }
    }
    Ordering::Equal
}

/// The number that digits write, where it is less than 2^64.
fn small_number(digits: &[u8]) -> Option<u64>
    ensures fits { IfSome result (λ number. number ≡ number_of digits.now) }
    ensures too_large { IfNone result (2 ^ 64 ≤ number_of digits.now) }
{
    let mut number = 0u64;
    let mut i = digits.len();
    while i > 0 {
        i -= 1;
        number = number.checked_mul(8)?.checked_add(u64::from(digits[i]))?;
    }
    Some(number)
}

impl MatchPower {
    /// Zero. Takes no memory.
    pub fn new(alloc: Global) -> MatchPower
        ensures { result ≡ 0 }
    {
        MatchPower {
            digits: Vec::new(alloc),
        }
    }

    /// A number.
    pub fn from_u64(alloc: Global, number: u64) -> Result<MatchPower, AllocError>
        ensures { IfOk result (λ power. power ≡ number) }
    {
        let mut digits = Vec::new(alloc);
        let mut rest = number;
        while rest > 0 {
            digits.push((rest % 8) as u8)?;
            rest /= 8;
        }
        Ok(MatchPower { digits })
    }

    /// A copy of the number.
    pub fn clone(&self) -> Result<MatchPower, AllocError>
        ensures { IfOk result (λ power. power ≡ self.now) }
    {
        Ok(MatchPower {
            digits: Vec::from_slice(*self.digits.allocator(), self.digits.as_slice())?,
        })
    }

    /// The number, where it is less than 2^64. Takes no memory.
    pub fn to_u64(&self) -> Option<u64>
        ensures fits { IfSome result (λ number. number ≡ self.now) }
        ensures too_large { IfNone result (2 ^ 64 ≤ self.now) }
    {
        small_number(self.digits.as_slice())
    }

    /// Adds `count * 8^place`. Without memory for the sum the number stays.
    pub fn add(&mut self, count: u32, place: usize) -> Result<(), AllocError>
        ensures ok { OnOk result (self.new ≡ self.old + count * 8 ^ place) }
        ensures err { OnErr result (self.new ≡ self.old) }
    {
        let _ = &self.digits;
        if count == 0 {
            return Ok(());
        }
        let Some(top) = place.checked_add(COUNT_DIGITS + 1) else {
            // No vector has so much room: let the allocator say so.
            self.digits.reserve(usize::MAX)?;
            return Err(AllocError);
        };
        let len = self.digits.len();
        self.digits.reserve(top.max(len + 1) - len)?;
        pad(&mut self.digits, place);
        add_at(&mut self.digits, count, place);
        Ok(())
    }
}

impl PartialEq for MatchPower {
    ghost eq = { ◌==◌ };

    ghost laws = { Prim.search (comparing, rules) };

    fn eq(&self, other: &MatchPower) -> bool {
        self.digits == other.digits
    }
}

impl Eq for MatchPower {
    ghost laws = { Prim.search (comparing, rules) };
}

impl Ord for MatchPower {
    ghost cmp = { nat_cmp };

    ghost total = { Prim.search (comparing, rules) };

    ghost matches_partial_cmp = { Prim.search (comparing, rules) };

    ghost matches_eq = { Prim.search (comparing, rules) };

    fn cmp(&self, other: &MatchPower) -> Ordering {
        match self.digits.len().cmp(&other.digits.len()) {
            Ordering::Equal => compare(self.digits.as_slice(), other.digits.as_slice()),
            unequal => unequal,
        }
    }
}

impl PartialOrd for MatchPower {
    ghost partial_cmp = { as_partial_cmp nat_cmp };

    ghost laws = { partial_order_from_own_ties (Prim.search (comparing, rules))
        (Prim.search (comparing, rules)) };

    fn partial_cmp(&self, other: &MatchPower) -> Option<Ordering> {
        Some(self.cmp(other))
    }
}

impl Clone for MatchPower {
    ghost is_clone = { λ x y. y ≡ x };

    fn clone(&self) -> Result<MatchPower, AllocError> {
        MatchPower::clone(self)
    }
}
