//! Calculations with flags of fonts.
ghost use Rattle.std.specs.Prelude.{◌≡◌, ◌≢◌, ◌↔◌, IsTrue, ◌==◌, List, bit_and, bit_or, bit_xor, if◌then◌else◌};
ghost use Rattle.syntect_theme.specs.Flags.{all_bits, bits_without, flags, flags_of_bits, Inserts};
ghost use Rattle.syntect_theme.specs.Modifying.{bits_of, no_flags};

use crate::style::FontStyle;
use std::alloc::{AllocError, Global};
use std::ops::{
    BitAnd, BitAndAssign, BitOr, BitOrAssign, BitXor, BitXorAssign, Not, Sub, SubAssign,
};

impl FontStyle {
    /// Bold, underlined and italic.
    pub const fn all() -> FontStyle
        ensures { bits_of result ≡ all_bits }
    {
        FontStyle::from_bits_unchecked(7)
    }

    /// The flags of these bits; `None` where a bit is no flag's.
    pub const fn from_bits(bits: u8) -> Option<FontStyle>
        ensures { result ≡ flags_of_bits bits }
    {
        if bits <= 7 {
            Some(FontStyle::from_bits_unchecked(bits))
        } else {
            None
        }
    }

    /// The flags of these bits, without bits that are no flag's.
    pub const fn from_bits_truncate(bits: u8) -> FontStyle
        ensures { bits_of result ≡ bit_and bits all_bits }
    {
        FontStyle::from_bits_unchecked(bits & 7)
    }

    /// Whether there is no bit.
    pub const fn is_empty(&self) -> bool
        ensures { result ≡ (bits_of self.now == 0) }
    {
        self.bits() == 0
    }

    /// Whether these are all flags, and no other bit.
    pub const fn is_all(&self) -> bool
        ensures { result ≡ (bits_of self.now == all_bits) }
    {
        self.bits() == 7
    }

    /// Whether a bit is in both.
    pub const fn intersects(&self, other: FontStyle) -> bool
        ensures { IsTrue result ↔ (bit_and (bits_of self.now) (bits_of other) ≢ 0) }
    {
        self.bits() & other.bits() != 0
    }

    /// Removes the flags of the other.
    pub fn remove(&mut self, other: FontStyle)
        ensures { bits_of self.new ≡ bits_without (bits_of self.old) (bits_of other) }
    {
        *self = self.difference(other);
    }

    /// Removes the flags of the other that are there, and adds those that are not.
    pub fn toggle(&mut self, other: FontStyle)
        ensures { bits_of self.new ≡ bit_xor (bits_of self.old) (bits_of other) }
    {
        *self = self.symmetric_difference(other);
    }

    /// Adds the flags of the other, or removes them.
    pub fn set(&mut self, other: FontStyle, value: bool)
        ensures { bits_of self.new
            ≡ (if value then bit_or (bits_of self.old) (bits_of other)
            else bits_without (bits_of self.old) (bits_of other)) }
    {
        if value {
            self.insert(other);
        } else {
            self.remove(other);
        }
    }

    /// The bits that are in both.
    pub const fn intersection(self, other: FontStyle) -> FontStyle
        ensures { bits_of result ≡ bit_and (bits_of self) (bits_of other) }
    {
        FontStyle::from_bits_unchecked(self.bits() & other.bits())
    }

    /// The bits that are in one of the two.
    pub const fn union(self, other: FontStyle) -> FontStyle
        ensures { bits_of result ≡ bit_or (bits_of self) (bits_of other) }
    {
        FontStyle::from_bits_unchecked(self.bits() | other.bits())
    }

    /// The bits that the other lacks.
    pub const fn difference(self, other: FontStyle) -> FontStyle
        ensures { bits_of result ≡ bits_without (bits_of self) (bits_of other) }
    {
        FontStyle::from_bits_unchecked(self.bits() & !other.bits())
    }

    /// The bits that are in just one of the two.
    pub const fn symmetric_difference(self, other: FontStyle) -> FontStyle
        ensures { bits_of result ≡ bit_xor (bits_of self) (bits_of other) }
    {
        FontStyle::from_bits_unchecked(self.bits() ^ other.bits())
    }

    /// The flags that these lack.
    pub const fn complement(self) -> FontStyle
        ensures { bits_of result ≡ bits_without all_bits (bits_of self) }
    {
        FontStyle::all().difference(self)
    }
}

impl BitOr for FontStyle {
    type Output = FontStyle;

    ghost bitor_gives = { λ f g r. bits_of r ≡ bit_or (bits_of f) (bits_of g) };

    fn bitor(self, other: FontStyle) -> FontStyle {
        self.union(other)
    }
}

impl BitOrAssign for FontStyle {
    ghost bitor_assign_gives = { λ f g r. bits_of r ≡ bit_or (bits_of f) (bits_of g) };

    fn bitor_assign(&mut self, other: FontStyle) {
        self.insert(other);
    }
}

impl BitXor for FontStyle {
    type Output = FontStyle;

    ghost bitxor_gives = { λ f g r. bits_of r ≡ bit_xor (bits_of f) (bits_of g) };

    fn bitxor(self, other: FontStyle) -> FontStyle {
        self.symmetric_difference(other)
    }
}

impl BitXorAssign for FontStyle {
    ghost bitxor_assign_gives = { λ f g r. bits_of r ≡ bit_xor (bits_of f) (bits_of g) };

    fn bitxor_assign(&mut self, other: FontStyle) {
        self.toggle(other);
    }
}

impl BitAnd for FontStyle {
    type Output = FontStyle;

    ghost bitand_gives = { λ f g r. bits_of r ≡ bit_and (bits_of f) (bits_of g) };

    fn bitand(self, other: FontStyle) -> FontStyle {
        self.intersection(other)
    }
}

impl BitAndAssign for FontStyle {
    ghost bitand_assign_gives = { λ f g r. bits_of r ≡ bit_and (bits_of f) (bits_of g) };

    fn bitand_assign(&mut self, other: FontStyle) {
        *self = self.intersection(other);
    }
}

impl Sub for FontStyle {
    type Output = FontStyle;

    ghost sub_gives = { λ f g r. bits_of r ≡ bits_without (bits_of f) (bits_of g) };

    fn sub(self, other: FontStyle) -> FontStyle {
        self.difference(other)
    }
}

impl SubAssign for FontStyle {
    ghost sub_assign_gives = { λ f g r. bits_of r ≡ bits_without (bits_of f) (bits_of g) };

    fn sub_assign(&mut self, other: FontStyle) {
        self.remove(other);
    }
}

impl Not for FontStyle {
    type Output = FontStyle;

    ghost not_gives = { λ f r. bits_of r ≡ bits_without all_bits (bits_of f) };

    fn not(self) -> FontStyle {
        self.complement()
    }
}

impl Extend<FontStyle> for FontStyle {
    ghost extend_gives = { Inserts };

    #[tactic(auto, using(crate::proofs::FlagLaws::with_last))]
    fn extend<U: IntoIterator<Item = FontStyle>>(&mut self, iter: U) -> Result<(), AllocError> {
        for flags in iter {
            self.insert(flags);
        }
        Ok(())
    }
}

impl FromIterator<FontStyle> for FontStyle {
    type Alloc = Global;

    ghost from_iter_gives = { Inserts no_flags };

    fn from_iter<U: IntoIterator<Item = FontStyle>>(
        _alloc: Global,
        iter: U,
    ) -> Result<FontStyle, AllocError> {
        let mut flags = FontStyle::empty();
        flags.extend(iter)?;
        Ok(flags)
    }
}
