//! A few letters in a row, which take no memory of their own.
ghost use Rattle.std.specs.Prelude.{◌≡◌, ◌∷◌, [], drop, length, IfNone, IfSome};
ghost use Rattle.syntect_pattern.specs.Letters.{letters_of};

/// How many letters there are at most besides the first one.
pub const MOST: usize = 12;

/// One letter or more in a row, each a character up to U+00FF, with `fold` any that simple folding
/// makes equal to it.
#[derive(Clone, Copy, Debug)]
pub struct Letters {
    pub fold: bool,
    /// The first letter.
    pub first: u8,
    /// From where on the others stand in their array.
    pub from: u8,
    /// The letters after the first, at the array's end, one after the other.
    pub others: [u8; MOST],
}

impl Letters {
    /// A single letter.
    pub fn one(fold: bool, letter: u8) -> Letters
        ensures fold { result.fold ≡ fold }
        ensures letters { letters_of result ≡ letter ∷ [] }
    {
        Letters {
            fold,
            first: letter,
            from: MOST as u8,
            others: [0; MOST],
        }
    }

    /// These letters with one more in front, if there is room for it.
    pub fn with_first(self, letter: u8) -> Option<Letters>
        ensures fold { IfSome result (λ more. more.fold ≡ self.fold) }
        ensures letters { IfSome result (λ more. letters_of more ≡ letter ∷ letters_of self) }
        ensures none { IfNone result (length (letters_of self) ≡ 13) }
    {
        let from = (self.from as usize).min(MOST);
        if from == 0 {
            return None;
        }
        let mut others = self.others;
        others[from - 1] = self.first;
        Some(Letters {
            fold: self.fold,
            first: letter,
            from: (from - 1) as u8,
            others,
        })
    }

    /// The letters after the first one.
    pub fn others(&self) -> &[u8]
        ensures { result.now ≡ drop self.now.from self.now.others }
    {
        self.others.split_at((self.from as usize).min(MOST)).1
    }
}
