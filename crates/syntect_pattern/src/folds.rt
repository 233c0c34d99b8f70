//! The characters that simple folding makes equal to one.
ghost use Rattle.std.specs.Prelude.{◌≡◌, ◌≤◌, ◌<◌, ◌==◌, ◌&&◌, ℕ, Bool, length, slice_index_or};
ghost use Rattle.std.specs.List.{list_any};
ghost use Rattle.ucd_case.specs.CaseFolding.{fold_pairs};
ghost use Rattle.syntect_pattern.specs.Folds.{NoneFalls};

use unicode::case::fold_pairs;

/// The index of the first pair whose first part isn't below the number, looked for by halves.
fn first_from(pairs: &[(u32, u32)], number: u32) -> usize
    requires { NoneFalls pairs.now }
    ensures few { result ≤ length pairs.now }
    ensures below { (k : ℕ) → k < result → (slice_index_or pairs.now k (0, 0)).0 < number }
    ensures above { (k : ℕ) → result ≤ k → k < length pairs.now
        → number ≤ (slice_index_or pairs.now k (0, 0)).0 }
{
    let mut low = 0;
    let mut high = pairs.len();
    'halves: while low < high {
        let middle = low + (high - low) / 2;
        if pairs[middle].0 < number {
            low = middle + 1;
        } else {
            high = middle;
        }
    }
    low
}

/// The pairs that the character is the first of: those with each other character that simple
/// folding makes equal to it.
pub fn pairs_of(c: char) -> &'static [(u32, u32)]
    ensures { (f : ℕ × ℕ → Bool) → list_any (λ p. (p.0 == c) && f p) result.now
        ≡ list_any (λ p. (p.0 == c) && f p) fold_pairs }
{
    let pairs = fold_pairs();
    let from = first_from(pairs, c as u32);
    let to = first_from(pairs, c as u32 + 1);
    pairs.split_at(to).0.split_at(from).1
}
