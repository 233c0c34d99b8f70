//! Laws of the definitions. Each is the contract of a function that does nothing.
ghost use Rattle.std.specs.Prelude.{◌≡◌, List, ℕ, true, chars};
ghost use Rattle.std.specs.Str.{IsUtf8};
ghost use Rattle.syntect_writers.specs.Comment.{can_be_told, told_name};

/// A theme's name in which nothing has to be left out is kept as it is.
pub fn names_stay()
    ensures { (name : List ℕ) → IsUtf8 name → can_be_told (chars name) ≡ true
        → told_name name ≡ name }
{}
