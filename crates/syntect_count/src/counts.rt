//! Counts that are added.
ghost use Rattle.std.specs.Prelude.{◌≡◌, ◌+◌};

use crate::count::GhostCount;

/// As many more as the other count has, which stays.
pub fn add(count: &mut GhostCount, more: &GhostCount)
    ensures { count.new.made ≡ count.old.made + more.now.made }
{}
