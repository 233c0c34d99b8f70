//! Laws of folders within limits.
ghost use Rattle.syntect_grammar_limits.specs.FoldersWithin.{AddedWithin};

use crate::below::base::tree::Tree;

/// What is added of a folder within limits is what `add_from_folder` adds: what is known of sets
/// that are built of it holds.
pub fn added_within<T: Tree>(tree: &T)
    ensures { AddedWithin (T.told tree.now) }
{
    let _ = tree;
}
