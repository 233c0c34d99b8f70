//! Laws of loading, which no function needs: how deep contexts nest. Each is the contract of a
//! function that does nothing.
ghost use Rattle.syntect_laws.specs.LoaderLaws.{BoundIsNotReached, DepthIsEnough, DepthIsNotFelt};

use crate::yaml::what_is_read_fits;

/// Contexts nest less deep than the value that they are read from: a bound that is as great as the
/// value is deep gives the same definition or refusal as any greater one.
#[tactic(auto, using(crate::proofs::DepthLaws::depth_is_enough))]
pub fn depth_is_enough()
    ensures { DepthIsEnough }
{}

/// The bound on how deep contexts nest is never felt: a greater one gives no text another
/// definition, and no other refusal.
#[tactic(auto, using(crate::proofs::DepthLaws::depth_is_not_felt))]
pub fn depth_is_not_felt()
    ensures { DepthIsNotFelt }
{
    what_is_read_fits();
}

/// The refusal at that bound is one that no text reaches: whatever is done in its place, each text
/// has the definition or refusal that it has.
#[tactic(auto, using(crate::proofs::DepthLaws::bound_is_not_reached))]
pub fn bound_is_not_reached()
    ensures { BoundIsNotReached }
{
    what_is_read_fits();
}
