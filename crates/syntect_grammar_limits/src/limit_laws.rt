//! Laws of limits.
ghost use Rattle.syntect_grammar_limits.specs.Fitting.{LimitsTell, BytesCounted};

/// Within limits of patterns a grammar keeps exactly where its patterns do, with their variables
/// expanded and the uses of these counted; where they don't, the limit that is named is passed by
/// the pattern that is named, and those before it fit.
#[tactic(auto, using(crate::proofs::FittingLaws::limits_tell))]
pub fn limits_tell()
    ensures { LimitsTell }
{}

/// A pattern that keeps within a limit has no more bytes than that with its variables expanded.
#[tactic(auto, using(crate::proofs::FittingLaws::bytes_counted))]
pub fn bytes_counted()
    ensures { BytesCounted }
{}
