//! Laws of definitions.
ghost use Rattle.syntect_grammar_loader.specs.Named.{LoadedByName};

/// A definition that was loaded refers to contexts by their names alone.
#[tactic(auto, using(crate::proofs::NamedLaws::loaded_by_name))]
pub fn loaded_by_name()
    ensures { LoadedByName }
{}
