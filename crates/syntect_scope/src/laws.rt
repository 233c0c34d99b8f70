//! Laws of the definitions, each the contract of a function that does nothing.
ghost use Rattle.syntect_scope.specs.Laws.{BuildsBack};

/// `to_string` of a scope that `build` made gives the text back, without the dots at its end.
pub fn scopes_build_back()
    ensures { BuildsBack }
{}
