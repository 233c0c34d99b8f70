//! Laws of styles.
ghost use Rattle.std.specs.Prelude.{◌≡◌, ◌≢◌, ℕ, [], List, IsSomeAnd};
ghost use Rattle.syntect_style.specs.Candidates.{Candidate, prevailing};
ghost use Rattle.syntect_style.specs.Laws.{IsGreatest};
ghost use Rattle.syntect_style.specs.Styling.{default_style, style_of, winners};
ghost use Rattle.syntect_theme.specs.Modifying.{restyled};
ghost use Rattle.syntect_theme.specs.declared.theme.Theme.{Theme};

/// Where there is a candidate for an attribute, one prevails, and the default does not stand. It is
/// among the candidates, and none of them beats it.
#[tactic(auto, using(crate::proofs::ContestLaws::one_prevails))]
pub fn one_prevails<V>()
    ensures { (cs : List (Candidate V)) → cs ≢ [] → IsSomeAnd (prevailing cs) (IsGreatest V cs) }
{}

/// The default, changed by what `style_mod_for_stack` answers, is what `style_for_stack` answers.
pub fn modifier_makes_style()
    ensures { (theme : Theme) (stack : List (List ℕ))
        → restyled (winners theme stack) (default_style theme) ≡ style_of theme stack }
{}
