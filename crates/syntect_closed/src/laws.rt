//! Laws of sets in which some syntaxes stand as heads alone.
ghost use Rattle.syntect_closed.specs.Closed.{ClosedReadAlike};
ghost use Rattle.syntect_closed.specs.Found.{HeadsFindAlike, ShelvedHaveHeads};
ghost use Rattle.syntect_closed.specs.Shelved.{ShelvedAgree, ShelvedReadAlike};

/// Two sets that agree in a closed part of one of them answer lines alike there.
pub fn closed_read_alike()
    ensures { ClosedReadAlike }
{}

/// The contexts of whole syntaxes that lead to whole ones are linked as in the set of all.
pub fn shelved_agree()
    ensures { ShelvedAgree }
{}

/// A set in which syntaxes stand as heads alone that are not reached answers lines as the set of all.
pub fn shelved_read_alike()
    ensures { ShelvedReadAlike }
{}

/// Finders look at heads alone.
pub fn heads_find_alike()
    ensures { HeadsFindAlike }
{}

/// A set in which some syntaxes stand as heads alone has the heads of the set of all.
pub fn shelved_have_heads()
    ensures { ShelvedHaveHeads }
{}
