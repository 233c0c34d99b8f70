//! Classes of scopes.
ghost use Rattle.std.specs.Prelude.{◌≡◌, ◌++◌, string_bytes, OnOk};
ghost use Rattle.syntect_writers.specs.Classes.{prefix_of, class_text, classes_text, opening_tag};

use crate::escape::push_escaped;
use crate::syntect_scope::repository::ScopeRepository;
use crate::syntect_scope::scope::Scope;
use std::alloc::AllocError;

/// How the classes of a scope are named.
#[derive(Clone, Copy, Debug, PartialEq, Eq)]
pub enum ClassStyle {
    /// By its atoms.
    Spaced,
    /// By its atoms, each with a prefix.
    SpacedPrefixed {
        /// What stands before each atom.
        prefix: &'static str,
    },
}

impl ClassStyle {
    /// What stands before each atom.
    pub fn prefix(self) -> &'static str
        ensures { result.now ≡ prefix_of self }
    {
        match self {
            ClassStyle::Spaced => "",
            ClassStyle::SpacedPrefixed { prefix } => prefix,
        }
    }
}

/// Appends the class of an atom.
fn push_class(
    out: &mut String,
    prefix: &str,
    repository: &ScopeRepository,
    atom: u16,
) -> Result<(), AllocError>
    ensures { OnOk result (string_bytes out.new ≡ string_bytes out.old
        ++ class_text prefix.now repository.now atom) }
{
    push_escaped(out, prefix)?;
    push_escaped(out, repository.atom_or_mark(atom))
}

/// Appends the classes of a scope.
fn push_classes(
    out: &mut String,
    prefix: &str,
    repository: &ScopeRepository,
    scope: Scope,
) -> Result<(), AllocError>
    ensures { OnOk result (string_bytes out.new ≡ string_bytes out.old
        ++ classes_text prefix.now repository.now scope) }
{
    let count = scope.len() as usize;
    if count == 0 {
        return Ok(());
    }
    push_class(out, prefix, repository, scope.atom_at(0))?;
    for place in 1..count {
        out.push(' ')?;
        push_class(out, prefix, repository, scope.atom_at(place))?;
    }
    Ok(())
}

/// Appends the tag that opens the span of a scope.
pub(crate) fn push_opening(
    out: &mut String,
    prefix: &str,
    repository: &ScopeRepository,
    scope: Scope,
) -> Result<(), AllocError>
    ensures { OnOk result (string_bytes out.new ≡ string_bytes out.old
        ++ opening_tag prefix.now repository.now scope) }
{
    out.push_str("<span class=\"")?;
    push_classes(out, prefix, repository, scope)?;
    out.push_str("\">")
}
