//! Scopes and stacks written to a writer.
ghost use Rattle.std.specs.Prelude.{◌++◌, ◌∷◌, [], OnOk};
ghost use Rattle.std.specs.Io.KnownBytes.{Appends};
ghost use Rattle.syntect_scope.specs.Repository.{scope_text, scopes_text};

use crate::repository::ScopeRepository;
use crate::scope::Scope;
use crate::stack::ScopeStack;
use std::io;
use std::io::Write;

impl Scope {
    /// Writes the text of the scope in a repository, as `build_string` has it. Takes no memory; an
    /// `Err` is the writer's.
    pub fn write_to<W: Write>(self, repository: &ScopeRepository, writer: &mut W) -> io::Result<()>
        ensures { OnOk result (Appends (W.contents writer.old) (W.contents writer.new)
            (scope_text repository.now self)) }
    {
        for i in 0..self.len() as usize {
            if i > 0 {
                writer.write_all(b".")?;
            }
            writer.write_all(repository.atom_or_mark(self.atom_at(i)).as_bytes())?;
        }
        Ok(())
    }
}

impl ScopeStack {
    /// Writes the texts of the scopes in a repository, the bottom one first, each followed by one
    /// space, and a newline after them. Takes no memory; an `Err` is the writer's.
    pub fn debug_print<W: Write>(
        &self,
        repository: &ScopeRepository,
        writer: &mut W,
    ) -> io::Result<()>
        ensures { OnOk result (Appends (W.contents writer.old) (W.contents writer.new)
            (scopes_text repository.now self.now.scopes ++ 10 ∷ [])) }
    {
        for scope in self.scopes.as_slice() {
            scope.write_to(repository, writer)?;
            writer.write_all(b" ")?;
        }
        writer.write_all(b"\n")
    }
}
