//! What linking left unresolved in a set.
ghost use Rattle.std.specs.Prelude.{◌≡◌, [], map, string_bytes, IfOk};
ghost use Rattle.syntect_grammar.specs.Unlinked.{unlinked_in};
ghost use Rattle.syntect_grammar_linker.specs.Unlinked.{with_texts};

use crate::below::scope::repository::ScopeRepository;
use crate::syntax_set::SyntaxSet;
use std::alloc::{AllocError, Global};
use std::collections::BTreeSet;
use syntect_grammar_linker::unlinked::add_syntax;

impl SyntaxSet {
    /// Texts on unresolved references in pushes and sets, each once; scopes are the repository's.
    pub fn find_unlinked_contexts(
        &self,
        alloc: Global,
        repository: &ScopeRepository,
    ) -> Result<BTreeSet<String>, AllocError>
        ensures { IfOk result (λ texts. map string_bytes texts.keys
            ≡ with_texts [] (unlinked_in repository.now self.now)) }
    {
        let mut out = BTreeSet::new(alloc);
        for syntax in self.syntaxes() {
            add_syntax(alloc, repository, syntax, &mut out)?;
        }
        Ok(out)
    }
}
