//! The syntax of text without markup.
ghost use Rattle.std.specs.Prelude.{◌≡◌, false, None, IfErr, OnErr, OnOk};
ghost use Rattle.syntect_grammar_loader.specs.Loading.{loaded};
ghost use Rattle.syntect_grammar_loader.specs.LoadingSteps.{Fails, KeepsAtoms};
ghost use Rattle.syntect_grammar.specs.Metadata.{entries_in, kept_sets};
ghost use Rattle.syntect_grammar.specs.PlainText.{plain_text, AddsPlainText};

use crate::below::base::syntax::ParseSyntaxError;
use crate::below::scope::repository::ScopeRepository;
use crate::syntax_definition::SyntaxDefinition;
use crate::syntax_set::SyntaxSetBuilder;
use std::alloc::Global;

impl SyntaxSetBuilder {
    /// Appends the syntax of plain text: named `Plain Text`, with file extension `txt` and scope
    /// `text.plain`, the only one that it gives. `InvalidScope` where the repository has no room
    /// for its atoms. After a refusal the builder is as it was; the repository may have more atoms.
    pub fn add_plain_text_syntax(
        &mut self,
        alloc: Global,
        repository: &mut ScopeRepository,
    ) -> Result<(), ParseSyntaxError>
        ensures ok { OnOk result (AddsPlainText self.old self.new repository.old repository.new) }
        ensures refused { IfErr result (Fails (loaded plain_text false None repository.old)) }
        ensures entries { entries_in self.new ≡ entries_in self.old }
        ensures metadata { kept_sets self.new ≡ kept_sets self.old }
        ensures err { OnErr result (self.new ≡ self.old) }
        ensures kept { KeepsAtoms repository.old repository.new }
    {
        let loaded = SyntaxDefinition::load_from_str(
            alloc,
            "---\nname: Plain Text\nfile_extensions: [txt]\nscope: text.plain\ncontexts: {main: []}",
            false,
            None,
            repository,
        );
        let syntax = match loaded {
            Ok(syntax) => syntax,
            Err(e) => return Err(e),
        };
        self.add(syntax)?;
        Ok(())
    }
}
