//! A shelf while grammars are put onto it.
ghost use Rattle.std.specs.Prelude.{◌≡◌, false, true, [], ◌∷◌, ◌++◌, length, take, None, IfErr, IfOk, OnErr, OnOk};
ghost use Rattle.std.specs.Path.{path_bytes};
ghost use Rattle.syntect_grammar.specs.Folders.{is_grammar_path};
ghost use Rattle.syntect_grammar.specs.PlainText.{plain_text};
ghost use Rattle.syntect_grammar_limits.specs.syntect_grammar_loader.Loading.{loaded};
ghost use Rattle.syntect_grammar_limits.specs.syntect_grammar_loader.LoadingSteps.{Fails, KeepsAtoms};
ghost use Rattle.syntect_shelf.specs.Shelving.{AddsFound, grammars_in, Holds, HoldsPlainText, loading_of, metadata_in, RefusesShelving, ShelvesFolder, StopsShelving};

use crate::below::base::limits::Limits;
use crate::below::base::syntax::ParseSyntaxError;
use crate::below::base::tree::Tree;
use crate::below::base::utils::{Sought, Walk};
use crate::below::scope::repository::ScopeRepository;
use crate::below::values::seq::Seq;
use crate::below::values::text::Text;
use crate::bodies::{no_memory, plain_definition};
use crate::gathering::heads_alone;
use crate::grammar::{Grammar, Loading, Source, head_of};
use crate::heads::head_in;
use crate::linking::builder_of;
use crate::shelf::Shelf;
use std::alloc::{AllocError, Global};
use std::path::Path;
use syntect_grammar::folders::{is_grammar, is_metadata};
use syntect_grammar_limits::folder_error::FolderWithinError;

/// Heads of grammars that are gathered, and where each grammar is.
#[derive(Drop)]
pub struct ShelfBuilder {
    grammars: Seq<Grammar>,
    metadata: Seq<Text>,
    loading: Loading,
}

impl ShelfBuilder {
    /// No grammars. They will be loaded for lines with or without their newlines, within limits.
    pub fn new(alloc: Global, lines_include_newline: bool, limits: &Limits) -> ShelfBuilder
        ensures grammars { grammars_in result ≡ [] }
        ensures metadata { metadata_in result ≡ [] }
        ensures newlines { (loading_of result).lines_include_newline ≡ lines_include_newline }
        ensures limits { (loading_of result).limits ≡ limits.now }
    {
        ShelfBuilder {
            grammars: Seq::new(alloc),
            metadata: Seq::new(alloc),
            loading: Loading {
                lines_include_newline,
                limits: *limits,
            },
        }
    }

    /// Appends a grammar. Without memory the builder stays.
    fn add(&mut self, grammar: Grammar) -> Result<(), AllocError>
        ensures ok { OnOk result (Holds self.old (grammar ∷ []) [] self.new) }
        ensures err { OnErr result (self.new ≡ self.old) }
    {
        self.grammars.push(grammar)?;
        Ok(())
    }

    /// Appends the syntax of plain text, as `SyntaxSetBuilder::add_plain_text_syntax` does.
    pub fn add_plain_text_syntax(
        &mut self,
        alloc: Global,
        repository: &mut ScopeRepository,
    ) -> Result<(), ParseSyntaxError>
        ensures ok { OnOk result
            (HoldsPlainText self.old self.new repository.old repository.new) }
        ensures refused { IfErr result (Fails (loaded plain_text false None repository.old)) }
        ensures err { OnErr result (self.new ≡ self.old) }
        ensures kept { KeepsAtoms repository.old repository.new }
    {
        let syntax = match plain_definition(alloc, repository) {
            Ok(syntax) => syntax,
            Err(e) => return Err(e),
        };
        let head = head_of(alloc, &syntax)?;
        self.add(Grammar {
            head,
            source: Source::PlainText,
        })?;
        Ok(())
    }

    /// Appends the head of the grammar in a file.
    fn add_head<T: Tree>(
        &mut self,
        tree: &T,
        alloc: Global,
        path: Text,
        repository: &mut ScopeRepository,
        room: &mut usize,
    ) -> Result<(), FolderWithinError>
        requires { is_grammar_path path ≡ true }
        ensures ok { OnOk result (AddsFound (T.told tree.now) (path ∷ []) room.old repository.old
            self.old room.new repository.new self.new) }
        ensures err { OnErr result (self.new ≡ self.old) }
        ensures refusal { IfErr result (StopsShelving (T.told tree.now) path room.old) }
        ensures kept { KeepsAtoms repository.old repository.new }
    {
        let head = match head_in(tree, alloc, path.as_str(), repository, room) {
            Ok(head) => head,
            Err(e) => return Err(e),
        };
        match self.grammars.push(Grammar {
            head,
            source: Source::File(path),
        }) {
            Ok(()) => Ok(()),
            Err(_) => Err(no_memory()),
        }
    }

    /// Adds what is in a file, if it is a grammar's or has metadata.
    fn add_file<T: Tree>(
        &mut self,
        tree: &T,
        alloc: Global,
        path: Text,
        repository: &mut ScopeRepository,
        room: &mut usize,
    ) -> Result<(), FolderWithinError>
        ensures ok { OnOk result (AddsFound (T.told tree.now) (path ∷ []) room.old repository.old
            self.old room.new repository.new self.new) }
        ensures err { OnErr result (self.new ≡ self.old) }
        ensures refusal { IfErr result (StopsShelving (T.told tree.now) path room.old) }
        ensures kept { KeepsAtoms repository.old repository.new }
    {
        if is_grammar(path.as_str()) {
            return self.add_head(tree, alloc, path, repository, room);
        }
        if !is_metadata(path.as_str()) {
            return Ok(());
        }
        match self.metadata.push(path) {
            Ok(()) => Ok(()),
            Err(_) => Err(no_memory()),
        }
    }

    /// Adds the heads of the grammars in a folder and in those below it, and where its metadata is,
    /// in the order of `SyntaxSetBuilder::add_from_folder`. A head is what stands before the
    /// contexts: no more of a file is read as YAML, unless a later line has a key too.
    ///
    /// A fault of the walk is `WalkDir`; a file that cannot be read is `Io`, one whose head is none
    /// `ParseSyntax` with its path, and one with which the grammars of the folder would have too
    /// many bytes `LimitReached`. What is before the first fault stays added.
    pub fn add_from_folder<T: Tree>(
        &mut self,
        tree: &T,
        alloc: Global,
        folder: Path<'_>,
        repository: &mut ScopeRepository,
    ) -> Result<(), FolderWithinError>
        ensures ok { OnOk result (ShelvesFolder (T.told tree.now) (path_bytes folder.entry)
            repository.old self.old repository.new self.new) }
        ensures err { IfErr result (λ e. RefusesShelving (T.told tree.now)
            (path_bytes folder.entry) repository.old self.old e repository.new self.new) }
        ensures kept { KeepsAtoms repository.old repository.new }
    {
        let mut room = self.loading.limits.folder;
        let mut walk = match Walk::new(tree, alloc, folder, Sought::Grammars) {
            Ok(walk) => walk,
            Err(e) => return Err(FolderWithinError::Refused(e)),
        };
        'files: loop {
            let path = match walk.next_file(tree, alloc) {
                Ok(Some(path)) => path,
                Ok(None) => return Ok(()),
                Err(e) => return Err(FolderWithinError::Refused(e)),
            };
            match self.add_file(tree, alloc, path, repository, &mut room) {
                Ok(()) => {}
                Err(e) => return Err(e),
            }
        }
    }

    /// The shelf.
    pub fn build(self, alloc: Global, repository: &mut ScopeRepository) -> Result<Shelf, AllocError>
        ensures grammars { IfOk result (λ s. s.grammars ≡ grammars_in self) }
        ensures metadata { IfOk result (λ s. s.metadata ≡ metadata_in self) }
        ensures loading { IfOk result (λ s. s.loading ≡ loading_of self) }
        ensures kept { take (length repository.old) repository.new ≡ repository.old }
    {
        repository.is_whole();
        let ShelfBuilder {
            grammars,
            metadata,
            loading,
        } = self;
        let heads = heads_alone(alloc, grammars.as_slice())?.definitions;
        let heads = builder_of(alloc, heads, grammars.as_slice())?.build(alloc, repository)?;
        Ok(Shelf {
            grammars,
            heads,
            metadata,
            loading,
        })
    }
}
