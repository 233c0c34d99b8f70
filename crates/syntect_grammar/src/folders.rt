//! Grammars and metadata from the files of folders.
ghost use Rattle.std.specs.Prelude.{◌≡◌, ◌≢◌, ℕ, true, false, List, [], ◌∷◌, IfOk, OnOk, IfErr, OnErr};
ghost use Rattle.std.specs.Path.{path_bytes};
ghost use Rattle.syntect_grammar.specs.syntect_base.declared.loading.LoadingError.TheVariants.{Memory};
ghost use Rattle.syntect_grammar.specs.Folders.{is_grammar_path, is_metadata_path, AddsMetadata, AddsSyntaxes, StopsFile, AddsFolder, RefusesFolder, no_definitions};
ghost use Rattle.syntect_grammar.specs.Link.{definitions_in, paths_in, syntaxes_in, set_paths, linked};
ghost use Rattle.syntect_grammar.specs.Metadata.{metadata_in, IsMergedOf};
ghost use Rattle.syntect_grammar_loader.specs.LoadingSteps.{KeepsAtoms};
ghost use Rattle.syntect_grammar.specs.declared.syntax_set.SyntaxSetBuilder.{SyntaxSetBuilder as ABuilder};

use crate::below::base::loading::LoadingError;
use crate::below::base::tree::Tree;
use crate::below::base::utils::{Sought, Walk};
use crate::below::scope::repository::ScopeRepository;
use crate::below::values::text::Text;
use crate::syntax_set::{SyntaxSet, SyntaxSetBuilder};
use std::alloc::Global;
use std::path::Path;
use syntect_grammar_loader::files::load_file;
use syntect_metadata::raw::RawMetadataEntry;

/// Whether a file is a grammar's: its extension is `sublime-syntax`, in this case.
pub fn is_grammar(path: &str) -> bool
    ensures { result ≡ is_grammar_path path.now }
{
    match Path::new(path).extension() {
        Some(extension) => extension == "sublime-syntax",
        None => false,
    }
}

/// Whether a file has metadata: its extension is `tmPreferences`, in this case.
pub fn is_metadata(path: &str) -> bool
    ensures { result ≡ is_metadata_path path.now }
{
    let Some(extension) = Path::new(path).extension() else {
        return false;
    };
    extension == "tmPreferences"
}

impl SyntaxSetBuilder {
    /// Adds the grammars and metadata in a folder and those below it, in the order of a walk: a
    /// folder's entries in byte order of their names, a subfolder's files at its place. A grammar's
    /// file has the extension `sublime-syntax`, in this case; a syntax without a name has its
    /// file's. Each is kept under its path: the folder's text and the names, joined by `/`.
    /// Metadata has the extension `tmPreferences`; a file of it that gives no entry is passed over.
    /// `lines_include_newline` is as for `load_from_str`.
    ///
    /// A fault of the walk is `WalkDir`; a file that cannot be read, or isn't UTF-8, is `Io`, and
    /// one that is no grammar is `ParseSyntax` with its path. What was met before stays added.
    pub fn add_from_folder<T: Tree>(
        &mut self,
        tree: &T,
        alloc: Global,
        folder: Path<'_>,
        lines_include_newline: bool,
        repository: &mut ScopeRepository,
    ) -> Result<(), LoadingError>
        ensures ok { OnOk result (AddsFolder (T.told tree.now) lines_include_newline
            (path_bytes folder.entry) repository.old self.old repository.new self.new) }
        ensures err { IfErr result (λ e.
            RefusesFolder (T.told tree.now) lines_include_newline
            (path_bytes folder.entry) repository.old self.old e repository.new self.new) }
        ensures kept { KeepsAtoms repository.old repository.new }
    {
        let mut walk = match Walk::new(tree, alloc, folder, Sought::Grammars) {
            Ok(walk) => walk,
            Err(e) => return Err(e),
        };
        'files: loop {
            let path = match walk.next_file(tree, alloc) {
                Ok(Some(path)) => path,
                Ok(None) => return Ok(()),
                Err(e) => return Err(e),
            };
            match self.add_file(
                tree,
                alloc,
                path.as_str(),
                lines_include_newline,
                repository,
            ) {
                Ok(()) => {}
                Err(e) => return Err(e),
            }
        }
    }

    #[tactic(auto, using(crate::proofs::FolderLaws::passes_over, crate::proofs::FolderLaws::adds_metadata, crate::proofs::FolderLaws::no_room))]
    /// Adds what is in a file, if it is a grammar's or has metadata.
    fn add_file<T: Tree>(
        &mut self,
        tree: &T,
        alloc: Global,
        path: &str,
        lines_include_newline: bool,
        repository: &mut ScopeRepository,
    ) -> Result<(), LoadingError>
        ensures ok { OnOk result
            (AddsSyntaxes (T.told tree.now) lines_include_newline
            (path.now ∷ []) repository.old self.old repository.new self.new) }
        ensures err { OnErr result (self.new ≡ self.old) }
        ensures refusal { IfErr result
            (StopsFile (T.told tree.now) lines_include_newline path.now repository.old) }
        ensures kept { KeepsAtoms repository.old repository.new }
    {
        if is_grammar(path) {
            return self.add_grammar(tree, alloc, path, lines_include_newline, repository);
        }
        if is_metadata(path) {
            return self.add_metadata(tree, alloc, path);
        }
        Ok(())
    }

    /// Adds the entry in a file of metadata, which is passed over where it gives none.
    #[tactic(auto, using(crate::proofs::FolderLaws::one_entry))]
    pub fn add_metadata<T: Tree>(
        &mut self,
        tree: &T,
        alloc: Global,
        path: &str,
    ) -> Result<(), LoadingError>
        ensures ok { OnOk result
            (AddsMetadata (T.told tree.now) path.now self.old self.new) }
        ensures err { OnErr result (self.new ≡ self.old) }
        ensures memory { IfErr result (λ e. e ≡ Memory) }
    {
        match RawMetadataEntry::load(tree, alloc, Path::new(path)) {
            Ok(entry) => match self.add_entry(entry) {
                Ok(()) => Ok(()),
                Err(_) => Err(LoadingError::Memory),
            },
            Err(LoadingError::Memory) => Err(LoadingError::Memory),
            Err(_fault) => Ok(()),
        }
    }

    /// Adds the grammar of a file.
    fn add_grammar<T: Tree>(
        &mut self,
        tree: &T,
        alloc: Global,
        path: &str,
        lines_include_newline: bool,
        repository: &mut ScopeRepository,
    ) -> Result<(), LoadingError>
        requires { is_grammar_path path.now ≡ true }
        ensures ok { OnOk result
            (AddsSyntaxes (T.told tree.now) lines_include_newline
            (path.now ∷ []) repository.old self.old repository.new self.new) }
        ensures err { OnErr result (self.new ≡ self.old) }
        ensures refusal { IfErr result
            (StopsFile (T.told tree.now) lines_include_newline path.now repository.old) }
        ensures kept { KeepsAtoms repository.old repository.new }
    {
        let syntax = match load_file(tree, alloc, path, lines_include_newline, repository) {
            Ok(syntax) => syntax,
            Err(e) => return Err(e),
        };
        let Ok(path) = Text::from_str(alloc, path) else {
            return Err(LoadingError::Memory);
        };
        match self.add_loaded(syntax, path) {
            Ok(()) => Ok(()),
            Err(_) => Err(LoadingError::Memory),
        }
    }
}

impl SyntaxSet {
    /// The set of the grammars and metadata in and below a folder, for lines without line feeds: as
    /// `add_from_folder` adds and `build` links them. Lines with line feeds, as `LinesWithEndings`
    /// gives, it colours wrongly and without notice: call `add_from_folder` with `true` for them.
    #[tactic(auto, using(crate::proofs::FolderLaws::keeps_all))]
    pub fn load_from_folder<T: Tree>(
        tree: &T,
        alloc: Global,
        folder: Path<'_>,
        repository: &mut ScopeRepository,
    ) -> Result<SyntaxSet, LoadingError>
        ensures ok { IfOk result (λ set. (builder : ABuilder) × (left : List (List ℕ))
            × AddsFolder (T.told tree.now) false (path_bytes folder.entry) repository.old
            no_definitions left builder
            × (syntaxes_in set ≡ linked (definitions_in builder))
            × (set_paths set ≡ paths_in builder)
            × IsMergedOf left builder repository.new (metadata_in set)) }
        ensures err { IfErr result (λ e. e ≢ Memory → (builder : ABuilder)
            × RefusesFolder (T.told tree.now) false (path_bytes folder.entry) repository.old
            no_definitions e repository.new builder) }
        ensures kept { KeepsAtoms repository.old repository.new }
    {
        let mut builder = SyntaxSetBuilder::new(alloc);
        match builder.add_from_folder(tree, alloc, folder, false, repository) {
            Ok(()) => {}
            Err(e) => return Err(e),
        }
        match builder.build(alloc, repository) {
            Ok(set) => Ok(set),
            Err(_) => Err(LoadingError::Memory),
        }
    }
}
