//! Grammars and metadata from the files of folders, within limits.
ghost use Rattle.std.specs.Prelude.{◌≡◌, [], ◌∷◌, OnOk, IfErr, OnErr, true};
ghost use Rattle.std.specs.Path.{path_bytes};
ghost use Rattle.syntect_grammar_limits.specs.FoldersWithin.{AddsWithin, StopsWithin, AddsFolderWithin, RefusesFolderWithin};
ghost use Rattle.syntect_grammar.specs.Folders.{is_grammar_path};
ghost use Rattle.syntect_grammar_limits.specs.syntect_grammar_loader.LoadingSteps.{KeepsAtoms};

use crate::below::base::limits::Limits;
use crate::below::base::loading::LoadingError;
use crate::below::base::tree::Tree;
use crate::below::base::utils::{Sought, Walk};
use crate::below::scope::repository::ScopeRepository;
use crate::below::values::text::Text;
use crate::files::load_file_within;
use crate::folder_error::FolderWithinError;
use std::alloc::Global;
use std::path::Path;
use syntect_grammar::folders::{is_grammar, is_metadata};
use syntect_grammar::syntax_set::SyntaxSetBuilder;

/// What grammars are loaded with.
#[derive(Clone, Copy)]
pub(crate) struct Loading {
    pub(crate) lines_include_newline: bool,
    pub(crate) limits: Limits,
}

/// Adds the grammar of a file to a builder, where its folder's grammars may have
/// so many bytes more.
fn add_grammar<T: Tree>(
    tree: &T,
    alloc: Global,
    builder: &mut SyntaxSetBuilder,
    path: &str,
    loading: &Loading,
    repository: &mut ScopeRepository,
    room: &mut usize,
) -> Result<(), FolderWithinError>
    requires { is_grammar_path path.now ≡ true }
    ensures ok { OnOk result (AddsWithin (T.told tree.now) loading.now.limits
        loading.now.lines_include_newline room.old (path.now ∷ []) repository.old builder.old
        room.new repository.new builder.new) }
    ensures err { OnErr result (builder.new ≡ builder.old) }
    ensures refusal { IfErr result (StopsWithin (T.told tree.now) loading.now.limits
        loading.now.lines_include_newline path.now repository.old room.old) }
    ensures kept { KeepsAtoms repository.old repository.new }
{
    let syntax = match load_file_within(
        tree,
        alloc,
        path,
        loading.lines_include_newline,
        repository,
        &loading.limits,
        room,
    ) {
        Ok(syntax) => syntax,
        Err(e) => return Err(e),
    };
    let Ok(path) = Text::from_str(alloc, path) else {
        return Err(FolderWithinError::Refused(LoadingError::Memory));
    };
    match builder.add_loaded(syntax, path) {
        Ok(()) => Ok(()),
        Err(_) => Err(FolderWithinError::Refused(LoadingError::Memory)),
    }
}

/// Adds what is in a file, if it is a grammar's or has metadata.
pub(crate) fn add_file<T: Tree>(
    tree: &T,
    alloc: Global,
    builder: &mut SyntaxSetBuilder,
    path: &str,
    loading: &Loading,
    repository: &mut ScopeRepository,
    room: &mut usize,
) -> Result<(), FolderWithinError>
    ensures ok { OnOk result (AddsWithin (T.told tree.now) loading.now.limits
        loading.now.lines_include_newline room.old (path.now ∷ []) repository.old builder.old
        room.new repository.new builder.new) }
    ensures err { OnErr result (builder.new ≡ builder.old) }
    ensures refusal { IfErr result (StopsWithin (T.told tree.now) loading.now.limits
        loading.now.lines_include_newline path.now repository.old room.old) }
    ensures kept { KeepsAtoms repository.old repository.new }
{
    if is_grammar(path) {
        return add_grammar(tree, alloc, builder, path, loading, repository, room);
    }
    if !is_metadata(path) {
        return Ok(());
    }
    match builder.add_metadata(tree, alloc, path) {
        Ok(()) => Ok(()),
        Err(e) => Err(FolderWithinError::Refused(e)),
    }
}

/// Adds the grammars and the metadata in a folder to a builder as its `add_from_folder` does, each
/// grammar within limits, and all of them within that of a folder.
///
/// A grammar that would pass one is `LimitReached` with the path of its file; any other refusal is
/// that of `add_from_folder`. The bytes of a file are counted with those of the grammars before it
/// once it is read, and before it is parsed. What is before the first fault stays added.
pub fn add_from_folder_within<T: Tree>(
    tree: &T,
    alloc: Global,
    builder: &mut SyntaxSetBuilder,
    folder: Path<'_>,
    lines_include_newline: bool,
    repository: &mut ScopeRepository,
    limits: &Limits,
) -> Result<(), FolderWithinError>
    ensures ok { OnOk result (AddsFolderWithin (T.told tree.now) limits.now
        lines_include_newline (path_bytes folder.entry) repository.old builder.old
        repository.new builder.new) }
    ensures err { IfErr result (λ e. RefusesFolderWithin (T.told tree.now) limits.now
        lines_include_newline (path_bytes folder.entry) repository.old builder.old e
        repository.new builder.new) }
    ensures kept { KeepsAtoms repository.old repository.new }
{
    let loading = Loading {
        lines_include_newline,
        limits: *limits,
    };
    let mut room = limits.folder;
    let mut walk = match Walk::new(tree, alloc, folder, Sought::Grammars) {
        Ok(walk) => walk,
        Err(e) => return Err(FolderWithinError::Refused(e)),
    };
    'files: loop {
        let path = match walk.next_file(tree, alloc) {
            Ok(Some(path)) => path,
            Ok(None) => return Ok(()),
            Err(e) => return Err(FolderWithinError::Refused(e)),
        };
        match add_file(
            tree,
            alloc,
            builder,
            path.as_str(),
            &loading,
            repository,
            &mut room,
        ) {
            Ok(()) => {}
            Err(e) => return Err(e),
        }
    }
}
