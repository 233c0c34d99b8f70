//! What can be loaded of a folder, where some of its files can't be.
ghost use Rattle.std.specs.Prelude.{◌≡◌, ◌≢◌, false, IfErr, IfOk};
ghost use Rattle.std.specs.Path.{path_bytes};
ghost use Rattle.syntect_grammar_limits.specs.syntect_base.declared.loading.LoadingError.TheVariants.{Memory};
ghost use Rattle.syntect_grammar_limits.specs.syntect_grammar_loader.LoadingSteps.{KeepsAtoms};
ghost use Rattle.syntect_grammar_limits.specs.WhatLoads.{AddsOfFolder, RefusesOfFolder};
ghost use Rattle.syntect_grammar_limits.specs.declared.folder_error.FolderWithinError.TheVariants.{Refused};

use crate::below::base::limits::Limits;
use crate::below::base::loading::LoadingError;
use crate::below::base::tree::Tree;
use crate::below::base::utils::{Sought, Walk};
use crate::below::scope::repository::ScopeRepository;
use crate::below::values::seq::Seq;
use crate::below::values::text::Text;
use crate::folder_error::FolderWithinError;
use crate::folders::{Loading, add_file};
use std::alloc::Global;
use std::path::Path;
use syntect_grammar::syntax_set::SyntaxSetBuilder;

/// A file that was passed over.
#[derive(Debug, Drop)]
pub struct PassedOver {
    /// Its path.
    pub path: Text,
    /// Why it was not loaded.
    pub why: FolderWithinError,
}

/// Whether memory ran out.
fn is_memory(e: &FolderWithinError) -> bool
    ensures { result ≡ false → e.now ≢ Refused Memory }
{
    matches!(e, FolderWithinError::Refused(LoadingError::Memory))
}

/// Adds to a builder what can be added of a folder, as `add_from_folder_within` does, and answers
/// which files it passed over, each with the reason for which that call would have stopped at it.
/// So one faulty grammar doesn't lose the others.
///
/// It is refused only where the folder can't be walked through (`WalkDir`) or memory runs out; what
/// is before that stays added.
pub fn add_what_loads_within<T: Tree>(
    tree: &T,
    alloc: Global,
    builder: &mut SyntaxSetBuilder,
    folder: Path<'_>,
    lines_include_newline: bool,
    repository: &mut ScopeRepository,
    limits: &Limits,
) -> Result<Seq<PassedOver>, LoadingError>
    ensures ok { IfOk result (λ passed. AddsOfFolder (T.told tree.now) limits.now
        lines_include_newline (path_bytes folder.entry) repository.old builder.old passed
        repository.new builder.new) }
    ensures err { IfErr result (λ e. RefusesOfFolder (T.told tree.now) limits.now
        lines_include_newline (path_bytes folder.entry) repository.old builder.old e
        repository.new builder.new) }
    ensures kept { KeepsAtoms repository.old repository.new }
{
    let loading = Loading {
        lines_include_newline,
        limits: *limits,
    };
    let mut room = limits.folder;
    let mut passed = Seq::new(alloc);
    let mut walk = match Walk::new(tree, alloc, folder, Sought::Grammars) {
        Ok(walk) => walk,
        Err(e) => return Err(e),
    };
    'files: loop {
        let path = match walk.next_file(tree, alloc) {
            Ok(Some(path)) => path,
            Ok(None) => return Ok(passed),
            Err(e) => return Err(e),
        };
        let mut left = room;
        match add_file(
            tree,
            alloc,
            builder,
            path.as_str(),
            &loading,
            repository,
            &mut left,
        ) {
            Ok(()) => room = left,
            Err(why) => {
                if is_memory(&why) {
                    return Err(LoadingError::Memory);
                }
                passed.push(PassedOver { path, why })?;
            }
        }
    }
}
