//! Definitions from files, within limits.
ghost use Rattle.std.specs.Prelude.{◌≡◌, ℕ, Bool, IsUtf8, List, length, IfOk, Err, IfErr, Some, None};
ghost use Rattle.std.specs.Path.{path_file_stem};
ghost use Rattle.syntect_grammar_limits.specs.syntect_base.declared.limits.Limits.{Limits as ALimits};
ghost use Rattle.syntect_grammar_limits.specs.FilesWithin as files_within;
ghost use Rattle.syntect_grammar_limits.specs.FilesWithin.{IsSyntaxWithin, RefusesSyntaxWithin, RefusesCounted, IsReadWithin, RefusesReadWithin};
ghost use Rattle.syntect_grammar_limits.specs.syntect_base.declared.loading.LoadingError.TheVariants.{Memory as NoMemory};
ghost use Rattle.syntect_grammar_limits.specs.syntect_base.declared.syntax.ParseSyntaxError.TheVariants.{Memory};
ghost use Rattle.syntect_grammar_limits.specs.syntect_grammar_loader.Files.{RefusesSyntax};
ghost use Rattle.syntect_grammar_limits.specs.syntect_grammar_loader.Loading.{loaded};
ghost use Rattle.syntect_grammar_limits.specs.syntect_grammar_loader.LoadingSteps.{Fails, KeepsAtoms};
ghost use Rattle.syntect_grammar_limits.specs.Limited.{left_of, LoadsWithin};

use crate::below::base::limits::{LimitReached, Limits, LoadWithinError};
use crate::below::base::loading::LoadingError;
use crate::below::base::syntax::ParseSyntaxError;
use crate::below::base::tree::{Tree, read_text};
use crate::below::grammar_loader::definition::SyntaxDefinition;
use crate::below::scope::repository::ScopeRepository;
use crate::folder_error::FolderWithinError;
use crate::within::load_from_str_within;
use std::alloc::Global;
use std::path::Path;

/// The refusal of the text in a file that is no grammar, with the file's path. Lack of memory is
/// passed on as such.
fn refused_text(alloc: Global, path: &str, e: ParseSyntaxError) -> LoadingError
    ensures told { (newlines : Bool) (repo : List (List ℕ)) (bytes : List ℕ) → IsUtf8 bytes
        → Fails (loaded bytes newlines (path_file_stem path.now) repo) e
        → RefusesSyntax newlines path.now bytes repo result }
    ensures memory { e ≡ Memory → result ≡ NoMemory }
{
    match e {
        ParseSyntaxError::Memory => LoadingError::Memory,
        e => match String::from_str(alloc, path) {
            Ok(path) => LoadingError::ParseSyntax(e, path),
            Err(_) => LoadingError::Memory,
        },
    }
}

/// The refusal of the text in a file within limits, with the file's path. Lack of memory is passed
/// on as such.
fn refused_file(alloc: Global, path: &str, e: LoadWithinError) -> FolderWithinError
    ensures { (limits : ALimits) (newlines : Bool) (old new : List (List ℕ)) (bytes : List ℕ)
        → IsUtf8 bytes
        → LoadsWithin (left_of limits bytes)
        (loaded bytes newlines (path_file_stem path.now) old) (Err e) new
        → RefusesSyntaxWithin limits newlines path.now bytes old result }
{
    match e {
        LoadWithinError::Refused(e) => FolderWithinError::Refused(refused_text(alloc, path, e)),
        LoadWithinError::LimitReached(r) => match String::from_str(alloc, path) {
            Ok(path) => FolderWithinError::LimitReached(r, path),
            Err(_) => FolderWithinError::Refused(LoadingError::Memory),
        },
    }
}

/// The definition of the text in a file. A syntax without a name has that of the file,
/// without the extension.
fn load_text(
    alloc: Global,
    path: &str,
    text: &str,
    lines_include_newline: bool,
    repository: &mut ScopeRepository,
    limits: &Limits,
) -> Result<SyntaxDefinition, FolderWithinError>
    ensures ok { IfOk result (IsSyntaxWithin limits.now lines_include_newline path.now
        repository.old text.now repository.new) }
    ensures err { IfErr result (RefusesSyntaxWithin limits.now lines_include_newline path.now
        text.now repository.old) }
    ensures kept { KeepsAtoms repository.old repository.new }
{
    match load_from_str_within(
        alloc,
        text,
        lines_include_newline,
        Path::new(path).file_stem(),
        repository,
        limits,
    ) {
        Ok(syntax) => Ok(syntax),
        Err(e) => Err(refused_file(alloc, path, e)),
    }
}

/// How many bytes more the grammars of a folder may have after one of so many bytes, if they may
/// have those.
fn room_after(room: usize, len: usize) -> Option<usize>
    ensures { result ≡ files_within.room_after room len }
{
    if room == usize::MAX {
        return Some(room);
    }
    if len <= room { Some(room - len) } else { None }
}

/// The refusal of a file with which the grammars of its folder would have too many bytes.
fn past_folder(alloc: Global, path: &str) -> FolderWithinError
    ensures { (limits : ALimits) (newlines : Bool) (repo : List (List ℕ)) (room : ℕ)
        (bytes : List ℕ) → IsUtf8 bytes
        → files_within.room_after room (length bytes) ≡ None
        → RefusesCounted limits newlines path.now bytes repo room result }
{
    match String::from_str(alloc, path) {
        Ok(path) => FolderWithinError::LimitReached(LimitReached::Folder, path),
        Err(_) => FolderWithinError::Refused(LoadingError::Memory),
    }
}

/// The definition of the text that was read from a file, where that leaves room.
fn load_counted(
    alloc: Global,
    path: &str,
    text: &str,
    lines_include_newline: bool,
    repository: &mut ScopeRepository,
    limits: &Limits,
    room: &mut usize,
) -> Result<SyntaxDefinition, FolderWithinError>
    ensures room { IfOk result (λ _.
        files_within.room_after room.old (length text.now) ≡ Some room.new) }
    ensures ok { IfOk result (IsSyntaxWithin limits.now lines_include_newline path.now
        repository.old text.now repository.new) }
    ensures err { IfErr result (RefusesCounted limits.now lines_include_newline path.now text.now
        repository.old room.old) }
    ensures kept { KeepsAtoms repository.old repository.new }
{
    let Some(left) = room_after(*room, text.len()) else {
        return Err(past_folder(alloc, path));
    };
    *room = left;
    load_text(alloc, path, text, lines_include_newline, repository, limits)
}

/// The definition of the grammar in a file, within limits, and how many bytes more the grammars of
/// its folder may have then. One that cannot be read, or isn't UTF-8, is `Io`, one that is no
/// grammar is `ParseSyntax` with its path, and one that would pass a limit is `LimitReached` with
/// its path.
pub(crate) fn load_file_within<T: Tree>(
    tree: &T,
    alloc: Global,
    path: &str,
    lines_include_newline: bool,
    repository: &mut ScopeRepository,
    limits: &Limits,
    room: &mut usize,
) -> Result<SyntaxDefinition, FolderWithinError>
    ensures ok { IfOk result (IsReadWithin (T.told tree.now) limits.now lines_include_newline
        path.now repository.old room.old repository.new room.new) }
    ensures err { IfErr result (RefusesReadWithin (T.told tree.now) limits.now
        lines_include_newline path.now repository.old room.old) }
    ensures kept { KeepsAtoms repository.old repository.new }
{
    match read_text(tree, alloc, path) {
        Ok(text) => load_counted(
            alloc,
            path,
            text.as_str(),
            lines_include_newline,
            repository,
            limits,
            room,
        ),
        Err(e) => Err(FolderWithinError::Refused(LoadingError::from(e))),
    }
}
