//! Heads of grammars from their files.
ghost use Rattle.std.specs.Prelude.{◌≡◌, ℕ, List, IfErr, IfOk, IsUtf8};
ghost use Rattle.std.specs.Path.{path_file_stem};
ghost use Rattle.syntect_grammar_limits.specs.FilesWithin as files_within;
ghost use Rattle.syntect_grammar_limits.specs.syntect_grammar_loader.LoadingSteps.{KeepsAtoms};
ghost use Rattle.syntect_shelf.specs.Heads.{IsHeadIn, IsHeadRead, IsPastFolder, RefusesBytes, RefusesHead};

use crate::below::base::limits::LimitReached;
use crate::below::base::loading::LoadingError;
use crate::below::base::syntax::ParseSyntaxError;
use crate::below::base::tree::Tree;
use crate::below::grammar_loader::definition::SyntaxDefinition;
use crate::below::scope::repository::ScopeRepository;
use crate::bodies::{no_memory, refused_text};
use crate::head::head_of_bytes;
use std::alloc::Global;
use std::io;
use std::io::ErrorKind;
use std::path::Path;
use syntect_grammar_limits::folder_error::FolderWithinError;

/// How many bytes more the grammars of a folder may have after one of so many bytes, if they may
/// have those.
fn room_after(room: usize, len: usize) -> Option<usize>
    ensures { result ≡ files_within.room_after room len }
{
    if room == usize::MAX {
        return Some(room);
    }
    if len <= room { Some(room - len) } else { None }
}

/// The refusal of a file with which the grammars of its folder would have too many bytes.
#[tactic(auto, using(crate::proofs::FileLaws::no_memory_past))]
fn past_folder(alloc: Global, path: &str) -> FolderWithinError
    ensures { IsPastFolder path.now result }
{
    match String::from_str(alloc, path) {
        Ok(path) => FolderWithinError::LimitReached(LimitReached::Folder, path),
        Err(_) => no_memory(),
    }
}

/// The refusal of bytes that are no text, as of a file that is read as one.
#[tactic(auto, using(crate::proofs::FileLaws::not_text))]
fn no_text() -> FolderWithinError
    ensures { (path bytes : List ℕ) → ¬ (IsUtf8 bytes) → RefusesBytes path bytes result }
{
    let e = io::Error::new(ErrorKind::InvalidData, "stream did not contain valid UTF-8");
    FolderWithinError::Refused(LoadingError::from(e))
}

/// The refusal of a head, with the path of its file.
#[tactic(auto, using(crate::proofs::FileLaws::no_memory_for))]
fn refused_head(alloc: Global, path: &str, e: ParseSyntaxError) -> FolderWithinError
    ensures { (bytes : List ℕ) → RefusesBytes path.now bytes result }
{
    match e {
        ParseSyntaxError::Memory => no_memory(),
        e => match String::from_str(alloc, path) {
            Ok(path) => FolderWithinError::Refused(LoadingError::ParseSyntax(e, path)),
            Err(_) => no_memory(),
        },
    }
}

/// The head of the grammar of a file's bytes.
fn head_read(
    alloc: Global,
    path: &str,
    bytes: &[u8],
    repository: &mut ScopeRepository,
) -> Result<SyntaxDefinition, FolderWithinError>
    ensures ok { IfOk result
        (IsHeadIn bytes.now (path_file_stem path.now) repository.new) }
    ensures err { IfErr result (RefusesBytes path.now bytes.now) }
    ensures kept { KeepsAtoms repository.old repository.new }
{
    let head = match head_of_bytes(alloc, bytes, Path::new(path).file_stem(), repository) {
        Ok(head) => head,
        Err(e) => return Err(refused_head(alloc, path, e)),
    };
    match head {
        Some(head) => Ok(head),
        None => Err(no_text()),
    }
}

/// The head of the grammar in a file, and how many bytes more the grammars of its folder may have
/// then.
#[tactic(auto, using(crate::proofs::FileLaws::not_read_whole, crate::proofs::FileLaws::head_gives, crate::proofs::FileLaws::head_refused))]
pub(crate) fn head_in<T: Tree>(
    tree: &T,
    alloc: Global,
    path: &str,
    repository: &mut ScopeRepository,
    room: &mut usize,
) -> Result<SyntaxDefinition, FolderWithinError>
    ensures ok { IfOk result (IsHeadRead (T.told tree.now) path.now room.old repository.new
        room.new) }
    ensures err { IfErr result (RefusesHead (T.told tree.now) path.now room.old) }
    ensures kept { KeepsAtoms repository.old repository.new }
{
    let bytes = match tree.read_file(alloc, path) {
        Ok(bytes) => bytes,
        Err(e) => return Err(FolderWithinError::Refused(LoadingError::from(e))),
    };
    let Some(left) = room_after(*room, bytes.len()) else {
        return Err(past_folder(alloc, path));
    };
    *room = left;
    head_read(alloc, path, bytes.as_slice(), repository)
}
