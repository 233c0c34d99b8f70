//! Grammars from their files, within limits.
ghost use Rattle.std.specs.Prelude.{◌≡◌, ◌≢◌, ◌-◌, ◌^◌, ℕ, Bool, IsUtf8, List, length, false, None, Ok, Err, IfErr, IfOk};
ghost use Rattle.syntect_grammar.specs.PlainText.{plain_text};
ghost use Rattle.std.specs.Path.{path_file_stem};
ghost use Rattle.syntect_grammar_limits.specs.FilesWithin.{IsReadWithin, IsSyntaxWithin, RefusesReadWithin, RefusesSyntaxWithin};
ghost use Rattle.syntect_grammar_limits.specs.Limited.{left_of, LoadsWithin};
ghost use Rattle.syntect_grammar_limits.specs.syntect_base.declared.limits.Limits.{Limits as ALimits};
ghost use Rattle.syntect_grammar_limits.specs.syntect_base.declared.loading.LoadingError.TheVariants.{Memory as NoMemory};
ghost use Rattle.syntect_grammar_limits.specs.syntect_base.declared.syntax.ParseSyntaxError.TheVariants.{Memory};
ghost use Rattle.syntect_grammar_limits.specs.syntect_grammar_loader.Files.{RefusesSyntax};
ghost use Rattle.syntect_grammar_limits.specs.syntect_grammar_loader.Loading.{loaded};
ghost use Rattle.syntect_grammar_limits.specs.syntect_grammar_loader.LoadingSteps.{Fails, KeepsAtoms};
ghost use Rattle.syntect_shelf.specs.Gathering.{IsWholeOf, RefusesGrammar, RefusesPlainText};

use crate::below::base::limits::LoadWithinError;
use crate::below::base::loading::LoadingError;
use crate::below::base::syntax::ParseSyntaxError;
use crate::below::base::tree::{Tree, read_text};
use crate::below::grammar_loader::definition::SyntaxDefinition;
use crate::below::scope::repository::ScopeRepository;
use crate::grammar::{Grammar, Loading, Source};
use std::alloc::Global;
use std::path::Path;
use syntect_grammar_limits::folder_error::FolderWithinError;
use syntect_grammar_limits::within::load_from_str_within;

/// Lack of memory.
pub(crate) fn no_memory() -> FolderWithinError
    ensures { result ≡ FolderWithinError.Refused NoMemory }
{
    FolderWithinError::Refused(LoadingError::Memory)
}

/// The refusal of the text in a file that is no grammar, with the file's path. Lack of memory is
/// passed on as such.
pub(crate) fn refused_text(alloc: Global, path: &str, e: ParseSyntaxError) -> LoadingError
    ensures told { (newlines : Bool) (repo : List (List ℕ)) (bytes : List ℕ) → IsUtf8 bytes
        → Fails (loaded bytes newlines (path_file_stem path.now) repo) e
        → RefusesSyntax newlines path.now bytes repo result }
    ensures memory { e ≡ Memory → result ≡ NoMemory }
{
    match e {
        ParseSyntaxError::Memory => LoadingError::Memory,
        e => match String::from_str(alloc, path) {
            Ok(path) => LoadingError::ParseSyntax(e, path),
            Err(_) => LoadingError::Memory,
        },
    }
}

/// The refusal of the text in a file within limits, with the file's path.
fn refused_file(alloc: Global, path: &str, e: LoadWithinError) -> FolderWithinError
    ensures { (limits : ALimits) (newlines : Bool) (old new : List (List ℕ)) (bytes : List ℕ)
        → IsUtf8 bytes
        → LoadsWithin (left_of limits bytes)
        (loaded bytes newlines (path_file_stem path.now) old) (Err e) new
        → RefusesSyntaxWithin limits newlines path.now bytes old result }
{
    match e {
        LoadWithinError::Refused(e) => FolderWithinError::Refused(refused_text(alloc, path, e)),
        LoadWithinError::LimitReached(r) => match String::from_str(alloc, path) {
            Ok(path) => FolderWithinError::LimitReached(r, path),
            Err(_) => no_memory(),
        },
    }
}

/// The definition of the text in a file. A syntax without a name has that of the file, without the
/// extension.
fn load_text(
    alloc: Global,
    path: &str,
    text: &str,
    loading: &Loading,
    repository: &mut ScopeRepository,
) -> Result<SyntaxDefinition, FolderWithinError>
    ensures ok { IfOk result (IsSyntaxWithin loading.now.limits loading.now.lines_include_newline
        path.now repository.old text.now repository.new) }
    ensures err { IfErr result (RefusesSyntaxWithin loading.now.limits
        loading.now.lines_include_newline path.now text.now repository.old) }
    ensures kept { KeepsAtoms repository.old repository.new }
{
    match load_from_str_within(
        alloc,
        text,
        loading.lines_include_newline,
        Path::new(path).file_stem(),
        repository,
        &loading.limits,
    ) {
        Ok(syntax) => Ok(syntax),
        Err(e) => Err(refused_file(alloc, path, e)),
    }
}

/// The definition of the grammar in a file.
fn definition_in<T: Tree>(
    tree: &T,
    alloc: Global,
    path: &str,
    loading: &Loading,
    repository: &mut ScopeRepository,
) -> Result<SyntaxDefinition, FolderWithinError>
    ensures ok { IfOk result (IsReadWithin (T.told tree.now) loading.now.limits
        loading.now.lines_include_newline path.now repository.old (2 ^ 64 - 1) repository.new
        (2 ^ 64 - 1)) }
    ensures err { IfErr result (RefusesReadWithin (T.told tree.now) loading.now.limits
        loading.now.lines_include_newline path.now repository.old (2 ^ 64 - 1)) }
    ensures kept { KeepsAtoms repository.old repository.new }
{
    match read_text(tree, alloc, path) {
        Ok(text) => load_text(alloc, path, text.as_str(), loading, repository),
        Err(e) => Err(FolderWithinError::Refused(LoadingError::from(e))),
    }
}

/// The definition of plain text.
pub(crate) fn plain_definition(
    alloc: Global,
    repository: &mut ScopeRepository,
) -> Result<SyntaxDefinition, ParseSyntaxError>
    ensures ok { IfOk result (λ d. loaded plain_text false None repository.old
        ≡ Ok (d, repository.new)) }
    ensures err { IfErr result (Fails (loaded plain_text false None repository.old)) }
    ensures kept { KeepsAtoms repository.old repository.new }
{
    SyntaxDefinition::load_from_str(
        alloc,
        "---\nname: Plain Text\nfile_extensions: [txt]\nscope: text.plain\ncontexts: {main: []}",
        false,
        None,
        repository,
    )
}

/// The refusal of plain text, under its name.
#[tactic(auto, using(crate::proofs::FileLaws::plain_no_memory))]
fn refused_plain(alloc: Global, e: ParseSyntaxError) -> FolderWithinError
    ensures { (repository : List (List ℕ)) → Fails (loaded plain_text false None repository) e
        → RefusesPlainText repository result }
{
    match e {
        ParseSyntaxError::Memory => no_memory(),
        e => match String::from_str(alloc, "Plain Text") {
            Ok(name) => FolderWithinError::Refused(LoadingError::ParseSyntax(e, name)),
            Err(_) => no_memory(),
        },
    }
}

/// The whole definition of a grammar.
pub(crate) fn whole_of<T: Tree>(
    tree: &T,
    alloc: Global,
    grammar: &Grammar,
    loading: &Loading,
    repository: &mut ScopeRepository,
) -> Result<SyntaxDefinition, FolderWithinError>
    ensures ok { IfOk result (λ d. IsWholeOf (T.told tree.now) loading.now repository.old
        repository.new d grammar.now.source) }
    ensures err { IfErr result (λ e. RefusesGrammar (T.told tree.now) loading.now repository.old e
        grammar.now.source) }
    ensures kept { KeepsAtoms repository.old repository.new }
{
    match &grammar.source {
        Source::File(path) => definition_in(tree, alloc, path.as_str(), loading, repository),
        Source::PlainText => match plain_definition(alloc, repository) {
            Ok(definition) => Ok(definition),
            Err(e) => Err(refused_plain(alloc, e)),
        },
    }
}
