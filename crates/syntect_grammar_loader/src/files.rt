//! Definitions from files.
ghost use Rattle.std.specs.Prelude.{ℕ, Bool, IsUtf8, List, IfOk, IfErr};
ghost use Rattle.std.specs.Path.{path_file_stem};
ghost use Rattle.syntect_base.specs.Trees.{has_bytes};
ghost use Rattle.syntect_grammar_loader.specs.Files.{IsSyntaxOf, RefusesSyntax, RefusesRead};
ghost use Rattle.syntect_grammar_loader.specs.Loading.{loaded};
ghost use Rattle.syntect_grammar_loader.specs.LoadingSteps.{Fails, KeepsAtoms};

use crate::below::scope::repository::ScopeRepository;
use crate::definition::SyntaxDefinition;
use std::alloc::Global;
use std::path::Path;
use syntect_base::loading::LoadingError;
use syntect_base::syntax::ParseSyntaxError;
use syntect_base::tree::{Tree, read_text};

/// The refusal of the text in a file that is no grammar, with the file's path. Lack of memory is
/// passed on as such.
fn refused_file(alloc: Global, path: &str, e: ParseSyntaxError) -> LoadingError
    ensures { (newlines : Bool) (repo : List (List ℕ)) (bytes : List ℕ) → IsUtf8 bytes
        → Fails (loaded bytes newlines (path_file_stem path.now) repo) e
        → RefusesSyntax newlines path.now bytes repo result }
{
    match e {
        ParseSyntaxError::Memory => LoadingError::Memory,
        e => match String::from_str(alloc, path) {
            Ok(path) => LoadingError::ParseSyntax(e, path),
            Err(_) => LoadingError::Memory,
        },
    }
}

/// The definition of the text in a file. A syntax without a name has that of the file,
/// without the extension.
fn load_text(
    alloc: Global,
    path: &str,
    text: &str,
    lines_include_newline: bool,
    repository: &mut ScopeRepository,
) -> Result<SyntaxDefinition, LoadingError>
    ensures ok { IfOk result
        (IsSyntaxOf lines_include_newline path.now repository.old text.now repository.new) }
    ensures err { IfErr result
        (RefusesSyntax lines_include_newline path.now text.now repository.old) }
    ensures kept { KeepsAtoms repository.old repository.new }
{
    let loaded = SyntaxDefinition::load_from_str(
        alloc,
        text,
        lines_include_newline,
        Path::new(path).file_stem(),
        repository,
    );
    match loaded {
        Ok(syntax) => Ok(syntax),
        Err(e) => Err(refused_file(alloc, path, e)),
    }
}

/// The definition of the grammar in a file. One that cannot be read, or isn't UTF-8, is `Io`, and
/// one that is no grammar is `ParseSyntax` with its path.
pub fn load_file<T: Tree>(
    tree: &T,
    alloc: Global,
    path: &str,
    lines_include_newline: bool,
    repository: &mut ScopeRepository,
) -> Result<SyntaxDefinition, LoadingError>
    ensures ok { IfOk result (λ d. (bytes : List ℕ)
        × T.told tree.now (has_bytes path.now bytes)
        × IsSyntaxOf lines_include_newline path.now repository.old bytes repository.new d) }
    ensures err { IfErr result
        (RefusesRead (T.told tree.now) lines_include_newline path.now repository.old) }
    ensures kept { KeepsAtoms repository.old repository.new }
{
    match read_text(tree, alloc, path) {
        Ok(text) => load_text(
            alloc,
            path,
            text.as_str(),
            lines_include_newline,
            repository,
        ),
        Err(e) => Err(LoadingError::from(e)),
    }
}
