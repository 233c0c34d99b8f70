//! From files to the text that shows one.
ghost use Rattle.std.specs.Prelude.{◌≡◌, ◌≢◌, ℕ, List, [], IfOk, IfErr, string_bytes};
ghost use Rattle.syntect_cat.specs.syntect_theme_files.ThemeFiles.{IsThemeOf};
ghost use Rattle.syntect_cat.specs.syntect_base.Trees.{has_bytes};
ghost use Rattle.syntect_cat.specs.Shown.{IsSetOf, HasReason, IsShown};
ghost use Rattle.syntect_cat.specs.declared.fault.Fault.TheVariants.{Writing};
ghost use Rattle.syntect_cat.specs.declared.fault.Fault.TheVariants.{Theme as FaultOfTheme};

use crate::below::base::limits::Limits;
use crate::below::base::tree::Tree;
use crate::below::easy::laws::loaded_is_plain;
use crate::below::grammar_limits::folder_error::FolderWithinError;
use crate::below::grammar_limits::folders::add_from_folder_within;
use crate::below::parsing::syntax_set::{SyntaxSet, SyntaxSetBuilder};
use crate::below::scope::repository::ScopeRepository;
use crate::below::theme::theme::Theme;
use crate::below::theme_files::theme_set::ThemeSet;
use crate::fault::Fault;
use crate::job::Job;
use crate::lines::text_of_file;
use crate::note::Note;
use std::alloc::Global;
use std::path::Path;

/// Plain text and the grammars and metadata in a folder, linked, for lines with newlines. The
/// grammars are loaded within `Limits::default`.
#[tactic(auto, using(crate::proofs::ShownLaws::set_of, crate::proofs::ShownLaws::passes_limit))]
fn load_syntaxes<T: Tree>(
    tree: &T,
    alloc: Global,
    folder: &str,
    repository: &mut ScopeRepository,
) -> Result<SyntaxSet, Fault>
    ensures ok { repository.old ≡ []
        → IfOk result (IsSetOf (T.told tree.now) folder.now repository.new) }
    ensures err { IfErr result (λ fault. fault ≢ Writing) }
    ensures reason { (file : List ℕ) → repository.old ≡ []
        → IfErr result (HasReason (T.told tree.now) folder.now file) }
{
    let mut builder = SyntaxSetBuilder::new(alloc);
    if builder.add_plain_text_syntax(alloc, repository).is_err() {
        return Err(Fault::Syntaxes);
    }
    let folder = Path::new(folder);
    let limits = Limits::default();
    match add_from_folder_within(tree, alloc, &mut builder, folder, true, repository, &limits) {
        Ok(()) => {}
        Err(FolderWithinError::LimitReached(reached, path)) => {
            return Err(Fault::Limit(reached, path));
        }
        Err(_) => return Err(Fault::Syntaxes),
    }
    match builder.build(alloc, repository) {
        Ok(set) => Ok(set),
        Err(_) => Err(Fault::Syntaxes),
    }
}

/// The theme in a file.
fn load_theme<T: Tree>(
    tree: &T,
    alloc: Global,
    path: &str,
    repository: &mut ScopeRepository,
) -> Result<Theme, Fault>
    ensures ok { IfOk result
        (λ theme. (bytes : List ℕ) × T.told tree.now (has_bytes path.now bytes)
        × IsThemeOf repository.old bytes repository.new theme) }
    ensures err { IfErr result (λ fault. fault ≡ FaultOfTheme) }
{
    match ThemeSet::get_theme(tree, alloc, Path::new(path), repository) {
        Ok(theme) => Ok(theme),
        Err(_) => Err(Fault::Theme),
    }
}

/// The text that a job asks for, and what is reported of limits that were reached. The grammars are
/// loaded first, then the theme, and then the file is read and highlighted, each line within
/// `Limits::default`; the first fault ends it.
#[tactic(auto, using(crate::proofs::ShownLaws::no_theme))]
pub(crate) fn text_for<T: Tree>(
    tree: &T,
    alloc: Global,
    job: Job<'_>,
) -> Result<(String, Option<Note>), Fault>
    ensures shown { IfOk result
        (λ r. IsShown (T.told tree.now) job.entry.folder.now job.entry.theme.now
        job.entry.format job.entry.file.now (string_bytes r.0) r.1) }
    ensures err { IfErr result (λ fault. fault ≢ Writing) }
    ensures reason { IfErr result
        (HasReason (T.told tree.now) job.entry.folder.now job.entry.file.now) }
{
    loaded_is_plain();
    let mut repository = ScopeRepository::new(alloc);
    let set = load_syntaxes(tree, alloc, job.folder, &mut repository)?;
    let theme = load_theme(tree, alloc, job.theme, &mut repository)?;
    let path = Path::new(job.file);
    match text_of_file(tree, alloc, path, job.format, &set, &theme) {
        Ok(shown) => Ok(shown),
        Err(e) => Err(Fault::from(e)),
    }
}
