//! Grammars and themes while they are gathered.
ghost use Rattle.std.specs.Prelude.{◌≡◌, ◌≢◌, ◌+◌, ℕ, List, ◌∷◌, [], false, length, IfErr, IfOk, OnOk};
ghost use Rattle.std.specs.Path.{path_bytes, path_buf_bytes};
ghost use Rattle.syntect_assets.specs.Gathered.{AddsAll, HasPlainText, IsMadeOf, StopsAll};
ghost use Rattle.syntect_assets.specs.WhatLoads.{AddsThemesThatLoad, AddsThemesOfFolder, AddsGrammarsThatLoad, AddsLoading, FaultyTheme, HasNoThemes, StopsLoading, stem_of};
ghost use Rattle.syntect_assets.specs.Refusals.{TellsLoading, TellsGrammars};
ghost use Rattle.syntect_assets.specs.syntect_grammar_limits.declared.lenient.PassedOver.{PassedOver as APassedOver};
ghost use Rattle.syntect_assets.specs.declared.error.AssetsError.TheVariants.{Memory};
ghost use Rattle.syntect_assets.specs.syntect_base.declared.loading.LoadingError.TheVariants as loading;
ghost use Rattle.syntect_easy.specs.Loaded.{HoldsLoaded, IsOfLoaded};

use crate::assets::Assets;
use crate::below::base::limits::Limits;
use crate::below::base::loading::LoadingError;
use crate::below::base::tree::Tree;
use crate::below::grammar_limits::folder_error::FolderWithinError;
use crate::below::grammar_limits::folders::add_from_folder_within;
use crate::below::grammar_limits::lenient::add_what_loads_within;
use crate::below::parsing::syntax_set::SyntaxSetBuilder;
use crate::below::scope::repository::ScopeRepository;
use crate::below::theme_files::theme_set::ThemeSet;
use crate::below::values::text::Text;
use crate::error::AssetsError;
use std::alloc::{AllocError, Global};
use std::path::{Path, PathBuf};
use syntect_easy::explain::why_not_loaded;
use syntect_easy::laws::{folders_are_loaded, loaded_sets_are_built};

/// Grammars that aren't linked yet, the texts of their scopes, and themes.
#[derive(Drop)]
pub struct AssetsBuilder {
    /// The grammars.
    pub grammars: SyntaxSetBuilder,
    /// The texts of the scopes that grammars and themes name.
    pub repository: ScopeRepository,
    /// The themes, by their names.
    pub themes: ThemeSet,
    /// Within what grammars are loaded, and what a line may take once they are linked.
    pub limits: Limits,
}

/// Why the grammars of a folder aren't loaded.
fn no_grammars<T: Tree>(
    tree: &T,
    alloc: Global,
    folder: Path<'_>,
    e: &FolderWithinError,
) -> Result<String, AllocError> {
    match e {
        FolderWithinError::Refused(e) => why_not_loaded(tree, alloc, folder, e),
        FolderWithinError::LimitReached(..) => format!(in alloc; "{e}"),
    }
}

/// The name of a theme: that of its file, without the extension.
fn name_of(alloc: Global, path: &PathBuf) -> Result<Text, AllocError>
    ensures { IfOk result (λ name. name ≡ stem_of (path_buf_bytes path.now)) }
{
    match path.file_stem() {
        Some(stem) => Text::from_str(alloc, stem),
        None => Ok(Text::new(alloc)),
    }
}

/// Whether memory ran out.
fn is_memory(e: &LoadingError) -> bool
    ensures { result ≡ false → e.now ≢ loading.Memory }
{
    matches!(e, LoadingError::Memory)
}

/// Adds the theme in a file, or tells why it can't be loaded.
fn add_theme<T: Tree>(
    tree: &T,
    alloc: Global,
    path: &PathBuf,
    repository: &mut ScopeRepository,
    themes: &mut ThemeSet,
    told: &mut Vec<String>,
) -> Result<(), AssetsError>
    ensures added { OnOk result ((faulty : List FaultyTheme)
        × AddsThemesThatLoad (T.told tree.now) (path_buf_bytes path.now ∷ [])
        repository.old themes.old.themes faulty repository.new themes.new.themes
        × (length told.new.items ≡ length told.old.items + length faulty)) }
    ensures refused { IfErr result (λ e. e ≡ Memory) }
{
    match ThemeSet::get_theme(tree, alloc, path.as_path(), repository) {
        Ok(theme) => {
            let name = name_of(alloc, path)?;
            themes.themes.insert(name, theme)?;
            Ok(())
        }
        Err(e) => {
            if is_memory(&e) {
                return Err(AssetsError::Memory);
            }
            told.push(why_not_loaded(tree, alloc, path.as_path(), &e)?)?;
            Ok(())
        }
    }
}

/// Adds the themes of a folder that can be loaded, and tells of the others.
#[tactic(auto, using(crate::proofs::LoadingLaws::no_room_told))]
fn add_themes_that_load<T: Tree>(
    tree: &T,
    alloc: Global,
    folder: Path<'_>,
    repository: &mut ScopeRepository,
    themes: &mut ThemeSet,
    told: &mut Vec<String>,
) -> Result<(), AssetsError>
    ensures added { OnOk result ((faulty : List FaultyTheme)
        × AddsThemesOfFolder (T.told tree.now) (path_bytes folder.entry)
        repository.old themes.old.themes faulty repository.new themes.new.themes
        × (length told.new.items ≡ length told.old.items + length faulty)) }
    ensures refused { IfErr result (HasNoThemes (T.told tree.now) (path_bytes folder.entry)) }
    ensures kept { IfErr result (λ e. e ≢ Memory
        → (repository.new ≡ repository.old) × (themes.new ≡ themes.old)) }
{
    let paths = match ThemeSet::discover_theme_paths(tree, alloc, folder) {
        Ok(paths) => paths,
        Err(e) => return Err(refused(tree, alloc, folder, &e)?),
    };
    for path in paths.as_slice() {
        add_theme(tree, alloc, path, repository, themes, told)?;
    }
    Ok(())
}

/// The refusal of what stands at a path: lack of memory as such, and any other in words that begin
/// with the path.
pub(crate) fn refused<T: Tree>(
    tree: &T,
    alloc: Global,
    path: Path<'_>,
    e: &LoadingError,
) -> Result<AssetsError, AllocError>
    ensures { IfOk result (TellsLoading e.now) }
{
    match e {
        LoadingError::Memory => Ok(AssetsError::Memory),
        e => Ok(AssetsError::NotLoaded(why_not_loaded(tree, alloc, path, e)?)),
    }
}

/// The refusal of the grammars of a folder.
#[tactic(auto, using(crate::proofs::LoadingLaws::tells_of_grammars))]
fn refused_grammars<T: Tree>(
    tree: &T,
    alloc: Global,
    folder: Path<'_>,
    e: &FolderWithinError,
) -> Result<AssetsError, AllocError>
    ensures { IfOk result (TellsGrammars e.now) }
{
    match e {
        FolderWithinError::Refused(e) => refused(tree, alloc, folder, e),
        FolderWithinError::LimitReached(..) => {
            Ok(AssetsError::NotLoaded(format!(in alloc; "{e}")?))
        }
    }
}

/// The refusal of the themes of a folder: a faulty one is looked for again, since what refused it
/// doesn't tell its path.
#[tactic(auto, using(crate::proofs::LoadingLaws::tells_another))]
fn refused_themes<T: Tree>(
    tree: &T,
    alloc: Global,
    folder: Path<'_>,
    e: &LoadingError,
) -> Result<AssetsError, AllocError>
    ensures { IfOk result (TellsLoading e.now) }
{
    if let LoadingError::Memory = e {
        return Ok(AssetsError::Memory);
    }
    let mut repository = ScopeRepository::new(alloc);
    if let Ok(paths) = ThemeSet::discover_theme_paths(tree, alloc, folder) {
        for path in paths.as_slice() {
            if let Err(e) = ThemeSet::get_theme(tree, alloc, path.as_path(), &mut repository) {
                return refused(tree, alloc, path.as_path(), &e);
            }
        }
    }
    refused(tree, alloc, folder, e)
}

impl AssetsBuilder {
    /// The syntax of plain text and no theme, with `Limits::default`.
    pub fn new(alloc: Global) -> Result<AssetsBuilder, AssetsError>
        ensures plain { IfOk result HasPlainText }
        ensures loaded { IfOk result (λ builder. HoldsLoaded builder.grammars) }
        ensures refused { IfErr result (λ e. e ≡ Memory) }
    {
        loaded_sets_are_built();
        let mut repository = ScopeRepository::new(alloc);
        let mut grammars = SyntaxSetBuilder::new(alloc);
        match grammars.add_plain_text_syntax(alloc, &mut repository) {
            Ok(()) => Ok(AssetsBuilder {
                grammars,
                repository,
                themes: ThemeSet::new(alloc),
                limits: Limits::default(),
            }),
            Err(_) => Err(AssetsError::Memory),
        }
    }

    /// Adds the grammars, metadata and themes in a folder and in the folders below it. The first
    /// file that can't be loaded ends it, with `NotLoaded`; what is before it stays added.
    #[tactic(auto, using(crate::proofs::LoadingLaws::all_for_memory, crate::proofs::LoadingLaws::all_at_grammars, crate::proofs::LoadingLaws::all_at_themes))]
    pub fn add_folder<T: Tree>(
        &mut self,
        tree: &T,
        alloc: Global,
        folder: Path<'_>,
    ) -> Result<(), AssetsError>
        ensures added { OnOk result
            (AddsAll (T.told tree.now) (path_bytes folder.entry) self.old self.new) }
        ensures loaded { HoldsLoaded self.old.grammars
            → OnOk result (HoldsLoaded self.new.grammars) }
        ensures refused { IfErr result
            (StopsAll (T.told tree.now) (path_bytes folder.entry) self.old self.new) }
    {
        folders_are_loaded(tree);
        let AssetsBuilder {
            grammars,
            repository,
            themes,
            limits,
        } = self;
        if let Err(e) = add_from_folder_within(
            tree, alloc, grammars, folder, true, repository, limits,
        ) {
            return Err(refused_grammars(tree, alloc, folder, &e)?);
        }
        if let Err(e) = themes.add_from_folder(tree, alloc, folder, repository) {
            return Err(refused_themes(tree, alloc, folder, &e)?);
        }
        Ok(())
    }

    /// Adds the grammars, metadata and themes of a folder and of the folders below it that can be
    /// loaded, and answers why the others can't be, each in words that begin with its path.
    ///
    /// `NotLoaded` only where the folder can't be walked through; what is before that stays added.
    #[tactic(auto, using(crate::proofs::LoadingLaws::stops_for_memory, crate::proofs::LoadingLaws::stops_at_themes))]
    pub fn add_what_loads<T: Tree>(
        &mut self,
        tree: &T,
        alloc: Global,
        folder: Path<'_>,
    ) -> Result<Vec<String>, AssetsError>
        ensures added { IfOk result (λ told. AddsLoading (T.told tree.now)
            (path_bytes folder.entry) self.old self.new (length told.items)) }
        ensures loaded { HoldsLoaded self.old.grammars
            → OnOk result (HoldsLoaded self.new.grammars) }
        ensures refused { IfErr result
            (StopsLoading (T.told tree.now) (path_bytes folder.entry) self.old self.new) }
    {
        let mut told = self.add_grammars_that_load(tree, alloc, folder)?;
        let (repository, themes) = (&mut self.repository, &mut self.themes);
        add_themes_that_load(tree, alloc, folder, repository, themes, &mut told)?;
        Ok(told)
    }

    /// Adds the grammars and metadata of a folder that can be loaded.
    #[tactic(auto, using(crate::proofs::LoadingLaws::stops_for_memory, crate::proofs::LoadingLaws::stops_at_walk))]
    fn add_grammars_that_load<T: Tree>(
        &mut self,
        tree: &T,
        alloc: Global,
        folder: Path<'_>,
    ) -> Result<Vec<String>, AssetsError>
        ensures added { IfOk result (λ told. (passed : List APassedOver)
            × AddsGrammarsThatLoad (T.told tree.now) (path_bytes folder.entry)
            self.old self.new passed × (length told.items ≡ length passed)) }
        ensures loaded { HoldsLoaded self.old.grammars
            → OnOk result (HoldsLoaded self.new.grammars) }
        ensures refused { IfErr result
            (StopsLoading (T.told tree.now) (path_bytes folder.entry) self.old self.new) }
    {
        folders_are_loaded(tree);
        let AssetsBuilder {
            grammars,
            repository,
            themes: _,
            limits,
        } = self;
        let passed = match add_what_loads_within(
            tree, alloc, grammars, folder, true, repository, limits,
        ) {
            Ok(passed) => passed,
            Err(e) => return Err(refused(tree, alloc, folder, &e)?),
        };
        let mut told = Vec::new(alloc);
        for file in passed.as_slice() {
            let path = Path::new(file.path.as_str());
            told.push(no_grammars(tree, alloc, path, &file.why)?)?;
        }
        Ok(told)
    }

    /// The grammars, linked, with all else.
    pub fn build(self, alloc: Global) -> Result<Assets, AssetsError>
        ensures made { IfOk result (IsMadeOf self) }
        ensures loaded { HoldsLoaded self.grammars
            → IfOk result (λ assets. IsOfLoaded assets.set) }
        ensures refused { IfErr result (λ e. e ≡ Memory) }
    {
        loaded_sets_are_built();
        let AssetsBuilder {
            grammars,
            mut repository,
            themes,
            limits,
        } = self;
        let set = grammars.build(alloc, &mut repository)?;
        Ok(Assets {
            set,
            repository,
            themes,
            limits,
        })
    }
}
