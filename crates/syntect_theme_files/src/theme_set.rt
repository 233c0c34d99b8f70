//! Sets of themes, and themes from readers, files and folders.
ghost use Rattle.std.specs.Prelude.{◌≡◌, ℕ, List, [], ◌∷◌, true, length, take, map, is_some, IfSome, IsErrAnd, IfOk, OnOk, IfErr, OnErr};
ghost use Rattle.std.specs.Option.{option_copied};
ghost use Rattle.std.specs.List.{filter};
ghost use Rattle.std.specs.Path.{path_bytes, path_buf_bytes};
ghost use Rattle.syntect_theme_files.specs.syntect_base.Refusals.{IsReadFault};
ghost use Rattle.syntect_theme_files.specs.syntect_base.Trees.{has_bytes};
ghost use Rattle.syntect_theme_files.specs.syntect_base.Walks.{IsWalk, RefusesWalk};
ghost use Rattle.syntect_theme_files.specs.syntect_base.declared.utils.Sought.TheVariants.{Themes};
ghost use Rattle.syntect_theme_files.specs.syntect_scope.Repository.{IsRepository};
ghost use Rattle.syntect_theme.specs.declared.theme.Theme.{Theme as ATheme};
ghost use Rattle.syntect_theme_files.specs.ThemeFiles.{IsThemeOf, RefusesTheme, RefusesRead, IsThemeFault, theme_name, AddsThemes, StopsAtTheme, RefusesThemes};

use crate::syntect_base::loading::LoadingError;
use crate::syntect_base::settings::settings_of;
use crate::syntect_base::tree::Tree;
use crate::syntect_base::utils::files_below;
use crate::syntect_scope::repository::ScopeRepository;
use crate::syntect_values::table::Table;
use crate::syntect_values::text::Text;
use crate::theme_load::ParseSettings;
use std::alloc::{AllocError, Global};
use std::io;
use std::io::{BufRead, Read};
use std::path::{Path, PathBuf};
use syntect_theme::theme::Theme;

/// Themes by their names.
#[derive(Debug, Drop)]
pub struct ThemeSet {
    /// The themes, each under its name.
    pub themes: Table<Text, Theme>,
}

/// The theme of bytes.
#[tactic(auto, using(crate::proofs::FileLaws::not_settings, crate::proofs::FileLaws::not_theme))]
fn theme_of(
    alloc: Global,
    bytes: &[u8],
    repository: &mut ScopeRepository,
) -> Result<Theme, LoadingError>
    ensures ok { IfOk result (IsThemeOf repository.old bytes.now repository.new) }
    ensures err { IfErr result (RefusesTheme bytes.now) }
    ensures whole { IsRepository repository.new }
    ensures kept { take (length repository.old) repository.new ≡ repository.old }
{
    repository.is_whole();
    let settings = match settings_of(alloc, bytes) {
        Ok(settings) => settings,
        Err(e) => return Err(LoadingError::from(e)),
    };
    match Theme::parse_settings(alloc, settings, repository) {
        Ok(theme) => Ok(theme),
        Err(e) => Err(LoadingError::from(e)),
    }
}

/// The theme of the bytes that were read, unless reading has a fault.
fn theme_read(
    alloc: Global,
    read: io::Result<usize>,
    bytes: &[u8],
    repository: &mut ScopeRepository,
) -> Result<Theme, LoadingError>
    ensures ok { IfOk result (IsThemeOf repository.old bytes.now repository.new) }
    ensures fault { IfErr read (λ fault. IsErrAnd result (IsReadFault fault)) }
    ensures err { OnOk read (IfErr result (RefusesTheme bytes.now)) }
    ensures whole { IsRepository repository.new }
    ensures kept { take (length repository.old) repository.new ≡ repository.old }
{
    repository.is_whole();
    match read {
        Ok(_count) => theme_of(alloc, bytes, repository),
        Err(e) => Err(LoadingError::from(e)),
    }
}

/// The name of the theme in a file: the file's name without its extension, which is `tmTheme` in
/// any ASCII case.
fn theme_name(path: Path<'_>) -> Option<&str>
    ensures { option_copied result ≡ theme_name (path_bytes path.entry) }
{
    let extension = path.extension()?;
    if extension.eq_ignore_ascii_case("tmTheme") {
        path.file_stem()
    } else {
        None
    }
}

impl ThemeSet {
    /// No themes. Takes no memory.
    pub fn new(alloc: Global) -> ThemeSet
        ensures { result.themes ≡ [] }
    {
        ThemeSet {
            themes: Table::new(alloc),
        }
    }

    /// No themes, as `new` gives them. Takes no memory.
    pub fn default(alloc: Global) -> ThemeSet
        ensures { result.themes ≡ [] }
    {
        ThemeSet::new(alloc)
    }

    /// A copy of the set.
    #[tactic(auto, using(crate::proofs::FileLaws::same_themes))]
    pub fn clone(&self) -> Result<ThemeSet, AllocError>
        ensures { IfOk result (λ set. set ≡ self.now) }
    {
        Ok(ThemeSet {
            themes: self.themes.clone()?,
        })
    }

    /// The paths of the theme files in a folder and in the folders below it, in the order of a
    /// walk. A theme file has the extension `tmTheme`, in any ASCII case.
    /// A fault of the walk is `WalkDir`.
    #[tactic(auto, using(crate::proofs::FileLaws::no_room_for_paths))]
    pub fn discover_theme_paths<T: Tree>(
        tree: &T,
        alloc: Global,
        folder: Path<'_>,
    ) -> Result<Vec<PathBuf>, LoadingError>
        ensures ok { IfOk result
            (λ paths. (found : List (List ℕ))
            × IsWalk (T.told tree.now) Themes (path_bytes folder.entry) found
            × (map path_buf_bytes paths.items ≡ filter (λ path. is_some (theme_name path)) found)) }
        ensures err { IfErr result (λ e. (found : List (List ℕ))
            × RefusesWalk (T.told tree.now) Themes (path_bytes folder.entry) found e) }
    {
        let found = match files_below(tree, alloc, folder) {
            Ok(found) => found,
            Err(e) => return Err(e),
        };
        let mut paths = Vec::new(alloc);
        for path in found.as_slice() {
            if theme_name(Path::new(path.as_str())).is_some() {
                let Ok(path) = PathBuf::from_str(alloc, path.as_str()) else {
                    return Err(LoadingError::Memory);
                };
                match paths.push(path) {
                    Ok(()) => {}
                    Err(_) => return Err(LoadingError::Memory),
                }
            }
        }
        Ok(paths)
    }

    /// The theme in a file. A fault of the file is `Io`, and what it holds is
    /// read as by `load_from_reader`.
    pub fn get_theme<T: Tree>(
        tree: &T,
        alloc: Global,
        path: Path<'_>,
        repository: &mut ScopeRepository,
    ) -> Result<Theme, LoadingError>
        ensures ok { IfOk result
            (λ theme. (bytes : List ℕ)
            × T.told tree.now (has_bytes (path_bytes path.entry) bytes)
            × IsThemeOf repository.old bytes repository.new theme) }
        ensures err { IfErr result
            (IsThemeFault (T.told tree.now) (path_bytes path.entry)) }
        ensures whole { IsRepository repository.new }
        ensures kept { take (length repository.old) repository.new ≡ repository.old }
    {
        repository.is_whole();
        let bytes = match tree.read_file(alloc, path.as_str()) {
            Ok(bytes) => bytes,
            Err(e) => return Err(LoadingError::from(e)),
        };
        theme_of(alloc, bytes.as_slice(), repository)
    }

    /// The theme of what a reader has left: the JSON of a theme, in which no number is a float. A
    /// fault of reading is `Io`, other bytes are `ReadSettings`, and a value that is
    /// no theme is `ParseTheme`.
    pub fn load_from_reader<R: BufRead>(
        alloc: Global,
        reader: &mut R,
        repository: &mut ScopeRepository,
    ) -> Result<Theme, LoadingError>
        ensures ok { IfOk result
            (λ theme. (bytes : List ℕ)
            × IfSome (R.Read.remaining reader.old) (λ left. bytes ≡ left)
            × IsThemeOf repository.old bytes repository.new theme) }
        ensures err { IfErr result (RefusesRead (R.Read.remaining reader.old)) }
        ensures whole { IsRepository repository.new }
        ensures kept { take (length repository.old) repository.new ≡ repository.old }
    {
        repository.is_whole();
        let mut bytes = Vec::new(alloc);
        let read = reader.read_to_end(&mut bytes);
        theme_read(alloc, read, bytes.as_slice(), repository)
    }

    /// A set of the themes in a folder and in the folders below it, as `add_from_folder` adds them.
    pub fn load_from_folder<T: Tree>(
        tree: &T,
        alloc: Global,
        folder: Path<'_>,
        repository: &mut ScopeRepository,
    ) -> Result<ThemeSet, LoadingError>
        ensures ok { IfOk result
            (λ set. (found : List (List ℕ))
            × IsWalk (T.told tree.now) Themes (path_bytes folder.entry) found
            × AddsThemes (T.told tree.now) found repository.old [] repository.new set.themes) }
        ensures refusal { IfErr result (λ e. (all : List (List ℕ × ATheme))
            × RefusesThemes (T.told tree.now) (path_bytes folder.entry)
            repository.old [] e repository.new all) }
        ensures whole { IsRepository repository.new }
        ensures kept { take (length repository.old) repository.new ≡ repository.old }
    {
        let mut set = ThemeSet::new(alloc);
        match set.add_from_folder(tree, alloc, folder, repository) {
            Ok(()) => Ok(set),
            Err(e) => Err(e),
        }
    }

    /// Adds the themes in a folder and in the folders below it, each under its file's name without
    /// the extension. Of two files of one name the later in the walk stays. A fault of the walk is
    /// `WalkDir`, and set and repository stay as they are. A file that gives no theme is refused as
    /// by `get_theme`, and the themes before it stay.
    pub fn add_from_folder<T: Tree>(
        &mut self,
        tree: &T,
        alloc: Global,
        folder: Path<'_>,
        repository: &mut ScopeRepository,
    ) -> Result<(), LoadingError>
        ensures ok { OnOk result ((found : List (List ℕ))
            × IsWalk (T.told tree.now) Themes (path_bytes folder.entry) found
            × AddsThemes (T.told tree.now) found repository.old self.old.themes
            repository.new self.new.themes) }
        ensures err { IfErr result (λ e.
            RefusesThemes (T.told tree.now) (path_bytes folder.entry)
            repository.old self.old.themes e repository.new self.new.themes) }
        ensures whole { IsRepository repository.new }
        ensures kept { take (length repository.old) repository.new ≡ repository.old }
    {
        repository.is_whole();
        match files_below(tree, alloc, folder) {
            Ok(found) => self.add_themes(tree, alloc, found.as_slice(), repository),
            Err(e) => Err(e),
        }
    }

    /// Adds the themes of files.
    fn add_themes<T: Tree>(
        &mut self,
        tree: &T,
        alloc: Global,
        paths: &[Text],
        repository: &mut ScopeRepository,
    ) -> Result<(), LoadingError>
        ensures ok { OnOk result
            (AddsThemes (T.told tree.now) paths.now repository.old self.old.themes
            repository.new self.new.themes) }
        ensures err { IfErr result (λ e. StopsAtTheme (T.told tree.now) paths.now
            repository.old self.old.themes e self.new.themes) }
        ensures whole { IsRepository repository.new }
        ensures kept { take (length repository.old) repository.new ≡ repository.old }
    {
        repository.is_whole();
        for path in paths {
            match self.add_theme(tree, alloc, path.as_str(), repository) {
                Ok(()) => {}
                Err(e) => return Err(e),
            }
        }
        Ok(())
    }

    /// Adds the theme of a file, if it is a theme file.
    #[tactic(auto, using(crate::proofs::FileLaws::no_room_for_theme, crate::proofs::FileLaws::passes_over))]
    fn add_theme<T: Tree>(
        &mut self,
        tree: &T,
        alloc: Global,
        path: &str,
        repository: &mut ScopeRepository,
    ) -> Result<(), LoadingError>
        ensures ok { OnOk result
            (AddsThemes (T.told tree.now)
            (path.now ∷ []) repository.old self.old.themes repository.new self.new.themes) }
        ensures err { OnErr result (self.new.themes ≡ self.old.themes) }
        ensures theme { OnErr result (is_some (theme_name path.now) ≡ true) }
        ensures refusal { IfErr result (IsThemeFault (T.told tree.now) path.now) }
        ensures whole { IsRepository repository.new }
        ensures kept { take (length repository.old) repository.new ≡ repository.old }
    {
        repository.is_whole();
        let Some(name) = theme_name(Path::new(path)) else {
            return Ok(());
        };
        let theme = match ThemeSet::get_theme(tree, alloc, Path::new(path), repository) {
            Ok(theme) => theme,
            Err(e) => return Err(e),
        };
        let Ok(name) = Text::from_str(alloc, name) else {
            return Err(LoadingError::Memory);
        };
        match self.themes.insert(name, theme) {
            Ok(_) => Ok(()),
            Err(_) => Err(LoadingError::Memory),
        }
    }
}
