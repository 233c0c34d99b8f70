//! Grammars, the texts of their scopes and themes in one value, and the texts that they show.
ghost use Rattle.std.specs.Prelude.{◌≡◌, ℕ, List, length, IfErr, IfOk, Some};
ghost use Rattle.std.specs.Path.{path_bytes};
ghost use Rattle.syntect_assets.specs.syntect_grammar_loader.declared.definition.SyntaxDefinition.{SyntaxDefinition as ADefinition};
ghost use Rattle.syntect_easy.specs.Built.{IsBuilt, IsSyntaxOfBuilt};
ghost use Rattle.syntect_easy.specs.Loaded.{IsOfLoaded};
ghost use Rattle.syntect_assets.specs.syntect_theme_files.ThemeFiles.{IsThemeOf};
ghost use Rattle.syntect_assets.specs.Gathered.{IsOfFolder, IsOfNoFolder, IsOfNoWalk, IsOfWhatLoads};
ghost use Rattle.syntect_assets.specs.Refusals.{RefusesReading, RefusesThemeIn, TellsFile};
ghost use Rattle.syntect_assets.specs.syntect_base.Trees.{has_bytes};
ghost use Rattle.syntect_assets.specs.Assets.{LacksLanguage, LacksTheme, RefusesLine, RefusesText, ShowsFile, ShowsIn, ShowsText, language_named, theme_named};

use crate::below::base::limits::Limits;
use crate::below::base::tree::Tree;
use crate::below::grammar_limits::first_line_error::FirstLineLimit;
use crate::below::parsing::syntax_set::{SyntaxReference, SyntaxSet};
use crate::below::scope::repository::ScopeRepository;
use crate::below::theme::theme::Theme;
use crate::below::theme_files::theme_set::ThemeSet;
use crate::below::values::text::Text;
use crate::builder::{AssetsBuilder, refused};
use crate::error::AssetsError;
use crate::format::Format;
use crate::lines::{PlainLine, shown_lines, text_of_lines};
use std::alloc::{AllocError, Global};
use std::path::Path;
use syntect_easy::Error;
use syntect_easy::easy::{HighlightFile, HighlightLines};
use syntect_easy::reading::FileLines;

/// Grammars, the texts of their scopes, and themes.
#[derive(Drop)]
pub struct Assets {
    /// The grammars, linked.
    pub set: SyntaxSet,
    /// The texts of the scopes that grammars and themes name.
    pub repository: ScopeRepository,
    /// The themes, by their names.
    pub themes: ThemeSet,
    /// What a line may take. One that would take more is shown plain.
    pub limits: Limits,
}

/// A text that shows another one, and what of it is shown plain since a limit was reached.
#[derive(Drop)]
pub struct Shown {
    /// The text.
    pub text: String,
    /// The first line that is shown plain, by its number from 1, and the limit that it reached.
    pub plain: Option<PlainLine>,
    /// The limit that was reached as the syntax was looked for by the first line, so that all is
    /// shown as plain text.
    pub first_line: Option<FirstLineLimit>,
}

/// Names, one after another with commas between them.
fn listed(alloc: Global, names: &[&str]) -> Result<String, AllocError> {
    let mut out = String::new(alloc);
    for name in names {
        if !out.as_str().is_empty() {
            out.push_str(", ")?;
        }
        out.push_str(name)?;
    }
    Ok(out)
}

/// Why a file isn't shown: that it isn't read comes with its path.
pub fn refused_file(alloc: Global, path: Path<'_>, e: Error) -> Result<AssetsError, AllocError>
    ensures { IfOk result (TellsFile e) }
{
    match e {
        Error::Io(e) => {
            let told = format!(in alloc; "{}: {e}", path.as_str())?;
            Ok(AssetsError::NotRead(told))
        }
        e => Ok(AssetsError::from(e)),
    }
}

impl Assets {
    /// What stands in a folder and in the folders below it: the grammars (`.sublime-syntax`), for
    /// lines with their newlines, their metadata (`.tmPreferences`) and the themes (`.tmTheme`),
    /// with the syntax of plain text. Grammars are loaded within `Limits::default`, which stands
    /// for lines too.
    ///
    /// `NotLoaded` with the file and the reason where one of them can't be loaded;
    /// `AssetsBuilder::add_what_loads` passes such files over.
    pub fn from_folder<T: Tree>(
        tree: &T,
        alloc: Global,
        folder: Path<'_>,
    ) -> Result<Assets, AssetsError>
        ensures made { IfOk result (IsOfFolder (T.told tree.now) (path_bytes folder.entry)) }
        ensures loaded { IfOk result (λ assets. IsOfLoaded assets.set) }
        ensures refused { IfErr result (IsOfNoFolder (T.told tree.now) (path_bytes folder.entry)) }
    {
        let mut builder = AssetsBuilder::new(alloc)?;
        builder.add_folder(tree, alloc, folder)?;
        builder.build(alloc)
    }

    /// What of a folder can be loaded, as `from_folder` loads it, and why the rest can't be: each
    /// file in words that begin with its path. `NotLoaded` only where the folder can't be walked
    /// through.
    pub fn what_loads<T: Tree>(
        tree: &T,
        alloc: Global,
        folder: Path<'_>,
    ) -> Result<(Assets, Vec<String>), AssetsError>
        ensures made { IfOk result (λ r. IsOfWhatLoads (T.told tree.now)
            (path_bytes folder.entry) (length r.1.items) r.0) }
        ensures loaded { IfOk result (λ r. IsOfLoaded r.0.set) }
        ensures refused { IfErr result (IsOfNoWalk (T.told tree.now) (path_bytes folder.entry)) }
    {
        let mut builder = AssetsBuilder::new(alloc)?;
        let told = builder.add_what_loads(tree, alloc, folder)?;
        Ok((builder.build(alloc)?, told))
    }

    /// The names of the languages that aren't hidden, with commas between them.
    fn languages(&self, alloc: Global) -> Result<String, AllocError> {
        let mut names = Vec::new(alloc);
        for syntax in self.set.syntaxes() {
            if !syntax.hidden {
                names.push(syntax.name.as_str())?;
            }
        }
        listed(alloc, names.as_slice())
    }

    /// The names of the themes, with commas between them.
    fn theme_names(&self, alloc: Global) -> Result<String, AllocError> {
        let mut names = Vec::new(alloc);
        for (name, _) in self.themes.themes.as_map().iter() {
            names.push(name.as_str())?;
        }
        listed(alloc, names.as_slice())
    }

    /// The language of a name: the last syntax with this file extension, or else with this name,
    /// ASCII case aside. `UnknownLanguage` where there is none.
    pub fn language(&self, alloc: Global, name: &str) -> Result<&SyntaxReference, AssetsError>
        ensures found { IfOk result
            (λ syntax. language_named self.now name.now ≡ Some syntax.now) }
        ensures unknown { IfErr result
            (LacksLanguage (language_named self.now name.now) name.now) }
    {
        match self.set.find_syntax_by_token(name) {
            Some(syntax) => Ok(syntax),
            None => {
                let known = self.languages(alloc)?;
                Err(AssetsError::UnknownLanguage(String::from_str(alloc, name)?, known))
            }
        }
    }

    /// The theme of a name. `UnknownTheme` where there is none.
    pub fn theme(&self, alloc: Global, name: &str) -> Result<&Theme, AssetsError>
        ensures found { IfOk result (λ theme. theme_named self.now name.now ≡ Some theme.now) }
        ensures unknown { IfErr result (LacksTheme (theme_named self.now name.now) name.now) }
    {
        let key = Text::from_str(alloc, name)?;
        match self.themes.themes.get(&key) {
            Some(theme) => Ok(theme),
            None => {
                let known = self.theme_names(alloc)?;
                Err(AssetsError::UnknownTheme(key.into_string(), known))
            }
        }
    }

    /// The theme in a file, whose scopes join those of the repository. `NotLoaded` with the path
    /// and the reason where it can't be loaded.
    pub fn theme_in<T: Tree>(
        &mut self,
        tree: &T,
        alloc: Global,
        path: Path<'_>,
    ) -> Result<Theme, AssetsError>
        ensures theme { IfOk result (λ theme. (bytes : List ℕ)
            × T.told tree.now (has_bytes (path_bytes path.entry) bytes)
            × IsThemeOf self.old.repository bytes self.new.repository theme) }
        ensures set { self.new.set ≡ self.old.set }
        ensures themes { self.new.themes ≡ self.old.themes }
        ensures limits { self.new.limits ≡ self.old.limits }
        ensures refused { IfErr result
            (RefusesThemeIn (T.told tree.now) (path_bytes path.entry)) }
    {
        match ThemeSet::get_theme(tree, alloc, path, &mut self.repository) {
            Ok(theme) => Ok(theme),
            Err(e) => Err(refused(tree, alloc, path, &e)?),
        }
    }

    /// A text in a syntax of the set, shown by a theme in a format. A line that reaches a limit is
    /// shown plain, and the lines after it are read as if it weren't there.
    ///
    /// `NotShown` with the line's refusal, or `MissingMainContext` where the syntax has no context
    /// `__start`.
    pub fn show_in(
        &self,
        alloc: Global,
        text: &str,
        syntax: &SyntaxReference,
        theme: &Theme,
        format: Format,
    ) -> Result<Shown, AssetsError>
        // the set was built of plain definitions
        ensures shown { (definitions : List ADefinition)
            → IsSyntaxOfBuilt self.now.set syntax.now definitions
            → IfOk result (ShowsIn self.now text.now syntax.now theme.now format) }
        ensures refused { IfErr result RefusesLine }
    {
        let lines = HighlightLines::new(alloc, syntax, theme)?;
        let (text, plain) = shown_lines(
            alloc,
            text.as_bytes(),
            lines,
            format,
            &self.set,
            theme,
            &self.limits,
        )?;
        Ok(Shown {
            text,
            plain,
            first_line: None,
        })
    }

    /// A text in the language of a name, which `language` finds, shown as by `show_in`.
    /// `UnknownLanguage` where there is no such language.
    pub fn show_text(
        &self,
        alloc: Global,
        text: &str,
        language: &str,
        theme: &Theme,
        format: Format,
    ) -> Result<Shown, AssetsError>
        // the set was built of plain definitions
        ensures shown { (definitions : List ADefinition) → IsBuilt self.now.set definitions
            → IfOk result (ShowsText self.now text.now language.now theme.now format) }
        ensures refused { IfErr result
            (RefusesText (language_named self.now language.now) language.now) }
    {
        let syntax = self.language(alloc, language)?;
        self.show_in(alloc, text, syntax, theme, format)
    }

    /// What a file holds, shown by a theme in a format, in the syntax that
    /// `SyntaxSet::find_syntax_for_file` finds, or else as plain text. A line that reaches a limit
    /// is shown plain, and the lines after it are read as if it weren't there.
    ///
    /// `NotRead` with the path where the file isn't read or isn't UTF-8; `NotShown` with the line's
    /// refusal, or with `NoSyntax` where no syntax fits and there is no plain text.
    #[tactic(auto, using(crate::proofs::AssetsLaws::file_refused))]
    pub fn show_file<T: Tree>(
        &self,
        tree: &T,
        alloc: Global,
        path: Path<'_>,
        theme: &Theme,
        format: Format,
    ) -> Result<Shown, AssetsError>
        // the set was built of plain definitions
        ensures shown { (definitions : List ADefinition) → IsBuilt self.now.set definitions
            → IfOk result (ShowsFile (T.told tree.now) self.now (path_bytes path.entry)
            theme.now format) }
        ensures refused { IfErr result (RefusesReading (T.told tree.now)
            self.now.limits self.now.set (path_bytes path.entry)) }
    {
        let limits = &self.limits;
        let opened = HighlightFile::new_or_plain(tree, alloc, path, &self.set, theme, limits);
        let (file, first_line) = match opened {
            Ok(opened) => opened,
            Err(e) => return Err(refused_file(alloc, path, e)?),
        };
        let lines = FileLines {
            tree,
            path: path.as_str(),
            reader: file.reader,
        };
        let highlighter = file.highlight_lines;
        let written = text_of_lines(alloc, lines, highlighter, format, &self.set, theme, limits);
        let (text, plain) = match written {
            Ok(written) => written,
            Err(e) => return Err(refused_file(alloc, path, e.into_error())?),
        };
        Ok(Shown {
            text,
            plain,
            first_line,
        })
    }
}
