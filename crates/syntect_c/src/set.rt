//! What the handle of a set holds: grammars and themes.
ghost use Rattle.std.specs.Prelude.{◌≡◌, ◌≢◌, IfOk, IsOk, OnErr, OnOk, pos, string_bytes, true};
ghost use Rattle.std.specs.Path.{path_file_stem};
ghost use Rattle.syntect_assets.specs.syntect_grammar_limits.Limited.{LoadsWithin, left_of};
ghost use Rattle.syntect_assets.specs.syntect_grammar_loader.Loading.{loaded};
ghost use Rattle.syntect_easy.specs.Loaded.{HoldsLoaded, IsOfLoaded};
ghost use Rattle.syntect_c.specs.Finds.{Finds};
ghost use Rattle.syntect_c.specs.Sets.{AddsGrammar, AddsGrammarTo, AddsTheme, AddsThemeTo, HoldsLoadedAlone, IsShown, ShowsStage};

use crate::finds::language_of;
use crate::kind::Kind;
use crate::refusal::Refusal;
use std::alloc::{AllocError, Global};
use std::mem;
use std::path::Path;
use syntect_assets::assets::Assets;
use syntect_assets::below::base::limits::{Limits, LoadWithinError};
use syntect_assets::below::scope::repository::ScopeRepository;
use syntect_assets::below::theme_files::theme_set::ThemeSet;
use syntect_assets::below::values::text::Text;
use syntect_assets::builder::AssetsBuilder;
use syntect_assets::error::AssetsError;
use syntect_assets::format::Format;
use syntect_easy::laws::{loaded_sets_are_built, loaded_sets_stay};
use syntect_easy::parsing::{SyntaxDefinition, load_from_str_within};

/// How far a set is.
#[derive(Drop)]
pub enum Stage {
    /// Grammars and themes are added.
    Gathering(AssetsBuilder),
    /// The grammars are linked, and texts are shown.
    Linked(Assets),
    /// There was no memory to link the grammars, and they are gone.
    Lost,
}

/// A set, and what its last calls answered.
#[derive(Drop)]
pub struct SetContent {
    /// The grammars and themes.
    pub stage: Stage,
    /// The text that the last call answered that answers one.
    pub output: String,
    /// Why the last call was refused that was.
    pub fault: String,
}

/// The definition of a grammar's text, for lines with their newlines. A grammar without a name has
/// that of its file, without the extension.
fn load(
    alloc: Global,
    file: &str,
    text: &str,
    repository: &mut ScopeRepository,
    limits: &Limits,
) -> Result<SyntaxDefinition, LoadWithinError>
    ensures { LoadsWithin (left_of limits.now text.now)
        (loaded text.now true (path_file_stem file.now) repository.old) result repository.new }
{
    let stem = Path::new(file).file_stem();
    load_from_str_within(alloc, text, true, stem, repository, limits)
}

/// Adds the grammar in a text to those that are gathered.
#[tactic(auto, using(crate::proofs::SetLaws::adds_grammar))]
fn gather(alloc: Global, builder: &mut AssetsBuilder, file: &str, text: &str) -> Result<(), Refusal>
    ensures added { OnOk result (AddsGrammar file.now text.now builder.old builder.new) }
    ensures kept { OnErr result (builder.new.grammars ≡ builder.old.grammars) }
{
    let AssetsBuilder {
        grammars,
        repository,
        themes: _,
        limits,
    } = builder;
    let definition = match load(alloc, file, text, repository, limits) {
        Ok(definition) => definition,
        Err(e) => return Err(Refusal::of_grammar(alloc, file, &e)),
    };
    let path = Text::from_str(alloc, file)?;
    grammars.add_loaded(definition, path)?;
    Ok(())
}

/// Adds the grammar in a text, as `gather` does: grammars that were loaded stay such ones.
#[tactic(auto, using(crate::proofs::SetLaws::stays_loaded, crate::proofs::SetLaws::same_loaded))]
fn add_grammar(
    alloc: Global,
    builder: &mut AssetsBuilder,
    file: &str,
    text: &str,
) -> Result<(), Refusal>
    ensures added { OnOk result (AddsGrammar file.now text.now builder.old builder.new) }
    ensures loaded { HoldsLoaded builder.old.grammars → HoldsLoaded builder.new.grammars }
{
    loaded_sets_are_built();
    match gather(alloc, builder, file, text) {
        Ok(()) => Ok(()),
        Err(e) => Err(e),
    }
}

/// Adds the theme in bytes under a name.
fn add_theme(
    alloc: Global,
    builder: &mut AssetsBuilder,
    name: &str,
    bytes: &[u8],
) -> Result<(), Refusal>
    ensures grammars { builder.new.grammars ≡ builder.old.grammars }
    ensures added { OnOk result (AddsTheme name.now bytes.now builder.old builder.new) }
{
    let mut reader = bytes;
    let key = Text::from_str(alloc, name)?;
    match ThemeSet::load_from_reader(alloc, &mut reader, &mut builder.repository) {
        Ok(theme) => {
            builder.themes.themes.insert(key, theme)?;
            Ok(())
        }
        Err(e) => Err(Refusal::of_theme(alloc, name, &e)),
    }
}

/// A text in the language of a name, shown by the theme of a name.
fn shown(
    alloc: Global,
    assets: &Assets,
    text: &str,
    language: &str,
    theme: &str,
    format: Format,
) -> Result<String, AssetsError>
    ensures { IsOfLoaded assets.now.set → IfOk result (λ out.
        IsShown assets.now text.now language.now theme.now format (string_bytes out)) }
{
    loaded_sets_stay();
    let style = assets.theme(alloc, theme)?;
    let shown = assets.show_text(alloc, text, language, style, format)?;
    Ok(shown.text)
}

/// The languages that aren't hidden, each in a line with its name, a tab and its extensions with
/// spaces between them.
fn languages_of(alloc: Global, assets: &Assets) -> Result<String, AllocError> {
    let mut out = String::new(alloc);
    for syntax in assets.set.syntaxes() {
        if !syntax.hidden {
            out.push_str(syntax.name.as_str())?;
            push_extensions(&mut out, syntax.file_extensions.as_slice())?;
        }
    }
    Ok(out)
}

/// A tab, extensions with spaces between them, and a newline.
fn push_extensions(out: &mut String, extensions: &[Text]) -> Result<(), AllocError> {
    let mut before = "\t";
    for extension in extensions {
        out.push_str(before)?;
        out.push_str(extension.as_str())?;
        before = " ";
    }
    out.push_str("\n")
}

impl SetContent {
    /// A set of plain text and no theme.
    pub fn new(alloc: Global) -> Result<SetContent, AssetsError>
        ensures { IfOk result HoldsLoadedAlone }
    {
        Ok(SetContent {
            stage: Stage::Gathering(AssetsBuilder::new(alloc)?),
            output: String::new(alloc),
            fault: String::new(alloc),
        })
    }

    /// Adds the grammar in a text, under the name of its file.
    pub fn add_grammar(&mut self, alloc: Global, file: &str, text: &str) -> Result<(), Refusal>
        ensures added { OnOk result
            (AddsGrammarTo file.now text.now self.old.stage self.new.stage) }
        ensures loaded { HoldsLoadedAlone self.old → HoldsLoadedAlone self.new }
    {
        match &mut self.stage {
            Stage::Gathering(builder) => add_grammar(alloc, builder, file, text),
            _ => Err(Refusal::of(Kind::Linked)),
        }
    }

    /// Adds the theme in bytes under a name.
    pub fn add_theme(&mut self, alloc: Global, name: &str, bytes: &[u8]) -> Result<(), Refusal>
        ensures added { OnOk result
            (AddsThemeTo name.now bytes.now self.old.stage self.new.stage) }
        ensures loaded { HoldsLoadedAlone self.old → HoldsLoadedAlone self.new }
    {
        match &mut self.stage {
            Stage::Gathering(builder) => add_theme(alloc, builder, name, bytes),
            _ => Err(Refusal::of(Kind::Linked)),
        }
    }

    /// Links the grammars, unless they are. Without memory they are gone.
    pub fn link(&mut self, alloc: Global) -> Result<(), Refusal>
        ensures loaded { HoldsLoadedAlone self.old → HoldsLoadedAlone self.new }
    {
        match mem::replace(&mut self.stage, Stage::Lost) {
            Stage::Gathering(builder) => match builder.build(alloc) {
                Ok(assets) => {
                    self.stage = Stage::Linked(assets);
                    Ok(())
                }
                Err(_) => Err(Refusal::of(Kind::Memory)),
            },
            Stage::Linked(assets) => {
                self.stage = Stage::Linked(assets);
                Ok(())
            }
            Stage::Lost => Err(Refusal::of(Kind::Memory)),
        }
    }

    /// Shows a text in the language of a name by the theme of a name, in a format, and keeps what
    /// is shown as the output. The grammars are linked before, unless they are.
    pub fn show(
        &mut self,
        alloc: Global,
        text: &str,
        language: &str,
        theme: &str,
        format: Format,
    ) -> Result<(), Refusal>
        ensures loaded { HoldsLoadedAlone self.old → HoldsLoadedAlone self.new }
        ensures shown { HoldsLoadedAlone self.old → OnOk result
            (ShowsStage text.now language.now theme.now format self.new) }
    {
        self.link(alloc)?;
        let answer = match &self.stage {
            Stage::Linked(assets) => shown(alloc, assets, text, language, theme, format),
            _ => return Err(Refusal::of(Kind::Memory)),
        };
        match answer {
            Ok(out) => {
                self.output = out;
                Ok(())
            }
            Err(e) => Err(Refusal::of_assets(alloc, &e)),
        }
    }

    /// Keeps the languages as the output, each in a line.
    pub fn list_languages(&mut self, alloc: Global) -> Result<(), Refusal>
        ensures loaded { HoldsLoadedAlone self.old → HoldsLoadedAlone self.new }
    {
        self.link(alloc)?;
        if let Stage::Linked(assets) = &self.stage {
            self.output = languages_of(alloc, assets)?;
        }
        Ok(())
    }

    /// Keeps the name of a text's language as the output: of the language that the name of its file
    /// tells, or else its first line.
    pub fn find(&mut self, alloc: Global, file: &str, line: &str) -> Result<(), Refusal>
        ensures loaded { HoldsLoadedAlone self.old → HoldsLoadedAlone self.new }
        ensures found { OnOk result (Finds file.now line.now self.new) }
    {
        self.link(alloc)?;
        let found = match &self.stage {
            Stage::Linked(assets) => language_of(alloc, assets, file, line)?,
            _ => return Err(Refusal::of(Kind::Memory)),
        };
        match found {
            Some(syntax) => {
                self.output = String::from_str(alloc, syntax.name.as_str())?;
                Ok(())
            }
            None => Err(Refusal::of(Kind::Language)),
        }
    }

    /// Keeps the text of a refusal, and answers its number for C.
    pub fn tell(&mut self, alloc: Global, refusal: Refusal) -> i32
        ensures stage { self.new.stage ≡ self.old.stage }
        ensures output { self.new.output ≡ self.old.output }
        ensures refused { result ≢ pos 0 }
    {
        let (number, told) = refusal.into_told(alloc);
        self.fault = told;
        number
    }

    /// The number for C of a call's answer: 0 where it was done, else that of its refusal, whose
    /// text is kept.
    pub fn told(&mut self, alloc: Global, answer: Result<(), Refusal>) -> i32
        ensures stage { self.new.stage ≡ self.old.stage }
        ensures output { self.new.output ≡ self.old.output }
        ensures done { result ≡ pos 0 → IsOk answer }
    {
        match answer {
            Ok(()) => 0,
            Err(refusal) => self.tell(alloc, refusal),
        }
    }
}
