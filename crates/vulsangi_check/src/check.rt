//! What is wrong with grammars and themes, and where.
ghost use Rattle.std.specs.Prelude.{◌≡◌, ◌≢◌, ℕ, IfOk, List, Result, true, false, string_bytes};
ghost use Rattle.std.specs.Path.{path_file_stem};
ghost use Rattle.syntect_grammar_limits.specs.Limited.{Left, LoadsWithin, left_of};
ghost use Rattle.syntect_grammar_limits.specs.syntect_base.declared.limits.LoadWithinError.TheVariants as error;
ghost use Rattle.syntect_grammar_limits.specs.syntect_base.declared.syntax.ParseSyntaxError.TheVariants.{Memory};
ghost use Rattle.syntect_grammar_limits.specs.syntect_grammar_loader.LoadingSteps.{Refusal};
ghost use Rattle.syntect_grammar_limits.specs.syntect_grammar_loader.declared.definition.SyntaxDefinition.{SyntaxDefinition as ADefinition};
ghost use Rattle.syntect_grammar_limits.specs.syntect_base.Limiting.{usual};
ghost use Rattle.syntect_grammar_limits.specs.syntect_grammar_loader.Loading.{loaded};
ghost use Rattle.vulsangi_check.specs.Faults.{IsFaultOf};

use crate::vulsangi_grammar::findings::{Findings, Lines};
use crate::vulsangi_grammar::grammar::{Grammar, Item, items_of, yaml_of};
use crate::vulsangi_grammar::rules::{Grade, NO_THEME, NOT_READ, NOTHING_THERE};
use crate::vulsangi_grammar::syntect::LoadingError;
use crate::vulsangi_grammar::syntect::assets::AssetsError;
use crate::vulsangi_grammar::syntect::highlighting::ThemeSet;
use crate::vulsangi_grammar::syntect::parsing::{
    Limits, LoadWithinError, ParseSyntaxError, ScopeRepository, SyntaxDefinition,
    load_from_str_within,
};
use crate::vulsangi_grammar::themes::check_theme;
use crate::{clears, faults, keys, names, proof, variables};
use std::alloc::Global;
use std::fs;
use std::path::Path;
use std::rt::Files;
use syntect_base::utils::files_below;
use vulsangi_contexts::lists::lists_of;
use vulsangi_contexts::{begins, order, references, rounds, sizes};

/// A definition, or why there is none.
type Parted = (Option<SyntaxDefinition>, Option<LoadWithinError>);

/// A grammar as it is read, and why it isn't loaded, if it isn't.
type Read = (Grammar, Option<LoadWithinError>);

/// Whether memory ran out.
fn is_memory(e: &LoadWithinError) -> bool
    ensures { result ≡ false → e.now ≢ error.Refused Memory }
{
    matches!(e, LoadWithinError::Refused(ParseSyntaxError::Memory))
}

/// The definition of a text that is loaded, or the fault of one that isn't.
fn parted(loaded: Result<SyntaxDefinition, LoadWithinError>) -> Result<Parted, AssetsError>
    ensures { (left : Left) (answer : Result (ADefinition × List (List ℕ)) Refusal)
        (repository : List (List ℕ)) → LoadsWithin left answer loaded repository
        → IfOk result (λ parts. IsFaultOf left answer parts.1) }
{
    match loaded {
        Ok(definition) => Ok((Some(definition), None)),
        Err(e) => {
            if is_memory(&e) {
                return Err(AssetsError::Memory);
            }
            Ok((None, Some(e)))
        }
    }
}

/// Reads a grammar from its text.
pub fn read_grammar(
    alloc: Global,
    path: &str,
    text: String,
    repository: &mut ScopeRepository,
) -> Result<Read, AssetsError>
    ensures { IfOk result (λ read. IsFaultOf (left_of usual (string_bytes text))
        (loaded (string_bytes text) true (path_file_stem path.now) repository.old) read.1) }
{
    let yaml = yaml_of(alloc, text.as_str())?;
    let stem = Path::new(path).file_stem();
    let limits = Limits::default();
    let loaded = load_from_str_within(alloc, text.as_str(), true, stem, repository, &limits);
    let (definition, fault) = parted(loaded)?;
    let grammar = Grammar {
        path: String::from_str(alloc, path)?,
        text,
        yaml,
        definition,
    };
    Ok((grammar, fault))
}

/// What stands around a grammar that is looked through.
#[derive(Clone, Copy)]
struct Around<'g> {
    grammars: &'g [Grammar],
    /// The contexts of others that these name.
    foreign: &'g [&'g str],
    /// The scopes that themes have rules for.
    known: &'g [String],
}

/// Adds what is found in a grammar, one of those that are looked through. Answers whether
/// patterns of a `with_prototype` may leave a context by a `set`.
fn check_grammar(
    alloc: Global,
    (number, grammar): (usize, &Grammar),
    around: &Around<'_>,
    fault: Option<&LoadWithinError>,
    findings: &mut Findings,
) -> Result<bool, AssetsError> {
    let lines = Lines::of(alloc, grammar.path.as_str(), grammar.text.as_str())?;
    let items = items_of(alloc, grammar)?;
    let items = items.as_slice();
    if let Some(e) = fault {
        faults::check(alloc, grammar, &lines, items, e, findings)?;
    }
    keys::check_top(alloc, grammar, &lines, findings)?;
    for item in items {
        keys::check_item(alloc, &lines, item, findings)?;
        names::check_item(alloc, &lines, item, around.known, findings)?;
    }
    variables::check(alloc, grammar, &lines, items, findings)?;
    let others = (around.grammars, around.foreign);
    references::check(alloc, grammar, others, &lines, items, findings)?;
    check_contexts(alloc, (number, grammar), around, &lines, items, findings)
}

/// Adds what is found in the contexts of a grammar and in their patterns.
fn check_contexts(
    alloc: Global,
    (number, grammar): (usize, &Grammar),
    around: &Around<'_>,
    lines: &Lines<'_>,
    items: &[Item<'_>],
    findings: &mut Findings,
) -> Result<bool, AssetsError> {
    let lists = lists_of(alloc, grammar, around.foreign, lines, items, findings)?;
    let lists = lists.as_slice();
    order::check(alloc, lines, items, lists, findings)?;
    begins::check(alloc, lines, items, lists, findings)?;
    rounds::check(alloc, grammar, lines, findings)?;
    rounds::check_main(alloc, lines, items, lists, findings)?;
    sizes::check(alloc, lines, items, findings)?;
    let all = (number, around.grammars);
    Ok(clears::check(alloc, all, lines, items, lists, findings)?)
}

/// The contexts of others that grammars name.
fn foreign_of(alloc: Global, grammars: &[Grammar]) -> Result<Vec<&str>, AssetsError> {
    let mut foreign = Vec::new(alloc);
    for grammar in grammars {
        let items = items_of(alloc, grammar)?;
        references::add_foreign(alloc, items.as_slice(), &mut foreign)?;
    }
    Ok(foreign)
}

/// What is found in grammars, file by file in the order of the places. Themes have rules for the
/// scopes that are known; where there are none, nothing is said of that.
pub fn check_grammars(
    alloc: Global,
    grammars: &[Grammar],
    faults: &[Option<LoadWithinError>],
    known: &[String],
    findings: &mut Findings,
) -> Result<(), AssetsError> {
    let foreign = foreign_of(alloc, grammars)?;
    let around = Around {
        grammars,
        foreign: foreign.as_slice(),
        known,
    };
    let (mut all, mut bringing) = (Vec::new(alloc), Vec::new(alloc));
    for (numbered, fault) in grammars.iter().enumerate().zip(faults.iter()) {
        let mut own = Findings::new(alloc);
        let (_, grammar) = numbered;
        let brings = check_grammar(alloc, numbered, &around, fault.as_ref(), &mut own)?;
        bringing.push(brings)?;
        if grammar.definition.is_some() {
            findings.grammars = findings.grammars.saturating_add(1);
        }
        all.push(own)?;
    }
    proof::check(alloc, grammars, bringing.as_slice(), all.as_mut_slice())?;
    for own in all {
        add_sorted(alloc, own, findings)?;
    }
    Ok(())
}

/// Adds what was found in a grammar, in the order of the places.
fn add_sorted(alloc: Global, own: Findings, findings: &mut Findings) -> Result<(), AssetsError> {
    let mut found = own.found;
    found
        .as_mut_slice()
        .sort_by_key(alloc, |finding| finding.place)?;
    for finding in found {
        findings.found.push(finding)?;
    }
    Ok(())
}

/// The grammars that were read so far, and what was found of other files.
#[derive(Drop)]
struct Gathered {
    grammars: Vec<Grammar>,
    faults: Vec<Option<LoadWithinError>>,
    repository: ScopeRepository,
    /// The scopes that themes have rules for.
    known: Vec<String>,
    findings: Findings,
}

impl Gathered {
    /// Adds a grammar's file.
    fn add_grammar(
        &mut self,
        rt: &(impl AllocGlobal + Files),
        path: &str,
    ) -> Result<(), AssetsError> {
        let text = match fs::read_to_string(rt, path) {
            Ok(text) => text,
            Err(e) => {
                let message = format!(in rt.alloc(); "{e}")?;
                return Ok(self.findings.add_file(NOT_READ, path, message)?);
            }
        };
        let (grammar, fault) = read_grammar(rt.alloc(), path, text, &mut self.repository)?;
        self.grammars.push(grammar)?;
        self.faults.push(fault)?;
        Ok(())
    }

    /// Adds a theme's file.
    fn add_theme(
        &mut self,
        rt: &(impl AllocGlobal + Files),
        path: &str,
    ) -> Result<(), AssetsError> {
        let alloc = rt.alloc();
        let text = match fs::read_to_string(rt, path) {
            Ok(text) => text,
            Err(e) => {
                let message = format!(in alloc; "{e}")?;
                return Ok(self.findings.add_file(NOT_READ, path, message)?);
            }
        };
        let before = self.findings.count(Grade::Fault);
        check_theme(alloc, path, text.as_str(), &mut self.findings)?;
        if self.findings.count(Grade::Fault) > before {
            return Ok(());
        }
        let mut bytes = text.as_bytes();
        match ThemeSet::load_from_reader(alloc, &mut bytes, &mut self.repository) {
            Ok(theme) => {
                self.findings.themes = self.findings.themes.saturating_add(1);
                names::add_known(&theme, &self.repository, &mut self.known)?;
                Ok(())
            }
            Err(LoadingError::Memory) => Err(AssetsError::Memory),
            Err(e) => {
                let message = format!(in alloc; "{e:?}")?;
                Ok(self.findings.add_file(NO_THEME, path, message)?)
            }
        }
    }

    /// Adds a file, if it is a grammar's or a theme's. One that is named itself is a theme's also
    /// where it ends with `.json` and stands in another folder.
    fn add_file(
        &mut self,
        rt: &(impl AllocGlobal + Files),
        path: &str,
        is_named: bool,
    ) -> Result<(), AssetsError> {
        if path.ends_with(".sublime-syntax") {
            return self.add_grammar(rt, path);
        }
        let is_json = path.ends_with(".json") && (is_named || path.contains("themes/"));
        if is_json || path.ends_with(".tmTheme") {
            return self.add_theme(rt, path);
        }
        Ok(())
    }

    /// Adds the files of a folder, or a file.
    fn add_path(&mut self, rt: &(impl AllocGlobal + Files), path: &str) -> Result<(), AssetsError> {
        match fs::metadata(rt, path) {
            Ok(about) if about.is_dir() => {}
            Ok(_) => return self.add_file(rt, path, true),
            Err(e) => {
                let message = format!(in rt.alloc(); "{e}")?;
                return Ok(self.findings.add_file(NOT_READ, path, message)?);
            }
        }
        let files = match files_below(rt, rt.alloc(), Path::new(path)) {
            Ok(files) => files,
            Err(LoadingError::Memory) => return Err(AssetsError::Memory),
            Err(e) => {
                let message = format!(in rt.alloc(); "{e}")?;
                return Ok(self.findings.add_file(NOT_READ, path, message)?);
            }
        };
        for file in files.as_slice() {
            self.add_file(rt, file.as_str(), false)?;
        }
        Ok(())
    }
}

/// Looks through the grammars and themes that are named by their files or folders: what isn't
/// loaded, and why; and what a grammar that is loaded has that it can't mean, or that costs much.
pub fn findings_of(
    rt: &(impl AllocGlobal + Files),
    paths: &[&str],
) -> Result<Findings, AssetsError> {
    let alloc = rt.alloc();
    let mut gathered = Gathered {
        grammars: Vec::new(alloc),
        faults: Vec::new(alloc),
        repository: ScopeRepository::new(alloc),
        known: Vec::new(alloc),
        findings: Findings::new(alloc),
    };
    for path in paths {
        gathered.add_path(rt, *path)?;
    }
    let (grammars, faults, known) = (gathered.grammars, gathered.faults, gathered.known);
    let mut findings = gathered.findings;
    check_grammars(
        alloc,
        grammars.as_slice(),
        faults.as_slice(),
        known.as_slice(),
        &mut findings,
    )?;
    if findings.grammars == 0 && findings.themes == 0 && findings.found.is_empty() {
        let message = format!(in alloc; "here are no grammars and no themes")?;
        findings.add_file(
            NOTHING_THERE,
            paths.first().copied().unwrap_or("."),
            message,
        )?;
    }
    Ok(findings)
}
