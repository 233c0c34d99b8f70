//! The definition of a grammar's text.
ghost use Rattle.std.specs.Prelude.{◌≡◌, ◌++◌, [], codes, map, option_map, IfOk, OnOk};
ghost use Rattle.std.specs.BTreeMap.{is_at};
ghost use Rattle.std.specs.Map.{lookup};
ghost use Rattle.std.specs.Cmp.Lexicographic.{slice_cmp};
ghost use Rattle.std.specs.Ordering.{nat_cmp};
ghost use Rattle.syntect_grammar_loader.specs.Loading as loading;
ghost use Rattle.syntect_grammar_loader.specs.LoadingContexts as entries;
ghost use Rattle.syntect_grammar_loader.specs.LoadingSteps.{Finds, Gives, KeepsAtoms};
ghost use Rattle.syntect_grammar_loader.specs.LoadingValues.{at, text_in};
ghost use Rattle.syntect_yaml.specs.Node.{text_of};
ghost use Rattle.syntect_yaml.specs.View.{view, entry_view};

use crate::below::regexes::regex::Regex;
use crate::below::scope::repository::ScopeRepository;
use crate::below::scope::scope::Scope;
use crate::below::values::seq::Seq;
use crate::below::values::table::Table;
use crate::below::values::text::Text;
use crate::definition::SyntaxDefinition;
use crate::yaml_load_contexts::named_context;
use crate::yaml_load_state::Reading;
use crate::yaml_load_values::{list_at, list_of, map_at, map_of, text_at, truth_at};
use std::alloc::{AllocError, Global};
use std::mem;
use syntect_base::syntax::ParseSyntaxError;
use syntect_grammar_contexts::context::{
    Context, ContextReference, MatchOperation, MatchPattern, Pattern,
};
use syntect_yaml::error::ReadError;
use syntect_yaml::read::read;
use syntect_yaml::value::{Scalar, Yaml};

/// How deep the maps and lists of a text nest.
pub const DEEPEST: usize = 100;

/// A context among the top ones: one that has a name and is a list.
fn top_context(
    alloc: Global,
    reading: &mut Reading,
    name: Option<&str>,
    items: Option<&[Yaml]>,
) -> Result<Text, ParseSyntaxError>
    ensures value { Gives (λ t. t) result reading.new
        (loading.top_context (option_map (λ t. t.now) name.entry)
        (option_map (λ v. map view v.now) items.entry) reading.old) }
    ensures kept { KeepsAtoms reading.old.repository reading.new.repository }
{
    let (Some(name), Some(items)) = (name, items) else {
        return Ok(Text::new(alloc));
    };
    reading.top = Text::from_str(alloc, name)?;
    reading.begun = Seq::new(alloc);
    let key = Text::from_str(alloc, name)?;
    named_context(alloc, reading, DEEPEST, key, name != "prototype", items)
}

/// The top contexts.
#[tactic(auto, using(crate::proofs::LoadingLaws::each_fails, crate::proofs::LoadingLaws::each_next))]
fn top_contexts(
    alloc: Global,
    reading: &mut Reading,
    entries: &[(Scalar, Yaml)],
) -> Result<(), ParseSyntaxError>
    ensures value { Gives (λ _. []) result reading.new
        (loading.top_contexts (map entry_view entries.now) reading.old) }
    ensures kept { KeepsAtoms reading.old.repository reading.new.repository }
{
    for entry in entries {
        match top_context(alloc, reading, entry.0.as_str(), list_of(&entry.1)) {
            Ok(_) => {}
            Err(e) => return Err(e),
        };
    }
    Ok(())
}

/// The entries of the contexts.
fn contexts_of(value: &Yaml) -> Result<&[(Scalar, Yaml)], ParseSyntaxError>
    ensures { Finds (λ es. map entry_view es.now) result (loading.contexts_at (view value.now)) }
{
    let Some(contexts) = value.get("contexts") else {
        return Err(ParseSyntaxError::MissingMandatoryKey("contexts"));
    };
    match map_of(contexts) {
        Some(entries) => Ok(entries),
        None => Err(ParseSyntaxError::TypeMismatch),
    }
}

/// The text of the grammar's scope.
fn scope_text_of(value: &Yaml) -> Result<&str, ParseSyntaxError>
    ensures { Finds (λ t. t.now) result (loading.scope_text_at (view value.now)) }
{
    let Some(scope) = value.get("scope") else {
        return Err(ParseSyntaxError::MissingMandatoryKey("scope"));
    };
    match scope.as_str() {
        Some(text) => Ok(text),
        None => Err(ParseSyntaxError::TypeMismatch),
    }
}

/// Reads the contexts. The scope of the grammar.
fn read_contexts(
    alloc: Global,
    reading: &mut Reading,
    value: &Yaml,
) -> Result<Scope, ParseSyntaxError>
    ensures value { Gives (λ s. s) result reading.new
        (loading.read_contexts (view value.now) reading.old) }
    ensures kept { KeepsAtoms reading.old.repository reading.new.repository }
{
    if map_of(value).is_none() {
        return Err(ParseSyntaxError::TypeMismatch);
    }
    let contexts = contexts_of(value)?;
    let text = scope_text_of(value)?;
    let top_scope = reading.scope(text)?;
    top_contexts(alloc, reading, contexts)?;
    Ok(top_scope)
}

/// The context in which reading begins.
fn start_context(alloc: Global, top_scope: Scope) -> Result<Context, AllocError>
    ensures { IfOk result (λ c. c ≡ loading.start_context top_scope) }
{
    let mut named = Seq::new(alloc);
    named.push(ContextReference::Named(Text::from_str(alloc, "__main")?))?;
    let opening = MatchPattern::new(
        alloc,
        false,
        String::new(alloc),
        Seq::new(alloc),
        None,
        MatchOperation::Push(named),
        None,
    )?;
    let mut start = Context::new(alloc, false);
    start.meta_content_scope.push(top_scope)?;
    start.patterns.push(Pattern::Match(opening))?;
    Ok(start)
}

/// The context around `main`.
fn outer_context(alloc: Global, main: &Context) -> Result<Context, AllocError>
    ensures { IfOk result (λ c. c ≡ loading.outer_context main.now) }
{
    let mut outer = Context::new(alloc, main.meta_include_prototype);
    outer.meta_scope = Seq::from_slice(alloc, main.meta_scope.as_slice())?;
    outer.meta_content_scope = Seq::from_slice(alloc, main.meta_content_scope.as_slice())?;
    let main_name = Text::from_str(alloc, "main")?;
    outer
        .patterns
        .push(Pattern::Include(ContextReference::Named(main_name)))?;
    Ok(outer)
}

/// `main` with the scope of the grammar.
fn main_context(alloc: Global, top_scope: Scope, main: Context) -> Result<Context, AllocError>
    ensures { IfOk result (λ c. c ≡ loading.main_context top_scope main) }
{
    let mut scopes = Seq::new(alloc);
    scopes.push(top_scope)?;
    scopes.extend_from_slice(main.meta_content_scope.as_slice())?;
    let mut main = main;
    main.meta_content_scope = scopes;
    Ok(main)
}

/// The contexts with one at its name.
fn put(
    alloc: Global,
    mut contexts: Table<Text, Context>,
    name: &str,
    context: Context,
) -> Result<Table<Text, Context>, AllocError>
    ensures { IfOk result (λ all. all ≡ entries.put name.now context contexts) }
{
    let _ = contexts.insert(Text::from_str(alloc, name)?, context)?;
    Ok(contexts)
}

/// The contexts with those of the start, and `main` in its last form.
#[tactic(auto, using(crate::proofs::EndLaws::around))]
fn with_start(
    alloc: Global,
    top_scope: Scope,
    main: Context,
    others: Table<Text, Context>,
) -> Result<Table<Text, Context>, AllocError>
    ensures { IfOk result (λ all. all ≡ loading.around_main top_scope main others) }
{
    let start = start_context(alloc, top_scope)?;
    let outer = outer_context(alloc, &main)?;
    let last = main_context(alloc, top_scope, main)?;
    let with_first = put(alloc, others, "__start", start)?;
    let with_second = put(alloc, with_first, "__main", outer)?;
    let all = put(alloc, with_second, "main", last)?;
    Ok(all)
}

/// Adds the texts of a list.
fn add_texts(alloc: Global, texts: &mut Seq<Text>, items: Option<&[Yaml]>) -> Result<(), AllocError>
    ensures { OnOk result (texts.new ≡ texts.old
        ++ loading.texts_in (option_map (λ v. map view v.now) items.entry)) }
{
    let Some(values) = items else {
        return Ok(());
    };
    for item in values {
        if let Some(text) = item.as_str() {
            texts.push(Text::from_str(alloc, text)?)?;
        }
    }
    Ok(())
}

/// The endings of the names of files in the syntax.
fn extensions_of(alloc: Global, value: &Yaml) -> Result<Seq<Text>, AllocError>
    ensures { IfOk result (λ texts. texts ≡ loading.extensions (view value.now)) }
{
    let mut texts = Seq::new(alloc);
    add_texts(alloc, &mut texts, list_at(value, "file_extensions"))?;
    add_texts(alloc, &mut texts, list_at(value, "hidden_file_extensions"))?;
    Ok(texts)
}

/// One more variable, where both are texts.
fn add_variable(
    alloc: Global,
    variables: &mut Table<Text, Text>,
    name: Option<&str>,
    text: Option<&str>,
) -> Result<(), AllocError>
    ensures { OnOk result (variables.new ≡ loading.variable variables.old
        (option_map (λ t. t.now) name.entry) (option_map (λ t. t.now) text.entry)) }
{
    if let (Some(name), Some(text)) = (name, text) {
        let _ = variables.insert(Text::from_str(alloc, name)?, Text::from_str(alloc, text)?)?;
    }
    Ok(())
}

/// The variables.
pub fn variables_of(alloc: Global, value: &Yaml) -> Result<Table<Text, Text>, AllocError>
    ensures { IfOk result (λ variables. variables ≡ loading.variables_at (view value.now)) }
{
    let mut variables = Table::new(alloc);
    let Some(entries) = map_at(value, "variables") else {
        return Ok(variables);
    };
    for entry in entries {
        add_variable(alloc, &mut variables, entry.0.as_str(), entry.1.as_str())?;
    }
    Ok(variables)
}

/// The name of the syntax.
fn name_of(alloc: Global, value: &Yaml, fallback: Option<&str>) -> Result<Text, AllocError>
    ensures { IfOk result (λ name. name ≡ loading.name_of (view value.now)
        (option_map (λ t. t.now) fallback.entry)) }
{
    match (text_at(value, "name"), fallback) {
        (Some(name), _) | (None, Some(name)) => Text::from_str(alloc, name),
        (None, None) => Text::from_str(alloc, "Unnamed"),
    }
}

/// The pattern of a first line, as it stands.
fn first_line_of(alloc: Global, value: &Yaml) -> Result<Option<Text>, AllocError>
    ensures { IfOk result (λ text. text ≡ at text_in (codes "first_line_match") (view value.now)) }
{
    match text_at(value, "first_line_match") {
        Some(text) => Ok(Some(Text::from_str(alloc, text)?)),
        None => Ok(None),
    }
}

/// Whether the syntax is hidden.
fn is_hidden(value: &Yaml) -> bool
    ensures { result ≡ loading.is_hidden (view value.now) }
{
    match truth_at(value, "hidden") {
        Some(hidden) => hidden,
        None => false,
    }
}

/// The definition of these contexts.
fn finish(
    alloc: Global,
    value: &Yaml,
    fallback_name: Option<&str>,
    scope: Scope,
    variables: Table<Text, Text>,
    mut contexts: Table<Text, Context>,
) -> Result<SyntaxDefinition, ParseSyntaxError>
    ensures { Finds (λ d. d) result
        (loading.finished (view value.now) variables
        (option_map (λ t. t.now) fallback_name.entry) scope contexts) }
{
    let Some(main) = contexts.remove(&Text::from_str(alloc, "main")?) else {
        return Err(ParseSyntaxError::MainMissing);
    };
    Ok(SyntaxDefinition {
        name: name_of(alloc, value, fallback_name)?,
        file_extensions: extensions_of(alloc, value)?,
        scope,
        first_line_match: first_line_of(alloc, value)?,
        hidden: is_hidden(value),
        variables,
        contexts: with_start(alloc, scope, main, contexts)?,
    })
}

/// The definition of a value.
#[tactic(auto, using(crate::proofs::EndLaws::ends))]
pub fn definition(
    alloc: Global,
    value: &Yaml,
    lines_include_newline: bool,
    fallback_name: Option<&str>,
    repository: &mut ScopeRepository,
) -> Result<SyntaxDefinition, ParseSyntaxError>
    ensures value { Finds (λ d. (d, repository.new)) result
        (loading.definition_of (view value.now) lines_include_newline
        (option_map (λ t. t.now) fallback_name.entry) repository.old) }
    ensures kept { KeepsAtoms repository.old repository.new }
{
    let variables = variables_of(alloc, value)?;
    let mut reading = Reading {
        repository: mem::replace(repository, ScopeRepository::new(alloc)),
        variables,
        lines_include_newline,
        contexts: Table::new(alloc),
        top: Text::new(alloc),
        begun: Seq::new(alloc),
    };
    match read_contexts(alloc, &mut reading, value) {
        Ok(scope) => {
            let Reading {
                repository: left,
                variables,
                contexts,
                ..
            } = reading;
            *repository = left;
            finish(alloc, value, fallback_name, scope, variables, contexts)
        }
        Err(e) => {
            let Reading {
                repository: left,
                ..
            } = reading;
            *repository = left;
            Err(e)
        }
    }
}

impl SyntaxDefinition {
    /// The definition of a grammar's text. `lines_include_newline` says whether the lines that it
    /// will read end with their line feeds; `fallback_name` names the syntax where the text does
    /// not. The scopes are those of their texts in the repository, which takes their atoms up; the
    /// atoms that it has keep their numbers, also after a refusal.
    ///
    /// `EmptyFile` is answered for a text without a node, `InvalidYaml` for one that is not of the
    /// YAML that is read. Else the first fault is answered, of `contexts`, then of `scope`, then of
    /// the contexts in the text's order: `TypeMismatch` for a value of the wrong kind,
    /// `MissingMandatoryKey` for a key that has to stand there, `RegexCompileError` for a pattern
    /// that is none, `InvalidScope` for a text that is no scope, and last `MainMissing` where no
    /// context is called `main`.
    pub fn load_from_str(
        alloc: Global,
        s: &str,
        lines_include_newline: bool,
        fallback_name: Option<&str>,
        repository: &mut ScopeRepository,
    ) -> Result<SyntaxDefinition, ParseSyntaxError>
        ensures value { Finds (λ d. (d, repository.new)) result
            (loading.loaded s.now lines_include_newline
            (option_map (λ t. t.now) fallback_name.entry) repository.old) }
        ensures kept { KeepsAtoms repository.old repository.new }
    {
        let value = match read(alloc, s) {
            Ok(Some(value)) => value,
            Ok(None) => return Err(ParseSyntaxError::EmptyFile),
            Err(ReadError::NoValue) => return Err(ParseSyntaxError::InvalidYaml),
            Err(ReadError::Memory) => return Err(ParseSyntaxError::Memory),
        };
        definition(
            alloc,
            &value,
            lines_include_newline,
            fallback_name,
            repository,
        )
    }
}
