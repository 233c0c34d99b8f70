//! The examples whose contexts are made by calls.
use crate::below::parsing::parser::{ParseState, ParsingError};
use crate::below::parsing::syntax_definition::{
    CaptureMapping, Context, ContextId, ContextReference, MatchOperation, MatchPattern, Pattern,
    SyntaxDefinition,
};
use crate::below::parsing::syntax_set::{SyntaxSet, SyntaxSetBuilder};
use crate::below::scope::repository::ScopeRepository;
use crate::below::scope::stack::ScopeStack;
use crate::below::theme::theme::Theme;
use crate::below::theme_files::theme_set::ThemeSet;
use crate::below::values::seq::Seq;
use crate::below::values::table::Table;
use crate::below::values::text::Text;
use crate::given::Given;
use crate::operations::write_operations;
use crate::styled::write_pieces;
use std::alloc::Global;
use syntect_easy::Error;
use syntect_easy::easy::HighlightLines;

/// What a pattern of an example does.
#[derive(Clone, Copy)]
enum Does {
    Nothing,
    Push(&'static str),
    Pop,
}

/// A pattern's text, the scope of its match, and what it does.
type Line = (&'static str, &'static str, Does);

/// The patterns of the first context.
const FIRST: [Line; 2] = [
    ("A", "scope.a.first", Does::Push("a")),
    ("[a-z]+", "scope.other", Does::Nothing),
];

/// The patterns of the first context, after one that pushes a context which is not there.
const UNRESOLVED: [Line; 3] = [
    ("x", "", Does::Push("none")),
    ("A", "scope.a.first", Does::Push("a")),
    ("[a-z]+", "scope.other", Does::Nothing),
];

/// A pattern that leaves the first context.
const LEAVES: [Line; 1] = [("x", "", Does::Pop)];

/// The patterns of the context `a`.
const INNER: [Line; 2] = [
    ("a+", "scope.a.rest", Does::Nothing),
    ("b", "scope.b", Does::Pop),
];

/// One rule.
const THEME: &str =
    r##"{"settings":[{"settings":{}},{"scope":"scope.b","settings":{"foreground":"#010101"}}]}"##;

const PIECES: &str =
    "L1\n0..1 #000000 #ffffff 0\n1..2 #000000 #ffffff 0\n2..5 #000000 #ffffff 0\n5..6 #010101 #ffffff 0\n6..9 #000000 #ffffff 0\n";

const REFUSED_PIECES: &str =
    "L1\nrefused UnresolvedContextReference named none\nL2\n0..2 #000000 #ffffff 0\n";

const REFUSED: &str =
    "L1\nrefused UnresolvedContextReference named none\nstate unchanged\nL2\n0 push source.t\n0 push scope.other\n2 pop 1\n";

const LEFT: &str =
    "L1\n0 push source.t\n0 pop 1\nL2\nrefused MissingMainContext\nstate unchanged\nL3\nrefused MissingMainContext\nstate unchanged\n";

const NO_CAPTURES: &str = "L1\n0 push source.t\n";

fn operation(alloc: Global, does: Does) -> Option<MatchOperation> {
    match does {
        Does::Nothing => Some(MatchOperation::None),
        Does::Pop => Some(MatchOperation::Pop),
        Does::Push(name) => {
            let mut references = Seq::new(alloc);
            let name = Text::from_str(alloc, name).ok()?;
            references.push(ContextReference::Named(name)).ok()?;
            Some(MatchOperation::Push(references))
        }
    }
}

fn pattern(alloc: Global, repository: &mut ScopeRepository, line: Line) -> Option<Pattern> {
    let (text, scope, does) = line;
    let operation = operation(alloc, does)?;
    let scopes = ScopeStack::from_text(alloc, scope, repository).ok()?.scopes;
    let text = String::from_str(alloc, text).ok()?;
    let made = MatchPattern::new(alloc, false, text, scopes, None, operation, None);
    Some(Pattern::Match(made.ok()?))
}

/// Adds these patterns.
fn add_patterns(
    alloc: Global,
    repository: &mut ScopeRepository,
    lines: &[Line],
    patterns: &mut Seq<Pattern>,
) -> Option<()> {
    for line in lines {
        patterns.push(pattern(alloc, repository, *line)?).ok()?;
    }
    Some(())
}

/// Adds a context of that name, of these patterns.
fn add_context(
    alloc: Global,
    repository: &mut ScopeRepository,
    name: &str,
    content_scope: &str,
    lines: &[Line],
    contexts: &mut Table<Text, Context>,
) -> Option<()> {
    let mut context = Context::new(alloc, false);
    context.meta_content_scope = ScopeStack::from_text(alloc, content_scope, repository)
        .ok()?
        .scopes;
    add_patterns(alloc, repository, lines, &mut context.patterns)?;
    let name = Text::from_str(alloc, name).ok()?;
    contexts.insert(name, context).ok()?;
    Some(())
}

/// The set of one definition with these contexts.
fn set_with(
    alloc: Global,
    repository: &mut ScopeRepository,
    contexts: Table<Text, Context>,
) -> Option<SyntaxSet> {
    let definition = SyntaxDefinition {
        name: Text::from_str(alloc, "T").ok()?,
        file_extensions: Seq::new(alloc),
        scope: repository.build("source.t").ok()?,
        first_line_match: None,
        hidden: false,
        variables: Table::new(alloc),
        contexts,
    };
    let mut builder = SyntaxSetBuilder::new(alloc);
    builder.add(definition).ok()?;
    builder.build(alloc, repository).ok()
}

/// The set whose first context has these patterns.
fn set_from(alloc: Global, repository: &mut ScopeRepository, first: &[Line]) -> Option<SyntaxSet> {
    let mut contexts = Table::new(alloc);
    add_context(
        alloc,
        repository,
        "__start",
        "source.t",
        first,
        &mut contexts,
    )?;
    add_context(alloc, repository, "a", "", &INNER, &mut contexts)?;
    set_with(alloc, repository, contexts)
}

/// The set of the first line's example.
fn first_line_set(alloc: Global, repository: &mut ScopeRepository) -> Option<SyntaxSet> {
    set_from(alloc, repository, &FIRST)
}

/// The theme of the first line's example.
fn first_line_theme(alloc: Global, repository: &mut ScopeRepository) -> Option<Theme> {
    let mut bytes = THEME.as_bytes();
    ThemeSet::load_from_reader(alloc, &mut bytes, repository).ok()
}

/// What lines are read with.
fn given<'a>(alloc: Global, set: &'a SyntaxSet, theme: &'a Theme, text: &'a str) -> Given<'a> {
    Given {
        alloc,
        parts: &[],
        text,
        is_bare: true,
        set,
        syntax: set.syntaxes().first(),
        theme,
    }
}

/// A line by contexts that were made by calls.
pub fn first_line(alloc: Global) -> Option<bool> {
    let mut repository = ScopeRepository::new(alloc);
    let set = first_line_set(alloc, &mut repository)?;
    let theme = first_line_theme(alloc, &mut repository)?;
    let given = given(alloc, &set, &theme, " Aaaabxxx");
    let mut pieces = String::new(alloc);
    write_pieces(given, &repository, &mut pieces)?;
    Some(pieces.as_str() == PIECES)
}

/// A line is refused for a context that is not there, and the next one is read.
pub fn unresolved_line(alloc: Global) -> Option<bool> {
    let mut repository = ScopeRepository::new(alloc);
    let set = set_from(alloc, &mut repository, &UNRESOLVED)?;
    let theme = Theme::default(alloc);
    let given = given(alloc, &set, &theme, "xa\nya");
    let mut pieces = String::new(alloc);
    write_pieces(given, &repository, &mut pieces)?;
    let mut operations = String::new(alloc);
    write_operations(given, &repository, &mut operations)?;
    Some(pieces.as_str() == REFUSED_PIECES && operations.as_str() == REFUSED)
}

/// A syntax without a first context.
pub fn no_start(alloc: Global) -> Option<bool> {
    let mut repository = ScopeRepository::new(alloc);
    let set = set_with(alloc, &mut repository, Table::new(alloc))?;
    let theme = Theme::default(alloc);
    let syntax = set.syntaxes().first()?;
    let state = ParseState::new(alloc, syntax);
    let lines = HighlightLines::new(alloc, syntax, &theme);
    Some(
        matches!(&state, Err(ParsingError::MissingMainContext))
            && matches!(
                &lines,
                Err(Error::ParsingError(ParsingError::MissingMainContext))
            ),
    )
}

/// A first context that a line leaves: each later line is refused.
pub fn left_start(alloc: Global) -> Option<bool> {
    let mut repository = ScopeRepository::new(alloc);
    let set = set_from(alloc, &mut repository, &LEAVES)?;
    let theme = Theme::default(alloc);
    let given = given(alloc, &set, &theme, "xa\na\nxa");
    let mut operations = String::new(alloc);
    write_operations(given, &repository, &mut operations)?;
    Some(operations.as_str() == LEFT)
}

/// A capture of a group with a scope of its own.
fn capture(
    alloc: Global,
    repository: &mut ScopeRepository,
    group: usize,
    captures: &mut CaptureMapping,
) -> Option<()> {
    let scopes = ScopeStack::from_text(alloc, "capture", repository)
        .ok()?
        .scopes;
    captures.push((group, scopes)).ok()
}

/// Captures that were added by hand, of a group in a lookahead and of one that is not there.
fn captures_by_hand(alloc: Global, repository: &mut ScopeRepository) -> Option<Pattern> {
    let mut captures = Seq::new(alloc);
    capture(alloc, repository, 1, &mut captures)?;
    capture(alloc, repository, 9, &mut captures)?;
    let text = String::from_str(alloc, "a(?=(b))").ok()?;
    let none = Seq::new(alloc);
    let does = MatchOperation::None;
    let made = MatchPattern::new(alloc, false, text, none, Some(captures), does, None);
    Some(Pattern::Match(made.ok()?))
}

/// Such captures have no effect.
pub fn captures_without_effect(alloc: Global) -> Option<bool> {
    let mut repository = ScopeRepository::new(alloc);
    let mut contexts = Table::new(alloc);
    let mut start = Context::new(alloc, false);
    start.meta_content_scope = ScopeStack::from_text(alloc, "source.t", &mut repository)
        .ok()?
        .scopes;
    let pattern = captures_by_hand(alloc, &mut repository)?;
    start.patterns.push(pattern).ok()?;
    contexts
        .insert(Text::from_str(alloc, "__start").ok()?, start)
        .ok()?;
    let set = set_with(alloc, &mut repository, contexts)?;
    let theme = Theme::default(alloc);
    let given = given(alloc, &set, &theme, "ab");
    let mut operations = String::new(alloc);
    write_operations(given, &repository, &mut operations)?;
    Some(operations.as_str() == NO_CAPTURES)
}

/// A line with a set that lacks the open context is refused, and a place without a pattern too.
pub fn another_set(alloc: Global) -> Option<bool> {
    let mut repository = ScopeRepository::new(alloc);
    let set = set_from(alloc, &mut repository, &LEAVES)?;
    let mut state = ParseState::new(alloc, set.syntaxes().first()?).ok()?;
    let before = state.clone().ok()?;
    let empty = SyntaxSet::new(alloc);
    let first = ContextId {
        syntax_index: 0,
        context_index: 0,
    };
    let refusal = state.parse_line(alloc, "a", &empty).err();
    let is_refused = refusal == Some(ParsingError::MissingContext(first));
    let context = set.context_at(first)?;
    let has_none = matches!(&context.match_at(5), Err(ParsingError::BadMatchIndex(5)));
    Some(is_refused && state == before && has_none)
}
