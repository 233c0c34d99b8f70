//! Lines that are read within limits.
use crate::below::easy::easy::{HighlightLines, HighlightWithinError};
use crate::below::easy::highlighting::{Highlighter, Style, Theme};
use crate::below::easy::html::{ClassStyle, ClassedHTMLGenerator};
use crate::below::easy::parsing::{
    FindWithinError, FirstLineLimit, GhostCount, Limits, LineLimit, ParseState, ReadWithinError,
    Regions, ScopeRepository, SyntaxDefinition, SyntaxReference, SyntaxSet, SyntaxSetBuilder,
    find_syntax_by_first_line_within,
};
use crate::below::parsing::syntax_definition::ContextId;
use crate::found::{equal, holds};
use std::alloc::Global;
use std::process::Abort;

/// Letters before a `b`, of which the last ones stand twice, and each `z`; each `x` leaves one
/// context more open, and so does `q`.
const GRAMMAR: &str =
    "name: T\nscope: source.t\nfirst_line_match: (a*)*\\1b\ncontexts:\n  main:\n    - match: z\n      scope: keyword.z\n    - match: (a*)*\\1b\n      scope: keyword.b\n    - match: x\n      set: [main, main]\n    - match: q\n      push: main\n";

/// Letters without a `b` next to them: the second pattern is tried in very many ways.
pub const LETTERS: &str = "z aaaaaaaaaaaaaaaaaaaaaaaa b\n";

/// More matches than three turns take.
pub const MATCHES: &str = "zzzzz\n";

/// Four contexts more, besides the two that the first turn leaves open.
const SETS: &str = "xxxx\n";

/// A line with a match of each.
pub const SHORT: &str = "zaab\n";

pub fn set_of(rt: &impl Abort, alloc: Global) -> SyntaxSet {
    let mut repository = ScopeRepository::new(alloc);
    let definition = SyntaxDefinition::load_from_str(alloc, GRAMMAR, true, None, &mut repository);
    let mut builder = SyntaxSetBuilder::new(alloc);
    builder
        .add(definition.expect(rt, "a grammar"))
        .expect(rt, "memory");
    builder.build(alloc, &mut repository).expect(rt, "a set")
}

pub fn syntax_of<'s>(rt: &impl Abort, set: &'s SyntaxSet) -> &'s SyntaxReference {
    set.syntaxes().first().expect(rt, "a syntax")
}

/// A line that reaches a limit, and which one.
#[derive(Clone, Copy)]
struct Reached<'l> {
    limits: Limits,
    line: &'l str,
    limit: LineLimit,
}

fn of_a_reading(e: ReadWithinError) -> Option<LineLimit> {
    match e {
        ReadWithinError::Refused(_) => None,
        ReadWithinError::LimitReached(limit) => Some(limit),
    }
}

fn of_a_line(e: HighlightWithinError) -> Option<LineLimit> {
    match &e {
        HighlightWithinError::Refused(_) => None,
        HighlightWithinError::LimitReached(limit) => Some(*limit),
    }
}

/// A state reaches the limit, and stays.
fn states_reach(rt: &impl Abort, alloc: Global, set: &SyntaxSet, reached: Reached<'_>) {
    let Reached {
        limits,
        line,
        limit,
    } = reached;
    let mut state = ParseState::new(alloc, syntax_of(rt, set)).expect(rt, "a state");
    let before = state.clone().expect(rt, "memory");
    let mut regions = Regions::new(alloc);
    let after = state.after_line_within(alloc, line, set, &limits, &mut regions);
    equal(rt, after.err().and_then(of_a_reading), Some(limit));
    let ops = state.parse_line_within(alloc, line, set, &limits);
    equal(rt, ops.err().and_then(of_a_reading), Some(limit));
    holds(rt, state == before);
    holds(rt, state.parse_line(alloc, SHORT, set).is_ok());
}

/// The style of a theme where no rule gives one.
fn own_style(rt: &impl Abort, alloc: Global, theme: &Theme) -> Style {
    Highlighter::new(alloc, theme)
        .expect(rt, "memory")
        .get_default()
}

/// A highlighter reaches the limit, shows the line plain where that is asked, and goes on as a new
/// one begins.
fn highlighters_reach(rt: &impl Abort, alloc: Global, set: &SyntaxSet, reached: Reached<'_>) {
    let Reached {
        limits,
        line,
        limit,
    } = reached;
    let theme = Theme::default(alloc);
    let syntax = syntax_of(rt, set);
    let mut lines = HighlightLines::new(alloc, syntax, &theme).expect(rt, "a highlighter");
    let refused = lines.highlight_line_within(alloc, line, set, &limits);
    equal(rt, refused.err().and_then(of_a_line), Some(limit));
    let plain = lines.highlight_line_or_plain(alloc, line, set, &limits);
    let (pieces, reached) = plain.expect(rt, "pieces");
    equal(rt, reached, Some(limit));
    equal(
        rt,
        pieces.as_slice(),
        [(own_style(rt, alloc, &theme), line)].as_slice(),
    );
    let (styles, reader) = lines.state();
    let new = HighlightLines::new(alloc, syntax, &theme).expect(rt, "a highlighter");
    let (new_styles, new_reader) = new.state();
    holds(rt, reader == new_reader);
    holds(rt, styles == new_styles);
}

/// A generator of pages with classes reaches the limit, and its page has only the next line.
fn generators_reach(rt: &impl Abort, alloc: Global, set: &SyntaxSet, reached: Reached<'_>) {
    let Reached {
        limits,
        line,
        limit,
    } = reached;
    let repository = ScopeRepository::new(alloc);
    let syntax = syntax_of(rt, set);
    let style = ClassStyle::Spaced;
    let mut page = ClassedHTMLGenerator::new_with_class_style(
        alloc,
        syntax,
        set,
        &repository,
        style,
    ).expect(rt, "a generator");
    let refused = page.parse_html_for_line_which_includes_newline_within(line, &limits);
    equal(rt, refused.err().and_then(of_a_line), Some(limit));
    let read = page.parse_html_for_line_which_includes_newline(SHORT);
    holds(rt, read.is_ok());
    let mut short = ClassedHTMLGenerator::new_with_class_style(
        alloc,
        syntax,
        set,
        &repository,
        style,
    ).expect(rt, "a generator");
    let read = short.parse_html_for_line_which_includes_newline(SHORT);
    holds(rt, read.is_ok());
    let page = page.finalize().expect(rt, "a page");
    let short = short.finalize().expect(rt, "a page");
    equal(rt, page.as_str(), short.as_str());
}

/// Each call that reads within limits reaches this one, and changes nothing.
fn all_reach(rt: &impl Abort, alloc: Global, set: &SyntaxSet, reached: Reached<'_>) {
    states_reach(rt, alloc, set, reached);
    highlighters_reach(rt, alloc, set, reached);
    generators_reach(rt, alloc, set, reached);
}

/// The number of the syntax's context `main`.
pub fn main_of(rt: &impl Abort, set: &SyntaxSet) -> ContextId {
    syntax_of(rt, set)
        .context_named("main")
        .expect(rt, "a context")
}

/// The letters take more steps than the line has, at the first place after the match.
#[test]
fn a_line_of_too_many_steps(rt: HostRuntime) {
    let set = set_of(&rt, rt.alloc());
    let reached = Reached {
        limits: Limits {
            steps: 2000,
            ..Limits::default()
        },
        line: LETTERS,
        limit: LineLimit::Steps {
            context: main_of(&rt, &set),
            index: 1,
            place: 2,
        },
    };
    all_reach(&rt, rt.alloc(), &set, reached);
}

/// The first turn leads into `main`, and the next ones take a match each.
#[test]
fn a_line_of_too_many_turns(rt: HostRuntime) {
    let set = set_of(&rt, rt.alloc());
    let reached = Reached {
        limits: Limits {
            turns: 3,
            ..Limits::default()
        },
        line: MATCHES,
        limit: LineLimit::Turns { place: 2 },
    };
    all_reach(&rt, rt.alloc(), &set, reached);
}

/// With the second match four contexts are open.
#[test]
fn a_line_of_too_many_open_contexts(rt: HostRuntime) {
    let set = set_of(&rt, rt.alloc());
    let reached = Reached {
        limits: Limits {
            levels: 3,
            ..Limits::default()
        },
        line: SETS,
        limit: LineLimit::Levels {
            place: 2,
            open_contexts: 4,
        },
    };
    all_reach(&rt, rt.alloc(), &set, reached);
}

/// The first turn makes an operation, and each match two.
#[test]
fn a_line_of_too_many_operations(rt: HostRuntime) {
    let set = set_of(&rt, rt.alloc());
    let reached = Reached {
        limits: Limits {
            operations: 4,
            ..Limits::default()
        },
        line: MATCHES,
        limit: LineLimit::Operations {
            place: 2,
            operations: 5,
        },
    };
    all_reach(&rt, rt.alloc(), &set, reached);
}

/// The reader's state after a line that opens a context, and one that is shown plain; with `anew`
/// it begins anew then.
fn state_after_plain(rt: &impl Abort, alloc: Global, set: &SyntaxSet, anew: bool) -> ParseState {
    let limits = Limits {
        steps: 2000,
        ..Limits::default()
    };
    let theme = Theme::default(alloc);
    let syntax = syntax_of(rt, set);
    let mut lines = HighlightLines::new(alloc, syntax, &theme).expect(rt, "a highlighter");
    let read = lines.highlight_line_or_plain(alloc, "q\n", set, &limits);
    holds(rt, read.expect(rt, "pieces").1.is_none());
    let plain = lines.highlight_line_or_plain(alloc, LETTERS, set, &limits);
    holds(rt, plain.expect(rt, "pieces").1.is_some());
    if anew {
        lines.begin_anew(alloc, syntax).expect(rt, "a start");
    }
    lines.state().1
}

/// After a plain line a program goes on from the state before it, or from the syntax's start.
#[test]
fn after_a_plain_line(rt: HostRuntime) {
    let alloc = rt.alloc();
    let set = set_of(&rt, alloc);
    let mut state = ParseState::new(alloc, syntax_of(&rt, &set)).expect(&rt, "a state");
    holds(&rt, state_after_plain(&rt, alloc, &set, true) == state);
    let read = state.parse_line(alloc, "q\n", &set);
    holds(&rt, read.is_ok());
    holds(&rt, state_after_plain(&rt, alloc, &set, false) == state);
}

/// What is found by a first line within so many steps: a name, or the index of the syntax whose
/// pattern reached the limit.
fn found_by_line(
    rt: &impl Abort,
    alloc: Global,
    line: &str,
    steps: usize,
) -> Result<bool, Option<FirstLineLimit>> {
    let set = set_of(rt, alloc);
    let limits = Limits {
        steps,
        ..Limits::default()
    };
    let mut count = GhostCount::none();
    match find_syntax_by_first_line_within(alloc, &set, line, &limits, &mut count) {
        Ok(found) => Ok(found.is_some()),
        Err(FindWithinError::LimitReached(limit)) => Err(Some(limit)),
        Err(FindWithinError::Refused(_)) => Err(None),
    }
}

/// The letters of a first line take more steps than they may.
#[test]
fn a_first_line_of_too_many_steps(rt: HostRuntime) {
    let alloc = rt.alloc();
    let limit = FirstLineLimit { syntax: 0 };
    equal(
        &rt,
        found_by_line(&rt, alloc, LETTERS, 2000),
        Err(Some(limit)),
    );
    equal(&rt, found_by_line(&rt, alloc, SHORT, 2000), Ok(true));
    equal(&rt, found_by_line(&rt, alloc, MATCHES, 2000), Ok(false));
}

/// The usual limits leave the pieces as they are, and a page too.
#[test]
fn lines_of_usual_limits(rt: HostRuntime) {
    let alloc = rt.alloc();
    let set = set_of(&rt, alloc);
    let limits = Limits::default();
    let theme = Theme::default(alloc);
    let syntax = syntax_of(&rt, &set);
    let mut within = HighlightLines::new(alloc, syntax, &theme).expect(&rt, "a highlighter");
    let mut lines = HighlightLines::new(alloc, syntax, &theme).expect(&rt, "a highlighter");
    let mut either = HighlightLines::new(alloc, syntax, &theme).expect(&rt, "a highlighter");
    for line in [SHORT, MATCHES] {
        let found = within.highlight_line_within(alloc, line, &set, &limits);
        let wanted = lines.highlight_line(alloc, line, &set);
        let shown = either.highlight_line_or_plain(alloc, line, &set, &limits);
        let wanted = wanted.expect(&rt, "pieces");
        holds(&rt, found.expect(&rt, "pieces") == wanted);
        let (pieces, reached) = shown.expect(&rt, "pieces");
        holds(&rt, (pieces == wanted) & reached.is_none());
    }
    let mut state = ParseState::new(alloc, syntax).expect(&rt, "a state");
    let found = state.parse_line_within(alloc, SHORT, &set, &limits);
    let mut state = ParseState::new(alloc, syntax).expect(&rt, "a state");
    let wanted = state.parse_line(alloc, SHORT, &set);
    equal(&rt, found.ok(), wanted.ok());
}
