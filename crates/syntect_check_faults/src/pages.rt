//! Calls that highlight lines, and that make pages.
use crate::below::check_calls::given::theme_of;
use crate::below::check_calls::marks::{TIMES, answer, begin, end};
use crate::given::LINE;
use std::alloc::Global;
use syntect_check_sets::set_given::set_of;
use syntect_easy::easy::HighlightLines;
use syntect_easy::highlighting::Theme;
use syntect_easy::html::{
    ClassStyle, ClassedHTMLGenerator, highlighted_html_for_reader, highlighted_html_for_string,
};
use syntect_easy::parsing::{Limits, ScopeRepository, SyntaxReference, SyntaxSet};

/// What pages are made of.
#[derive(Drop)]
pub struct Given {
    pub repository: ScopeRepository,
    pub set: SyntaxSet,
    pub theme: Theme,
}

fn make_given(alloc: Global) -> Given {
    let mut repository = ScopeRepository::new(alloc);
    let set = set_of(alloc, &mut repository);
    let theme = theme_of(alloc, &mut repository);
    Given {
        repository,
        set,
        theme,
    }
}

fn lines_new(rt: &(impl Print + AllocGlobal), given: &Given, syntax: &SyntaxReference) {
    for _ in 0..TIMES {
        begin(rt);
        let lines = HighlightLines::new(rt.alloc(), syntax, &given.theme);
        end(rt);
        answer(rt, lines.err());
    }
}

fn lines_from_state(rt: &(impl Print + AllocGlobal), given: &Given, syntax: &SyntaxReference) {
    let alloc = rt.alloc();
    for _ in 0..TIMES {
        let Ok(lines) = HighlightLines::new(alloc, syntax, &given.theme) else {
            return;
        };
        let (styles, state) = lines.state();
        begin(rt);
        let lines = HighlightLines::from_state(alloc, &given.theme, styles, state);
        end(rt);
        answer(rt, lines.err());
    }
}

/// Reads a line a few times over. What is left unchanged shows in the lines after it.
fn read_lines(
    rt: &(impl Print + AllocGlobal),
    given: &Given,
    lines: &mut HighlightLines<'_>,
    line: &str,
) {
    for _ in 0..TIMES {
        begin(rt);
        let pieces = lines.highlight_line(rt.alloc(), line, &given.set);
        end(rt);
        answer(rt, &pieces);
    }
}

fn highlight_line(rt: &(impl Print + AllocGlobal), given: &Given, syntax: &SyntaxReference) {
    let Ok(mut lines) = HighlightLines::new(rt.alloc(), syntax, &given.theme) else {
        return;
    };
    read_lines(rt, given, &mut lines, LINE);
}

/// Reads a line a few times over within limits that it doesn't reach.
fn highlight_line_within(rt: &(impl Print + AllocGlobal), given: &Given, syntax: &SyntaxReference) {
    let Ok(mut lines) = HighlightLines::new(rt.alloc(), syntax, &given.theme) else {
        return;
    };
    let limits = Limits::default();
    for _ in 0..TIMES {
        begin(rt);
        let pieces = lines.highlight_line_within(rt.alloc(), LINE, &given.set, &limits);
        end(rt);
        answer(rt, &pieces);
    }
}

/// A line that names a context which isn't there; after it one that doesn't,
/// as at the text's start.
fn refused_line(rt: &(impl Print + AllocGlobal), given: &Given, syntax: &SyntaxReference) {
    let Ok(mut lines) = HighlightLines::new(rt.alloc(), syntax, &given.theme) else {
        return;
    };
    read_lines(rt, given, &mut lines, "a !\n");
    let pieces = lines.highlight_line(rt.alloc(), LINE, &given.set);
    answer(rt, &pieces);
}

fn page_of_text(rt: &(impl Print + AllocGlobal), given: &Given, syntax: &SyntaxReference) {
    for _ in 0..TIMES {
        begin(rt);
        let (set, theme) = (&given.set, &given.theme);
        let page = highlighted_html_for_string(rt.alloc(), LINE, set, syntax, theme);
        end(rt);
        answer(rt, &page);
    }
}

fn page_of_reader(rt: &(impl Print + AllocGlobal), given: &Given, syntax: &SyntaxReference) {
    for _ in 0..TIMES {
        begin(rt);
        let (set, theme) = (&given.set, &given.theme);
        let page = highlighted_html_for_reader(rt.alloc(), LINE.as_bytes(), set, syntax, theme);
        end(rt);
        answer(rt, &page);
    }
}

fn generator<'g>(
    alloc: Global,
    given: &'g Given,
    syntax: &SyntaxReference,
) -> Option<ClassedHTMLGenerator<'g>> {
    let (set, repository) = (&given.set, &given.repository);
    let style = ClassStyle::Spaced;
    ClassedHTMLGenerator::new_with_class_style(alloc, syntax, set, repository, style).ok()
}

fn generator_new(rt: &(impl Print + AllocGlobal), given: &Given, syntax: &SyntaxReference) {
    let (set, repository) = (&given.set, &given.repository);
    let style = ClassStyle::Spaced;
    for _ in 0..TIMES {
        begin(rt);
        let new = ClassedHTMLGenerator::new_with_class_style(
            rt.alloc(),
            syntax,
            set,
            repository,
            style,
        );
        end(rt);
        answer(rt, new.err());
    }
}

/// What is left unchanged shows in the text after two accepted lines.
fn generator_line(rt: &(impl Print + AllocGlobal), given: &Given, syntax: &SyntaxReference) {
    let Some(mut generator) = generator(rt.alloc(), given, syntax) else {
        return;
    };
    let mut accepted = 0u32;
    for _ in 0..TIMES {
        if accepted < 2 {
            begin(rt);
            let read = generator.parse_html_for_line_which_includes_newline(LINE);
            end(rt);
            accepted = accepted.saturating_add(u32::from(read.is_ok()));
            answer(rt, &read);
        }
    }
    let text = generator.finalize();
    answer(rt, &text);
}

/// Reads lines within limits that they don't reach. What is left unchanged shows in the text after
/// two accepted lines.
fn generator_line_within(rt: &(impl Print + AllocGlobal), given: &Given, syntax: &SyntaxReference) {
    let Some(mut generator) = generator(rt.alloc(), given, syntax) else {
        return;
    };
    let limits = Limits::default();
    let mut accepted = 0u32;
    for _ in 0..TIMES {
        if accepted < 2 {
            begin(rt);
            let read = generator.parse_html_for_line_which_includes_newline_within(LINE, &limits);
            end(rt);
            accepted = accepted.saturating_add(u32::from(read.is_ok()));
            answer(rt, &read);
        }
    }
    let text = generator.finalize();
    answer(rt, &text);
}

fn generator_finalize(rt: &(impl Print + AllocGlobal), given: &Given, syntax: &SyntaxReference) {
    for _ in 0..TIMES {
        let Some(mut generator) = generator(rt.alloc(), given, syntax) else {
            return;
        };
        let _ = generator.parse_html_for_line_which_includes_newline(LINE);
        begin(rt);
        let text = generator.finalize();
        end(rt);
        answer(rt, &text);
    }
}

/// The calls.
pub const NAMES: [&str; 11] = [
    "HighlightLines::new",
    "HighlightLines::from_state",
    "HighlightLines::highlight_line",
    "HighlightLines::highlight_line(refused)",
    "HighlightLines::highlight_line_within",
    "highlighted_html_for_string",
    "highlighted_html_for_reader",
    "ClassedHTMLGenerator::new_with_class_style",
    "ClassedHTMLGenerator::parse_html_for_line_which_includes_newline",
    "ClassedHTMLGenerator::parse_html_for_line_which_includes_newline_within",
    "ClassedHTMLGenerator::finalize",
];

/// Makes the call of this name, if there is one.
pub fn make(rt: &(impl Print + AllocGlobal), name: &str) {
    if !NAMES.contains(&name) {
        return;
    }
    let given = make_given(rt.alloc());
    let Some(syntax) = given.set.syntaxes().first() else {
        return;
    };
    match name {
        "HighlightLines::new" => lines_new(rt, &given, syntax),
        "HighlightLines::from_state" => lines_from_state(rt, &given, syntax),
        "HighlightLines::highlight_line" => highlight_line(rt, &given, syntax),
        "HighlightLines::highlight_line(refused)" => refused_line(rt, &given, syntax),
        "HighlightLines::highlight_line_within" => highlight_line_within(rt, &given, syntax),
        "highlighted_html_for_string" => page_of_text(rt, &given, syntax),
        "highlighted_html_for_reader" => page_of_reader(rt, &given, syntax),
        "ClassedHTMLGenerator::new_with_class_style" => generator_new(rt, &given, syntax),
        "ClassedHTMLGenerator::finalize" => generator_finalize(rt, &given, syntax),
        "ClassedHTMLGenerator::parse_html_for_line_which_includes_newline_within" => {
            generator_line_within(rt, &given, syntax)
        }
        _ => generator_line(rt, &given, syntax),
    }
}
