//! Calls that write pieces and operations.
use crate::below::scope::repository::ScopeRepository;
use crate::below::scope::stack::{ScopeStack, ScopeStackOp};
use crate::below::theme::style::{Color, FontStyle, Style, StyleModifier};
use crate::given::{scope_of, theme_of};
use crate::marks::{TIMES, answer, begin, end, left};
use syntect_operations::order::are_in_order;
use syntect_operations::print::debug_print_ops;
use syntect_style::cut::{modify_range, split_at};
use syntect_writers::class_style::ClassStyle;
use syntect_writers::classed::line_tokens_to_classed_spans;
use syntect_writers::html::{
    IncludeBackground, append_highlighted_html_for_styled_line, start_highlighted_html_snippet,
    styled_line_to_highlighted_html,
};
use syntect_writers::latex::as_latex_escaped;
use syntect_writers::sheet::css_for_theme_with_class_style;
use syntect_writers::terminal::as_24_bit_terminal_escaped;

/// A style.
const STYLE: Style = Style {
    foreground: Color::BLACK,
    background: Color::WHITE,
    font_style: FontStyle::BOLD,
};

/// Two pieces.
const PIECES: [(Style, &str); 2] = [(STYLE, "a<b "), (STYLE, "{c}")];

const GROUND: IncludeBackground = IncludeBackground::Yes;

fn styled_line(rt: &(impl Print + AllocGlobal)) {
    for _ in 0..TIMES {
        begin(rt);
        let text = styled_line_to_highlighted_html(rt.alloc(), &PIECES, GROUND);
        end(rt);
        answer(rt, &text);
    }
}

fn appended_line(rt: &(impl Print + AllocGlobal)) {
    let mut text = String::new(rt.alloc());
    left(rt, &text);
    for _ in 0..TIMES {
        begin(rt);
        let appended = append_highlighted_html_for_styled_line(&PIECES, GROUND, &mut text);
        end(rt);
        answer(rt, &appended);
        left(rt, &text);
    }
}

fn snippet(rt: &(impl Print + AllocGlobal)) {
    let mut repository = ScopeRepository::new(rt.alloc());
    let theme = theme_of(rt.alloc(), &mut repository);
    for _ in 0..TIMES {
        begin(rt);
        let opening = start_highlighted_html_snippet(rt.alloc(), &theme);
        end(rt);
        answer(rt, &opening);
    }
}

fn sheet(rt: &(impl Print + AllocGlobal)) {
    let alloc = rt.alloc();
    let mut repository = ScopeRepository::new(alloc);
    let theme = theme_of(alloc, &mut repository);
    for _ in 0..TIMES {
        begin(rt);
        let text = css_for_theme_with_class_style(alloc, &theme, &repository, ClassStyle::Spaced);
        end(rt);
        answer(rt, &text);
    }
}

/// What is written of a line and of a scope that begins in it: spans with classes, or the
/// operations below it.
fn written(
    rt: &(impl Print + AllocGlobal),
    operations: &[(usize, ScopeStackOp)],
    repository: &ScopeRepository,
    as_spans: bool,
) {
    let alloc = rt.alloc();
    let style = ClassStyle::Spaced;
    let mut stack = ScopeStack::new(alloc);
    left(rt, &stack);
    for _ in 0..TIMES {
        let mut bytes = Vec::new(alloc);
        if as_spans && are_in_order("ab", operations) {
            begin(rt);
            let spans = line_tokens_to_classed_spans(
                alloc, "ab", operations, style, &mut stack, repository,
            );
            end(rt);
            answer(rt, &spans);
        } else {
            begin(rt);
            let below = debug_print_ops("ab", operations, repository, &mut bytes);
            end(rt);
            answer(rt, &below);
        }
        left(rt, &stack);
    }
}

fn of_operations(rt: &(impl Print + AllocGlobal), as_spans: bool) {
    let mut repository = ScopeRepository::new(rt.alloc());
    let scope = scope_of("string.quoted", &mut repository);
    let operations = [(1usize, ScopeStackOp::Push(scope))];
    written(rt, &operations, &repository, as_spans);
}

fn terminal(rt: &(impl Print + AllocGlobal)) {
    for _ in 0..TIMES {
        begin(rt);
        let text = as_24_bit_terminal_escaped(rt.alloc(), &PIECES, true);
        end(rt);
        answer(rt, &text);
    }
}

fn latex(rt: &(impl Print + AllocGlobal)) {
    for _ in 0..TIMES {
        begin(rt);
        let text = as_latex_escaped(rt.alloc(), &PIECES);
        end(rt);
        answer(rt, &text);
    }
}

fn cut(rt: &(impl Print + AllocGlobal)) {
    for _ in 0..TIMES {
        begin(rt);
        let parts = split_at(rt.alloc(), &PIECES, 2);
        end(rt);
        answer(rt, &parts);
    }
}

fn modified(rt: &(impl Print + AllocGlobal)) {
    let modifier = StyleModifier::default();
    for _ in 0..TIMES {
        begin(rt);
        let pieces = modify_range(rt.alloc(), &PIECES, 1..5, modifier);
        end(rt);
        answer(rt, &pieces);
    }
}

/// The calls.
pub const NAMES: [&str; 10] = [
    "styled_line_to_highlighted_html",
    "append_highlighted_html_for_styled_line",
    "start_highlighted_html_snippet",
    "css_for_theme_with_class_style",
    "line_tokens_to_classed_spans",
    "debug_print_ops",
    "as_24_bit_terminal_escaped",
    "as_latex_escaped",
    "split_at",
    "modify_range",
];

/// Makes the call of this name, if there is one.
pub fn make(rt: &(impl Print + AllocGlobal), name: &str) {
    match name {
        "styled_line_to_highlighted_html" => styled_line(rt),
        "append_highlighted_html_for_styled_line" => appended_line(rt),
        "start_highlighted_html_snippet" => snippet(rt),
        "css_for_theme_with_class_style" => sheet(rt),
        "line_tokens_to_classed_spans" => of_operations(rt, true),
        "debug_print_ops" => of_operations(rt, false),
        "as_24_bit_terminal_escaped" => terminal(rt),
        "as_latex_escaped" => latex(rt),
        "split_at" => cut(rt),
        "modify_range" => modified(rt),
        _ => {}
    }
}
