//! Calls of themes, of the highlighter and of the iterators over operations.
use crate::below::scope::repository::ScopeRepository;
use crate::below::scope::stack::{ScopeStack, ScopeStackOp};
use crate::below::theme::theme::Theme;
use crate::given::{THEME, scope_of, stack_of, theme_of};
use crate::marks::{TIMES, answer, begin, end, left};
use syntect_operations::order::are_in_order;
use syntect_style::highlighter::Highlighter;
use syntect_style::pieces::{HighlightIterator, RangedHighlightIterator};
use syntect_style::state::HighlightState;
use syntect_theme_files::theme_load::{ParseSettings, Settings};
use syntect_theme_files::theme_set::ThemeSet;

fn load_from_reader(rt: &(impl Print + AllocGlobal)) {
    let alloc = rt.alloc();
    for _ in 0..TIMES {
        let mut repository = ScopeRepository::new(alloc);
        let mut bytes = THEME.as_bytes();
        begin(rt);
        let theme = ThemeSet::load_from_reader(alloc, &mut bytes, &mut repository);
        end(rt);
        answer(rt, &theme);
    }
}

fn parse_settings(rt: &(impl Print + AllocGlobal)) {
    let alloc = rt.alloc();
    for _ in 0..TIMES {
        let mut repository = ScopeRepository::new(alloc);
        let Ok(settings) = Settings::from_str(alloc, THEME) else {
            return;
        };
        begin(rt);
        let theme = Theme::parse_settings(alloc, settings, &mut repository);
        end(rt);
        answer(rt, &theme);
    }
}

fn theme_clone(rt: &(impl Print + AllocGlobal)) {
    let mut repository = ScopeRepository::new(rt.alloc());
    let theme = theme_of(rt.alloc(), &mut repository);
    for _ in 0..TIMES {
        begin(rt);
        let copy = theme.clone();
        end(rt);
        answer(rt, &copy);
    }
}

fn highlighter_new(rt: &(impl Print + AllocGlobal)) {
    let alloc = rt.alloc();
    let mut repository = ScopeRepository::new(alloc);
    let theme = theme_of(alloc, &mut repository);
    for _ in 0..TIMES {
        begin(rt);
        let highlighter = Highlighter::new(alloc, &theme);
        end(rt);
        match &highlighter {
            Ok(highlighter) => answer(rt, highlighter.get_default()),
            Err(e) => answer(rt, e),
        }
    }
}

fn style_for_stack(rt: &(impl Print + AllocGlobal)) {
    let alloc = rt.alloc();
    let mut repository = ScopeRepository::new(alloc);
    let theme = theme_of(alloc, &mut repository);
    let stack = stack_of(alloc, "source.t comment.t", &mut repository);
    let Ok(highlighter) = Highlighter::new(alloc, &theme) else {
        return;
    };
    for _ in 0..TIMES {
        begin(rt);
        let style = highlighter.style_for_stack(stack.as_slice());
        end(rt);
        answer(rt, &style);
    }
}

fn style_mod_for_stack(rt: &(impl Print + AllocGlobal)) {
    let alloc = rt.alloc();
    let mut repository = ScopeRepository::new(alloc);
    let theme = theme_of(alloc, &mut repository);
    let stack = stack_of(alloc, "source.t comment.t", &mut repository);
    let Ok(highlighter) = Highlighter::new(alloc, &theme) else {
        return;
    };
    for _ in 0..TIMES {
        begin(rt);
        let change = highlighter.style_mod_for_stack(stack.as_slice());
        end(rt);
        answer(rt, &change);
    }
}

/// A piece and the operation at its end.
fn piece(
    rt: &impl Print,
    highlighter: &Highlighter<'_>,
    operations: &[(usize, ScopeStackOp)],
    state: &mut HighlightState,
) {
    if are_in_order("a", operations) {
        let mut pieces = HighlightIterator::new(state, operations, "a", highlighter);
        begin(rt);
        let first = pieces.next();
        end(rt);
        answer(rt, first);
    }
}

/// A piece with its range, and the operation at its end.
fn ranged_piece(
    rt: &impl Print,
    highlighter: &Highlighter<'_>,
    operations: &[(usize, ScopeStackOp)],
    state: &mut HighlightState,
) {
    if are_in_order("a", operations) {
        let mut pieces = RangedHighlightIterator::new(state, operations, "a", highlighter);
        begin(rt);
        let first = pieces.next();
        end(rt);
        answer(rt, first);
    }
}

fn iterate(rt: &(impl Print + AllocGlobal), is_ranged: bool) {
    let alloc = rt.alloc();
    let mut repository = ScopeRepository::new(alloc);
    let theme = theme_of(alloc, &mut repository);
    let operations = [(
        1usize,
        ScopeStackOp::Push(scope_of("string", &mut repository)),
    )];
    let Ok(highlighter) = Highlighter::new(alloc, &theme) else {
        return;
    };
    let mut state = HighlightState::new(&highlighter, ScopeStack::new(alloc));
    left(rt, state.path());
    for _ in 0..TIMES {
        if is_ranged {
            ranged_piece(rt, &highlighter, &operations, &mut state);
        } else {
            piece(rt, &highlighter, &operations, &mut state);
        }
        left(rt, state.path());
    }
}

/// The calls.
pub const NAMES: [&str; 8] = [
    "ThemeSet::load_from_reader",
    "Theme::parse_settings",
    "Theme::clone",
    "Highlighter::new",
    "Highlighter::style_for_stack",
    "Highlighter::style_mod_for_stack",
    "HighlightIterator::next",
    "RangedHighlightIterator::next",
];

/// Makes the call of this name, if there is one.
pub fn make(rt: &(impl Print + AllocGlobal), name: &str) {
    match name {
        "ThemeSet::load_from_reader" => load_from_reader(rt),
        "Theme::parse_settings" => parse_settings(rt),
        "Theme::clone" => theme_clone(rt),
        "Highlighter::new" => highlighter_new(rt),
        "Highlighter::style_for_stack" => style_for_stack(rt),
        "Highlighter::style_mod_for_stack" => style_mod_for_stack(rt),
        "HighlightIterator::next" => iterate(rt, false),
        "RangedHighlightIterator::next" => iterate(rt, true),
        _ => {}
    }
}
