//! Copies of themes and of styles, and a text for terminals that is added to another.
use crate::below::scope::power::MatchPower;
use crate::below::scope::repository::ScopeRepository;
use crate::below::scope::stack::ScopeStack;
use crate::below::style::highlighter::{Highlighter, ScoredStyle};
use crate::below::style::state::HighlightState;
use crate::below::theme::style::{Color, FontStyle, Style};
use crate::below::theme_files::theme_set::ThemeSet;
use crate::below::values::text::Text;
use crate::below::writers::escape::push_escaped;
use crate::below::writers::terminal::push_24_bit_terminal_escaped;
use crate::copies::copy;
use std::alloc::{AllocError, Global};
use syntect_check_calls::given::{stack_of, theme_of};
use syntect_check_calls::marks::{TIMES, answer, begin, end, left};

fn settings_clone(rt: &(impl Print + AllocGlobal)) {
    let mut repository = ScopeRepository::new(rt.alloc());
    let mut theme = theme_of(rt.alloc(), &mut repository);
    theme.settings.popup_css = Text::from_str(rt.alloc(), "a").ok();
    copy(rt, &theme.settings);
}

fn item_clone(rt: &(impl Print + AllocGlobal)) {
    let mut repository = ScopeRepository::new(rt.alloc());
    let theme = theme_of(rt.alloc(), &mut repository);
    if let Some(item) = theme.scopes.as_slice().first() {
        copy(rt, item);
    }
}

fn set_clone(rt: &(impl Print + AllocGlobal)) {
    let mut repository = ScopeRepository::new(rt.alloc());
    let mut set = ThemeSet::new(rt.alloc());
    let theme = theme_of(rt.alloc(), &mut repository);
    if let Ok(name) = Text::from_str(rt.alloc(), "dusk") {
        let _ = set.themes.insert(name, theme);
    }
    for _ in 0..TIMES {
        begin(rt);
        let copy = set.clone();
        end(rt);
        answer(rt, &copy);
    }
}

/// A score and a style that reaches it in all.
fn scored_of(alloc: Global) -> Option<ScoredStyle> {
    let score = MatchPower::from_u64(alloc, 1025).ok()?;
    let other = score.clone().ok()?;
    Some(ScoredStyle {
        foreground: (Some(score), Color::BLACK),
        background: (Some(other), Color::WHITE),
        font_style: (None, FontStyle::BOLD),
    })
}

fn scored_clone(rt: &(impl Print + AllocGlobal)) {
    if let Some(scored) = scored_of(rt.alloc()) {
        copy(rt, &scored);
    }
}

/// A copied state, or one that takes up another; that one's stack is what it has to leave.
fn state_clone(rt: &(impl Print + AllocGlobal), takes_up: bool) {
    let alloc = rt.alloc();
    let mut repository = ScopeRepository::new(alloc);
    let theme = theme_of(alloc, &mut repository);
    let Ok(highlighter) = Highlighter::new(alloc, &theme) else {
        return;
    };
    let stack = stack_of(alloc, "source.t string", &mut repository);
    let state = HighlightState::new(&highlighter, stack);
    if takes_up {
        states_taken_up(rt, &highlighter, &state);
    } else {
        copy(rt, &state);
    }
}

/// A state that takes up another, again and again from one without scopes.
fn states_taken_up(
    rt: &(impl Print + AllocGlobal),
    highlighter: &Highlighter<'_>,
    state: &HighlightState,
) {
    for _ in 0..TIMES {
        let mut other = HighlightState::new(highlighter, ScopeStack::new(rt.alloc()));
        begin(rt);
        let taken = other.clone_from(state);
        end(rt);
        match taken {
            Ok(()) => answer(rt, other.path()),
            Err(e) => answer(rt, e),
        }
    }
}

/// Adds pieces for terminals to a text, or a text as HTML has it.
fn pushed(text: &mut String, as_html: bool) -> Result<(), AllocError> {
    if as_html {
        return push_escaped(text, "a<b>c");
    }
    let pieces = [(Style::default(), "a"), (Style::default(), "bc")];
    push_24_bit_terminal_escaped(text, &pieces, true)
}

fn push(rt: &(impl Print + AllocGlobal), as_html: bool) {
    for _ in 0..TIMES {
        let mut text = String::new(rt.alloc());
        begin(rt);
        let pushed = pushed(&mut text, as_html);
        end(rt);
        match pushed {
            Ok(()) => answer(rt, &text),
            Err(e) => answer(rt, e),
        }
    }
}

/// The calls.
pub const NAMES: [&str; 8] = [
    "ThemeSettings::clone",
    "ThemeItem::clone",
    "ThemeSet::clone",
    "ScoredStyle::clone",
    "HighlightState::clone",
    "HighlightState::clone_from",
    "push_24_bit_terminal_escaped",
    "push_escaped",
];

/// Makes the call of this name, if there is one.
pub fn make(rt: &(impl Print + AllocGlobal), name: &str) {
    match name {
        "ThemeSettings::clone" => settings_clone(rt),
        "ThemeItem::clone" => item_clone(rt),
        "ThemeSet::clone" => set_clone(rt),
        "ScoredStyle::clone" => scored_clone(rt),
        "HighlightState::clone" => state_clone(rt, false),
        "HighlightState::clone_from" => state_clone(rt, true),
        "push_24_bit_terminal_escaped" => push(rt, false),
        "push_escaped" => push(rt, true),
        _ => {}
    }
}
