//! Styles: the rules that win, and ties.
use crate::below::scope::power::MatchPower;
use crate::below::scope::repository::ScopeRepository;
use crate::below::scope::scope::Scope;
use crate::below::scope::selector::{ScopeSelector, ScopeSelectors};
use crate::below::scope::stack::{ClearAmount, ScopeError, ScopeStack, ScopeStackOp};
use crate::below::theme::style::{Color, FontStyle, Style, StyleModifier};
use crate::below::theme::theme::{Theme, ThemeItem, ThemeSettings};
use crate::below::values::seq::Seq;
use crate::below::values::text::Text;
use crate::found::{equal, holds};
use std::alloc::Global;
use std::process::Abort;
use syntect_style::highlighter::{Highlighter, ScoredStyle};
use syntect_style::laws::one_prevails;
use syntect_style::pieces::{HighlightIterator, RangedHighlightIterator, collect_pieces};
use syntect_style::state::HighlightState;

const FIRST: Color = Color {
    r: 1,
    g: 1,
    b: 1,
    a: 255,
};

const SECOND: Color = Color {
    r: 2,
    g: 2,
    b: 2,
    a: 255,
};

const ON_TEXT: StyleModifier = StyleModifier {
    foreground: Some(FIRST),
    background: None,
    font_style: None,
};

const OTHER_ON_TEXT: StyleModifier = StyleModifier {
    foreground: Some(SECOND),
    background: None,
    font_style: None,
};

fn scope(repository: &mut ScopeRepository, text: &str) -> Scope {
    repository.build(text).unwrap_or(Scope::default())
}

/// A stack of these scopes.
fn stack_of(rt: &impl Abort, alloc: Global, scopes: &[Scope]) -> ScopeStack {
    let mut stack = ScopeStack::new(alloc);
    for scope in scopes {
        stack.push(*scope).expect(rt, "memory");
    }
    stack
}

/// A rule for a path of scopes.
fn rule(rt: &impl Abort, alloc: Global, path: &[Scope], style: StyleModifier) -> ThemeItem {
    let mut selectors = Seq::new(alloc);
    let path = stack_of(rt, alloc, path);
    let excludes = Seq::new(alloc);
    selectors
        .push(ScopeSelector { path, excludes })
        .expect(rt, "memory");
    ThemeItem {
        scope: ScopeSelectors { selectors },
        style,
    }
}

fn theme_of(rt: &impl Abort, alloc: Global, rules: &[(Scope, StyleModifier)]) -> Theme {
    let mut theme = Theme::default(alloc);
    for (scope, style) in rules {
        theme
            .scopes
            .push(rule(rt, alloc, &[*scope], *style))
            .expect(rt, "memory");
    }
    theme
}

#[test]
fn the_deepest_place_counts(rt: HostRuntime) {
    let alloc = rt.alloc();
    let mut repository = ScopeRepository::new(alloc);
    let a = scope(&mut repository, "a");
    let b = scope(&mut repository, "b");
    let theme = theme_of(&rt, alloc, &[(a, ON_TEXT), (b, OTHER_ON_TEXT)]);
    let highlighter = Highlighter::new(alloc, &theme).expect(&rt, "memory");
    let style = highlighter
        .style_for_stack(&[a, b, a])
        .expect(&rt, "memory");
    equal(&rt, style.foreground, FIRST);
    equal(&rt, style.background, Color::WHITE);
    let modifier = highlighter
        .style_mod_for_stack(&[a, b, a])
        .expect(&rt, "memory");
    equal(&rt, modifier, ON_TEXT);
    equal(&rt, highlighter.get_default().apply(modifier), style);
    equal(
        &rt,
        highlighter
            .style_for_stack(&[a, b])
            .expect(&rt, "memory")
            .foreground,
        SECOND,
    );
    equal(
        &rt,
        highlighter.style_for_stack(&[]).expect(&rt, "memory"),
        Style::default(),
    );
}

#[test]
fn a_state_becomes_another_one(rt: HostRuntime) {
    let alloc = rt.alloc();
    let mut repository = ScopeRepository::new(alloc);
    let a = scope(&mut repository, "a");
    let theme = theme_of(&rt, alloc, &[(a, ON_TEXT)]);
    let highlighter = Highlighter::new(alloc, &theme).expect(&rt, "memory");
    let mut state = HighlightState::new(&highlighter, ScopeStack::new(alloc));
    let other = HighlightState::new(&highlighter, stack_of(&rt, alloc, &[a]));
    state.clone_from(&other).expect(&rt, "memory");
    holds(&rt, state == other);
    holds(&rt, state.path().as_slice() == [a].as_slice());
}

#[test]
fn the_lower_place_wins_deep_in_a_stack(rt: HostRuntime) {
    let alloc = rt.alloc();
    let mut repository = ScopeRepository::new(alloc);
    let eight = scope(&mut repository, "1.2.3.4.5.6.7.8");
    let one = scope(&mut repository, "x");
    let theme = theme_of(&rt, alloc, &[(one, OTHER_ON_TEXT), (eight, ON_TEXT)]);
    let highlighter = Highlighter::new(alloc, &theme).expect(&rt, "memory");
    let mut stack = ScopeStack::new(alloc);
    for _ in 0..199 {
        stack.push(Scope::default()).expect(&rt, "memory");
    }
    stack.push(eight).expect(&rt, "memory");
    stack.push(one).expect(&rt, "memory");
    let style = highlighter
        .style_for_stack(stack.as_slice())
        .expect(&rt, "memory");
    equal(&rt, style.foreground, FIRST);
}

#[test]
fn pieces_between_operations(rt: HostRuntime) {
    let alloc = rt.alloc();
    let mut repository = ScopeRepository::new(alloc);
    let comment = scope(&mut repository, "comment");
    let line = scope(&mut repository, "comment.line.rs");
    let keyword = scope(&mut repository, "keyword.control.rs");
    let on_comment = StyleModifier {
        foreground: Some(SECOND),
        background: None,
        font_style: Some(FontStyle::ITALIC),
    };
    let theme = theme_of(&rt, alloc, &[(line, ON_TEXT), (comment, on_comment)]);
    let highlighter = Highlighter::new(alloc, &theme).expect(&rt, "memory");
    let mut state = HighlightState::new(&highlighter, ScopeStack::new(alloc));
    let before = state.clone().expect(&rt, "memory");
    let changes = [
        (1, ScopeStackOp::Push(line)),
        (2, ScopeStackOp::Push(keyword)),
        (2, ScopeStackOp::Noop),
        (4, ScopeStackOp::Pop(2)),
    ];
    let shown = Style {
        foreground: FIRST,
        background: Color::WHITE,
        font_style: FontStyle::ITALIC,
    };
    let expected = [
        (Style::default(), "a", 0..1),
        (shown, "b", 1..2),
        (shown, "cd", 2..4),
        (Style::default(), "ef", 4..6),
    ];
    let mut count = 0;
    let mut items = RangedHighlightIterator::new(&mut state, &changes, "abcdef", &highlighter);
    while let Some(item) = items.next() {
        assert!(rt; count < 4);
        holds(&rt, item.is_ok_and(|p| p == expected[count]));
        count += 1;
    }
    equal(&rt, count, 4);
    holds(&rt, state == before);
    holds(&rt, state.into_path().is_empty());
}

#[test]
fn a_refused_operation_ends_the_pieces(rt: HostRuntime) {
    let alloc = rt.alloc();
    let mut repository = ScopeRepository::new(alloc);
    let a = scope(&mut repository, "a");
    let theme = theme_of(&rt, alloc, &[(a, ON_TEXT)]);
    let highlighter = Highlighter::new(alloc, &theme).expect(&rt, "memory");
    let mut state = HighlightState::new(&highlighter, ScopeStack::new(alloc));
    let changes = [
        (0, ScopeStackOp::Push(a)),
        (1, ScopeStackOp::Clear(ClearAmount::All)),
        (2, ScopeStackOp::Restore),
        (3, ScopeStackOp::Restore),
        (4, ScopeStackOp::Pop(1)),
    ];
    let shown = highlighter.style_for_stack(&[a]).expect(&rt, "memory");
    let mut items = HighlightIterator::new(&mut state, &changes, "abcdef", &highlighter);
    let first = items.next();
    holds(&rt, first == Some(Ok((shown, "a"))));
    let second = items.next();
    holds(&rt, second == Some(Ok((Style::default(), "b"))));
    let third = items.next();
    holds(
        &rt,
        third == Some(Err(ScopeError::NoClearedScopesToRestore)),
    );
    holds(&rt, items.next().is_none());
    equal(&rt, state.path().as_slice(), [a].as_slice());
}

#[test]
fn copies_of_themes(rt: HostRuntime) {
    let alloc = rt.alloc();
    one_prevails::<Color>();
    let mut item = ThemeItem::default(alloc);
    holds(&rt, item.scope.selectors.is_empty());
    equal(&rt, item.style, StyleModifier::default());
    item.style = ON_TEXT;
    holds(&rt, item.clone().expect(&rt, "memory") == item);
    let mut theme = Theme::default(alloc);
    theme
        .scopes
        .push(item.clone().expect(&rt, "memory"))
        .expect(&rt, "memory");
    holds(&rt, theme.clone().expect(&rt, "memory") == theme);
}

#[test]
fn copies_of_settings_and_scores(rt: HostRuntime) {
    let alloc = rt.alloc();
    let mut settings = ThemeSettings::default();
    settings.caret = Some(SECOND);
    settings.popup_css = Some(Text::from_str(alloc, "p {}").expect(&rt, "memory"));
    holds(&rt, settings.clone().expect(&rt, "memory") == settings);
    let mut score = MatchPower::new(alloc);
    score.add(3, 2).expect(&rt, "memory");
    let style = ScoredStyle {
        foreground: (Some(score), FIRST),
        background: (None, Color::WHITE),
        font_style: (None, FontStyle::empty()),
    };
    holds(&rt, style.clone().expect(&rt, "memory") == style);
}

#[test]
fn flags_and_modifiers(rt: HostRuntime) {
    let mut flags = FontStyle::BOLD;
    flags.insert(FontStyle::ITALIC);
    equal(&rt, flags.bits(), 5);
    holds(&rt, flags.contains(FontStyle::ITALIC));
    holds(&rt, flags.contains(FontStyle::empty()));
    holds(&rt, !flags.contains(FontStyle::UNDERLINE));
    let on_back = StyleModifier {
        foreground: None,
        background: Some(FIRST),
        font_style: Some(flags),
    };
    let both = OTHER_ON_TEXT.apply(on_back).apply(ON_TEXT);
    equal(&rt, both.foreground, Some(FIRST));
    equal(&rt, both.background, Some(FIRST));
    let style = Style::default().apply(both);
    equal(&rt, style.font_style, flags);
    equal(&rt, style.background, FIRST);
}
