//! Named refusals, each through each call that can answer it.
use crate::below::base::theme::ParseThemeError;
use crate::below::scope::repository::{ParseScopeError, ScopeRepository};
use crate::below::scope::scope::Scope;
use crate::below::scope::selector::{ScopeSelector, ScopeSelectors};
use crate::below::scope::stack::{ClearAmount, ScopeError, ScopeStack, ScopeStackOp};
use crate::below::theme::style::{Color, FontStyle, StyleModifier};
use crate::below::theme::theme::{Theme, ThemeItem, ThemeSettings, UnderlineOption};
use crate::found::{equal, holds};
use serde_json::Value;
use std::alloc::Global;
use std::process::Abort;
use syntect_style::highlighter::Highlighter;
use syntect_style::pieces::{HighlightIterator, RangedHighlightIterator, collect_pieces};
use syntect_style::state::HighlightState;
use syntect_theme_files::theme_load::ParseSettings;
use syntect_writers::class_style::ClassStyle;
use syntect_writers::classed::line_tokens_to_classed_spans;

/// The answer is this refusal.
fn is_refusal<T: Drop>(
    rt: &impl Abort,
    answer: Result<T, ParseScopeError>,
    wanted: &ParseScopeError,
) {
    holds(rt, answer.is_err_and(|e| e == *wanted));
}

/// Each reader of scopes refuses a text so.
fn refused_by_readers(
    rt: &impl Abort,
    alloc: Global,
    text: &str,
    repository: &mut ScopeRepository,
    wanted: &ParseScopeError,
) {
    is_refusal(rt, repository.build(text), wanted);
    is_refusal(rt, Scope::new(text, repository), wanted);
    is_refusal(rt, ScopeStack::from_text(alloc, text, repository), wanted);
    is_refusal(
        rt,
        ScopeSelector::from_text(alloc, text, repository),
        wanted,
    );
    is_refusal(
        rt,
        ScopeSelectors::from_text(alloc, text, repository),
        wanted,
    );
}

#[test]
fn readers_of_long_scopes(rt: HostRuntime) {
    let alloc = rt.alloc();
    let mut repository = ScopeRepository::new(alloc);
    let wanted = ParseScopeError::TooLong;
    refused_by_readers(&rt, alloc, "1.2.3.4.5.6.7.8.9", &mut repository, &wanted);
    equal(&rt, repository.atom_count(), 0);
}

#[test]
fn readers_with_a_full_repository(rt: HostRuntime) {
    let alloc = rt.alloc();
    let mut repository = ScopeRepository::new(alloc);
    for i in 0..65534 {
        let text = format!(in alloc; "{i}").expect(&rt, "memory");
        holds(&rt, repository.build(text.as_str()).is_ok());
    }
    let wanted = ParseScopeError::TooManyAtoms;
    refused_by_readers(&rt, alloc, "0.new", &mut repository, &wanted);
    equal(&rt, repository.atom_count(), 65534);
}

#[test]
fn a_refused_operation_is_not_heard(rt: HostRuntime) {
    let mut repository = ScopeRepository::new(rt.alloc());
    let mut stack = ScopeStack::from_text(rt.alloc(), "a", &mut repository).expect(&rt, "memory");
    let mut calls = 0u8;
    let refused = stack.apply_telling(
        &ScopeStackOp::Restore,
        &mut |_, _| {
            if calls < 9 {
                calls += 1;
            }
        },
    );
    holds(&rt, refused == Err(ScopeError::NoClearedScopesToRestore));
    let refused = stack.apply_with_hook(&ScopeStackOp::Restore, |_, _| {
        if calls < 9 {
            calls += 1;
        }
    });
    holds(&rt, refused == Err(ScopeError::NoClearedScopesToRestore));
    equal(&rt, calls, 0);
    equal(&rt, stack.len(), 1);
}

/// Operations of which the last restores what was put back already.
const ONE_TOO_MANY: [(usize, ScopeStackOp); 3] = [
    (0, ScopeStackOp::Clear(ClearAmount::All)),
    (1, ScopeStackOp::Restore),
    (2, ScopeStackOp::Restore),
];

#[test]
fn spans_of_a_refused_operation(rt: HostRuntime) {
    let mut repository = ScopeRepository::new(rt.alloc());
    let mut stack = ScopeStack::from_text(rt.alloc(), "a b", &mut repository).expect(&rt, "memory");
    let before = stack.clone().expect(&rt, "memory");
    let refused = line_tokens_to_classed_spans(
        rt.alloc(),
        "xyz",
        &ONE_TOO_MANY,
        ClassStyle::Spaced,
        &mut stack,
        &repository,
    );
    holds(
        &rt,
        matches!(refused, Err(ScopeError::NoClearedScopesToRestore)),
    );
    holds(&rt, stack == before);
}

#[test]
fn pieces_of_a_refused_operation(rt: HostRuntime) {
    let alloc = rt.alloc();
    let theme = Theme::default(alloc);
    let highlighter = Highlighter::new(alloc, &theme).expect(&rt, "memory");
    let mut state = HighlightState::new(&highlighter, ScopeStack::new(alloc));
    let all = collect_pieces(alloc, &highlighter, &mut state, &ONE_TOO_MANY, "xyz");
    holds(
        &rt,
        matches!(all, Err(ScopeError::NoClearedScopesToRestore)),
    );
    let mut state = HighlightState::new(&highlighter, ScopeStack::new(alloc));
    let mut items = RangedHighlightIterator::new(&mut state, &ONE_TOO_MANY, "xyz", &highlighter);
    holds(&rt, items.next().is_some_and(|item| item.is_ok()));
    let second = items.next();
    holds(
        &rt,
        second == Some(Err(ScopeError::NoClearedScopesToRestore)),
    );
    let mut state = HighlightState::new(&highlighter, ScopeStack::new(alloc));
    let mut items = HighlightIterator::new(&mut state, &ONE_TOO_MANY, "xyz", &highlighter);
    holds(&rt, items.next().is_some_and(|item| item.is_ok()));
    let second = items.next();
    holds(
        &rt,
        second == Some(Err(ScopeError::NoClearedScopesToRestore)),
    );
}

/// Why a value is no setting of a type, as its message says it.
fn refusal_of<T: ParseSettings<Error = ParseThemeError> + Drop>(
    rt: &impl Abort,
    alloc: Global,
    text: &str,
) -> String {
    let mut repository = ScopeRepository::new(alloc);
    let value = Value::from_str(alloc, text).unwrap_or(Value::Null);
    match T::parse_settings(alloc, value, &mut repository) {
        Ok(_) => String::new(alloc),
        Err(e) => format!(in alloc; "{e}").expect(rt, "memory"),
    }
}

/// A value of this type is refused with this message.
fn is_refused<T: ParseSettings<Error = ParseThemeError> + Drop>(
    rt: &impl Abort,
    alloc: Global,
    text: &str,
    wanted: &str,
) {
    equal(rt, refusal_of::<T>(rt, alloc, text).as_str(), wanted);
}

#[test]
fn refused_settings_of_texts(rt: HostRuntime) {
    let alloc = rt.alloc();
    is_refused::<Color>(&rt, alloc, "1", "Incorrect color");
    is_refused::<Color>(&rt, alloc, "\"#12\"", "Incorrect color");
    is_refused::<UnderlineOption>(&rt, alloc, "1", "Incorrect underline option");
    is_refused::<UnderlineOption>(&rt, alloc, "\"none\"", "Incorrect underline option");
    is_refused::<FontStyle>(&rt, alloc, "1", "Incorrect font style: 1");
    is_refused::<FontStyle>(&rt, alloc, "\"bold wavy\"", "Incorrect font style: wavy");
    is_refused::<ScopeSelectors>(&rt, alloc, "1", "Scope selector is not string: 1");
}

#[test]
fn refused_changes(rt: HostRuntime) {
    let alloc = rt.alloc();
    is_refused::<StyleModifier>(&rt, alloc, "1", "Color sheme scope is not object");
    let wrong = "{\"foreground\":\"red\"}";
    is_refused::<StyleModifier>(&rt, alloc, wrong, "Incorrect color");
    let wrong = "{\"fontStyle\":\"wavy\"}";
    is_refused::<StyleModifier>(&rt, alloc, wrong, "Incorrect font style: wavy");
    is_refused::<ThemeSettings>(&rt, alloc, "1", "Color sheme settings is not object");
}

#[test]
fn refused_rules(rt: HostRuntime) {
    let alloc = rt.alloc();
    is_refused::<ThemeItem>(&rt, alloc, "1", "Color sheme scope is not object");
    let wrong = "{\"settings\":{}}";
    is_refused::<ThemeItem>(&rt, alloc, wrong, "Scope selector is not string: ");
    is_refused::<ThemeItem>(&rt, alloc, "{\"scope\":\"a\"}", "Incorrect settings");
    let wrong = "{\"scope\":\"a\",\"settings\":1}";
    is_refused::<ThemeItem>(&rt, alloc, wrong, "Color sheme scope is not object");
    let wrong = "{\"scope\":\"a\",\"settings\":{\"background\":\"#12\"}}";
    is_refused::<ThemeItem>(&rt, alloc, wrong, "Incorrect color");
    let wrong = "{\"scope\":\"a\",\"settings\":{\"fontStyle\":\"wavy\"}}";
    is_refused::<ThemeItem>(&rt, alloc, wrong, "Incorrect font style: wavy");
}

/// Selectors and a rule with a scope of nine atoms.
#[test]
fn refused_scopes_of_rules(rt: HostRuntime) {
    let alloc = rt.alloc();
    let mut repository = ScopeRepository::new(alloc);
    let wanted = ParseThemeError::ScopeParse(ParseScopeError::TooLong);
    let text = Value::from_str(alloc, "\"a, 1.2.3.4.5.6.7.8.9\"").unwrap_or(Value::Null);
    let selectors = ScopeSelectors::parse_settings(alloc, text, &mut repository);
    holds(&rt, selectors.is_err_and(|e| e == wanted));
    let text = "{\"scope\":\"1.2.3.4.5.6.7.8.9\",\"settings\":{}}";
    let value = Value::from_str(alloc, text).unwrap_or(Value::Null);
    let wanted = ParseThemeError::ScopeParse(ParseScopeError::TooLong);
    let rule = ThemeItem::parse_settings(alloc, value, &mut repository);
    holds(&rt, rule.is_err_and(|e| e == wanted));
}

#[test]
fn refused_themes(rt: HostRuntime) {
    let alloc = rt.alloc();
    is_refused::<Theme>(&rt, alloc, "[]", "Incorrect syntax");
    is_refused::<Theme>(&rt, alloc, "{\"settings\":[]}", "Undefined settings");
    let wrong = "{\"settings\":[{\"settings\":1}]}";
    is_refused::<Theme>(&rt, alloc, wrong, "Color sheme settings is not object");
}
