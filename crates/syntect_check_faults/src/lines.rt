//! Calls that read lines.
use crate::below::check_calls::marks::{TIMES, answer, begin, end, left};
use crate::below::parsing::parser::turns_of_line;
use crate::given::{LINE, state_of};
use syntect_check_sets::copies::copy;
use syntect_check_sets::set_given::set_of;
use syntect_easy::parsing::{Limits, ParseState, Regions, ScopeRepository, SyntaxSet};

fn parse_state_new(rt: &(impl Print + AllocGlobal)) {
    let alloc = rt.alloc();
    let mut repository = ScopeRepository::new(alloc);
    let set = set_of(alloc, &mut repository);
    let Some(syntax) = set.syntaxes().first() else {
        return;
    };
    for _ in 0..TIMES {
        begin(rt);
        let state = ParseState::new(alloc, syntax);
        end(rt);
        answer(rt, state.err());
    }
}

/// Reads lines from the state before the first one, within limits or not.
fn parse_line(rt: &(impl Print + AllocGlobal), within: bool) {
    let alloc = rt.alloc();
    let mut repository = ScopeRepository::new(alloc);
    let set = set_of(alloc, &mut repository);
    let Some(state) = state_of(alloc, &set) else {
        return;
    };
    if within {
        parse_lines_within(rt, &set, state);
    } else {
        parse_lines(rt, &set, state);
    }
}

/// Reads a line again and again. What is left of the state is whether it is as at first.
fn parse_lines(rt: &(impl Print + AllocGlobal), set: &SyntaxSet, mut state: ParseState) {
    let alloc = rt.alloc();
    let Ok(before) = state.clone() else { return };
    left(rt, true);
    for _ in 0..TIMES {
        begin(rt);
        let read = state.parse_line(alloc, LINE, set);
        end(rt);
        answer(rt, &read);
        left(rt, state == before);
    }
}

/// Reads a line again and again, within limits that it doesn't reach. What is left of the state is
/// whether it is as at first.
fn parse_lines_within(rt: &(impl Print + AllocGlobal), set: &SyntaxSet, mut state: ParseState) {
    let alloc = rt.alloc();
    let Ok(before) = state.clone() else { return };
    left(rt, true);
    for _ in 0..TIMES {
        begin(rt);
        let read = state.parse_line_within(alloc, LINE, set, &Limits::default());
        end(rt);
        answer(rt, &read);
        left(rt, state == before);
    }
}

/// What is asked of a state that stays.
#[derive(Clone, Copy)]
enum Question {
    Copy,
    Line,
    LineWithin,
    Turns,
}

/// Asks something of the state before the first line.
fn ask(rt: &(impl Print + AllocGlobal), question: Question) {
    let mut repository = ScopeRepository::new(rt.alloc());
    let set = set_of(rt.alloc(), &mut repository);
    let Some(mut state) = state_of(rt.alloc(), &set) else {
        return;
    };
    match question {
        Question::Copy => copy(rt, &state),
        Question::Line => after_line(rt, &set, &mut state),
        Question::LineWithin => after_line_within(rt, &set, &mut state),
        Question::Turns => count_turns(rt, &set, &state),
    }
}

fn after_line(rt: &(impl Print + AllocGlobal), set: &SyntaxSet, state: &mut ParseState) {
    for _ in 0..TIMES {
        let mut regions = Regions::new(rt.alloc());
        begin(rt);
        let after = state.after_line(rt.alloc(), LINE, set, &mut regions);
        end(rt);
        match &after {
            Ok((_, operations)) => answer(rt, operations),
            Err(e) => answer(rt, e),
        }
    }
}

fn after_line_within(rt: &(impl Print + AllocGlobal), set: &SyntaxSet, state: &mut ParseState) {
    let limits = Limits::default();
    for _ in 0..TIMES {
        let mut regions = Regions::new(rt.alloc());
        begin(rt);
        let after = state.after_line_within(rt.alloc(), LINE, set, &limits, &mut regions);
        end(rt);
        match &after {
            Ok((_, operations)) => answer(rt, operations),
            Err(e) => answer(rt, e),
        }
    }
}

fn count_turns(rt: &(impl Print + AllocGlobal), set: &SyntaxSet, state: &ParseState) {
    for _ in 0..TIMES {
        begin(rt);
        let turns = turns_of_line(rt.alloc(), state, LINE, set);
        end(rt);
        answer(rt, &turns);
    }
}

/// The calls.
pub const NAMES: [&str; 7] = [
    "ParseState::new",
    "ParseState::parse_line",
    "ParseState::parse_line_within",
    "ParseState::clone",
    "ParseState::after_line",
    "ParseState::after_line_within",
    "turns_of_line",
];

/// Makes the call of this name, if there is one.
pub fn make(rt: &(impl Print + AllocGlobal), name: &str) {
    match name {
        "ParseState::new" => parse_state_new(rt),
        "ParseState::parse_line" => parse_line(rt, false),
        "ParseState::parse_line_within" => parse_line(rt, true),
        "ParseState::clone" => ask(rt, Question::Copy),
        "ParseState::after_line" => ask(rt, Question::Line),
        "ParseState::after_line_within" => ask(rt, Question::LineWithin),
        "turns_of_line" => ask(rt, Question::Turns),
        _ => {}
    }
}
