//! Calls of selectors and of their scores.
use crate::below::scope::power::MatchPower;
use crate::below::scope::repository::ScopeRepository;
use crate::below::scope::selector::{ScopeSelector, ScopeSelectors};
use crate::given::stack_of;
use crate::marks::{TIMES, answer, begin, end, left};

fn selector_from_text(rt: &(impl Print + AllocGlobal)) {
    let alloc = rt.alloc();
    let mut repository = ScopeRepository::new(alloc);
    for _ in 0..TIMES {
        begin(rt);
        let selector = ScopeSelector::from_text(alloc, "source string -comment", &mut repository);
        end(rt);
        answer(rt, &selector);
    }
}

fn selectors_from_text(rt: &(impl Print + AllocGlobal)) {
    let alloc = rt.alloc();
    let mut repository = ScopeRepository::new(alloc);
    for _ in 0..TIMES {
        begin(rt);
        let union = ScopeSelectors::from_text(alloc, "string, source -c", &mut repository);
        end(rt);
        answer(rt, &union);
    }
}

fn path_does_match(rt: &(impl Print + AllocGlobal)) {
    let alloc = rt.alloc();
    let mut repository = ScopeRepository::new(alloc);
    let path = stack_of(alloc, "source string", &mut repository);
    let stack = stack_of(alloc, "source.rust meta string.quoted", &mut repository);
    for _ in 0..TIMES {
        begin(rt);
        let score = path.does_match(stack.as_slice());
        end(rt);
        answer(rt, &score);
    }
}

fn selector_does_match(rt: &(impl Print + AllocGlobal)) {
    let alloc = rt.alloc();
    let mut repository = ScopeRepository::new(alloc);
    let selector = ScopeSelector::from_text(alloc, "source string -comment", &mut repository);
    let stack = stack_of(alloc, "source.rust meta string.quoted", &mut repository);
    let Ok(selector) = selector else { return };
    for _ in 0..TIMES {
        begin(rt);
        let score = selector.does_match(stack.as_slice());
        end(rt);
        answer(rt, &score);
    }
}

fn selectors_do_match(rt: &(impl Print + AllocGlobal)) {
    let alloc = rt.alloc();
    let mut repository = ScopeRepository::new(alloc);
    let union = ScopeSelectors::from_text(alloc, "string, source -c", &mut repository);
    let stack = stack_of(alloc, "source.rust meta string.quoted", &mut repository);
    let Ok(union) = union else { return };
    for _ in 0..TIMES {
        begin(rt);
        let score = union.does_match(stack.as_slice());
        end(rt);
        answer(rt, &score);
    }
}

fn selector_extract_scopes(rt: &(impl Print + AllocGlobal)) {
    let alloc = rt.alloc();
    let mut repository = ScopeRepository::new(alloc);
    let selector = ScopeSelector::from_text(alloc, "source string", &mut repository);
    let Ok(selector) = selector else { return };
    for _ in 0..TIMES {
        begin(rt);
        let scopes = selector.extract_scopes();
        end(rt);
        answer(rt, &scopes);
    }
}

fn power_add(rt: &(impl Print + AllocGlobal)) {
    let mut power = MatchPower::new(rt.alloc());
    left(rt, &power);
    for _ in 0..TIMES {
        begin(rt);
        let added = power.add(2, 5);
        end(rt);
        answer(rt, &added);
        left(rt, &power);
    }
}

fn power_from_u64(rt: &(impl Print + AllocGlobal)) {
    let alloc = rt.alloc();
    for _ in 0..TIMES {
        begin(rt);
        let power = MatchPower::from_u64(alloc, 1025);
        end(rt);
        answer(rt, &power);
    }
}

/// The calls.
pub const NAMES: [&str; 8] = [
    "ScopeSelector::from_text",
    "ScopeSelectors::from_text",
    "ScopeStack::does_match",
    "ScopeSelector::does_match",
    "ScopeSelectors::does_match",
    "ScopeSelector::extract_scopes",
    "MatchPower::add",
    "MatchPower::from_u64",
];

/// Makes the call of this name, if there is one.
pub fn make(rt: &(impl Print + AllocGlobal), name: &str) {
    match name {
        "ScopeSelector::from_text" => selector_from_text(rt),
        "ScopeSelectors::from_text" => selectors_from_text(rt),
        "ScopeStack::does_match" => path_does_match(rt),
        "ScopeSelector::does_match" => selector_does_match(rt),
        "ScopeSelectors::does_match" => selectors_do_match(rt),
        "ScopeSelector::extract_scopes" => selector_extract_scopes(rt),
        "MatchPower::add" => power_add(rt),
        "MatchPower::from_u64" => power_from_u64(rt),
        _ => {}
    }
}
