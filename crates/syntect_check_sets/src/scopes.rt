//! Copies of scopes, stacks and selectors, and a hook that is lent.
use crate::below::scope::power::MatchPower;
use crate::below::scope::repository::ScopeRepository;
use crate::below::scope::selector::{ScopeSelector, ScopeSelectors};
use crate::below::scope::stack::{ScopeStack, ScopeStackOp};
use crate::copies::copy;
use syntect_check_calls::given::scope_of;
use syntect_check_calls::marks::{TIMES, answer, begin, end, left};

fn repository_clone(rt: &(impl Print + AllocGlobal)) {
    let mut repository = ScopeRepository::new(rt.alloc());
    let _ = scope_of("source.rust", &mut repository);
    for _ in 0..TIMES {
        begin(rt);
        let copy = repository.clone();
        end(rt);
        answer(rt, &copy);
    }
}

fn power_clone(rt: &(impl Print + AllocGlobal)) {
    if let Ok(power) = MatchPower::from_u64(rt.alloc(), 1025) {
        copy(rt, &power);
    }
}

fn selector_clone(rt: &(impl Print + AllocGlobal)) {
    let mut repository = ScopeRepository::new(rt.alloc());
    let selector = ScopeSelector::from_text(rt.alloc(), "source string -comment", &mut repository);
    if let Ok(selector) = selector {
        copy(rt, &selector);
    }
}

fn selectors_clone(rt: &(impl Print + AllocGlobal)) {
    let mut repository = ScopeRepository::new(rt.alloc());
    let union = ScopeSelectors::from_text(rt.alloc(), "string, source -c", &mut repository);
    if let Ok(union) = union {
        copy(rt, &union);
    }
}

/// The hook counts what it hears, which is nothing of an operation that is refused.
fn stack_apply_telling(rt: &(impl Print + AllocGlobal)) {
    let mut repository = ScopeRepository::new(rt.alloc());
    let operation = ScopeStackOp::Push(scope_of("string", &mut repository));
    let mut stack = ScopeStack::new(rt.alloc());
    left(rt, (&stack, 0u32));
    for _ in 0..TIMES {
        let mut heard = 0u32;
        begin(rt);
        let applied = stack.apply_telling(&operation, &mut |_, _| heard = heard.saturating_add(1));
        end(rt);
        answer(rt, &applied);
        left(rt, (&stack, heard));
    }
}

/// The calls.
pub const NAMES: [&str; 5] = [
    "ScopeRepository::clone",
    "MatchPower::clone",
    "ScopeSelector::clone",
    "ScopeSelectors::clone",
    "ScopeStack::apply_telling",
];

/// Makes the call of this name, if there is one.
pub fn make(rt: &(impl Print + AllocGlobal), name: &str) {
    match name {
        "ScopeRepository::clone" => repository_clone(rt),
        "MatchPower::clone" => power_clone(rt),
        "ScopeSelector::clone" => selector_clone(rt),
        "ScopeSelectors::clone" => selectors_clone(rt),
        "ScopeStack::apply_telling" => stack_apply_telling(rt),
        _ => {}
    }
}
