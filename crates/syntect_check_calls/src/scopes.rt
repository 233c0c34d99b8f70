//! Calls of scopes and of stacks of them.
use crate::below::scope::repository::ScopeRepository;
use crate::below::scope::scope::Scope;
use crate::below::scope::stack::{ClearAmount, ScopeStack, ScopeStackOp};
use crate::given::{scope_of, stack_of};
use crate::marks::{TIMES, answer, begin, end, left};

fn repository_build(rt: &(impl Print + AllocGlobal)) {
    let mut repository = ScopeRepository::new(rt.alloc());
    left(rt, &repository);
    for _ in 0..TIMES {
        begin(rt);
        let scope = repository.build("string.quoted");
        end(rt);
        answer(rt, &scope);
        left(rt, &repository);
    }
}

fn scope_new(rt: &(impl Print + AllocGlobal)) {
    let mut repository = ScopeRepository::new(rt.alloc());
    left(rt, &repository);
    for _ in 0..TIMES {
        begin(rt);
        let scope = Scope::new("string..quoted", &mut repository);
        end(rt);
        answer(rt, &scope);
        left(rt, &repository);
    }
}

fn scope_text(rt: &(impl Print + AllocGlobal)) {
    let mut repository = ScopeRepository::new(rt.alloc());
    let scope = scope_of("source.rust", &mut repository);
    for _ in 0..TIMES {
        begin(rt);
        let text = repository.to_string(scope);
        end(rt);
        answer(rt, &text);
    }
}

fn scope_build_string(rt: &(impl Print + AllocGlobal)) {
    let mut repository = ScopeRepository::new(rt.alloc());
    let scope = scope_of("source.rust", &mut repository);
    for _ in 0..TIMES {
        begin(rt);
        let text = scope.build_string(&repository);
        end(rt);
        answer(rt, &text);
    }
}

fn stack_from_text(rt: &(impl Print + AllocGlobal)) {
    let alloc = rt.alloc();
    let mut repository = ScopeRepository::new(alloc);
    for _ in 0..TIMES {
        begin(rt);
        let stack = ScopeStack::from_text(alloc, "source.rust string.quoted", &mut repository);
        end(rt);
        answer(rt, &stack);
    }
}

fn stack_build_string(rt: &(impl Print + AllocGlobal)) {
    let alloc = rt.alloc();
    let mut repository = ScopeRepository::new(alloc);
    let stack = stack_of(alloc, "source.rust string", &mut repository);
    for _ in 0..TIMES {
        begin(rt);
        let text = stack.build_string(&repository);
        end(rt);
        answer(rt, &text);
    }
}

fn stack_clone(rt: &(impl Print + AllocGlobal)) {
    let alloc = rt.alloc();
    let mut repository = ScopeRepository::new(alloc);
    let stack = stack_of(alloc, "source.rust string", &mut repository);
    for _ in 0..TIMES {
        begin(rt);
        let copy = stack.clone();
        end(rt);
        answer(rt, &copy);
    }
}

fn stack_push(rt: &(impl Print + AllocGlobal)) {
    let mut repository = ScopeRepository::new(rt.alloc());
    let scope = scope_of("string", &mut repository);
    let mut stack = ScopeStack::new(rt.alloc());
    left(rt, &stack);
    for _ in 0..TIMES {
        begin(rt);
        let pushed = stack.push(scope);
        end(rt);
        answer(rt, &pushed);
        left(rt, &stack);
    }
}

/// Applies an operation to a stack again and again.
fn applies(rt: &impl Print, stack: &mut ScopeStack, operation: &ScopeStackOp) {
    left(rt, &*stack);
    for _ in 0..TIMES {
        begin(rt);
        let applied = stack.apply(operation);
        end(rt);
        answer(rt, &applied);
        left(rt, &*stack);
    }
}

fn stack_apply_push(rt: &(impl Print + AllocGlobal)) {
    let mut repository = ScopeRepository::new(rt.alloc());
    let scope = scope_of("string", &mut repository);
    let mut stack = ScopeStack::new(rt.alloc());
    applies(rt, &mut stack, &ScopeStackOp::Push(scope));
}

fn stack_apply_clear(rt: &(impl Print + AllocGlobal)) {
    let alloc = rt.alloc();
    let mut repository = ScopeRepository::new(alloc);
    let mut stack = stack_of(alloc, "a b c d", &mut repository);
    applies(rt, &mut stack, &ScopeStackOp::Clear(ClearAmount::TopN(2)));
}

/// What is cleared is put after the rest of a copy, which has no more room than it takes. From the
/// second time on nothing is left to restore.
fn stack_apply_restore(rt: &(impl Print + AllocGlobal)) {
    let alloc = rt.alloc();
    let mut repository = ScopeRepository::new(alloc);
    let mut stack = stack_of(alloc, "a b c d e f g h", &mut repository);
    let _ = stack.apply(&ScopeStackOp::Clear(ClearAmount::TopN(6)));
    if let Ok(mut copy) = stack.clone() {
        applies(rt, &mut copy, &ScopeStackOp::Restore);
    }
}

fn stack_apply_with_hook(rt: &(impl Print + AllocGlobal)) {
    let mut repository = ScopeRepository::new(rt.alloc());
    let operation = ScopeStackOp::Push(scope_of("string", &mut repository));
    let mut stack = ScopeStack::new(rt.alloc());
    left(rt, &stack);
    for _ in 0..TIMES {
        begin(rt);
        let applied = stack.apply_with_hook(&operation, |_, _| {});
        end(rt);
        answer(rt, &applied);
        left(rt, &stack);
    }
}

/// The calls.
pub const NAMES: [&str; 12] = [
    "ScopeRepository::build",
    "ScopeRepository::to_string",
    "Scope::new",
    "Scope::build_string",
    "ScopeStack::from_text",
    "ScopeStack::build_string",
    "ScopeStack::clone",
    "ScopeStack::push",
    "ScopeStack::apply(Push)",
    "ScopeStack::apply(Clear)",
    "ScopeStack::apply(Restore)",
    "ScopeStack::apply_with_hook",
];

/// Makes the call of this name, if there is one.
pub fn make(rt: &(impl Print + AllocGlobal), name: &str) {
    match name {
        "ScopeRepository::build" => repository_build(rt),
        "ScopeRepository::to_string" => scope_text(rt),
        "Scope::new" => scope_new(rt),
        "Scope::build_string" => scope_build_string(rt),
        "ScopeStack::from_text" => stack_from_text(rt),
        "ScopeStack::build_string" => stack_build_string(rt),
        "ScopeStack::clone" => stack_clone(rt),
        "ScopeStack::push" => stack_push(rt),
        "ScopeStack::apply(Push)" => stack_apply_push(rt),
        "ScopeStack::apply(Clear)" => stack_apply_clear(rt),
        "ScopeStack::apply(Restore)" => stack_apply_restore(rt),
        "ScopeStack::apply_with_hook" => stack_apply_with_hook(rt),
        _ => {}
    }
}
