//! Scopes and their texts.
use crate::below::scope::power::MatchPower;
use crate::below::scope::repository::{ParseScopeError, ScopeRepository};
use crate::below::scope::scope::Scope;
use crate::below::scope::selector::{ScopeSelector, ScopeSelectors};
use crate::below::scope::stack::{ClearAmount, ScopeError, ScopeStack, ScopeStackOp};
use crate::below::values::seq::Seq;
use crate::found::{equal, holds};
use std::cmp::Ordering;

#[test]
fn scopes_of_texts(rt: HostRuntime) {
    let mut repository = ScopeRepository::new(rt.alloc());
    let line = repository.build("comment.line");
    holds(
        &rt,
        Scope::new(" \tcomment.line..\u{a0}", &mut repository) == line,
    );
    let line = line.unwrap_or(Scope::default());
    equal(&rt, line.len(), 2);
    equal(&rt, line.atom_at(0), 1);
    equal(&rt, line.atom_at(7), 0);
    equal(&rt, repository.atom_str(2), Some("line"));
    equal(&rt, repository.atom_str(0), None);
    equal(&rt, repository.atom_str(3), None);
    equal(
        &rt,
        line.build_string(&repository)
            .expect(&rt, "memory")
            .as_str(),
        "comment.line",
    );
}

/// Equal texts give equal scopes, and what was built is told as it was.
#[test]
fn texts_of_scopes(rt: HostRuntime) {
    let mut repository = ScopeRepository::new(rt.alloc());
    for text in ["", "source.php", "source.php.wow.hi.bob.troll.clock.5"] {
        let first = repository.build(text);
        holds(&rt, first == repository.build(text));
    }
    for text in ["", "source.php.wow"] {
        let scope = repository.build(text).expect(&rt, "a scope");
        let told = repository.to_string(scope).expect(&rt, "memory");
        equal(&rt, told.as_str(), text);
    }
    let php = repository.build("source.php");
    holds(&rt, php != repository.build("source.perl"));
    holds(&rt, php != repository.build("source.php.wagon"));
    let line = repository.build("comment.line.");
    holds(&rt, line == repository.build("comment.line"));
}

#[test]
fn scopes_of_nothing(rt: HostRuntime) {
    let mut repository = ScopeRepository::new(rt.alloc());
    let line = repository.build("comment.line").unwrap_or(Scope::default());
    let none = ScopeRepository::new(rt.alloc());
    equal(
        &rt,
        none.to_string(line).expect(&rt, "memory").as_str(),
        "?.?",
    );
    let nothing = repository.build("").unwrap_or(line);
    holds(&rt, nothing.is_empty());
    let empty_atom = repository.build(".").unwrap_or(line);
    equal(&rt, empty_atom.len(), 1);
    equal(&rt, repository.atom_str(3), Some(""));
}

#[test]
fn prefixes_and_order(rt: HostRuntime) {
    let mut repository = ScopeRepository::new(rt.alloc());
    let none = Scope::default();
    let a = repository.build("a").unwrap_or(none);
    let a_b = repository.build("a.b").unwrap_or(none);
    let b = repository.build("b").unwrap_or(none);
    holds(&rt, a < a_b);
    holds(&rt, a_b < b);
    holds(&rt, none < a);
    holds(&rt, !a.is_prefix_of(none));
    for scope in [none, a, a_b] {
        holds(&rt, none.is_prefix_of(scope));
    }
}

#[test]
fn prefixes_and_order_of_long_scopes(rt: HostRuntime) {
    let mut repository = ScopeRepository::new(rt.alloc());
    let none = Scope::default();
    let four = repository.build("1.2.3.4").unwrap_or(none);
    let six = repository.build("1.2.3.4.5.6").unwrap_or(none);
    let eight = repository.build("1.2.3.4.5.6.7.8").unwrap_or(none);
    let other = repository.build("1.2.a.4.5.6.7").unwrap_or(none);
    let five = repository.build("1.2.3.4.5").unwrap_or(none);
    holds(&rt, four.is_prefix_of(eight));
    holds(&rt, six.is_prefix_of(eight));
    for scope in [four, eight, other] {
        holds(&rt, none.is_prefix_of(scope));
    }
    holds(&rt, !other.is_prefix_of(five));
    holds(&rt, !eight.is_prefix_of(six));
    holds(&rt, eight.is_prefix_of(eight));
    holds(&rt, four < five);
}

#[test]
fn scopes_that_begin_others(rt: HostRuntime) {
    let mut repository = ScopeRepository::new(rt.alloc());
    for (front, whole, begins) in [
        ("1.2.3.4.5.6.7.8", "1.2.3.4.5.6.7.8", true),
        ("1.2.3.4.5.6", "1.2.3.4.5.6.7.8", true),
        ("1.2.3.4", "1.2.3.4.5.6.7.8", true),
        ("1.2.3.4.5.6.a", "1.2.3.4.5.6.7.8", false),
        ("1.2.a.4.5.6.7", "1.2.3.4.5.6.7.8", false),
        ("1.2.a.4.5.6.7", "1.2.3.4.5", false),
        ("1.2.a", "1.2.3.4.5.6.7.8", false),
    ] {
        let front = repository.build(front).expect(&rt, "a scope");
        let whole = repository.build(whole).expect(&rt, "a scope");
        equal(&rt, front.is_prefix_of(whole), begins);
    }
}

#[test]
fn a_full_repository(rt: HostRuntime) {
    let alloc = rt.alloc();
    let mut repository = ScopeRepository::new(alloc);
    for i in 0..65534 {
        let text = format!(in alloc; "{i}").expect(&rt, "memory");
        holds(&rt, repository.build(text.as_str()).is_ok());
    }
    equal(&rt, repository.atom_str(65534), Some("65533"));
    holds(
        &rt,
        repository.build("0.new") == Err(ParseScopeError::TooManyAtoms),
    );
    equal(&rt, repository.atom_str(65535), None);
    holds(
        &rt,
        repository.build("a.b.c.d.e.f.g.h.i") == Err(ParseScopeError::TooLong),
    );
    let old = repository.build("65533.0").unwrap_or(Scope::default());
    equal(&rt, old.atom_at(0), 65534);
    equal(&rt, old.atom_at(1), 1);
}

#[test]
fn cleared_scopes_come_back_on_top(rt: HostRuntime) {
    let alloc = rt.alloc();
    let mut repository = ScopeRepository::new(alloc);
    let mut stack = ScopeStack::new(alloc);
    for text in ["a", "b", "c"] {
        stack
            .push(repository.build(text).unwrap_or(Scope::default()))
            .expect(&rt, "memory");
    }
    let d = repository.build("d").unwrap_or(Scope::default());
    let before = stack.clone().expect(&rt, "memory");
    for op in [
        ScopeStackOp::Clear(ClearAmount::TopN(2)),
        ScopeStackOp::Push(d),
        ScopeStackOp::Restore,
    ] {
        holds(&rt, stack.apply(&op).is_ok());
    }
    equal(
        &rt,
        stack
            .build_string(&repository)
            .expect(&rt, "memory")
            .as_str(),
        "a d b c ",
    );
    holds(
        &rt,
        stack.apply(&ScopeStackOp::Restore) == Err(ScopeError::NoClearedScopesToRestore),
    );
    equal(&rt, stack.len(), 4);
    holds(&rt, stack != before);
}

#[test]
fn scopes_at_the_bottom(rt: HostRuntime) {
    let alloc = rt.alloc();
    let mut repository = ScopeRepository::new(alloc);
    let mut stack = ScopeStack::new(alloc);
    for text in ["a", "b"] {
        stack
            .push(repository.build(text).unwrap_or(Scope::default()))
            .expect(&rt, "memory");
    }
    holds(&rt, stack.bottom_n(stack.len()) == stack.as_slice());
    holds(&rt, stack.bottom_n(0).is_empty());
    holds(&rt, stack.apply(&ScopeStackOp::Pop(9)).is_ok());
    holds(&rt, stack.is_empty());
    stack.pop();
    holds(
        &rt,
        stack.apply(&ScopeStackOp::Clear(ClearAmount::All)).is_ok(),
    );
    holds(&rt, stack.apply(&ScopeStackOp::Restore).is_ok());
    holds(&rt, stack.as_slice().is_empty());
}

#[test]
fn stacks_of_texts(rt: HostRuntime) {
    let alloc = rt.alloc();
    let mut repository = ScopeRepository::new(alloc);
    let text = " source.rust\tstring.quoted.\u{2003}a\n";
    match ScopeStack::from_text(alloc, text, &mut repository) {
        Ok(stack) => {
            equal(
                &rt,
                stack
                    .build_string(&repository)
                    .expect(&rt, "memory")
                    .as_str(),
                "source.rust string.quoted a ",
            );
            let selector = ScopeSelector {
                path: stack,
                excludes: Seq::new(alloc),
            };
            holds(&rt, selector.clone().expect(&rt, "memory") == selector);
            let mut selectors = Seq::new(alloc);
            selectors.push(selector).expect(&rt, "memory");
            let selectors = ScopeSelectors { selectors };
            holds(&rt, selectors.clone().expect(&rt, "memory") == selectors);
        }
        Err(_) => assert!(rt; false),
    }
    let long = ScopeStack::from_text(alloc, "new 1.2.3.4.5.6.7.8.9", &mut repository);
    holds(&rt, long == Err(ParseScopeError::TooLong));
    equal(&rt, repository.atom_str(6), Some("new"));
    let none = ScopeStack::from_text(alloc, " ", &mut repository);
    holds(&rt, none == Ok(ScopeStack::default(alloc)));
}

#[test]
fn powers_carry(rt: HostRuntime) {
    let alloc = rt.alloc();
    let mut eights = MatchPower::new(alloc);
    eights.add(8, 0).expect(&rt, "memory");
    let mut one = MatchPower::new(alloc);
    one.add(1, 1).expect(&rt, "memory");
    holds(&rt, eights == one);
    let mut square = MatchPower::new(alloc);
    square.add(1, 2).expect(&rt, "memory");
    holds(
        &rt,
        square == MatchPower::from_u64(alloc, 64).expect(&rt, "memory"),
    );
}

#[test]
fn high_powers(rt: HostRuntime) {
    let alloc = rt.alloc();
    let mut high = MatchPower::new(alloc);
    high.add(8, 199).expect(&rt, "memory");
    let mut higher = MatchPower::new(alloc);
    higher.add(1, 200).expect(&rt, "memory");
    holds(&rt, high == higher);
    higher.add(1, 0).expect(&rt, "memory");
    equal(&rt, high.cmp(&higher), Ordering::Less);
    holds(&rt, high.clone().expect(&rt, "memory") < higher);
}

#[test]
fn powers_without_memory(rt: HostRuntime) {
    let alloc = rt.alloc();
    let mut high = MatchPower::new(alloc);
    high.add(8, 199).expect(&rt, "memory");
    let mut higher = MatchPower::new(alloc);
    higher.add(1, 200).expect(&rt, "memory");
    higher.add(1, 0).expect(&rt, "memory");
    holds(&rt, high.add(1, usize::MAX).is_err());
    holds(&rt, high.add(1, usize::MAX / 3).is_err());
    holds(&rt, high < higher);
    holds(&rt, high.add(0, usize::MAX).is_ok());
    high.add(1, 0).expect(&rt, "memory");
    holds(&rt, high == higher);
}

#[test]
fn scores_deep_in_a_stack(rt: HostRuntime) {
    let alloc = rt.alloc();
    let mut repository = ScopeRepository::new(alloc);
    let none = Scope::default();
    let eight = repository.build("1.2.3.4.5.6.7.8").unwrap_or(none);
    let one = repository.build("x").unwrap_or(none);
    let other = repository.build("other").unwrap_or(none);
    let mut stack = ScopeStack::new(alloc);
    for _ in 0..199 {
        stack.push(other).expect(&rt, "memory");
    }
    stack.push(eight).expect(&rt, "memory");
    stack.push(one).expect(&rt, "memory");
    let mut long = ScopeStack::new(alloc);
    long.push(eight).expect(&rt, "memory");
    let mut short = ScopeStack::new(alloc);
    short.push(one).expect(&rt, "memory");
    let mut power = MatchPower::new(alloc);
    power.add(8, 199).expect(&rt, "memory");
    holds(
        &rt,
        long.does_match(stack.as_slice()).expect(&rt, "memory") == Some(power),
    );
    holds(
        &rt,
        long.does_match(stack.as_slice()).expect(&rt, "memory")
            == short.does_match(stack.as_slice()).expect(&rt, "memory"),
    );
}
