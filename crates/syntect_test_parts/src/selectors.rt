//! Selectors and their texts.
use crate::below::scope::repository::{ParseScopeError, ScopeRepository};
use crate::below::scope::selector::{ScopeSelector, ScopeSelectors};
use crate::found::{equal, holds};

#[test]
fn selectors_of_texts(rt: HostRuntime) {
    let alloc = rt.alloc();
    let mut repository = ScopeRepository::new(alloc);
    match ScopeSelectors::from_text(alloc, " -a.b|j.g", &mut repository) {
        Ok(union) => {
            if let [first, second] = union.selectors.as_slice() {
                holds(&rt, first.extract_single_scope().is_none());
                holds(
                    &rt,
                    first
                        .does_match(second.path.as_slice())
                        .expect(&rt, "memory")
                        .is_some(),
                );
                holds(&rt, second.extract_single_scope().is_some());
                equal(&rt, second.extract_scopes().expect(&rt, "memory").len(), 1);
            }
        }
        Err(_) => assert!(rt; false),
    }
    holds(
        &rt,
        ScopeSelector::from_text(alloc, "a -b.1.2.3.4.5.6.7.8", &mut repository)
            == Err(ParseScopeError::TooLong),
    );
}
