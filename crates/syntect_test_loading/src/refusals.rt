//! What gives no set, and why.
use crate::below::metadata::error::MetadataError;
use crate::below::metadata::set::MetadataSet;
use crate::below::scope::repository::ParseScopeError;
use crate::given::set_of;
use std::alloc::Global;
use std::process::Abort;

/// Whether this is refused so, with a selector that is refused too.
fn is_refused(alloc: Global, text: &str, wanted: &MetadataError) -> bool {
    match set_of(alloc, "1.2.3.4.5.6.7.8.9", text) {
        Err(e) => e == *wanted,
        Ok(_) => false,
    }
}

/// All these are refused so.
fn all_refused(rt: &impl Abort, alloc: Global, texts: &[&'static str], wanted: &MetadataError) {
    for text in texts {
        assert!(rt; is_refused(alloc, text, wanted), "{text}");
    }
}

#[test]
fn no_known_key(rt: HostRuntime) {
    // The key of the crate's field isn't the file's.
    let texts = ["{\"a\":1}", "{\"unindentedLinePattern\":\"x\"}", "{}"];
    all_refused(&rt, rt.alloc(), &texts, &MetadataError::Skipped);
}

#[test]
fn values_of_a_wrong_kind(rt: HostRuntime) {
    let texts = [
        "{\"indentParens\":\"x\"}",
        "{\"indentParens\":1.5}",
        "{\"shellVariables\":{\"TM_COMMENT_START\":1}}",
        "{\"shellVariables\":null}",
        "{\"shellVariables\":[]}",
        "{\"increaseIndentPattern\":1}",
        "{\"decreaseIndentPattern\":true}",
        "{\"bracketIndentNextLinePattern\":[]}",
        "{\"disableIndentNextLinePattern\":{}}",
        "{\"unIndentedLinePattern\":2.5}",
    ];
    all_refused(&rt, rt.alloc(), &texts, &MetadataError::BadItems);
}

#[test]
fn nine_atoms(rt: HostRuntime) {
    let texts = ["{\"indentParens\":true}"];
    let wanted = MetadataError::BadSelector(ParseScopeError::TooLong);
    all_refused(&rt, rt.alloc(), &texts, &wanted);
}

/// Whether nothing is said but of parentheses.
fn says_parens(set: &MetadataSet, selector: &str, parens: Option<bool>) -> bool {
    (set.selector_string.as_str() == selector)
        & (set.items.indent_parens == parens)
        & set.items.increase_indent_pattern.is_none()
        & set.items.shell_variables.is_empty()
}

/// A set is given that says no more, and its copy too.
fn accepted(rt: &impl Abort, alloc: Global, selector: &str, settings: &str, parens: Option<bool>) {
    let set = set_of(alloc, selector, settings).expect(rt, "a set");
    let copy = set.clone(alloc).expect(rt, "memory");
    assert!(rt;
        says_parens(&set, selector, parens) & (copy == set),
        "{settings}"
    );
}

#[test]
fn null_is_there(rt: HostRuntime) {
    let text = "{\"indentParens\":null,\"increaseIndentPattern\":null,\"a\":1.5}";
    accepted(&rt, rt.alloc(), "a", text, None);
    let eight = "1.2.3.4.5.6.7.8";
    accepted(
        &rt,
        rt.alloc(),
        eight,
        "{\"indentParens\":true}",
        Some(true),
    );
}
