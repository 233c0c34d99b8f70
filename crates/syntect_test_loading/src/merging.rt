//! Entries that are put together.
use crate::below::metadata::metadata::Metadata;
use crate::below::metadata::set::MetadataSet;
use crate::below::scope::repository::ScopeRepository;
use crate::below::values::text::Text;
use crate::given::{Entry, loaded, metadata_of};
use std::alloc::Global;
use std::process::Abort;

/// Whether a set has this scope text, and this pattern by which lines are indented.
fn is_set(set: &MetadataSet, text: &str, pattern: &str) -> bool {
    match &set.items.increase_indent_pattern {
        Some(increase) => {
            (set.selector_string.as_str() == text) & (increase.regex_str() == pattern)
        }
        None => false,
    }
}

/// Whether these are the sets, by their scope texts and patterns.
fn are_sets(metadata: &Metadata, wanted: &[(&'static str, &'static str)]) -> bool {
    if metadata.scoped_metadata.len() != wanted.len() {
        return false;
    }
    for (set, (text, pattern)) in metadata.scoped_metadata.as_slice().iter().zip(wanted) {
        if !is_set(set, text, pattern) {
            return false;
        }
    }
    true
}

/// What entries add to old ones.
fn merged(rt: &impl Abort, alloc: Global, old: &[Entry], new: &[Entry]) -> Metadata {
    let mut repository = ScopeRepository::new(alloc);
    let metadata = metadata_of(rt, alloc, old, &mut repository);
    metadata
        .merged_with_raw(alloc, loaded(rt, alloc, new), &mut repository)
        .expect(rt, "memory")
}

/// Old entries and new ones give these sets, and a copy of all has them too.
fn give(
    rt: &impl Abort,
    alloc: Global,
    old: &[Entry],
    new: &[Entry],
    wanted: &[(&'static str, &'static str)],
) {
    let metadata = merged(rt, alloc, old, new);
    let copy = metadata.clone().expect(rt, "memory");
    assert!(rt; are_sets(&metadata, wanted) & are_sets(&copy, wanted));
}

#[test]
fn paths_go_by_components(rt: HostRuntime) {
    // `-` stands before `/` as a byte, and yet `a` stands before `a-b`.
    let entries = [
        ("a-b/x", "s", "{\"increaseIndentPattern\":\"later\"}"),
        ("a/x", "s", "{\"increaseIndentPattern\":\"earlier\"}"),
    ];
    give(&rt, rt.alloc(), &[], &entries, &[("s", "later")]);
}

#[test]
fn entries_of_one_path_in_their_order(rt: HostRuntime) {
    let entries = [
        ("a", "s", "{\"increaseIndentPattern\":\"1\"}"),
        ("a", "s", "{\"increaseIndentPattern\":\"2\"}"),
    ];
    give(&rt, rt.alloc(), &[], &entries, &[("s", "2")]);
}

#[test]
fn refused_sets_are_left_out(rt: HostRuntime) {
    let entries = [
        ("1", "z", "{\"increaseIndentPattern\":\"1\"}"),
        ("2", "skipped", "{\"a\":1}"),
        ("3", "bad", "{\"indentParens\":\"x\"}"),
        ("4", "1.2.3.4.5.6.7.8.9", "{\"indentParens\":true}"),
        ("5", "b", "{\"increaseIndentPattern\":\"5\"}"),
    ];
    give(&rt, rt.alloc(), &[], &entries, &[("b", "5"), ("z", "1")]);
}

const OLD: [Entry; 3] = [
    ("1", "c", "{\"increaseIndentPattern\":\"old c\"}"),
    ("1", "a", "{\"increaseIndentPattern\":\"old a\"}"),
    ("1", "b", "{\"increaseIndentPattern\":\"old b\"}"),
];

/// Of these the last gives a set that is refused, which replaces none.
const NEW: [Entry; 3] = [
    ("2", "b", "{\"increaseIndentPattern\":\"new b\"}"),
    ("2", "aa", "{\"increaseIndentPattern\":\"new aa\"}"),
    ("2", "c", "{\"increaseIndentPattern\":1}"),
];

/// What both give.
const OLD_AND_NEW: [(&str, &str); 4] = [
    ("a", "old a"),
    ("aa", "new aa"),
    ("b", "new b"),
    ("c", "old c"),
];

#[test]
fn new_sets_replace_old_ones(rt: HostRuntime) {
    give(&rt, rt.alloc(), &OLD, &NEW, &OLD_AND_NEW);
}

/// Whether a set has this variable.
fn has_variable(
    rt: &impl Abort,
    alloc: Global,
    set: &MetadataSet,
    name: &str,
    value: &str,
) -> bool {
    let name = Text::from_str(alloc, name).expect(rt, "memory");
    match set.items.shell_variables.get(&name) {
        Some(text) => text.as_str() == value,
        None => false,
    }
}

/// A set has exactly these variables.
fn have(
    rt: &impl Abort,
    alloc: Global,
    set: &MetadataSet,
    wanted: &[(&'static str, &'static str)],
) {
    assert!(rt; set.items.shell_variables.len() == wanted.len());
    for (name, value) in wanted {
        assert!(rt; has_variable(rt, alloc, set, name, value), "{name}");
    }
}

/// Entries give one set, with exactly these variables.
fn variables(
    rt: &impl Abort,
    alloc: Global,
    entries: &[Entry],
    wanted: &[(&'static str, &'static str)],
) {
    let metadata = merged(rt, alloc, &[], entries);
    assert!(rt; metadata.scoped_metadata.len() == 1);
    have(
        rt,
        alloc,
        metadata.scoped_metadata.get(0).expect(rt, "a set"),
        wanted,
    );
}

const FILES: [Entry; 5] = [
    (
        "1",
        "s",
        "{\"shellVariables\":[{\"name\":\"TM_COMMENT_START\",\"value\":\"#\"},{\"name\":\"X\",\"value\":\"1\"}]}",
    ),
    (
        "2",
        "s",
        "{\"shellVariables\":[{\"name\":\"X\",\"value\":\"2\"},{\"name\":\"Y\",\"value\":\"3\"}],\"other\":1}",
    ),
    // A list with one that is no variable adds none.
    (
        "3",
        "s",
        "{\"shellVariables\":[{\"name\":\"X\",\"value\":\"4\"},{\"name\":\"Z\"}]}",
    ),
    // Nor do null and lists in the place of objects.
    ("4", "s", "{\"shellVariables\":null}"),
    ("5", "s", "{\"shellVariables\":[[\"X\",\"5\"]]}"),
];

#[test]
fn variables_of_files(rt: HostRuntime) {
    let wanted = [("TM_COMMENT_START", "#"), ("X", "2"), ("Y", "3")];
    variables(&rt, rt.alloc(), &FILES, &wanted);
}

#[test]
fn null_variables_are_an_empty_object(rt: HostRuntime) {
    let entries = [("1", "s", "{\"shellVariables\":null}")];
    variables(&rt, rt.alloc(), &entries, &[]);
}
