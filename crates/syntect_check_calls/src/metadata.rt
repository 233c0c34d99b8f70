//! Calls of metadata.
use crate::below::scope::repository::ScopeRepository;
use crate::below::scope::scope::Scope;
use crate::below::values::text::Text;
use crate::given::scope_of;
use crate::marks::{TIMES, answer, begin, end, left};
use serde_json::{Map, Value};
use std::alloc::Global;
use syntect_metadata::metadata::Metadata;
use syntect_metadata::raw::{LoadMetadata, RawMetadataEntry};
use syntect_metadata::set::MetadataSet;

/// A pattern for each question, and what begins a comment.
const SETTINGS: &str =
    r#"{"increaseIndentPattern":"\\{$","decreaseIndentPattern":"\\}","bracketIndentNextLinePattern":"if","disableIndentNextLinePattern":"else","unIndentedLinePattern":"//","shellVariables":[{"name":"TM_COMMENT_START","value":"// "}]}"#;

/// The settings.
fn settings_of(alloc: Global) -> Map<String, Value> {
    match Value::from_str(alloc, SETTINGS) {
        Ok(Value::Object(members)) => members,
        _ => Map::new(alloc),
    }
}

/// The entry of a file that has the settings.
pub fn entry_of(alloc: Global, path: &str, scope: &str) -> Option<RawMetadataEntry> {
    Some(RawMetadataEntry {
        path: Text::from_str(alloc, path).ok()?,
        scope: Text::from_str(alloc, scope).ok()?,
        settings: settings_of(alloc),
    })
}

/// Two entries, the later first.
pub fn entries_of(alloc: Global) -> LoadMetadata {
    let mut entries = LoadMetadata::default(alloc);
    for (path, scope) in &[("b", "source"), ("a", "source.t")] {
        if let Some(entry) = entry_of(alloc, *path, *scope) {
            let _ = entries.add_raw(entry);
        }
    }
    entries
}

/// The metadata of the two.
pub fn metadata_of(alloc: Global, repository: &mut ScopeRepository) -> Metadata {
    match Metadata::from_loaded(alloc, entries_of(alloc), repository) {
        Ok(metadata) => metadata,
        Err(_) => Metadata::default(alloc),
    }
}

/// Shows the selectors of metadata, and how many sets fit a scope.
fn show(rt: &impl Print, metadata: &Metadata, scope: Scope) {
    for set in metadata.scoped_metadata.as_slice() {
        answer(rt, set.selector_string.as_str());
        answer(rt, &set.selector);
    }
    match metadata.metadata_for_scope(&[scope]) {
        Ok(scoped) => answer(rt, scoped.increase_indent("{")),
        Err(e) => answer(rt, &e),
    }
}

fn add_raw(rt: &(impl Print + AllocGlobal)) {
    let alloc = rt.alloc();
    let mut entries = LoadMetadata::default(alloc);
    left(rt, entries.loaded.len());
    for _ in 0..TIMES {
        let Some(entry) = entry_of(alloc, "a", "source") else {
            return;
        };
        begin(rt);
        let added = entries.add_raw(entry);
        end(rt);
        answer(rt, &added);
        left(rt, entries.loaded.len());
    }
}

fn from_raw(rt: &(impl Print + AllocGlobal)) {
    let alloc = rt.alloc();
    for _ in 0..TIMES {
        let mut repository = ScopeRepository::new(alloc);
        let Ok(selector) = String::from_str(alloc, "source, text -x") else {
            return;
        };
        let settings = settings_of(alloc);
        begin(rt);
        let set = MetadataSet::from_raw(alloc, (selector, settings), &mut repository);
        end(rt);
        match &set {
            Ok(set) => answer(rt, &set.selector),
            Err(e) => answer(rt, e),
        }
    }
}

fn from_loaded(rt: &(impl Print + AllocGlobal)) {
    let alloc = rt.alloc();
    for _ in 0..TIMES {
        let mut repository = ScopeRepository::new(alloc);
        let scope = scope_of("source.t", &mut repository);
        let entries = entries_of(alloc);
        begin(rt);
        let metadata = Metadata::from_loaded(alloc, entries, &mut repository);
        end(rt);
        match &metadata {
            Ok(metadata) => show(rt, metadata, scope),
            Err(e) => answer(rt, e),
        }
    }
}

fn merged_with_raw(rt: &(impl Print + AllocGlobal)) {
    let alloc = rt.alloc();
    for _ in 0..TIMES {
        let mut repository = ScopeRepository::new(alloc);
        let scope = scope_of("source.t", &mut repository);
        let old = metadata_of(alloc, &mut repository);
        let entries = entries_of(alloc);
        begin(rt);
        let metadata = old.merged_with_raw(alloc, entries, &mut repository);
        end(rt);
        match &metadata {
            Ok(metadata) => show(rt, metadata, scope),
            Err(e) => answer(rt, e),
        }
    }
}

fn for_scope(rt: &(impl Print + AllocGlobal)) {
    let alloc = rt.alloc();
    let mut repository = ScopeRepository::new(alloc);
    let scope = scope_of("source.t", &mut repository);
    let metadata = metadata_of(alloc, &mut repository);
    for _ in 0..TIMES {
        begin(rt);
        let scoped = metadata.metadata_for_scope(&[scope]);
        end(rt);
        match &scoped {
            Ok(scoped) => answer(rt, scoped.line_comment()),
            Err(e) => answer(rt, e),
        }
    }
}

fn increase_indent(rt: &(impl Print + AllocGlobal)) {
    let alloc = rt.alloc();
    let mut repository = ScopeRepository::new(alloc);
    let scope = scope_of("source.t", &mut repository);
    let metadata = metadata_of(alloc, &mut repository);
    let Ok(scoped) = metadata.metadata_for_scope(&[scope]) else {
        return;
    };
    for _ in 0..TIMES {
        begin(rt);
        let increases = scoped.increase_indent("{");
        end(rt);
        answer(rt, &increases);
    }
}

/// The calls.
pub const NAMES: [&str; 6] = [
    "LoadMetadata::add_raw",
    "MetadataSet::from_raw",
    "Metadata::from_loaded",
    "Metadata::merged_with_raw",
    "Metadata::metadata_for_scope",
    "ScopedMetadata::increase_indent",
];

/// Makes the call of this name, if there is one.
pub fn make(rt: &(impl Print + AllocGlobal), name: &str) {
    match name {
        "LoadMetadata::add_raw" => add_raw(rt),
        "MetadataSet::from_raw" => from_raw(rt),
        "Metadata::from_loaded" => from_loaded(rt),
        "Metadata::merged_with_raw" => merged_with_raw(rt),
        "Metadata::metadata_for_scope" => for_scope(rt),
        "ScopedMetadata::increase_indent" => increase_indent(rt),
        _ => {}
    }
}
