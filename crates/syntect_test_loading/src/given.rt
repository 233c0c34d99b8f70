//! What the tests are given.
use crate::below::metadata::error::MetadataError;
use crate::below::metadata::metadata::Metadata;
use crate::below::metadata::raw::{LoadMetadata, RawMetadataEntry};
use crate::below::metadata::scoped::ScopedMetadata;
use crate::below::metadata::set::MetadataSet;
use crate::below::scope::repository::ScopeRepository;
use crate::below::scope::scope::Scope;
use crate::below::values::text::Text;
use serde_json::{Map, Value};
use std::alloc::Global;
use std::process::Abort;

/// A path, a scope text and settings.
pub type Entry = (&'static str, &'static str, &'static str);

/// The members of an object's text.
pub fn members(alloc: Global, text: &str) -> Map<String, Value> {
    match Value::from_str(alloc, text) {
        Ok(Value::Object(members)) => members,
        _other => Map::new(alloc),
    }
}

/// An entry with these settings.
fn entry(rt: &impl Abort, alloc: Global, given: &Entry) -> RawMetadataEntry {
    RawMetadataEntry {
        path: Text::from_str(alloc, given.0).expect(rt, "memory"),
        scope: Text::from_str(alloc, given.1).expect(rt, "memory"),
        settings: members(alloc, given.2),
    }
}

/// Entries.
pub fn loaded(rt: &impl Abort, alloc: Global, entries: &[Entry]) -> LoadMetadata {
    let mut loaded = LoadMetadata::default(alloc);
    for given in entries {
        loaded.add_raw(entry(rt, alloc, given)).expect(rt, "memory");
    }
    loaded
}

/// The metadata of entries.
pub fn metadata_of(
    rt: &impl Abort,
    alloc: Global,
    entries: &[Entry],
    repository: &mut ScopeRepository,
) -> Metadata {
    let loaded = loaded(rt, alloc, entries);
    Metadata::from_loaded(alloc, loaded, repository).expect(rt, "memory")
}

/// What `from_raw` makes of a selector's text and an object's text.
pub fn set_of(alloc: Global, selector: &str, settings: &str) -> Result<MetadataSet, MetadataError> {
    let mut repository = ScopeRepository::new(alloc);
    let selector = String::from_str(alloc, selector)?;
    MetadataSet::from_raw(alloc, (selector, members(alloc, settings)), &mut repository)
}

/// Metadata, and a scope that it is asked for.
#[derive(Drop)]
pub struct Asked {
    pub metadata: Metadata,
    pub scope: Scope,
}

/// The metadata of entries, asked for a scope.
pub fn ask(rt: &impl Abort, alloc: Global, entries: &[Entry], scope: &str) -> Asked {
    let mut repository = ScopeRepository::new(alloc);
    Asked {
        scope: Scope::new(scope, &mut repository).expect(rt, "a scope"),
        metadata: metadata_of(rt, alloc, entries, &mut repository),
    }
}

impl Asked {
    /// The sets that match.
    pub fn scoped(&self, rt: &impl Abort) -> ScopedMetadata<'_> {
        self.metadata
            .metadata_for_scope(&[self.scope])
            .expect(rt, "memory")
    }
}

/// Whether a text is there, and is this one.
pub fn is_text(text: Option<&str>, wanted: Option<&str>) -> bool {
    match (text, wanted) {
        (Some(text), Some(wanted)) => text == wanted,
        (None, None) => true,
        _other => false,
    }
}
