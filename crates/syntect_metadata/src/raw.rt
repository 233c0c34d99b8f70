//! Entries of metadata, as files have them.
ghost use Rattle.std.specs.Prelude.{◌≡◌, ◌≢◌, ◌++◌, ◌∷◌, [], ℕ, List, false, codes, option_map, option_and_then, IfOk, OnOk, IfErr, OnErr};
ghost use Rattle.std.specs.List.{AllZip};
ghost use Rattle.std.specs.Path.{path_bytes};
ghost use Rattle.serde_json.specs.Find.{get, as_object};
ghost use Rattle.serde_json.specs.View.{view, members_view};
ghost use Rattle.syntect_base.specs.Trees.{has_bytes};
ghost use Rattle.syntect_base.specs.declared.loading.LoadingError.{LoadingError};
ghost use Rattle.syntect_metadata.specs.Entries.{is_entry, IsEntry, IsEntryOf, RefusesEntry, IsEntryFault, AreAlike};

use crate::below::values::seq::Seq;
use crate::below::values::text::Text;
use crate::values::member_of;
use serde_json::{Map, Value};
use std::alloc::{AllocError, Global};
use std::path::Path;
use syntect_base::loading::LoadingError;
use syntect_base::settings::settings_of;
use syntect_base::tree::Tree;

/// What a file of metadata has: settings for the scopes that selectors match.
pub struct RawMetadataEntry {
    /// The path of the file.
    pub path: Text,
    /// The text of the selectors.
    pub scope: Text,
    /// The settings, as they were read.
    pub settings: Map<String, Value>,
}

/// Written out, so that crates above call it and needn't prove each part's drop again.
impl Drop for RawMetadataEntry {
    fn drop(self) {
        let RawMetadataEntry {
            path: _,
            scope: _,
            settings: _,
        } = self;
    }
}

/// Entries that are to be put together.
#[derive(Drop)]
pub struct LoadMetadata {
    /// The entries, in the order in which they came.
    pub loaded: Seq<RawMetadataEntry>,
}

/// The members of `settings`, if they are an object's.
#[tactic(auto, using(crate::proofs::ValueLaws::members_there))]
fn settings_in(value: Value) -> Option<Map<String, Value>>
    ensures { option_map (λ m. members_view m.entries) result
        ≡ option_and_then as_object (get (codes "settings") (view value)) }
{
    match member_of(value, "settings") {
        Some(Value::Object(settings)) => Some(settings),
        _other => None,
    }
}

/// The entry of a value.
fn entry_in(alloc: Global, path: Path<'_>, value: Value) -> Result<RawMetadataEntry, LoadingError>
    ensures ok { IfOk result (IsEntry (path_bytes path.entry) (view value)) }
    ensures kind { IfErr result (λ e. e ≢ LoadingError.Memory → e ≡ LoadingError.ParseMetadata) }
    ensures err { IfErr result (λ e. e ≢ LoadingError.Memory → is_entry (view value) ≡ false) }
{
    let Some(scope) = value.get("scope").and_then(Value::as_str) else {
        return Err(LoadingError::ParseMetadata);
    };
    let scope = Text::from_str(alloc, scope)?;
    let path = Text::from_str(alloc, path.as_str())?;
    match settings_in(value) {
        Some(settings) => Ok(RawMetadataEntry {
            path,
            scope,
            settings,
        }),
        None => Err(LoadingError::ParseMetadata),
    }
}

/// The entry of a file's bytes.
#[tactic(auto, using(crate::proofs::EntryLaws::not_settings, crate::proofs::EntryLaws::not_entry))]
fn entry_of(alloc: Global, path: Path<'_>, bytes: &[u8]) -> Result<RawMetadataEntry, LoadingError>
    ensures ok { IfOk result (IsEntryOf (path_bytes path.entry) bytes.now) }
    ensures err { IfErr result (RefusesEntry bytes.now) }
{
    let settings = match settings_of(alloc, bytes) {
        Ok(settings) => settings,
        Err(e) => return Err(LoadingError::from(e)),
    };
    entry_in(alloc, path, settings)
}

impl RawMetadataEntry {
    /// The entry in a file: the JSON of an object with a text as `scope` and an object as
    /// `settings`, in which no number is a float. A fault of the file is `Io`, other bytes are
    /// `ReadSettings`, and another value is `ParseMetadata`.
    pub fn load<T: Tree>(
        tree: &T,
        alloc: Global,
        path: Path<'_>,
    ) -> Result<RawMetadataEntry, LoadingError>
        ensures ok { IfOk result (λ entry. (bytes : List ℕ)
            × T.told tree.now (has_bytes (path_bytes path.entry) bytes)
            × IsEntryOf (path_bytes path.entry) bytes entry) }
        ensures err { IfErr result
            (IsEntryFault (T.told tree.now) (path_bytes path.entry)) }
    {
        let bytes = match tree.read_file(alloc, path.as_str()) {
            Ok(bytes) => bytes,
            Err(e) => return Err(LoadingError::from(e)),
        };
        entry_of(alloc, path, bytes.as_slice())
    }

    /// The scope text and the settings.
    pub(crate) fn into_parts(self) -> (Text, Map<String, Value>)
        ensures scope { result.0 ≡ self.scope }
        ensures settings { result.1 ≡ self.settings }
    {
        let RawMetadataEntry {
            path: _,
            scope,
            settings,
        } = self;
        (scope, settings)
    }

    /// An entry of the same path and scope text, and of the same settings.
    #[tactic(auto, using(crate::proofs::ValueLaws::same_members))]
    pub fn clone(&self) -> Result<RawMetadataEntry, AllocError>
        ensures { IfOk result (AreAlike self.now) }
    {
        Ok(RawMetadataEntry {
            path: self.path.clone()?,
            scope: self.scope.clone()?,
            settings: self.settings.clone()?,
        })
    }
}

impl Clone for RawMetadataEntry {
    ghost is_clone = { λ x y. AreAlike x y };

    fn clone(&self) -> Result<RawMetadataEntry, AllocError> {
        RawMetadataEntry::clone(self)
    }
}

impl LoadMetadata {
    /// No entries. Takes no memory.
    pub fn default(alloc: Global) -> LoadMetadata
        ensures { result.loaded ≡ [] }
    {
        LoadMetadata {
            loaded: Seq::new(alloc),
        }
    }

    /// Appends an entry. Without memory for it the entries stay.
    pub fn add_raw(&mut self, raw: RawMetadataEntry) -> Result<(), AllocError>
        ensures ok { OnOk result (self.new.loaded ≡ self.old.loaded ++ raw ∷ []) }
        ensures err { OnErr result (self.new ≡ self.old) }
    {
        match self.loaded.push(raw) {
            Ok(()) => Ok(()),
            Err(_) => Err(AllocError),
        }
    }

    /// A copy of the entries, each as `RawMetadataEntry::clone` has it.
    pub fn clone(&self) -> Result<LoadMetadata, AllocError>
        ensures { IfOk result (λ raw. AllZip AreAlike self.now.loaded raw.loaded) }
    {
        Ok(LoadMetadata {
            loaded: self.loaded.clone()?,
        })
    }
}

impl Clone for LoadMetadata {
    ghost is_clone = { λ x y. AllZip AreAlike x.loaded y.loaded };

    fn clone(&self) -> Result<LoadMetadata, AllocError> {
        LoadMetadata::clone(self)
    }
}
