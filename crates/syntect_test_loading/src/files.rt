//! Entries from files.
use crate::below::base::loading::{LoadingError, SettingsError};
use crate::below::metadata::metadata::Metadata;
use crate::below::metadata::raw::{LoadMetadata, RawMetadataEntry};
use crate::below::metadata::scoped::ScopedMetadata;
use crate::below::scope::repository::ScopeRepository;
use crate::below::scope::scope::Scope;
use std::alloc::Global;
use std::path::PathBuf;
use std::process::Abort;
use std::{env, fs, io};

const RUST: &str =
    r#"{"scope":"source.rust","settings":{"increaseIndentPattern":"^.*\\{$","shellVariables":[{"name":"TM_COMMENT_START","value":"// "},{"name":"TM_COMMENT_START_2","value":"/*"},{"name":"TM_COMMENT_END_2","value":"*/"}]}}"#;

/// Writes a file into the folder for files that come and go, and gives its path.
fn file(rt: &HostRuntime, name: &str, text: &str) -> io::Result<PathBuf> {
    let mut path = env::temp_dir(rt)?;
    path.push(name)?;
    fs::write(rt, path.as_path(), text.as_bytes())?;
    Ok(path)
}

/// Whether the answers are those of the file above.
fn as_in_the_file(scoped: &ScopedMetadata<'_>) -> bool {
    matches!(scoped.increase_indent("fn a() {"), Ok(true))
        & matches!(scoped.increase_indent("fn a() }"), Ok(false))
        & matches!(scoped.decrease_indent("}"), Ok(false))
        & (scoped.line_comment() == Some("// "))
        & (scoped.block_comment() == Some(("/*", "*/")))
}

/// The metadata of one entry, copied on its way.
fn metadata_of_entry(
    rt: &impl Abort,
    alloc: Global,
    entry: &RawMetadataEntry,
    repository: &mut ScopeRepository,
) -> Metadata {
    let mut loaded = LoadMetadata::default(alloc);
    loaded
        .add_raw(entry.clone().expect(rt, "memory"))
        .expect(rt, "memory");
    let copy = loaded.clone().expect(rt, "memory");
    Metadata::from_loaded(alloc, copy, repository).expect(rt, "memory")
}

/// Whether an entry's metadata answers so.
fn answers(rt: &impl Abort, alloc: Global, entry: &RawMetadataEntry) -> bool {
    let mut repository = ScopeRepository::new(alloc);
    let metadata = metadata_of_entry(rt, alloc, entry, &mut repository);
    let scope = Scope::new("source.rust", &mut repository).expect(rt, "a scope");
    let scoped = metadata.metadata_for_scope(&[scope]).expect(rt, "memory");
    as_in_the_file(&scoped)
}

#[test]
fn a_file_of_settings(rt: HostRuntime) {
    let path = file(&rt, "syntect_metadata_rust.tmPreferences", RUST).expect(&rt, "a file");
    let entry = RawMetadataEntry::load(&rt, rt.alloc(), path.as_path()).expect(&rt, "an entry");
    assert!(rt; entry.path.as_str() == path.as_str());
    assert!(rt; answers(&rt, rt.alloc(), &entry));
}

/// What a refusal says: that it is no entry, or no settings, or a fault of the file.
#[derive(Clone, Copy, PartialEq, Eq)]
enum Says {
    NoEntry,
    NoSettings,
    Fault,
    Nothing,
}

fn told(loaded: &Result<RawMetadataEntry, LoadingError>) -> Says {
    match loaded {
        Err(LoadingError::ParseMetadata) => Says::NoEntry,
        Err(LoadingError::ReadSettings(SettingsError::Json)) => Says::NoSettings,
        Err(LoadingError::Io(_)) => Says::Fault,
        _other => Says::Nothing,
    }
}

/// Texts of files, and what is said of each.
const NO_ENTRIES: [(&str, Says); 9] = [
    ("[]", Says::NoEntry),
    ("{\"scope\":\"a\"}", Says::NoEntry),
    ("{\"settings\":{}}", Says::NoEntry),
    ("{\"scope\":1,\"settings\":{}}", Says::NoEntry),
    ("{\"scope\":\"a\",\"settings\":[]}", Says::NoEntry),
    ("", Says::NoSettings),
    ("<plist></plist>", Says::NoSettings),
    (
        "{\"scope\":\"a\",\"settings\":{\"x\":1.5}}",
        Says::NoSettings,
    ),
    (
        "{\"scope\":\"a\",\"settings\":{},\"x\":1e2}",
        Says::NoSettings,
    ),
];

#[test]
fn files_that_are_no_entry(rt: HostRuntime) {
    for (text, wanted) in &NO_ENTRIES {
        let path = file(&rt, "syntect_metadata_none.tmPreferences", text).expect(&rt, "a file");
        let loaded = RawMetadataEntry::load(&rt, rt.alloc(), path.as_path());
        assert!(rt; told(&loaded) == *wanted);
    }
}

#[test]
fn a_file_that_is_missing(rt: HostRuntime) {
    let path = file(&rt, "syntect_metadata_missing.tmPreferences", "{}").expect(&rt, "a file");
    fs::remove_file(&rt, path.as_path()).expect(&rt, "a file");
    let missing = RawMetadataEntry::load(&rt, rt.alloc(), path.as_path());
    assert!(rt; told(&missing) == Says::Fault);
}
