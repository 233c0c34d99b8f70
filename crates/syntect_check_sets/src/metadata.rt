//! Copies of metadata, and the questions that it answers.
use crate::below::metadata::metadata::Metadata;
use crate::below::metadata::scoped::ScopedMetadata;
use crate::below::scope::repository::ScopeRepository;
use crate::copies::show_copy;
use std::alloc::AllocError;
use syntect_check_calls::given::scope_of;
use syntect_check_calls::marks::{TIMES, answer, begin, end};
use syntect_check_calls::metadata::{entries_of, entry_of, metadata_of};

fn entry_clone(rt: &(impl Print + AllocGlobal)) {
    let Some(entry) = entry_of(rt.alloc(), "a", "source") else {
        return;
    };
    for _ in 0..TIMES {
        begin(rt);
        let copy = entry.clone();
        end(rt);
        match &copy {
            Ok(copy) => answer(rt, (copy.scope.as_str(), copy.settings.len())),
            Err(e) => answer(rt, e),
        }
    }
}

fn entries_clone(rt: &(impl Print + AllocGlobal)) {
    let entries = entries_of(rt.alloc());
    for _ in 0..TIMES {
        begin(rt);
        let copy = entries.clone();
        end(rt);
        match &copy {
            Ok(copy) => answer(rt, copy.loaded.len()),
            Err(e) => answer(rt, e),
        }
    }
}

fn metadata_clone(rt: &(impl Print + AllocGlobal)) {
    let mut repository = ScopeRepository::new(rt.alloc());
    let metadata = metadata_of(rt.alloc(), &mut repository);
    for _ in 0..TIMES {
        begin(rt);
        let copy: Result<Metadata, AllocError> = metadata.clone();
        end(rt);
        match &copy {
            Ok(copy) => answer(rt, copy.scoped_metadata == metadata.scoped_metadata),
            Err(e) => answer(rt, e),
        }
    }
}

fn set_clone(rt: &(impl Print + AllocGlobal)) {
    let mut repository = ScopeRepository::new(rt.alloc());
    let metadata = metadata_of(rt.alloc(), &mut repository);
    let Some(set) = metadata.scoped_metadata.as_slice().first() else {
        return;
    };
    for _ in 0..TIMES {
        begin(rt);
        let copy = set.clone(rt.alloc());
        end(rt);
        show_copy(rt, &copy, set);
    }
}

fn items_clone(rt: &(impl Print + AllocGlobal)) {
    let mut repository = ScopeRepository::new(rt.alloc());
    let metadata = metadata_of(rt.alloc(), &mut repository);
    let Some(set) = metadata.scoped_metadata.as_slice().first() else {
        return;
    };
    for _ in 0..TIMES {
        begin(rt);
        let copy = set.items.clone(rt.alloc());
        end(rt);
        show_copy(rt, &copy, &set.items);
    }
}

/// What is asked of metadata.
#[derive(Clone, Copy)]
enum Question {
    Unindented,
    Decrease,
    Bracket,
    NextLine,
    Copy,
}

/// What metadata says of a line; of a copy whether there is one.
fn asked(scoped: &ScopedMetadata<'_>, question: Question) -> Result<bool, AllocError> {
    match question {
        Question::Unindented => scoped.unindented_line("//"),
        Question::Decrease => scoped.decrease_indent("}"),
        Question::Bracket => scoped.bracket_increase("if"),
        Question::NextLine => scoped.disable_indent_next_line("else"),
        Question::Copy => scoped
            .clone()
            .map(|copy| copy.items.len() == scoped.items.len()),
    }
}

fn ask(rt: &(impl Print + AllocGlobal), question: Question) {
    let mut repository = ScopeRepository::new(rt.alloc());
    let scope = scope_of("source.t", &mut repository);
    let metadata = metadata_of(rt.alloc(), &mut repository);
    let Ok(scoped) = metadata.metadata_for_scope(&[scope]) else {
        return;
    };
    for _ in 0..TIMES {
        begin(rt);
        let said = asked(&scoped, question);
        end(rt);
        answer(rt, &said);
    }
}

/// The calls.
pub const NAMES: [&str; 10] = [
    "RawMetadataEntry::clone",
    "LoadMetadata::clone",
    "Metadata::clone",
    "MetadataSet::clone",
    "MetadataItems::clone",
    "ScopedMetadata::unindented_line",
    "ScopedMetadata::decrease_indent",
    "ScopedMetadata::bracket_increase",
    "ScopedMetadata::disable_indent_next_line",
    "ScopedMetadata::clone",
];

/// Makes the call of this name, if there is one.
pub fn make(rt: &(impl Print + AllocGlobal), name: &str) {
    match name {
        "RawMetadataEntry::clone" => entry_clone(rt),
        "LoadMetadata::clone" => entries_clone(rt),
        "Metadata::clone" => metadata_clone(rt),
        "MetadataSet::clone" => set_clone(rt),
        "MetadataItems::clone" => items_clone(rt),
        "ScopedMetadata::unindented_line" => ask(rt, Question::Unindented),
        "ScopedMetadata::decrease_indent" => ask(rt, Question::Decrease),
        "ScopedMetadata::bracket_increase" => ask(rt, Question::Bracket),
        "ScopedMetadata::disable_indent_next_line" => ask(rt, Question::NextLine),
        "ScopedMetadata::clone" => ask(rt, Question::Copy),
        _ => {}
    }
}
