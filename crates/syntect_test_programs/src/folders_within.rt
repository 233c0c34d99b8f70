//! Grammars of a folder that are loaded within limits, and what is answered where one passes a
//! limit or is faulty.
use crate::below::easy::LoadingError;
use crate::below::easy::parsing::{
    FolderWithinError, LimitReached, Limits, ParseSyntaxError, ScopeRepository, SyntaxSetBuilder,
    add_from_folder_within,
};
use crate::files::within;
use crate::found::{equal, holds};
use crate::loads::FAULTY;
use crate::metadata::{File, written};
use std::fs;
use std::path::Path;
use std::process::Abort;
use std::rt::Files;

/// Two grammars, of 47 and 89 bytes. The patterns of `main` of the second have 1 and 4 bytes with
/// their variables expanded, and for the last one 2 variables are used: it counts as 132 bytes.
const GRAMMARS: [File; 2] = [
    (
        "A.sublime-syntax",
        "scope: source.a\ncontexts: {main: [{match: x}]}\n",
    ),
    (
        "B.sublime-syntax",
        "scope: source.b\nvariables: {v: xy}\ncontexts: {main: [{match: q}, {match: '{{v}}{{v}}'}]}\n",
    ),
];

/// What is answered of a folder, and how many grammars were added.
fn added(
    rt: &(impl Files + AllocGlobal),
    folder: Path<'_>,
    limits: &Limits,
) -> (Option<FolderWithinError>, usize) {
    let alloc = rt.alloc();
    let mut repository = ScopeRepository::new(alloc);
    let mut builder = SyntaxSetBuilder::new(alloc);
    let answer = add_from_folder_within(
        rt,
        alloc,
        &mut builder,
        folder,
        true,
        &mut repository,
        limits,
    );
    (answer.err(), builder.syntaxes().len())
}

fn of_pattern(pattern: usize) -> Limits {
    Limits {
        pattern,
        ..Limits::unlimited()
    }
}

/// Whether the second pattern of the second grammar is named as what passes the limit of one.
fn is_second(refusal: Option<FolderWithinError>) -> bool {
    match &refusal {
        Some(FolderWithinError::LimitReached(LimitReached::Pattern(place), path)) => {
            place.context.as_str() == "main"
                && place.item == 1
                && place.pattern.as_str() == "{{v}}{{v}}"
                && path.as_str().ends_with("B.sublime-syntax")
        }
        _ => false,
    }
}

/// The grammar before the one that passes a limit stays added.
#[test]
fn a_grammar_of_a_folder_past_a_limit(rt: HostRuntime) {
    let folder = written(&rt, "syntect_folder_limits", &GRAMMARS);
    let (refusal, count) = added(&rt, folder.as_path(), &of_pattern(132));
    holds(&rt, refusal.is_none());
    equal(&rt, count, 2);
    let (refusal, count) = added(&rt, folder.as_path(), &of_pattern(131));
    holds(&rt, is_second(refusal));
    equal(&rt, count, 1);
}

/// The grammar with which those of the folder have too many bytes is refused.
#[test]
fn grammars_of_a_folder_together(rt: HostRuntime) {
    let of_folder = |folder| Limits {
        folder,
        ..Limits::unlimited()
    };
    let folder = written(&rt, "syntect_folder_bytes", &GRAMMARS);
    let (refusal, count) = added(&rt, folder.as_path(), &of_folder(136));
    holds(&rt, refusal.is_none());
    equal(&rt, count, 2);
    let (refusal, count) = added(&rt, folder.as_path(), &of_folder(135));
    let is_second = match &refusal {
        Some(FolderWithinError::LimitReached(LimitReached::Folder, path)) => {
            path.as_str().ends_with("B.sublime-syntax")
        }
        _ => false,
    };
    holds(&rt, is_second);
    equal(&rt, count, 1);
}

/// Other faults are those of `add_from_folder`.
#[test]
fn faults_of_a_folder_within_limits(rt: HostRuntime) {
    let limits = Limits::default();
    let folder = written(&rt, "syntect_folder_faults", &FAULTY);
    let none = within(&rt, &folder, "none");
    let (refusal, _) = added(&rt, none.as_path(), &limits);
    let is_walk = matches!(
        refusal,
        Some(FolderWithinError::Refused(LoadingError::WalkDir))
    );
    holds(&rt, is_walk);
    let (refusal, _) = added(&rt, folder.as_path(), &limits);
    let is_named = match &refusal {
        Some(FolderWithinError::Refused(LoadingError::ParseSyntax(e, path))) => {
            *e == ParseSyntaxError::MainMissing && path.as_str().ends_with("F.sublime-syntax")
        }
        _ => false,
    };
    holds(&rt, is_named);
    let path = within(&rt, &folder, "F.sublime-syntax");
    fs::write(&rt, path.as_path(), b"name: \xff\n").expect(&rt, "a file");
    let (refusal, _) = added(&rt, folder.as_path(), &limits);
    let is_unread = matches!(
        refusal,
        Some(FolderWithinError::Refused(LoadingError::Io(_)))
    );
    holds(&rt, is_unread);
}
