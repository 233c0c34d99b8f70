//! Calls that read a file as lines, and what is reported of refusals.
use crate::below::check_calls::given::theme_of;
use crate::below::check_calls::marks::{TIMES, answer, begin, end};
use std::path::Path;
use std::rt::Files;
use syntect_check_sets::set_given::set_of;
use syntect_easy::LoadingError;
use syntect_easy::easy::HighlightFile;
use syntect_easy::explain::{why_not_loaded, why_not_read};
use syntect_easy::html::highlighted_html_for_file;
use syntect_easy::parsing::syntax_definition::ContextReference;
use syntect_easy::parsing::{ParsingError, Scope, ScopeRepository};
use syntect_easy::reading::next_line;

const TEXT: &str = "kept/text";

/// A text that is no value.
const FAULTY: &str = "faulty.yaml";

fn file_new(rt: &(impl Print + AllocGlobal + Files)) {
    let alloc = rt.alloc();
    let mut repository = ScopeRepository::new(alloc);
    let set = set_of(alloc, &mut repository);
    let theme = theme_of(alloc, &mut repository);
    for _ in 0..TIMES {
        begin(rt);
        let file = HighlightFile::new(rt, alloc, Path::new(TEXT), &set, &theme);
        end(rt);
        answer(rt, file.err());
    }
}

fn page_of_file(rt: &(impl Print + AllocGlobal + Files)) {
    let alloc = rt.alloc();
    let mut repository = ScopeRepository::new(alloc);
    let set = set_of(alloc, &mut repository);
    let theme = theme_of(alloc, &mut repository);
    for _ in 0..TIMES {
        begin(rt);
        let page = highlighted_html_for_file(rt, alloc, Path::new(TEXT), &set, &theme);
        end(rt);
        answer(rt, &page);
    }
}

fn told_of_file(rt: &(impl Print + AllocGlobal + Files)) {
    let refusal = LoadingError::ParseMetadata;
    for _ in 0..TIMES {
        begin(rt);
        let told = why_not_loaded(rt, rt.alloc(), Path::new(FAULTY), &refusal);
        end(rt);
        answer(rt, &told);
    }
}

fn told_of_line(rt: &(impl Print + AllocGlobal)) {
    let repository = ScopeRepository::new(rt.alloc());
    let reference = ContextReference::ByScope {
        scope: Scope::default(),
        sub_context: None,
        with_escape: false,
    };
    let refusal = ParsingError::UnresolvedContextReference(reference);
    for _ in 0..TIMES {
        begin(rt);
        let told = why_not_read(rt.alloc(), &repository, &refusal);
        end(rt);
        answer(rt, &told);
    }
}

fn line_of_reader(rt: &(impl Print + AllocGlobal)) {
    for _ in 0..TIMES {
        let mut bytes = "a\nb".as_bytes();
        let mut line = Vec::new(rt.alloc());
        begin(rt);
        let is_read = next_line(&mut bytes, &mut line);
        end(rt);
        answer(rt, &is_read);
    }
}

/// The calls.
pub const NAMES: [&str; 5] = [
    "HighlightFile::new",
    "highlighted_html_for_file",
    "why_not_loaded",
    "why_not_read",
    "next_line",
];

/// Makes the call of this name, if there is one.
pub fn make(rt: &(impl Print + AllocGlobal + Files), name: &str) {
    match name {
        "HighlightFile::new" => file_new(rt),
        "highlighted_html_for_file" => page_of_file(rt),
        "why_not_loaded" => told_of_file(rt),
        "why_not_read" => told_of_line(rt),
        "next_line" => line_of_reader(rt),
        _ => {}
    }
}
