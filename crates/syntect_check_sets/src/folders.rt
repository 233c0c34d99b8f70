//! Calls that read folders of grammars, and the file that a syntax is looked for.
use crate::below::grammar::syntax_set::{SyntaxSet, SyntaxSetBuilder};
use crate::below::scope::repository::ScopeRepository;
use crate::set_given::set_of;
use crate::sets::show_name;
use std::path::Path;
use std::rt::Files;
use syntect_check_calls::marks::{TIMES, answer, begin, end, stays};

/// A folder of two grammars and a file of metadata.
const FOLDER: &str = "kept";

const TEXT: &str = "kept/text";

/// Shows the names of a builder's syntaxes.
fn show_syntaxes(rt: &(impl Print + AllocGlobal), builder: &SyntaxSetBuilder) {
    let mut names = String::new(rt.alloc());
    for definition in builder.syntaxes() {
        let _ = write!(names, "{};", definition.name.as_str());
    }
    stays(rt, names.as_str());
}

fn add_syntaxes(rt: &(impl Print + AllocGlobal + Files)) {
    let alloc = rt.alloc();
    for _ in 0..TIMES {
        let mut repository = ScopeRepository::new(alloc);
        let mut builder = SyntaxSetBuilder::new(alloc);
        let folder = Path::new(FOLDER);
        begin(rt);
        let added = builder.add_from_folder(rt, alloc, folder, true, &mut repository);
        end(rt);
        answer(rt, &added);
        show_syntaxes(rt, &builder);
    }
}

fn load_syntaxes(rt: &(impl Print + AllocGlobal + Files)) {
    let alloc = rt.alloc();
    for _ in 0..TIMES {
        let mut repository = ScopeRepository::new(alloc);
        begin(rt);
        let set = SyntaxSet::load_from_folder(rt, alloc, Path::new(FOLDER), &mut repository);
        end(rt);
        match &set {
            Ok(set) => answer(rt, set.syntaxes().len()),
            Err(e) => answer(rt, e),
        }
    }
}

fn syntax_for_file(rt: &(impl Print + AllocGlobal + Files)) {
    let alloc = rt.alloc();
    let mut repository = ScopeRepository::new(alloc);
    let set = set_of(alloc, &mut repository);
    for _ in 0..TIMES {
        begin(rt);
        let found = set.find_syntax_for_file(rt, alloc, Path::new(TEXT));
        end(rt);
        match found {
            Ok(syntax) => show_name(rt, syntax),
            Err(e) => answer(rt, &e),
        }
    }
}

/// The calls.
pub const NAMES: [&str; 3] = [
    "SyntaxSetBuilder::add_from_folder",
    "SyntaxSet::load_from_folder",
    "SyntaxSet::find_syntax_for_file",
];

/// Makes the call of this name, if there is one.
pub fn make(rt: &(impl Print + AllocGlobal + Files), name: &str) {
    match name {
        "SyntaxSetBuilder::add_from_folder" => add_syntaxes(rt),
        "SyntaxSet::load_from_folder" => load_syntaxes(rt),
        "SyntaxSet::find_syntax_for_file" => syntax_for_file(rt),
        _ => {}
    }
}
