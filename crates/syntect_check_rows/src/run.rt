//! The rows of files: of each part what is found has to be what stands below its heading.
use crate::below::base::utils::files_below;
use crate::below::scope::repository::ScopeRepository;
use crate::finding::{write_linked, write_loaded, write_places, write_syntaxes, write_unlinked};
use crate::given::{Given, is_given, set_of, syntax_of, text_of, theme_of};
use crate::operations::write_operations;
use crate::runs::write_scopes;
use crate::styled::{write_classed_page, write_page, write_pieces, write_resumed_pieces};
use crate::tables::write_table;
use std::alloc::Global;
use std::path::Path;
use std::rt::Files;
use std::{fs, io};
use syntect_check_tables::changes::write_changes;
use syntect_check_tables::engine::write_queries;
use syntect_check_tables::row_file::{Part, body_of, label_of, parts_of};
use syntect_check_tables::showing::write_shown;
use syntect_check_tables::written::{write_html, write_latex, write_sheet, write_terminal};
use syntect_easy::html::ClassStyle;

/// The folder of the rows.
const ROWS: &str = "rows";

/// Classes with a prefix that HTML escapes.
const PREFIXED: ClassStyle = ClassStyle::SpacedPrefixed { prefix: "p<" };

/// Adds what is found for a writer's part (spans with classes, sheets, given pieces) or another.
fn write_written(
    files: &impl Files,
    given: Given<'_>,
    part: Part<'_>,
    repository: &mut ScopeRepository,
    out: &mut String,
) -> Option<()> {
    let (alloc, parts) = (given.alloc, given.parts);
    match part.heading {
        "terminal" => write_terminal(alloc, parts, true, out),
        "terminal without backgrounds" => write_terminal(alloc, parts, false, out),
        "html" => write_html(alloc, parts, false, out),
        "html with backgrounds" => write_html(alloc, parts, true, out),
        "latex" => write_latex(alloc, parts, out),
        "style sheet" => write_sheet(alloc, given.theme, repository, out),
        "classed page" => write_classed_page(given, ClassStyle::Spaced, repository, out),
        "classed page behind p<" => write_classed_page(given, PREFIXED, repository, out),
        "spans" | "ranges" | "operations below" => {
            write_changes(alloc, parts, (part.heading, given.text), repository, out)
        }
        "shown" | "shown with ranges" => {
            let (theme, asked) = (given.theme, (part.heading, given.text));
            write_shown(alloc, theme, parts, asked, repository, out)
        }
        _ => write_table(files, given, part, repository, out),
    }
}

/// Adds what is found for a part.
fn write_found(
    files: &impl Files,
    given: Given<'_>,
    part: Part<'_>,
    repository: &mut ScopeRepository,
    out: &mut String,
) -> Option<()> {
    match part.heading {
        "scopes" => write_scopes(given, repository, out),
        "operations" => write_operations(given, repository, out),
        "pieces" => write_pieces(given, repository, out),
        "resumed pieces" => write_resumed_pieces(given, repository, out),
        "page" => write_page(given, repository, out),
        "unlinked" => write_unlinked(given.alloc, given.set, repository, out),
        "syntaxes" => write_syntaxes(given.set, out),
        "loaded" => write_loaded(files, given, repository, out),
        "linked" => write_linked(given, repository, out),
        "places" => write_places(given, out),
        "queries" => write_queries(given.alloc, part.body, out),
        _ => write_written(files, given, part, repository, out),
    }
}

/// Whether a part's text is what is found, without the newline that this ends with.
fn is_found(
    files: &impl Files,
    given: Given<'_>,
    part: Part<'_>,
    repository: &mut ScopeRepository,
) -> Option<bool> {
    let mut out = String::new(given.alloc);
    write_found(files, given, part, repository, &mut out)?;
    let found = out.as_str();
    Some(found.strip_suffix('\n').unwrap_or(found) == part.body)
}

/// Whether what is expected of a row is found.
fn all_found(
    files: &impl Files,
    given: Given<'_>,
    repository: &mut ScopeRepository,
) -> Option<bool> {
    for part in given.parts {
        if !is_given(part.heading) && !is_found(files, given, *part, repository)? {
            return Some(false);
        }
    }
    Some(true)
}

/// Adds each part with what is found.
fn write_all(
    files: &impl Files,
    given: Given<'_>,
    repository: &mut ScopeRepository,
    out: &mut String,
) -> Option<()> {
    for part in given.parts {
        if !is_given(part.heading) {
            writeln!(out, "%% {}", part.heading).ok()?;
            write_found(files, given, *part, repository, out)?;
        }
    }
    Some(())
}

/// Whether the row of a file's text comes out as written; an output gets what is found instead.
fn run_row(
    files: &impl Files,
    alloc: Global,
    text: &str,
    out: Option<&mut String>,
) -> Option<bool> {
    let parts = parts_of(alloc, text)?;
    let parts = parts.as_slice();
    let mut repository = ScopeRepository::new(alloc);
    let set = set_of(files, alloc, parts, &mut repository)?;
    let theme = theme_of(alloc, parts, &mut repository)?;
    let text = text_of(alloc, parts)?;
    let given = Given {
        alloc,
        parts,
        text: text.as_str(),
        is_bare: body_of(parts, "bare text").is_some(),
        set: &set,
        syntax: syntax_of(&set, parts),
        theme: &theme,
    };
    match out {
        None => all_found(files, given, &mut repository),
        Some(out) => {
            write_all(files, given, &mut repository, out)?;
            Some(true)
        }
    }
}

/// Runs the row of a file, and prints and answers whether it comes out as it is written.
fn run_file(rt: &(impl Print + AllocGlobal + Files), path: &str) -> io::Result<bool> {
    let text = fs::read_to_string(rt, path)?;
    let holds = run_row(rt, rt.alloc(), text.as_str(), None) == Some(true);
    let outcome = if holds { "ok" } else { "fails" };
    println!(rt; "row {} {outcome}", label_of(text.as_str()))?;
    Ok(holds)
}

/// Runs the rows of the files, in byte order of names. Answers whether all come out as written.
pub fn run_row_files(rt: &(impl Print + AllocGlobal + Files)) -> io::Result<bool> {
    let Ok(paths) = files_below(rt, rt.alloc(), Path::new(ROWS)) else {
        return Ok(false);
    };
    let mut all = true;
    for path in paths.as_slice() {
        all &= run_file(rt, path.as_str())?;
    }
    Ok(all)
}

/// Prints what is found for a row's file.
pub fn show_row(rt: &(impl Print + AllocGlobal + Files), path: &str) -> io::Result<bool> {
    let text = fs::read_to_string(rt, path)?;
    let mut out = String::new(rt.alloc());
    let shown = run_row(rt, rt.alloc(), text.as_str(), Some(&mut out)) == Some(true);
    print!(rt; "{out}")?;
    Ok(shown)
}
