//! Runs the worked examples of docs/EXAMPLES.md, and prints of each whether it comes out as it is
//! written there. With words it does what `MODES` says of them, or with one word FILE prints the
//! pieces of that text file's lines by the contexts and the theme of example 17.
#![tactic(auto)]

mod below;
mod modes;

use crate::below::check_queries::patterns::time_patterns;
use crate::below::check_queries::queries::{answers, count_answers, count_patterns, time_queries};
use crate::below::check_queries::searches::time_searches;
use crate::modes::{MODES, Runs, fits, number_at, word_at};
use std::process::ExitCode;
use std::rt::{Clock, Files};
use std::{env, io};
use syntect_check_edits::rows::run_edit_rows;
use syntect_check_edits::shown::show_edits;
use syntect_check_edits::tried::{time_edits_of, try_file};
use syntect_check_rows::calls::run_calls;
use syntect_check_rows::files::{Asked, run_scope_rows, show_asked};
use syntect_check_rows::run::{run_row_files, show_row};
use syntect_check_speed::atoms::time_atoms;
use syntect_check_speed::documents::time_documents;
use syntect_check_speed::first::{show, time};
use syntect_check_speed::loads::time_loads;
use syntect_check_speed::reading::time_file;
use syntect_check_speed::styles::{show_styles, time_styles};
use syntect_check_speed::theme_files::show_themes;

fn main(rt: HostRuntime) -> io::Result<ExitCode> {
    let words: Vec<String> = env::args(&rt)?.skip(1).collect(rt.alloc())?;
    let words = words.as_slice();
    for (usage, runs) in &MODES {
        if fits(*usage, words) {
            return run(&rt, *runs, words);
        }
    }
    match words {
        [] => run_rows(&rt),
        [path] => show(&rt, path.as_str()),
        _ => usage(&rt),
    }
}

/// What the words can be.
fn usage(rt: &impl Eprint) -> io::Result<ExitCode> {
    eprint!(rt; "usage: syntect_bench [FILE")?;
    for (usage, _) in &MODES {
        eprint!(rt; " | {usage}")?;
    }
    eprintln!(rt; "]")?;
    Ok(ExitCode::from(2))
}

/// Does what the words ask for.
fn run(
    rt: &(impl Print + Eprint + AllocGlobal + Files + Clock + Clone + Drop),
    runs: Runs,
    words: &[String],
) -> io::Result<ExitCode> {
    let (first, second) = (word_at(words, 1), word_at(words, 2));
    match runs {
        Runs::Row => Ok(status_of(show_row(rt, first)?)),
        Runs::Answers => answers(rt, first),
        Runs::Themes => show_themes(rt, first),
        Runs::Styles => show_styles(rt, first, second),
        Runs::Unlinked => show_asked(rt, first, Asked::Unlinked),
        Runs::Orderly => show_asked(rt, first, Asked::Orderly),
        Runs::Linear => show_asked(rt, first, Asked::Linear),
        Runs::Syntaxes => show_asked(rt, first, Asked::Syntaxes(second)),
        Runs::Scopes => show_asked(rt, first, Asked::Scopes(second)),
        Runs::ShownEdits => Ok(status_of(show_edits(rt, false)?)),
        Runs::ShownLongEdit => Ok(status_of(show_edits(rt, true)?)),
        Runs::RandomEdits | Runs::TimeEdits => run_edits(rt, runs, words),
        Runs::TimeAtoms => time_atoms(rt),
        Runs::TimeSearches => time_searches(rt),
        Runs::TimeDocuments => time_documents(rt, second),
        Runs::TimeLoads => time_loads(rt, second),
        Runs::TimeStyles => time_styles(rt, second),
        _ => run_rounds(rt, runs, words),
    }
}

/// The status of what comes out, or doesn't.
fn status_of(comes_out: bool) -> ExitCode {
    ExitCode::from(u8::from(!comes_out))
}

/// Edits the text of a file, as the words ask for.
fn run_edits(
    rt: &(impl Print + Eprint + AllocGlobal + Files + Clock),
    runs: Runs,
    words: &[String],
) -> io::Result<ExitCode> {
    match (runs, number_at(words, 4), number_at(words, 5)) {
        (Runs::RandomEdits, Some(edits), Some(seed)) => {
            let files = (word_at(words, 1), word_at(words, 2), word_at(words, 3));
            Ok(status_of(try_file(rt, files, edits, seed)?))
        }
        (Runs::TimeEdits, _, Some(place)) => {
            let files = (word_at(words, 2), word_at(words, 3), word_at(words, 4));
            let rounds = number_at(words, 6).unwrap_or(1);
            Ok(status_of(time_edits_of(rt, files, place, rounds)?))
        }
        _ => usage(rt),
    }
}

/// Does what the words ask for, so many rounds.
fn run_rounds(
    rt: &(impl Print + Eprint + AllocGlobal + Files + Clock),
    runs: Runs,
    words: &[String],
) -> io::Result<ExitCode> {
    let (first, second) = (word_at(words, 1), word_at(words, 2));
    match (
        runs,
        number_at(words, 2),
        number_at(words, 3),
        number_at(words, 4),
    ) {
        (Runs::TimeFile, Some(rounds), _, _) => time(rt, first, rounds),
        (Runs::TimeQueries, Some(rounds), _, _) => time_queries(rt, first, rounds),
        (Runs::TimePatterns, Some(rounds), Some(other), _) => {
            time_patterns(rt, first, rounds, u64::from(other))
        }
        (Runs::TimeReading, _, _, Some(rounds)) => {
            time_file(rt, first, second, word_at(words, 3), rounds)
        }
        _ => usage(rt),
    }
}

/// Files of patterns, with how many in them are patterns of the dialect and how many are none.
const FILES_OF_PATTERNS: [(&str, (u32, u32)); 2] = [
    ("patterns.txt", (718, 0)),
    ("no_patterns.txt", (0, 7)),
];

/// The file of queries, each after the answer that Oniguruma gives, or, of those at the end that
/// cost engines which back up too much, the answer that Perl gives; and how many there are.
const ANSWERED: &str = "queries.tsv";

const ANSWERED_QUERIES: u32 = 1545;

/// Prints whether something comes out as it is written, and answers that.
fn print_outcome(rt: &impl Print, label: &str, comes_out: bool) -> io::Result<bool> {
    let outcome = if comes_out { "ok" } else { "fails" };
    println!(rt; "{label} {outcome}")?;
    Ok(comes_out)
}

/// Counts what is known of files of patterns and of queries. Answers whether all comes out.
fn run_patterns(rt: &(impl Print + AllocGlobal + Files)) -> io::Result<bool> {
    let mut all = true;
    for (path, counts) in &FILES_OF_PATTERNS {
        let comes_out = count_patterns(rt, *path)? == *counts;
        all &= print_outcome(rt, *path, comes_out)?;
    }
    let comes_out = count_answers(rt, ANSWERED)? == (ANSWERED_QUERIES, 0);
    all &= print_outcome(rt, ANSWERED, comes_out)?;
    Ok(all)
}

/// What edits that look random are done on: grammars, a theme and a text; and how many edits there
/// are, from which seed.
const EDITED: (&str, &str, &str) = ("edited/grammars", "edited/dusk.json", "edited/backup.sh");

const EDITS: u32 = 400;

const SEED: u32 = 1;

/// Edits that look random, and edits that are shown. Answers whether all comes out.
fn run_trials(rt: &(impl Print + Eprint + AllocGlobal + Files)) -> io::Result<bool> {
    let all = try_file(rt, EDITED, EDITS, SEED)?;
    Ok(all & show_edits(rt, false)?)
}

/// Runs each example. The status is 0 if all come out as they are written, else 1.
fn run_rows(rt: &(impl Print + Eprint + AllocGlobal + Files)) -> io::Result<ExitCode> {
    let mut all = run_calls(rt)?;
    all &= run_row_files(rt)?;
    all &= run_scope_rows(rt)?;
    all &= run_edit_rows(rt)?;
    all &= run_patterns(rt)?;
    all &= run_trials(rt)?;
    Ok(status_of(all))
}
