//! What writers of grammars and themes ask.
use crate::choose::theme_of;
use crate::places::loaded;
use crate::run::write_out;
use clap::ArgMatches;
use std::rt::{Env, Files};
use syntect::assets::AssetsError;
use vulsangi_check::check::findings_of;
use vulsangi_check::vulsangi_grammar::findings::Findings;
use vulsangi_check::vulsangi_grammar::report::{Report, explained, written};
use vulsangi_check::vulsangi_grammar::rules::{Grade, RULES, rule_of};
use vulsangi_doctor::run::{print_scopes, run_tests};
use vulsangi_words::form::shows_colour;

/// Tells what a finding's number means.
fn explain(rt: &(impl AllocGlobal + Print), number: &str) -> Result<bool, AssetsError> {
    if let Some(rule) = rule_of(number) {
        let text = explained(rt.alloc(), rule)?;
        print!(rt; "{text}")?;
        return Ok(true);
    }
    if number != "all" {
        println!(rt; "no finding has the number {number}")?;
        return Ok(false);
    }
    for rule in RULES {
        let text = explained(rt.alloc(), rule)?;
        println!(rt; "{text}")?;
    }
    Ok(true)
}

/// What a report is written as.
fn report_of(rt: &(impl AllocGlobal + Env), words: &ArgMatches<'_>, to_terminal: bool) -> Report {
    match words.get_str("format") {
        Some("json") => Report::Json,
        Some("sarif") => Report::Sarif,
        _ => {
            let is_seen = to_terminal && words.get_str("output").is_none();
            Report::Text(shows_colour(rt, is_seen))
        }
    }
}

/// Whether all files are loaded.
fn is_whole(findings: &Findings) -> bool {
    findings.count(Grade::Fault) == 0
}

/// Looks through what is named, and reports what is found.
fn check(
    rt: &(impl AllocGlobal + Print + Files + Env),
    words: &ArgMatches<'_>,
    to_terminal: bool,
) -> Result<bool, AssetsError> {
    if let Some(number) = words.get_str("explain") {
        return explain(rt, number);
    }
    let here: &[&str] = &["."];
    let findings = findings_of(rt, words.get_raw("PATH").unwrap_or(here))?;
    let text = written(rt.alloc(), &findings, report_of(rt, words, to_terminal))?;
    write_out(rt, words.get_str("output"), text.as_str())?;
    Ok(is_whole(&findings))
}

/// Runs the tests that are named.
fn test(
    rt: &(impl AllocGlobal + Print + Eprint + Files + Env),
    words: &ArgMatches<'_>,
) -> Result<bool, AssetsError> {
    let none: &[&str] = &[];
    let mut assets = loaded(rt, words.get_raw("grammars"))?;
    run_tests(rt, &mut assets, words.get_raw("FILE").unwrap_or(none))
}

/// Tells the scopes of what is named.
fn scopes(
    rt: &(impl AllocGlobal + Print + Eprint + Files + Env),
    words: &ArgMatches<'_>,
) -> Result<bool, AssetsError> {
    let mut assets = loaded(rt, words.get_raw("grammars"))?;
    let theme = theme_of(rt, &mut assets, words.get_str("theme").unwrap_or("dusk"))?;
    let place = words.get_str("FILE[:LINE[:COLUMN]]").unwrap_or("");
    print_scopes(rt, &mut assets, &theme, place)
}

/// Does what is asked for, if it is one of these.
pub fn perform(
    rt: &(impl AllocGlobal + Print + Eprint + Files + Env),
    matches: &ArgMatches<'_>,
    to_terminal: bool,
) -> Option<Result<bool, AssetsError>> {
    if let Some(words) = matches.subcommand_matches("check") {
        return Some(check(rt, words, to_terminal));
    }
    if let Some(words) = matches.subcommand_matches("test") {
        return Some(test(rt, words));
    }
    match matches.subcommand_matches("scopes") {
        Some(words) => Some(scopes(rt, words)),
        None => None,
    }
}
