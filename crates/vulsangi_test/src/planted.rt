//! What is found in grammars, and where.
use crate::planted_contexts::ROWS as CONTEXTS;
use crate::planted_rows::{ROWS, THEMES, Told};
use std::alloc::{AllocError, Global};
use vulsangi_check::check::{check_grammars, read_grammar};
use vulsangi_check::vulsangi_grammar::findings::{Finding, Findings};
use vulsangi_check::vulsangi_grammar::rules::{RULES, rule_of};
use vulsangi_check::vulsangi_grammar::syntect::assets::AssetsError;
use vulsangi_check::vulsangi_grammar::syntect::parsing::ScopeRepository;
use vulsangi_check::vulsangi_grammar::themes::check_theme;

/// What is found in grammars, each with its file's name.
fn found_in(alloc: Global, texts: &[(&str, &str)]) -> Result<Findings, AssetsError> {
    let mut repository = ScopeRepository::new(alloc);
    let (mut grammars, mut faults) = (Vec::new(alloc), Vec::new(alloc));
    for (path, text) in texts {
        let text = String::from_str(alloc, *text)?;
        let (grammar, fault) = read_grammar(alloc, *path, text, &mut repository)?;
        grammars.push(grammar)?;
        faults.push(fault)?;
    }
    let mut findings = Findings::new(alloc);
    check_grammars(
        alloc,
        grammars.as_slice(),
        faults.as_slice(),
        &[],
        &mut findings,
    )?;
    Ok(findings)
}

/// Whether a finding is the one that is to be found.
fn is_told(finding: &Finding, told: &Told) -> bool {
    let (line, column) = match finding.place {
        Some(place) => (place.line, place.column),
        None => (0, 0),
    };
    (finding.rule.number, line, column) == *told
}

/// Whether exactly what is to be found is found, in order.
fn is_as_told(findings: &Findings, told: &[Told]) -> bool {
    findings.found.len() == told.len()
        && findings
            .found
            .as_slice()
            .iter()
            .zip(told.iter())
            .all(|(f, t)| is_told(f, t))
}

#[test]
fn each_fault_is_found_at_its_place(rt: HostRuntime) {
    for (number, (text, told)) in ROWS.iter().enumerate() {
        match found_in(rt.alloc(), &[("A.sublime-syntax", *text)]) {
            Ok(findings) => assert!(rt; is_as_told(&findings, *told), "row {number}"),
            Err(_) => assert!(rt; false, "row {number}: out of memory"),
        }
    }
}

#[test]
fn each_fault_of_contexts_is_found_at_its_place(rt: HostRuntime) {
    for (number, (text, told)) in CONTEXTS.iter().enumerate() {
        match found_in(rt.alloc(), &[("A.sublime-syntax", *text)]) {
            Ok(findings) => assert!(rt; is_as_told(&findings, *told), "row {number}"),
            Err(_) => assert!(rt; false, "row {number}: out of memory"),
        }
    }
}

/// A grammar that names one which clears out of order, that one, and one that stands by itself.
const NAMING: &[(&str, &str)] = &[
    (
        "A.sublime-syntax",
        "scope: source.a
contexts:
  main:
    - match: a
      push: scope:source.b
",
    ),
    (
        "B.sublime-syntax",
        "scope: source.b
contexts:
  main:
    - match: b
      push:
        - clear_scopes: 1
        - match: c
          set: main
",
    ),
    (
        "C.sublime-syntax",
        "scope: source.c
contexts:
  main: []
",
    ),
];

#[test]
fn grammars_are_out_of_the_proof_by_those_that_they_name(rt: HostRuntime) {
    let told: &[Told] = &[
        ("V209", 1, 1),
        ("V209", 1, 1),
        ("V206", 6, 11),
        ("V208", 8, 11),
    ];
    match found_in(rt.alloc(), NAMING) {
        Ok(findings) => assert!(rt; is_as_told(&findings, told)),
        Err(_) => assert!(rt; false, "out of memory"),
    }
}

/// What is found in a theme.
fn found_in_theme(alloc: Global, text: &str) -> Result<Findings, AllocError> {
    let mut findings = Findings::new(alloc);
    check_theme(alloc, "a.tmTheme", text, &mut findings)?;
    Ok(findings)
}

#[test]
fn each_fault_of_a_theme_is_found_at_its_place(rt: HostRuntime) {
    for (number, (text, told)) in THEMES.iter().enumerate() {
        match found_in_theme(rt.alloc(), *text) {
            Ok(findings) => assert!(rt; is_as_told(&findings, *told), "theme {number}"),
            Err(_) => assert!(rt; false, "theme {number}: out of memory"),
        }
    }
}

#[test]
fn numbers_lead_to_rules(rt: HostRuntime) {
    for rule in RULES {
        let found = rule_of(rule.number);
        assert!(rt; found.is_some_and(|found| found.title == rule.title));
    }
    assert!(rt; rule_of("v101").is_some() && rule_of("101").is_some());
    assert!(rt; rule_of("V999").is_none() && rule_of("").is_none());
}
