//! Which grammars are in the proof of colours: those that clear scopes in order alone, with all
//! that they name.
use crate::vulsangi_grammar::findings::{Findings, Lines};
use crate::vulsangi_grammar::grammar::{Grammar, items_of};
use crate::vulsangi_grammar::place::Step;
use crate::vulsangi_grammar::rules::{CLEARS, OUT_OF_ORDER, OUT_OF_PROOF, Rule};
use std::alloc::{AllocError, Global};
use vulsangi_contexts::references::mark_named;

/// Whether something was found in a grammar.
fn has(findings: &Findings, rule: Rule) -> bool {
    let found = findings.found.as_slice();
    found
        .iter()
        .any(|finding| finding.rule.number == rule.number)
}

/// The grammars that each one names.
fn named_by(alloc: Global, grammars: &[Grammar]) -> Result<Vec<Vec<bool>>, AllocError> {
    let mut all = Vec::new(alloc);
    for grammar in grammars {
        let mut marks = Vec::new(alloc);
        for _ in grammars {
            marks.push(false)?;
        }
        let items = items_of(alloc, grammar)?;
        mark_named(alloc, items.as_slice(), grammars, marks.as_mut_slice())?;
        all.push(marks)?;
    }
    Ok(all)
}

/// Marks the grammars that the marked ones name; answers whether there are new ones.
fn mark_once(named: &[Vec<bool>], marks: &mut [bool]) -> bool {
    let mut is_new = false;
    for (number, names) in named.iter().enumerate() {
        if (&*marks).get(number) != Some(&true) {
            continue;
        }
        for (mark, is_named) in marks.iter_mut().zip(names.as_slice().iter()) {
            is_new |= *is_named && !*mark;
            *mark |= *is_named;
        }
    }
    is_new
}

/// The grammars that one names, by way of others too, and itself.
fn around(alloc: Global, named: &[Vec<bool>], number: usize) -> Result<Vec<bool>, AllocError> {
    let mut marks = Vec::new(alloc);
    for other in 0..named.len() {
        marks.push(other == number)?;
    }
    for _ in named {
        if !mark_once(named, marks.as_mut_slice()) {
            break;
        }
    }
    Ok(marks)
}

/// The first marked one of some grammars that has a flag.
fn first_of(marks: &[bool], flags: &[bool]) -> Option<usize> {
    marks
        .iter()
        .zip(flags.iter())
        .position(|(mark, flag)| *mark && *flag)
}

/// Whether grammars clear in order only, each by itself, and whether they clear at all.
#[derive(Drop)]
struct Clearing {
    out: Vec<bool>,
    clears: Vec<bool>,
}

/// What was found of that in each grammar.
fn marks_of(alloc: Global, found: &[Findings]) -> Result<Clearing, AllocError> {
    let (mut out, mut clears) = (Vec::new(alloc), Vec::new(alloc));
    for findings in found {
        out.push(has(findings, OUT_OF_ORDER))?;
        clears.push(has(findings, CLEARS))?;
    }
    Ok(Clearing { out, clears })
}

/// Why not all lines of a grammar are shown to be in the proof, if they aren't: by which of those
/// that it names, or by a `with_prototype` of one, where another clears.
fn why(
    alloc: Global,
    grammars: &[Grammar],
    marks: &[bool],
    clearing: &Clearing,
    bringing: &[bool],
) -> Result<Option<String>, AllocError> {
    if let Some(grammar) = grammar_of(grammars, first_of(marks, clearing.out.as_slice())) {
        let path = grammar.path.as_str();
        return Ok(Some(format!(in alloc; "scopes are cleared out of order in `{path}`")?));
    }
    let brings = grammar_of(grammars, first_of(marks, bringing));
    match (brings, first_of(marks, clearing.clears.as_slice())) {
        (Some(grammar), Some(_)) => {
            let path = grammar.path.as_str();
            Ok(Some(format!(in alloc;
                "a `set` in a `with_prototype` of `{path}` may leave a context that clears scopes"
            )?))
        }
        _ => Ok(None),
    }
}

/// The grammar of a number.
fn grammar_of(grammars: &[Grammar], number: Option<usize>) -> Option<&Grammar> {
    grammars.get(number?)
}

/// Adds the grammars of which not all lines are shown to be in the proof, to what was found in
/// each. It is told of each whether a `with_prototype` of it has a `set`.
pub fn check(
    alloc: Global,
    grammars: &[Grammar],
    bringing: &[bool],
    found: &mut [Findings],
) -> Result<(), AllocError> {
    let clearing = marks_of(alloc, &*found)?;
    if !clearing.clears.as_slice().contains(&true) {
        return Ok(());
    }
    let named = named_by(alloc, grammars)?;
    for (number, (findings, grammar)) in found.iter_mut().zip(grammars.iter()).enumerate() {
        let marks = around(alloc, named.as_slice(), number)?;
        if let Some(message) = why(alloc, grammars, marks.as_slice(), &clearing, bringing)? {
            let lines = Lines::of(alloc, grammar.path.as_str(), grammar.text.as_str())?;
            findings.add(OUT_OF_PROOF, &lines, &[Step::Key("scope")], message)?;
        }
    }
    Ok(())
}
