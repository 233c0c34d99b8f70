//! How much the patterns of a grammar have together.
use std::alloc::{AllocError, Global};
use vulsangi_patterns::vulsangi_grammar::findings::{Findings, Lines};
use vulsangi_patterns::vulsangi_grammar::grammar::Item;
use vulsangi_patterns::vulsangi_grammar::place::Step;
use vulsangi_patterns::vulsangi_grammar::rules::MANY_BYTES;
use vulsangi_patterns::vulsangi_grammar::syntect::parsing::syntax_definition::Pattern;

/// More bytes of patterns are told.
const MANY: usize = 65_536;

/// How many bytes the pattern of an item has, with its variables put in.
fn size_of(item: &Item<'_>) -> usize {
    match item.pattern {
        Some(Pattern::Match(pattern)) => pattern.regex.regex_str().len(),
        _ => 0,
    }
}

/// Adds that the patterns of items have many bytes together, with the greatest one.
pub fn check(
    alloc: Global,
    lines: &Lines<'_>,
    items: &[Item<'_>],
    findings: &mut Findings,
) -> Result<(), AllocError> {
    let (mut all, mut count) = (0usize, 0usize);
    for item in items {
        let size = size_of(item);
        all = all.saturating_add(size);
        count = count.saturating_add((size > 0) as usize);
    }
    if all > MANY {
        let message = format!(in alloc; "with their variables {count} patterns have {all} bytes")?;
        findings.add(MANY_BYTES, lines, &[Step::Key("contexts")], message)?;
    }
    Ok(())
}
