//! The example about back references that give way to groups.
use crate::below::parsing::syntax_definition::{MatchOperation, MatchPattern};
use crate::below::regexes::regex::Regex;
use crate::below::regexes::region::Region;
use crate::below::values::seq::Seq;
use std::alloc::Global;

fn regex(alloc: Global, text: &str) -> Option<Regex> {
    Regex::new(alloc, String::from_str(alloc, text).ok()?).ok()
}

/// A pattern that pops, with back references.
fn popping(alloc: Global, text: &str) -> Option<MatchPattern> {
    let text = String::from_str(alloc, text).ok()?;
    MatchPattern::new(
        alloc,
        true,
        text,
        Seq::new(alloc),
        None,
        MatchOperation::Pop,
        None,
    )
    .ok()
}

/// The pattern with the groups of the first match in a text; none where there is no match.
fn substituted(
    alloc: Global,
    opening: &Regex,
    pattern: &MatchPattern,
    text: &str,
) -> Option<Regex> {
    let mut region = Region::new(alloc);
    let Ok(found) = opening.search_into(text, 0, text.len(), &mut region) else {
        return None;
    };
    if !found {
        return None;
    }
    pattern.regex_with_refs(&region, text).ok()
}

/// References give way to the texts of groups, escaped.
pub fn references(alloc: Global) -> Option<bool> {
    let opening = regex(alloc, "(\\\\\\[\\]\\(\\))(b)(c)(d)(e)")?;
    let pattern = popping(alloc, "lol \\\\ \\2 \\1 '\\9' \\wz")?;
    let made = substituted(alloc, &opening, &pattern, "\\[]()bcde")?;
    Some(made.regex_str() == "lol \\\\ b \\\\\\[\\]\\(\\) '' \\wz")
}
