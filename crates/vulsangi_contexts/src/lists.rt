//! The lists of items of a grammar, each a context that is loaded, and where their items lead.
use crate::references::is_named_elsewhere;
use std::alloc::{AllocError, Global};
use vulsangi_patterns::check::{Known, check_item};
use vulsangi_patterns::vulsangi_grammar::findings::{Findings, Lines};
use vulsangi_patterns::vulsangi_grammar::grammar::{Grammar, Item};
use vulsangi_patterns::vulsangi_grammar::syntect::parsing::syntax_definition::{
    Context, ContextReference, MatchOperation, MatchPattern, Pattern,
};

/// What an item does to the open contexts.
#[derive(Clone, Copy, Debug, PartialEq, Eq)]
pub enum Way {
    /// A match leaves them as they are.
    Stays,
    /// A match leaves the top one.
    Leaves,
    /// A match puts others in the place of the top one.
    Sets,
    /// A match opens others.
    Pushes,
    /// The item includes another list.
    Includes,
}

/// An item of a list that has a pattern, or includes.
#[derive(Drop)]
pub struct Entry {
    /// Its number among all items.
    pub item: usize,
    pub way: Way,
    /// What is known of its pattern, if it has one.
    pub known: Option<Known>,
    /// The lists that it leads to; none for each that isn't one of this grammar's.
    pub targets: Vec<Option<usize>>,
    /// Whether a match opens contexts with a list that is asked in all of them.
    pub has_prototype: bool,
    /// That list, if it is one of this grammar's.
    pub prototype: Option<usize>,
}

/// A list of items.
#[derive(Drop)]
pub struct List<'y> {
    pub name: &'y str,
    pub context: &'y Context,
    pub entries: Vec<Entry>,
    /// Whether it is open at first, or named by other grammars.
    pub is_first: bool,
}

/// The number of the list with a name.
pub fn number_of(lists: &[List<'_>], name: &str) -> Option<usize> {
    lists.iter().position(|list| list.name == name)
}

/// The number of the list that a reference leads to, if it is one of this grammar's.
fn target_of(lists: &[List<'_>], reference: &ContextReference) -> Option<usize> {
    match reference {
        ContextReference::Named(name) => number_of(lists, name.as_str()),
        ContextReference::Inline(name) => number_of(lists, name.as_str()),
        _ => None,
    }
}

/// The numbers of the lists that references lead to.
fn targets_of(
    alloc: Global,
    lists: &[List<'_>],
    references: &[ContextReference],
) -> Result<Vec<Option<usize>>, AllocError> {
    let mut targets = Vec::new(alloc);
    for reference in references {
        targets.push(target_of(lists, reference))?;
    }
    Ok(targets)
}

/// What a match does, and the references that it follows.
fn way_of(pattern: &MatchPattern) -> (Way, &[ContextReference]) {
    match &pattern.operation {
        MatchOperation::None => (Way::Stays, &[]),
        MatchOperation::Pop => (Way::Leaves, &[]),
        MatchOperation::Set(references) => (Way::Sets, references.as_slice()),
        MatchOperation::Push(references) => (Way::Pushes, references.as_slice()),
    }
}

/// The lists of items, without what stands in them.
fn empty_lists<'y>(
    alloc: Global,
    grammar: &'y Grammar,
    foreign: &[&str],
    items: &[Item<'y>],
) -> Result<Vec<List<'y>>, AllocError> {
    let mut lists: Vec<List<'y>> = Vec::new(alloc);
    for item in items {
        let Some((name, context)) = item.list else {
            continue;
        };
        let is_known = match lists.as_slice().last() {
            Some(list) => list.name == name,
            None => false,
        };
        if !is_known {
            let is_first = name == "main" || name == "prototype";
            lists.push(List {
                name,
                context,
                entries: Vec::new(alloc),
                is_first: is_first || is_named_elsewhere(grammar, foreign, name),
            })?;
        }
    }
    Ok(lists)
}

/// An item as an entry of its list; what is wrong with its pattern by itself is added.
fn entry_of(
    alloc: Global,
    grammar: &Grammar,
    lines: &Lines<'_>,
    (number, item): (usize, &Item<'_>),
    lists: &[List<'_>],
    findings: &mut Findings,
) -> Result<Option<Entry>, AllocError> {
    let Some(pattern) = item.pattern else {
        return Ok(None);
    };
    let pattern = match pattern {
        Pattern::Include(reference) => {
            let mut targets = Vec::new(alloc);
            targets.push(target_of(lists, reference))?;
            return Ok(Some(Entry {
                item: number,
                way: Way::Includes,
                known: None,
                targets,
                has_prototype: false,
                prototype: None,
            }));
        }
        Pattern::Match(pattern) => pattern,
    };
    let known = check_item(alloc, grammar, lines, item, pattern, findings)?;
    let (way, references) = way_of(pattern);
    Ok(Some(Entry {
        item: number,
        way,
        known: Some(known),
        targets: targets_of(alloc, lists, references)?,
        has_prototype: pattern.with_prototype.is_some(),
        prototype: match &pattern.with_prototype {
            Some(reference) => target_of(lists, reference),
            None => None,
        },
    }))
}

/// The number of the list that an item stands in, which is that of the item before it or a later
/// one.
fn list_from(lists: &[List<'_>], item: &Item<'_>, from: usize) -> Option<usize> {
    let (name, _) = item.list?;
    let later = lists.get(from..).unwrap_or(&[]);
    let place = later.iter().position(|list| list.name == name)?;
    Some(from.saturating_add(place))
}

/// The lists of a grammar's items; what is wrong with patterns by themselves is added.
pub fn lists_of<'y>(
    alloc: Global,
    grammar: &'y Grammar,
    foreign: &[&str],
    lines: &Lines<'_>,
    items: &[Item<'y>],
    findings: &mut Findings,
) -> Result<Vec<List<'y>>, AllocError> {
    let mut lists = empty_lists(alloc, grammar, foreign, items)?;
    let mut at = 0usize;
    for (number, item) in items.iter().enumerate() {
        let found = lists.as_slice();
        let numbered = (number, item);
        let entry = entry_of(alloc, grammar, lines, numbered, found, findings)?;
        let (Some(entry), Some(list)) = (entry, list_from(found, item, at)) else {
            continue;
        };
        at = list;
        if let Some(list) = lists.as_mut_slice().get_mut(list) {
            list.entries.push(entry)?;
        }
    }
    Ok(lists)
}

/// Marks the lists that some lead to, by includes alone or by all ways; answers whether there are
/// new ones.
fn reach_once(lists: &[List<'_>], by_includes: bool, reached: &mut [bool]) -> bool {
    let mut is_new = false;
    for (number, list) in lists.iter().enumerate() {
        if (&*reached).get(number) != Some(&true) {
            continue;
        }
        for entry in list.entries.as_slice() {
            if !by_includes || entry.way == Way::Includes {
                is_new |= mark(entry.targets.as_slice(), reached);
                is_new |= mark(&[entry.prototype], reached);
            }
        }
    }
    is_new
}

/// Marks lists, and answers whether some weren't.
fn mark(targets: &[Option<usize>], reached: &mut [bool]) -> bool {
    let mut is_new = false;
    for target in targets {
        if let Some(place) = reached.get_mut(target.unwrap_or(usize::MAX)) {
            is_new |= !*place;
            *place = true;
        }
    }
    is_new
}

/// Marks all lists that the marked ones lead to, by includes alone or by all ways.
pub fn reach(lists: &[List<'_>], by_includes: bool, reached: &mut [bool]) {
    for _ in 0..lists.len() {
        if !reach_once(lists, by_includes, reached) {
            break;
        }
    }
}

/// One flag for each list.
pub fn flags(alloc: Global, count: usize, flag: bool) -> Result<Vec<bool>, AllocError> {
    let mut all = Vec::with_capacity(alloc, count)?;
    for _ in 0..count {
        all.push(flag)?;
    }
    Ok(all)
}

/// The flag of a list.
pub fn is_set(flags: &[bool], number: usize) -> bool {
    flags.get(number) == Some(&true)
}

/// Sets the flag of a list.
pub fn set(flags: &mut [bool], number: usize, flag: bool) {
    if let Some(place) = flags.get_mut(number) {
        *place = flag;
    }
}
