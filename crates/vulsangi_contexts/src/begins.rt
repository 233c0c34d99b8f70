//! Patterns that match where a line begins alone, in contexts that are never asked there.
//!
//! A context isn't asked where a line begins if each match that opens it reads something of a line,
//! if it is always left where a line ends, and if what it opens gives back in the midst of a line.
use crate::lists::{Entry, List, Way, flags, is_set, number_of, reach, set};
use std::alloc::{AllocError, Global};
use vulsangi_patterns::facts::{Facts, line_end};
use vulsangi_patterns::places::{NEWLINE, is_within};
use vulsangi_patterns::vulsangi_grammar::findings::{Findings, Lines};
use vulsangi_patterns::vulsangi_grammar::grammar::Item;
use vulsangi_patterns::vulsangi_grammar::rules::NO_LINE_BEGINS;

/// What entries of a list may do, or of those that it includes.
#[derive(Clone, Copy, Debug, PartialEq, Eq)]
struct Doings {
    /// Ask lists that aren't known here.
    asks_others: bool,
    /// Read a newline, and stay.
    keeps_newline: bool,
    /// Read a newline, and leave.
    leaves_with_newline: bool,
    /// Leave without reading.
    leaves_at_once: bool,
    /// Always leave where a line ends.
    leaves_at_end: bool,
    /// Open what may give back where a line begins.
    opens_loosely: bool,
    /// Give way to what may give back where a line begins.
    sets_loosely: bool,
}

/// Nothing of these.
const NOTHING: Doings = Doings {
    asks_others: false,
    keeps_newline: false,
    leaves_with_newline: false,
    leaves_at_once: false,
    leaves_at_end: false,
    opens_loosely: false,
    sets_loosely: false,
};

/// What one or the other does.
fn either_does(a: Doings, b: Doings) -> Doings {
    Doings {
        asks_others: a.asks_others || b.asks_others,
        keeps_newline: a.keeps_newline || b.keeps_newline,
        leaves_with_newline: a.leaves_with_newline || b.leaves_with_newline,
        leaves_at_once: a.leaves_at_once || b.leaves_at_once,
        leaves_at_end: a.leaves_at_end || b.leaves_at_end,
        opens_loosely: a.opens_loosely || b.opens_loosely,
        sets_loosely: a.sets_loosely || b.sets_loosely,
    }
}

/// What is known of lists, each in its own place.
#[derive(Drop)]
struct Lists {
    /// Whether it is open and never asked where a line begins.
    is_inside: Vec<bool>,
    /// Whether what was open below it is next asked in the midst of a line.
    gives_back: Vec<bool>,
}

/// Whether a flag isn't set for one of some lists, or one isn't known.
fn lacks(flags: &[bool], targets: &[Option<usize>]) -> bool {
    targets.iter().any(|target| match target {
        Some(number) => !is_set(flags, *number),
        None => true,
    })
}

/// What a match of an entry may do.
fn doings_of_match(entry: &Entry, facts: &Facts, known: &Lists) -> Doings {
    let leaves = entry.way == Way::Leaves;
    let is_last = leaves || entry.way == Way::Sets;
    let lacks = lacks(known.gives_back.as_slice(), entry.targets.as_slice());
    Doings {
        asks_others: entry.has_prototype,
        // where no line begins these never match
        keeps_newline: !is_last && facts.takes_newline && !wants_begin(facts),
        leaves_with_newline: leaves && facts.takes_newline,
        leaves_at_once: leaves && !facts.reads,
        leaves_at_end: is_last && facts.sure.ascii & NEWLINE != 0,
        opens_loosely: entry.way == Way::Pushes && lacks && !wants_begin(facts),
        sets_loosely: entry.way == Way::Sets && lacks,
    }
}

/// What an entry may do, by what other lists do.
fn doings_of(entry: &Entry, known: &Lists, doings: &[Doings]) -> Doings {
    if let Some(pattern) = &entry.known {
        if pattern.facts.is_dead {
            return NOTHING;
        }
        return doings_of_match(entry, &pattern.facts, known);
    }
    let beyond = Doings {
        asks_others: true,
        ..NOTHING
    };
    match entry.targets.as_slice().first() {
        Some(Some(target)) => doings.get(*target).copied().unwrap_or(beyond),
        _ => beyond,
    }
}

/// What the entries of a list may do, by what other lists do.
fn gathered(list: &List<'_>, known: &Lists, doings: &[Doings]) -> Doings {
    let mut all = NOTHING;
    for entry in list.entries.as_slice() {
        all = either_does(all, doings_of(entry, known, doings));
    }
    all
}

/// One more round of what lists may do; answers whether there is more than before.
fn gather_once(lists: &[List<'_>], known: &Lists, doings: &mut Vec<Doings>) -> bool {
    let mut is_new = false;
    for (number, list) in lists.iter().enumerate() {
        let all = gathered(list, known, doings.as_slice());
        if let Some(place) = doings.as_mut_slice().get_mut(number) {
            is_new |= *place != all;
            *place = all;
        }
    }
    is_new
}

/// What each list may do, with the prototype where it is asked.
fn doings_in(alloc: Global, lists: &[List<'_>], known: &Lists) -> Result<Vec<Doings>, AllocError> {
    let mut doings = Vec::new(alloc);
    for _ in lists {
        doings.push(NOTHING)?;
    }
    for _ in lists {
        if !gather_once(lists, known, &mut doings) {
            break;
        }
    }
    let prototype = match number_of(lists, "prototype") {
        Some(number) => doings.as_slice().get(number).copied().unwrap_or(NOTHING),
        None => NOTHING,
    };
    for (number, list) in lists.iter().enumerate() {
        if !list.context.meta_include_prototype {
            continue;
        }
        if let Some(place) = doings.as_mut_slice().get_mut(number) {
            let leaves_at_end = place.leaves_at_end;
            *place = either_does(*place, prototype);
            // it is not known here that the prototype is asked
            place.leaves_at_end = leaves_at_end;
        }
    }
    Ok(doings)
}

/// Takes the flags of lists that an entry opens otherwise than by reading a part of a line.
fn take_opened(entry: &Entry, is_inside: &mut [bool]) {
    let is_inner = match &entry.known {
        Some(known) => known.facts.reads && !known.facts.takes_newline && !entry.has_prototype,
        None => true,
    };
    let last = entry.targets.len().saturating_sub(1);
    for (place, target) in entry.targets.as_slice().iter().enumerate() {
        if let (true, Some(number)) = (!is_inner || place < last, target) {
            set(is_inside, *number, false);
        }
    }
}

/// The lists that matches open.
fn opened_lists(alloc: Global, lists: &[List<'_>]) -> Result<Vec<bool>, AllocError> {
    let mut opened = flags(alloc, lists.len(), false)?;
    for list in lists {
        for entry in list.entries.as_slice() {
            for target in entry.targets.as_slice() {
                if entry.way != Way::Includes {
                    set(opened.as_mut_slice(), target.unwrap_or(usize::MAX), true);
                }
            }
        }
    }
    Ok(opened)
}

/// The lists in which patterns of a `with_prototype` may be asked.
fn lists_beneath(alloc: Global, lists: &[List<'_>]) -> Result<Vec<bool>, AllocError> {
    let mut beneath = flags(alloc, lists.len(), false)?;
    for list in lists {
        for entry in list.entries.as_slice() {
            if !entry.has_prototype {
                continue;
            }
            set(
                beneath.as_mut_slice(),
                entry.prototype.unwrap_or(usize::MAX),
                true,
            );
            for target in entry.targets.as_slice() {
                set(beneath.as_mut_slice(), target.unwrap_or(usize::MAX), true);
            }
        }
    }
    reach(lists, false, beneath.as_mut_slice());
    Ok(beneath)
}

/// What lists may be by the matches that open them.
fn lists_at_first(alloc: Global, lists: &[List<'_>]) -> Result<Lists, AllocError> {
    let mut is_inside = opened_lists(alloc, lists)?;
    let mut gives_back = flags(alloc, lists.len(), true)?;
    let beneath = lists_beneath(alloc, lists)?;
    for (number, list) in lists.iter().enumerate() {
        if list.is_first || is_set(beneath.as_slice(), number) {
            set(is_inside.as_mut_slice(), number, false);
        }
        if is_set(beneath.as_slice(), number) {
            set(gives_back.as_mut_slice(), number, false);
        }
        for entry in list.entries.as_slice() {
            take_opened(entry, is_inside.as_mut_slice());
        }
    }
    Ok(Lists {
        is_inside,
        gives_back,
    })
}

/// Takes the flags of lists that do what they mustn't; answers whether some were taken.
fn take_once(known: &mut Lists, doings: &[Doings]) -> bool {
    let mut is_new = false;
    for (number, does) in doings.iter().enumerate() {
        let was_inside = is_set(known.is_inside.as_slice(), number);
        let did_give = is_set(known.gives_back.as_slice(), number);
        let is_inside = was_inside
            && does.leaves_at_end
            && !does.asks_others
            && !does.keeps_newline
            && !does.opens_loosely;
        let gives_back = did_give
            && !does.asks_others
            && !does.leaves_with_newline
            && !does.sets_loosely
            && (is_inside || !does.leaves_at_once);
        set(known.is_inside.as_mut_slice(), number, is_inside);
        set(known.gives_back.as_mut_slice(), number, gives_back);
        is_new |= is_inside != was_inside || gives_back != did_give;
    }
    is_new
}

/// The lists that are never asked where a line begins.
fn lists_inside(alloc: Global, lists: &[List<'_>]) -> Result<Vec<bool>, AllocError> {
    let mut known = lists_at_first(alloc, lists)?;
    for _ in 0..=lists.len().saturating_mul(2) {
        let doings = doings_in(alloc, lists, &known)?;
        if !take_once(&mut known, doings.as_slice()) {
            return Ok(known.is_inside);
        }
    }
    flags(alloc, lists.len(), false)
}

/// Whether a pattern matches where a line begins alone.
fn wants_begin(facts: &Facts) -> bool {
    !facts.is_dead && facts.back.end && is_within(facts.back, line_end())
}

/// Whether an entry's pattern matches where a line begins alone.
fn is_wanting(entry: &Entry) -> bool {
    match &entry.known {
        Some(known) => wants_begin(&known.facts),
        None => false,
    }
}

/// The lists that are asked in no context but those inside of lines.
fn lists_told(alloc: Global, lists: &[List<'_>]) -> Result<Vec<bool>, AllocError> {
    let mut inside = lists_inside(alloc, lists)?;
    let mut outside = opened_lists(alloc, lists)?;
    for (number, list) in lists.iter().enumerate() {
        if is_set(inside.as_slice(), number) {
            set(outside.as_mut_slice(), number, false);
        }
        if list.is_first {
            set(outside.as_mut_slice(), number, true);
        }
        for entry in list.entries.as_slice() {
            set(
                outside.as_mut_slice(),
                entry.prototype.unwrap_or(usize::MAX),
                true,
            );
        }
    }
    reach(lists, true, outside.as_mut_slice());
    reach(lists, true, inside.as_mut_slice());
    for number in 0..lists.len() {
        if is_set(outside.as_slice(), number) {
            set(inside.as_mut_slice(), number, false);
        }
    }
    Ok(inside)
}

/// Adds the patterns that match where a line begins alone, in contexts that are never asked there.
pub fn check(
    alloc: Global,
    lines: &Lines<'_>,
    items: &[Item<'_>],
    lists: &[List<'_>],
    findings: &mut Findings,
) -> Result<(), AllocError> {
    let told = lists_told(alloc, lists)?;
    for (number, list) in lists.iter().enumerate() {
        if is_set(told.as_slice(), number) {
            check_list(alloc, lines, items, list, findings)?;
        }
    }
    Ok(())
}

/// Adds those of a list.
fn check_list(
    alloc: Global,
    lines: &Lines<'_>,
    items: &[Item<'_>],
    list: &List<'_>,
    findings: &mut Findings,
) -> Result<(), AllocError> {
    for entry in list.entries.as_slice() {
        let Some(item) = items.get(entry.item) else {
            continue;
        };
        if is_wanting(entry) {
            let message = format!(in alloc;
                "this matches where a line begins, and its context is never asked there"
            )?;
            findings.add_key(
                NO_LINE_BEGINS,
                lines,
                item.steps.as_slice(),
                "match",
                message,
            )?;
        }
    }
    Ok(())
}
