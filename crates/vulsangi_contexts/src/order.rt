//! Patterns that come after others which take all places where they begin.
use crate::lists::{Entry, List, Way, flags, is_set, number_of, reach, set};
use std::alloc::{AllocError, Global};
use vulsangi_patterns::places::{Places, anywhere, either, is_none, is_within, nowhere};
use vulsangi_patterns::vulsangi_grammar::findings::{Findings, Lines};
use vulsangi_patterns::vulsangi_grammar::grammar::Item;
use vulsangi_patterns::vulsangi_grammar::place::place_of;
use vulsangi_patterns::vulsangi_grammar::rules::SAME_AGAIN;
use vulsangi_patterns::vulsangi_grammar::syntect::parsing::syntax_definition::Pattern;

/// What patterns surely take where it stands at a place.
#[derive(Clone, Copy)]
struct Taken {
    /// Always.
    always: Places,
    /// Where the context wasn't opened just there: else a match that reads nothing doesn't leave
    /// it.
    later: Places,
}

/// Nothing is taken.
fn nothing() -> Taken {
    Taken {
        always: nowhere(),
        later: nowhere(),
    }
}

/// What is taken by one or the other.
fn by_either(a: Taken, b: Taken) -> Taken {
    Taken {
        always: either(a.always, b.always),
        later: either(a.later, b.later),
    }
}

/// What is known of lists, each in its own place.
#[derive(Drop)]
struct Known {
    /// What each takes with all that it includes.
    taken: Vec<Taken>,
    /// Where patterns of it, and of what it includes, can begin.
    begins: Vec<Places>,
    /// Whether it may be asked just where it was opened.
    is_loose: Vec<bool>,
    /// Whether it may be asked without the prototype.
    is_bare: Vec<bool>,
    prototype: Option<usize>,
}

/// What a match of an entry takes.
fn taken_by(entry: &Entry) -> Taken {
    let Some(known) = &entry.known else {
        return nothing();
    };
    let facts = &known.facts;
    let opens = entry.way == Way::Pushes || entry.way == Way::Sets;
    if facts.is_dead {
        return nothing();
    }
    if facts.reads || opens {
        return Taken {
            always: facts.sure,
            later: facts.sure,
        };
    }
    Taken {
        always: nowhere(),
        later: if entry.way == Way::Leaves {
            facts.sure
        } else {
            nowhere()
        },
    }
}

/// What an entry takes, or what it includes.
fn taken_at(taken: &[Taken], entry: &Entry) -> Taken {
    if entry.way != Way::Includes {
        return taken_by(entry);
    }
    match entry.targets.as_slice().first() {
        Some(Some(target)) => taken.get(*target).copied().unwrap_or(nothing()),
        _ => nothing(),
    }
}

/// Where an entry can begin, or what it includes: anywhere, where that isn't known.
fn begins_at(begins: &[Places], entry: &Entry) -> Places {
    match &entry.known {
        Some(known) if known.facts.is_dead => nowhere(),
        Some(known) => known.facts.begins,
        None => match entry.targets.as_slice().first() {
            Some(Some(target)) => begins.get(*target).copied().unwrap_or(anywhere()),
            _ => anywhere(),
        },
    }
}

/// What the entries of a list take and where they begin, by what is known of others so far.
fn gathered(list: &List<'_>, taken: &[Taken], begins: &[Places]) -> (Taken, Places) {
    let (mut all, mut any) = (nothing(), nowhere());
    for entry in list.entries.as_slice() {
        all = by_either(all, taken_at(taken, entry));
        any = either(any, begins_at(begins, entry));
    }
    (all, any)
}

/// One more round of what lists take and where they begin.
fn gather_once(lists: &[List<'_>], taken: &mut Vec<Taken>, begins: &mut Vec<Places>) -> bool {
    let mut is_new = false;
    for (number, list) in lists.iter().enumerate() {
        let (all, any) = gathered(list, taken.as_slice(), begins.as_slice());
        if let Some(place) = begins.as_mut_slice().get_mut(number) {
            is_new |= !is_within(any, *place);
            *place = any;
        }
        if let Some(place) = taken.as_mut_slice().get_mut(number) {
            is_new |= !is_within(all.later, place.later);
            *place = all;
        }
    }
    is_new
}

/// Marks the lists that an entry opens, if its match may read nothing.
fn mark_opened(entry: &Entry, marks: &mut [bool]) {
    let reads = match &entry.known {
        Some(known) => known.facts.reads,
        None => true,
    };
    for target in entry.targets.as_slice() {
        if let (false, Some(target)) = (reads, target) {
            set(marks, *target, true);
        }
    }
    if let Some(prototype) = entry.prototype {
        set(marks, prototype, true);
    }
}

/// The lists that may be asked just where they, or what includes them, are opened by a match that
/// reads nothing.
fn loose_lists(alloc: Global, lists: &[List<'_>]) -> Result<Vec<bool>, AllocError> {
    let mut marks = flags(alloc, lists.len(), false)?;
    for (number, list) in lists.iter().enumerate() {
        if list.is_first {
            set(marks.as_mut_slice(), number, true);
        }
        for entry in list.entries.as_slice() {
            mark_opened(entry, marks.as_mut_slice());
        }
    }
    reach(lists, true, marks.as_mut_slice());
    Ok(marks)
}

/// The lists that may be asked without the prototype: those that it leads to, those that don't want
/// it, and what they include.
fn bare_lists(
    alloc: Global,
    lists: &[List<'_>],
    prototype: Option<usize>,
) -> Result<Vec<bool>, AllocError> {
    let mut marks = flags(alloc, lists.len(), prototype.is_none())?;
    set(marks.as_mut_slice(), prototype.unwrap_or(usize::MAX), true);
    reach(lists, false, marks.as_mut_slice());
    for (number, list) in lists.iter().enumerate() {
        if !list.context.meta_include_prototype {
            set(marks.as_mut_slice(), number, true);
        }
    }
    reach(lists, true, marks.as_mut_slice());
    Ok(marks)
}

/// What is known of lists.
fn known_of(alloc: Global, lists: &[List<'_>]) -> Result<Known, AllocError> {
    let (mut taken, mut begins) = (Vec::new(alloc), Vec::new(alloc));
    for _ in lists {
        taken.push(nothing())?;
        begins.push(nowhere())?;
    }
    for _ in lists {
        if !gather_once(lists, &mut taken, &mut begins) {
            break;
        }
    }
    let prototype = number_of(lists, "prototype");
    Ok(Known {
        taken,
        begins,
        is_loose: loose_lists(alloc, lists)?,
        is_bare: bare_lists(alloc, lists, prototype)?,
        prototype,
    })
}

/// What is taken at the begin of a list.
fn taken_first(known: &Known, number: usize) -> Taken {
    let (Some(prototype), false) = (known.prototype, is_set(known.is_bare.as_slice(), number))
    else {
        return nothing();
    };
    known
        .taken
        .as_slice()
        .get(prototype)
        .copied()
        .unwrap_or(nothing())
}

/// Whether one entry matches wherever a later one does, by their texts: they are the same, or the
/// one is the front of the other.
fn is_front(items: &[Item<'_>], front: &Entry, later: &Entry) -> bool {
    let (Some(a), Some(b)) = (&front.known, &later.known) else {
        return false;
    };
    let wins = front.way != Way::Stays || a.facts.reads;
    let (text, rest) = (a.front.text.as_str(), b.front.text.as_str());
    if wins && a.front.is_whole && !text.is_empty() && rest.starts_with(text) {
        return true;
    }
    let loops = front.way == Way::Leaves && !a.facts.reads;
    wins && !loops && is_same(items, front, later)
}

/// Whether two entries have the same pattern.
fn is_same(items: &[Item<'_>], a: &Entry, b: &Entry) -> bool {
    match (items.get(a.item), items.get(b.item)) {
        (Some(a), Some(b)) => match (a.pattern, b.pattern) {
            (Some(Pattern::Match(a)), Some(Pattern::Match(b))) => a.regex == b.regex,
            _ => false,
        },
        _ => false,
    }
}

/// The line where an entry stands.
fn line_of(lines: &Lines<'_>, items: &[Item<'_>], entry: &Entry) -> usize {
    match items.get(entry.item) {
        Some(item) => place_of(lines.lines.as_slice(), item.steps.as_slice()).line,
        None => 0,
    }
}

/// Adds that an entry never begins.
fn tell(
    lines: &Lines<'_>,
    items: &[Item<'_>],
    entry: &Entry,
    message: String,
    findings: &mut Findings,
) -> Result<(), AllocError> {
    let key = if entry.known.is_some() {
        "match"
    } else {
        "include"
    };
    match items.get(entry.item) {
        Some(item) => { findings.add_key(SAME_AGAIN, lines, item.steps.as_slice(), key, message) }
        None => Ok(()),
    }
}

/// What is taken at a list before an entry, as far as it counts.
fn places_of(taken: Taken, is_loose: bool) -> Places {
    if is_loose { taken.always } else { taken.later }
}

/// What is told of an entry whose places are taken by others: the last of them is one of the list's
/// own, or the prototype's.
fn told(
    alloc: Global,
    lines: &Lines<'_>,
    items: &[Item<'_>],
    last: Option<&Entry>,
    is_include: bool,
) -> Result<String, AllocError> {
    let what = if is_include {
        "nothing of what is included here can begin"
    } else {
        "this pattern can't begin"
    };
    match last {
        Some(last) => {
            let line = line_of(lines, items, last);
            format!(in alloc;
                "{what}: what stands before it, up to line {line}, takes all its places"
            )
        }
        None => format!(in alloc; "{what}: the prototype takes all its places"),
    }
}

/// The last of some entries that is needed so that all these places are taken; none, if it is the
/// prototype alone.
fn last_needed<'e>(
    known: &Known,
    first: Taken,
    is_loose: bool,
    before: &'e [Entry],
    begins: Places,
) -> Option<&'e Entry> {
    let mut taken = first;
    let mut last = None;
    for entry in before {
        if is_within(begins, places_of(taken, is_loose)) {
            return last;
        }
        taken = by_either(taken, taken_at(known.taken.as_slice(), entry));
        last = Some(entry);
    }
    last
}

/// Adds the entry, if others before it win wherever it begins.
fn check_entry(
    alloc: Global,
    lines: &Lines<'_>,
    items: &[Item<'_>],
    (known, number, taken): (&Known, usize, Taken),
    (before, entry): (&[Entry], &Entry),
    findings: &mut Findings,
) -> Result<(), AllocError> {
    let begins = begins_at(known.begins.as_slice(), entry);
    let is_loose = is_set(known.is_loose.as_slice(), number);
    if !is_none(begins) && is_within(begins, places_of(taken, is_loose)) {
        let first = taken_first(known, number);
        let last = last_needed(known, first, is_loose, before, begins);
        let message = told(alloc, lines, items, last, entry.known.is_none())?;
        return tell(lines, items, entry, message, findings);
    }
    for other in before {
        if is_front(items, other, entry) {
            let line = line_of(lines, items, other);
            let message = format!(in alloc;
                "the pattern of line {line} wins wherever this one matches"
            )?;
            return tell(lines, items, entry, message, findings);
        }
    }
    Ok(())
}

/// Adds the entries of a list that never begin.
fn check_list(
    alloc: Global,
    lines: &Lines<'_>,
    items: &[Item<'_>],
    known: &Known,
    (number, list): (usize, &List<'_>),
    findings: &mut Findings,
) -> Result<(), AllocError> {
    let mut taken = taken_first(known, number);
    let entries = list.entries.as_slice();
    for (place, entry) in entries.iter().enumerate() {
        let before = entries.get(..place).unwrap_or(&[]);
        let at = (known, number, taken);
        check_entry(alloc, lines, items, at, (before, entry), findings)?;
        taken = by_either(taken, taken_at(known.taken.as_slice(), entry));
    }
    Ok(())
}

/// Adds the patterns that never begin where they are asked, because others before them take all of
/// those places.
pub fn check(
    alloc: Global,
    lines: &Lines<'_>,
    items: &[Item<'_>],
    lists: &[List<'_>],
    findings: &mut Findings,
) -> Result<(), AllocError> {
    let known = known_of(alloc, lists)?;
    for numbered in lists.iter().enumerate() {
        check_list(alloc, lines, items, &known, numbered, findings)?;
    }
    Ok(())
}
