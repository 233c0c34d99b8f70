//! What is known of a pattern's matches: where they can begin, where they surely begin, and what
//! stands around them. It is found part by part; each node of a pattern's table comes after its
//! parts.
use crate::places::{
    NEWLINE, Places, WORD, anywhere, both, either, is_all, is_none, is_within, nowhere, of_ascii,
    others, sure_of_class,
};
use std::alloc::{AllocError, Global};
use syntect_regex::below::pattern::anchor::Anchor;
use syntect_regex::below::pattern_table::node::{Class, Node};
use syntect_regex::below::pattern_table::program::Program;
use syntect_regex::below::pattern_table::starts::{
    places_of_char, places_of_class, places_of_letter,
};

/// What is known of a part's matches. Of what stands before a place, the end stands for the
/// begin of the text.
#[derive(Clone, Copy)]
pub struct Facts {
    /// It has no match.
    pub is_dead: bool,
    /// Each match reads something.
    pub reads: bool,
    /// No match reads anything.
    pub stays: bool,
    /// A match may read a newline.
    pub takes_newline: bool,
    /// What can stand where a match begins.
    pub begins: Places,
    /// Where one of these stands a match begins, whatever stands before and after.
    pub sure: Places,
    /// After one of those that surely begin comes one of these.
    pub until: Places,
    /// What can stand before a match.
    pub back: Places,
    /// The last character of a match that reads something.
    pub last: Places,
    /// What can stand after a match.
    pub ahead: Places,
}

/// A part that reads nothing, with what can stand where it matches.
fn staying(begins: Places) -> Facts {
    Facts {
        is_dead: false,
        reads: false,
        stays: true,
        takes_newline: false,
        begins,
        sure: anywhere(),
        until: anywhere(),
        back: anywhere(),
        last: nowhere(),
        ahead: begins,
    }
}

/// A part of which nothing is known.
pub fn unknown() -> Facts {
    Facts {
        stays: false,
        takes_newline: true,
        sure: nowhere(),
        last: anywhere(),
        ..staying(anywhere())
    }
}

/// A character of these, and surely one of those.
fn reading(begins: Places, sure: Places) -> Facts {
    Facts {
        is_dead: is_none(begins),
        reads: true,
        stays: false,
        takes_newline: begins.ascii & NEWLINE != 0,
        sure,
        last: begins,
        ahead: anywhere(),
        ..staying(begins)
    }
}

/// A character.
fn of_char(c: char) -> Facts {
    let begins = places_of_char(c);
    reading(begins, of_ascii(begins.ascii))
}

/// A letter.
fn of_letter(fold: bool, letter: u8) -> Facts {
    let begins = places_of_letter(fold, letter);
    reading(begins, of_ascii(begins.ascii))
}

/// A character of a class.
fn of_class(class: &Class, is_plain: bool) -> Facts {
    reading(places_of_class(class), sure_of_class(class, is_plain))
}

/// A newline, or the end of the text.
pub fn line_end() -> Places {
    Places {
        end: true,
        ..of_ascii(NEWLINE)
    }
}

/// The end of the text.
fn text_end() -> Places {
    Places {
        end: true,
        ..nowhere()
    }
}

/// An anchor.
fn of_anchor(anchor: Anchor) -> Facts {
    match anchor {
        Anchor::LineEnd => Facts {
            sure: line_end(),
            ..staying(line_end())
        },
        Anchor::LastLineEnd => Facts {
            sure: text_end(),
            ..staying(line_end())
        },
        Anchor::TextEnd => Facts {
            sure: text_end(),
            ..staying(text_end())
        },
        Anchor::LineStart => Facts {
            sure: nowhere(),
            back: line_end(),
            ..staying(anywhere())
        },
        Anchor::TextStart => Facts {
            sure: nowhere(),
            back: text_end(),
            ..staying(anywhere())
        },
        Anchor::WordEdge | Anchor::NoWordEdge => Facts {
            sure: nowhere(),
            ..staying(anywhere())
        },
    }
}

/// Where one part after the other surely begins: where the first one does, if the second one surely
/// follows.
fn sure_in_sequence(a: &Facts, b: &Facts) -> Places {
    if a.stays {
        both(a.sure, b.sure)
    } else if is_within(a.until, b.sure) {
        a.sure
    } else {
        nowhere()
    }
}

/// What can stand before one part after the other.
fn back_in_sequence(a: &Facts, b: &Facts) -> Places {
    let can_read = !a.stays && !is_none(both(a.last, b.back));
    let read = if can_read { a.back } else { nowhere() };
    let stay = if a.reads {
        nowhere()
    } else {
        both(a.back, b.back)
    };
    either(read, stay)
}

/// What can stand before the place where the second part begins.
fn between(a: &Facts) -> Places {
    let read = if a.stays { nowhere() } else { a.last };
    let stay = if a.reads { nowhere() } else { a.back };
    either(read, stay)
}

/// What can stand where one part after the other begins.
fn begins_in_sequence(a: &Facts, b: &Facts) -> Places {
    if a.reads {
        a.begins
    } else if a.stays {
        both(a.begins, b.begins)
    } else {
        either(a.begins, b.begins)
    }
}

/// The last character of one part after the other.
fn last_in_sequence(a: &Facts, b: &Facts) -> Places {
    let second = if b.stays { nowhere() } else { b.last };
    let first = if b.reads || a.stays {
        nowhere()
    } else {
        both(a.last, b.back)
    };
    either(second, first)
}

/// One part after the other.
fn in_sequence(a: &Facts, b: &Facts) -> Facts {
    let back = back_in_sequence(a, b);
    let is_apart = is_none(both(between(a), b.back)) || is_none(both(a.ahead, b.begins));
    Facts {
        is_dead: a.is_dead || b.is_dead || is_apart || is_none(back),
        reads: a.reads || b.reads,
        stays: a.stays && b.stays,
        takes_newline: a.takes_newline || b.takes_newline,
        begins: begins_in_sequence(a, b),
        sure: sure_in_sequence(a, b),
        until: if b.stays { anywhere() } else { b.until },
        back,
        last: last_in_sequence(a, b),
        ahead: if b.stays {
            both(a.ahead, b.ahead)
        } else {
            b.ahead
        },
    }
}

/// One of two parts.
fn one_of_two(a: &Facts, b: &Facts) -> Facts {
    if a.is_dead {
        return *b;
    }
    if b.is_dead {
        return *a;
    }
    Facts {
        is_dead: false,
        reads: a.reads && b.reads,
        stays: a.stays && b.stays,
        takes_newline: a.takes_newline || b.takes_newline,
        begins: either(a.begins, b.begins),
        sure: either(a.sure, b.sure),
        until: either(a.until, b.until),
        back: either(a.back, b.back),
        last: either(a.last, b.last),
        ahead: either(a.ahead, b.ahead),
    }
}

/// A part again and again: at least so many times, and without a limit if it has none. Of a single
/// character as many are read as there are.
fn in_loop(a: &Facts, least: u32, has_limit: bool, is_single: bool) -> Facts {
    let until = if is_single && !has_limit {
        others(a.sure)
    } else {
        anywhere()
    };
    if least == 0 {
        let last = if a.is_dead { nowhere() } else { a.last };
        return Facts {
            stays: a.stays || a.is_dead,
            takes_newline: a.takes_newline,
            until,
            last,
            ..staying(anywhere())
        };
    }
    let is_sure = least == 1 || is_all(a.sure);
    Facts {
        sure: if is_sure { a.sure } else { nowhere() },
        until,
        ..*a
    }
}

/// A part looked for ahead.
fn in_lookahead(a: &Facts, negated: bool) -> Facts {
    if !negated {
        return Facts {
            is_dead: a.is_dead,
            sure: a.sure,
            back: a.back,
            ..staying(a.begins)
        };
    }
    if a.is_dead {
        return staying(anywhere());
    }
    Facts {
        is_dead: is_all(a.sure),
        sure: others(a.begins),
        ..staying(others(a.sure))
    }
}

/// A part looked for behind. `is_single` says whether it is a single character.
fn in_lookbehind(a: &Facts, negated: bool, is_single: bool) -> Facts {
    let back = if !negated {
        between(a)
    } else if is_single {
        others(a.sure)
    } else {
        anywhere()
    };
    Facts {
        is_dead: !negated && a.is_dead,
        sure: nowhere(),
        back,
        ..staying(anywhere())
    }
}

/// What is known of the node with the number.
fn facts_at(facts: &[Facts], node: usize) -> Facts {
    match facts.get(node) {
        Some(found) => *found,
        None => unknown(),
    }
}

/// Whether a node is a single character.
fn is_single(nodes: &[Node], node: usize) -> bool {
    matches!(nodes.get(node), Some(Node::Char(_) | Node::Class(_)))
}

/// Letters, and what comes after them.
fn of_letters(fold: bool, first: u8, letters: &[u8], rest: Facts) -> Facts {
    let mut found = rest;
    for letter in letters.iter().rev() {
        found = in_sequence(&of_letter(fold, *letter), &found);
    }
    in_sequence(&of_letter(fold, first), &found)
}

/// What can stand before a part that comes after an edge of a word, or where none is.
fn after_edge(is_edge: bool, b: &Facts) -> Places {
    let word = of_ascii(WORD);
    let wide = Places {
        wide: true,
        ..nowhere()
    };
    let is_word = b.reads && is_within(b.begins, word);
    let is_other = b.reads && is_none(both(b.begins, either(word, wide)));
    if is_word == is_other {
        return anywhere();
    }
    // an edge of a word has a word at one side alone
    if is_word == is_edge {
        others(word)
    } else {
        either(word, wide)
    }
}

/// One node after the other.
fn nodes_in_sequence(nodes: &[Node], before: &[Facts], first: usize, second: usize) -> Facts {
    let (mut a, b) = (facts_at(before, first), facts_at(before, second));
    match nodes.get(first) {
        Some(Node::Anchor(Anchor::WordEdge)) => a.back = after_edge(true, &b),
        Some(Node::Anchor(Anchor::NoWordEdge)) => a.back = after_edge(false, &b),
        _ => {}
    }
    in_sequence(&a, &b)
}

/// What is known of a node, by what is known of those before it.
fn facts_of_node(nodes: &[Node], node: &Node, before: &[Facts], is_plain: bool) -> Facts {
    match node {
        Node::Nothing => staying(anywhere()),
        Node::Char(c) => of_char(*c),
        Node::Class(class) => of_class(class, is_plain),
        Node::Anchor(anchor) => of_anchor(*anchor),
        Node::Same { .. } => unknown(),
        Node::Text { letters, rest } => {
            let rest = facts_at(before, *rest);
            of_letters(letters.fold, letters.first, letters.others(), rest)
        }
        Node::Sequence(first, second) => nodes_in_sequence(nodes, before, *first, *second),
        Node::Alternation(first, second) => {
            one_of_two(&facts_at(before, *first), &facts_at(before, *second))
        }
        Node::Repeat {
            least,
            most,
            body,
            ..
        } => in_loop(
            &facts_at(before, *body),
            *least,
            most.is_some(),
            is_single(nodes, *body),
        ),
        Node::Group { body, .. } => facts_at(before, *body),
        Node::Atomic(body) => Facts {
            until: anywhere(),
            ..facts_at(before, *body)
        },
        Node::Ahead { negated, body } => in_lookahead(&facts_at(before, *body), *negated),
        Node::Behind { negated, body } => {
            in_lookbehind(&facts_at(before, *body), *negated, is_single(nodes, *body))
        }
    }
}

/// What is known of a pattern.
pub fn facts_of(alloc: Global, program: &Program, is_plain: bool) -> Result<Facts, AllocError> {
    let nodes = program.nodes.as_slice();
    let mut facts: Vec<Facts> = Vec::with_capacity(alloc, nodes.len())?;
    for (number, node) in nodes.iter().enumerate() {
        let mut next = facts_of_node(nodes, node, facts.as_slice(), is_plain);
        if let Some(firsts) = program.firsts.get(number) {
            next.begins = both(next.begins, firsts);
        }
        facts.push(next)?;
    }
    Ok(facts_at(facts.as_slice(), program.root))
}
