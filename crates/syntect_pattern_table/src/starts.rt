//! Where a match can begin, as far as the byte there tells.
ghost use Rattle.std.specs.Prelude.{◌≡◌, ◌<◌, ◌≤◌, ◌||◌, ◌&&◌, ◌==◌, nat_lt, not, ℕ, IfOk, List, OnOk, length, slice_index_or, true, false};
ghost use Rattle.syntect_pattern.specs.Sets.{alike, from_to, holds, range};
ghost use Rattle.syntect_pattern.specs.Trees.{Tree};
ghost use Rattle.syntect_pattern_table.specs.Table.{IsOrdered, node_tree, parts_before, set_of, trees};
ghost use Rattle.syntect_pattern_table.specs.Starts as spec;
ghost use Rattle.syntect_pattern_table.specs.declared.starts.Places.{Places as APlaces};
ghost use Rattle.syntect_pattern_table.specs.Starts.{AreFirsts, Begin, KeepsRows, begins, begins_at, either_begins, firsts_at, looked_begins, looped_begins, reads, row_at, sequence_begins, stays};

use crate::ascii::{bits_of, put};
use crate::node::{Class, Node};
use crate::place_list::{PlaceList, Slots};
use crate::sets::{Part, has_bit, is_alike_wide};
use std::alloc::{AllocError, Global};
use syntect_pattern::anchor::Anchor;
use syntect_values::seq::Seq;

/// Some of what can stand at a place.
#[derive(Clone, Copy)]
pub struct Places {
    /// The ASCII characters, a bit for each.
    pub ascii: u128,
    /// Any other character.
    pub wide: bool,
    /// The end of the text.
    pub end: bool,
}

/// Where matches of a node can read something, and where they can read nothing.
#[derive(Clone, Copy)]
pub struct Firsts {
    pub read: Places,
    pub stay: Places,
}

/// Nothing can stand there.
#[tactic(auto, using(crate::proofs::PlaceLaws::none_in))]
pub fn nowhere() -> Places
    ensures { (x : ℕ) → spec.is_in result x ≡ false }
{
    Places {
        ascii: 0,
        wide: false,
        end: false,
    }
}

/// Whether nothing can stand there.
#[tactic(auto, using(crate::proofs::PlaceLaws::none_there))]
fn is_nowhere(places: Places) -> bool
    ensures { result ≡ true → (x : ℕ) → spec.is_in places x ≡ false }
{
    places.ascii == 0 && !places.wide && !places.end
}

/// Anything can stand there.
#[tactic(auto, using(crate::proofs::PlaceLaws::all_in))]
pub fn anywhere() -> Places
    ensures { (x : ℕ) → spec.is_in result x ≡ true }
{
    Places {
        ascii: u128::MAX,
        wide: true,
        end: true,
    }
}

/// What is in one of the two.
#[tactic(auto, using(crate::proofs::PlaceLaws::either_in))]
pub fn either(a: Places, b: Places) -> Places
    ensures { (x : ℕ) → spec.is_in result x ≡ (spec.is_in a x || spec.is_in b x) }
{
    Places {
        ascii: a.ascii | b.ascii,
        wide: a.wide | b.wide,
        end: a.end | b.end,
    }
}

/// What is in both.
#[tactic(auto, using(crate::proofs::PlaceLaws::both_in))]
fn both(a: Places, b: Places) -> Places
    ensures { (x : ℕ) → spec.is_in result x ≡ (spec.is_in a x && spec.is_in b x) }
{
    Places {
        ascii: a.ascii & b.ascii,
        wide: a.wide & b.wide,
        end: a.end & b.end,
    }
}

/// Whether this can stand there: an ASCII character, 128 for any other, or 129 for the end.
pub fn is_in(places: Places, x: u8) -> bool
    ensures { result ≡ spec.is_in places x }
{
    if x < 128 {
        has_bit(places.ascii, u32::from(x))
    } else if x == 128 {
        places.wide
    } else {
        places.end
    }
}

/// Where the character can stand.
pub fn places_of_char(wanted: char) -> Places
    ensures { (x : ℕ) → x < 130 → spec.is_in result x ≡ spec.can_hold (range wanted wanted) x }
{
    if wanted.is_ascii() {
        Places {
            ascii: put(0, wanted as u32),
            wide: false,
            end: false,
        }
    } else {
        Places {
            ascii: 0,
            wide: true,
            end: false,
        }
    }
}

/// Where a character can stand that simple folding makes equal to this one.
fn places_of_alike(wanted: char) -> Places
    ensures { (x : ℕ) → x < 130 → spec.is_in result x ≡ spec.can_hold (alike wanted wanted) x }
{
    Places {
        ascii: bits_of(Part::Alike(wanted, wanted), &[]),
        wide: is_alike_wide(wanted, wanted),
        end: false,
    }
}

/// Where the letter can stand.
pub fn places_of_letter(fold: bool, letter: u8) -> Places
    ensures { (x : ℕ) → x < 130
        → spec.is_in result x ≡ spec.can_hold (from_to fold letter letter) x }
{
    let wanted = letter as char;
    if fold {
        places_of_alike(wanted)
    } else {
        places_of_char(wanted)
    }
}

/// Where a character of the class can stand.
pub fn places_of_class(class: &Class) -> Places
    ensures { (x : ℕ) → x < 130 → spec.is_in result x ≡ spec.can_hold (set_of class.now) x }
{
    Places {
        ascii: class.ascii(),
        wide: class.is_wide(),
        end: false,
    }
}

/// Where no ASCII character but a newline stands.
#[tactic(auto, using(crate::proofs::PlaceLaws::newline_in))]
fn before_newline() -> Places
    ensures { (x : ℕ) → spec.is_in result x ≡ (not (nat_lt x 128) || x == 10) }
{
    Places {
        ascii: put(0, 10),
        wide: true,
        end: true,
    }
}

/// The end of the text.
#[tactic(auto, using(crate::proofs::PlaceLaws::end_in))]
fn at_end() -> Places
    ensures { (x : ℕ) → x < 130 → spec.is_in result x ≡ (x == 129) }
{
    Places {
        ascii: 0,
        wide: false,
        end: true,
    }
}

/// Where the anchor can hold.
fn places_of_anchor(anchor: Anchor) -> Places
    ensures { (x : ℕ) → x < 130 → spec.is_in result x ≡ spec.can_stand anchor x }
{
    match anchor {
        Anchor::LineEnd => before_newline(),
        Anchor::LastLineEnd => before_newline(),
        Anchor::TextEnd => at_end(),
        _ => anywhere(),
    }
}

/// Where the one after the other can begin.
pub fn in_sequence(a: Firsts, b: Firsts) -> Firsts
    ensures { (x : ℕ) → begins_at x result ≡ sequence_begins (begins_at x a) (begins_at x b) }
{
    if is_nowhere(a.stay) {
        return a;
    }
    Firsts {
        read: either(a.read, both(a.stay, b.read)),
        stay: both(a.stay, b.stay),
    }
}

/// Where one of the two can begin.
pub fn one_of_two(a: Firsts, b: Firsts) -> Firsts
    ensures { (x : ℕ) → begins_at x result ≡ either_begins (begins_at x a) (begins_at x b) }
{
    Firsts {
        read: either(a.read, b.read),
        stay: either(a.stay, b.stay),
    }
}

/// Where a loop of at least so many turns can begin.
pub fn in_loop(a: Firsts, least: u32) -> Firsts
    ensures { (x : ℕ) → begins_at x result ≡ looped_begins (least == 0) (begins_at x a) }
{
    let stay = if least == 0 { anywhere() } else { a.stay };
    Firsts { read: a.read, stay }
}

/// Where a lookahead can begin.
pub fn ahead(a: Firsts, negated: bool) -> Firsts
    ensures { (x : ℕ) → begins_at x result ≡ looked_begins negated (begins_at x a) }
{
    let stay = if negated {
        anywhere()
    } else {
        either(a.read, a.stay)
    };
    Firsts {
        read: nowhere(),
        stay,
    }
}

/// Where the node at a place can begin, by the nodes' places so far, their rows and the rows' list.
#[inline]
fn at(places: &PlaceList, rows: &[usize], firsts: &[Firsts], place: usize) -> Firsts
    requires inside { place < length places.now }
    requires both { length rows.now ≡ length places.now }
    ensures { result ≡ firsts_at places.now rows.now firsts.now place }
{
    let nothing = Places {
        ascii: 0,
        wide: false,
        end: false,
    };
    let row = rows[place];
    if row == 0 {
        return Firsts {
            read: places.get(place).unwrap_or(nothing),
            stay: nothing,
        };
    }
    match firsts.get(row - 1) {
        Some(found) => *found,
        None => Firsts {
            read: nothing,
            stay: nothing,
        },
    }
}

/// Where a part can begin with another after it, which counts if the first can read nothing.
fn sequence_at(
    places: &PlaceList,
    rows: &[usize],
    firsts: &[Firsts],
    first: usize,
    second: usize,
) -> Firsts
    requires first { first < length places.now }
    requires second { second < length places.now }
    requires both { length rows.now ≡ length places.now }
    ensures { (x : ℕ) → begins_at x result ≡ sequence_begins
        (begins_at x (firsts_at places.now rows.now firsts.now first))
        (begins_at x (firsts_at places.now rows.now firsts.now second)) }
{
    let front = at(places, rows, firsts, first);
    if is_nowhere(front.stay) {
        return front;
    }
    in_sequence(front, at(places, rows, firsts, second))
}

/// Where the node can begin, by where those of the nodes before it do.
fn firsts_of(node: &Node, places: &PlaceList, rows: &[usize], firsts: &[Firsts]) -> Firsts
    requires parts { parts_before (length places.now) node.now ≡ true }
    requires both { length rows.now ≡ length places.now }
    ensures { (ts : List Tree) (x : ℕ) → x < 130 → Begin x places.now rows.now firsts.now ts
        → begins_at x result ≡ begins x (node_tree ts node.now) }
{
    match node {
        Node::Nothing | Node::Behind { .. } => Firsts {
            read: nowhere(),
            stay: anywhere(),
        },
        Node::Char(wanted) => Firsts {
            read: places_of_char(*wanted),
            stay: nowhere(),
        },
        Node::Class(class) => Firsts {
            read: places_of_class(class),
            stay: nowhere(),
        },
        Node::Anchor(anchor) => Firsts {
            read: nowhere(),
            stay: places_of_anchor(*anchor),
        },
        Node::Same { .. } => Firsts {
            read: anywhere(),
            stay: anywhere(),
        },
        Node::Text { letters, .. } => Firsts {
            read: places_of_letter(letters.fold, letters.first),
            stay: nowhere(),
        },
        Node::Sequence(first, second) => sequence_at(places, rows, firsts, *first, *second),
        Node::Alternation(first, second) => one_of_two(
            at(places, rows, firsts, *first),
            at(places, rows, firsts, *second),
        ),
        Node::Repeat { least, body, .. } => in_loop(at(places, rows, firsts, *body), *least),
        Node::Group { body, .. } => at(places, rows, firsts, *body),
        Node::Atomic(body) => at(places, rows, firsts, *body),
        Node::Ahead { negated, body } => ahead(at(places, rows, firsts, *body), *negated),
    }
}

/// What stands at the place: an ASCII character, 128 for any other, or 129 for the end.
pub fn start_at(text: &str, place: usize) -> u8
    ensures value { result ≡ spec.start_at text.now place }
    ensures bound { result < 130 }
{
    let bytes = text.as_bytes();
    if place < bytes.len() {
        bytes[place].min(128)
    } else {
        129
    }
}

/// The row of a node that begins so: a new one, or 0, where no match of it reads nothing.
#[inline]
fn row_of(firsts: &mut Vec<Firsts>, next: Firsts) -> Result<usize, AllocError>
    ensures kept { OnOk result (KeepsRows firsts.old.items firsts.new.items) }
    ensures within { IfOk result (λ row. row ≤ length firsts.new.items) }
    ensures row { IfOk result (λ row. (p : APlaces) (x : ℕ)
        → spec.is_in p x ≡ (spec.is_in next.read x || spec.is_in next.stay x)
        → begins_at x (row_at p firsts.new.items row) ≡ begins_at x next) }
{
    if is_nowhere(next.stay) {
        return Ok(0);
    }
    firsts.push(next)?;
    Ok(firsts.len())
}

/// Where matches of each node can begin. The few nodes that can read nothing have a row for where
/// they read something and where they don't; all matches of others begin where they read something.
pub fn places_of(alloc: Global, nodes: &[Node]) -> Result<PlaceList, AllocError>
    requires { IsOrdered nodes.now }
    ensures count { IfOk result (λ ps. length ps ≡ length nodes.now) }
    ensures firsts { IfOk result (λ ps. AreFirsts ps (trees nodes.now)) }
{
    let mut places = PlaceList::with_capacity(alloc, nodes.len())?;
    let mut rows = Vec::with_capacity(alloc, nodes.len())?;
    let mut firsts = Vec::new(alloc);
    let mut slots: Slots = [0; 256];
    for place in 0..nodes.len() {
        let node = &nodes[place];
        if let Node::Char(wanted) = node {
            rows.push_reserved(0);
            places.push(&mut slots, places_of_char(*wanted))?;
            continue;
        }
        if let Node::Sequence(first, _) = node {
            if rows[*first] == 0 {
                let read = places.get(*first).unwrap_or(nowhere());
                rows.push_reserved(0);
                places.push(&mut slots, read)?;
                continue;
            }
        }
        let next = firsts_of(node, &places, rows.as_slice(), firsts.as_slice());
        let row = row_of(&mut firsts, next)?;
        rows.push_reserved(row);
        places.push(&mut slots, either(next.read, next.stay))?;
    }
    places.shrink_to_fit();
    Ok(places)
}

/// For all that can stand at a place whether it is one of these.
pub fn flags_of(alloc: Global, places: Places) -> Result<Seq<bool>, AllocError>
    ensures { IfOk result (λ flags. (x : ℕ) → x < 130 → slice_index_or flags x true
        ≡ spec.is_in places x) }
{
    let mut flags = Vec::with_capacity(alloc, 130)?;
    let mut rest = places.ascii;
    for _ in 0..128u8 {
        flags.push_reserved(rest & 1 == 1);
        rest >>= 1;
    }
    flags.push_reserved(places.wide);
    flags.push_reserved(places.end);
    Ok(Seq::from_vec(flags))
}
