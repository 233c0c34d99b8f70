//! What can come after a word, or after white space, in which a match begins. A pattern such as
//! `[a-z]+\(` reads a word and then wants a parenthesis, so it needn't be tried at a word that is
//! followed by anything else; nor need `\s*\(` be tried at white space that is.
ghost use Rattle.std.specs.Prelude.{◌≡◌, ◌<◌, ◌≤◌, ◌==◌, ℕ, Bool, IfOk, List, length, slice_index_or, true, false};
ghost use Rattle.std.specs.Int.{bit_at};
ghost use Rattle.syntect_pattern_word_ends.specs.syntect_pattern.Sets.{from_to, range};
ghost use Rattle.syntect_pattern_word_ends.specs.syntect_pattern.Letters.{letters_tree};
ghost use Rattle.syntect_pattern_word_ends.specs.syntect_pattern.Trees.{Tree, nothing, one_of};
ghost use Rattle.syntect_pattern_table.specs.Program.{trees_of};
ghost use Rattle.syntect_pattern_table.specs.Starts.{begins_at, is_in};
ghost use Rattle.syntect_pattern_table.specs.Table.{IsOrdered, node_tree, parts_before, set_of, trees};
ghost use Rattle.syntect_pattern_word_ends.specs.Ends.{IsRunUpTo, Span, StandsBehind, has_one, is_blank, is_of, is_word_char, spans};

use std::alloc::{AllocError, Global};
use syntect_pattern_table::node::{Class, Node};
use syntect_pattern_table::program::Program;
use syntect_pattern_table::starts::{
    Firsts, Places, ahead, anywhere, either, in_loop, in_sequence, nowhere, one_of_two,
    places_of_char, places_of_class, places_of_letter,
};

/// The most characters of a run that are gone through, so that long ones cost no more.
const LONGEST: usize = 32;

/// The most nodes of a table for which it is worked out what can come after runs: a larger one
/// would take memory for it that a pattern of its length doesn't repay.
const MOST_NODES: usize = 4096;

/// The ASCII characters of words, a bit for each.
const WORD: u128 = 0x07ff_fffe_87ff_fffe_03ff_0000_0000_0000;

/// White space, a bit for each character.
const BLANK: u128 = 0x0000_0000_0000_0000_0000_0001_0000_3e00;

/// White space, or else the ASCII characters of words, a bit for each.
#[tactic(auto, using(crate::proofs::WordLaws::blank_bits, crate::proofs::WordLaws::word_bits))]
fn run_bits(blank: bool) -> u128
    ensures { (x : ℕ) → x < 128 → (bit_at result x == 1) ≡ is_of blank x }
{
    if blank { BLANK } else { WORD }
}

/// Whether the class holds white space, or else an ASCII character of words.
fn class_has(blank: bool, class: &Class) -> bool
    ensures { result ≡ has_one blank (set_of class.now) }
{
    class.ascii() & run_bits(blank) != 0
}

/// Whether the character is white space, or else an ASCII character of words.
#[tactic(auto, using(crate::proofs::WordLaws::near_one))]
fn char_has(blank: bool, wanted: char) -> bool
    ensures { result ≡ has_one blank (range wanted wanted) }
{
    wanted.is_ascii() && is_byte_of(blank, wanted as u8)
}

/// Anywhere, where this holds.
fn anywhere_if(holds: bool) -> Places
    ensures { (x : ℕ) → is_in result x ≡ holds }
{
    if holds { anywhere() } else { nowhere() }
}

/// What can come after a run for a letter.
fn spans_of_letter(blank: bool, fold: bool, letter: u8) -> Firsts
    ensures { (x : ℕ) → x < 130
        → begins_at x result ≡ spans blank x (one_of (from_to fold letter letter)) }
{
    let read = places_of_letter(fold, letter);
    Firsts {
        read,
        stay: anywhere_if(read.ascii & run_bits(blank) != 0),
    }
}

/// What can come after a run for letters before something else, by what can come after
/// a run for that.
fn before_rest(blank: bool, fold: bool, letters: &[u8], rest: Firsts) -> Firsts
    ensures { (t : Tree) (x : ℕ) → x < 130 → begins_at x rest ≡ spans blank x t
        → begins_at x result ≡ spans blank x (letters_tree fold letters.now t) }
{
    match letters.split_first() {
        Some((first, others)) => in_sequence(
            spans_of_letter(blank, fold, *first),
            before_rest(blank, fold, others, rest),
        ),
        None => rest,
    }
}

/// Where the part at a place goes past a run and ends in it, by two lists.
fn part(reads: &[Places], stays: &[Places], place: usize) -> Firsts
    requires inside { place < length reads.now }
    requires both { length stays.now ≡ length reads.now }
    ensures { (blank : Bool) (ts : List Tree) (x : ℕ) → Span blank x reads.now stays.now ts
        → begins_at x result ≡ spans blank x (slice_index_or ts place nothing) }
{
    Firsts {
        read: reads[place],
        stay: stays[place],
    }
}

/// What can come after a run for matches of the node that begin in it: of those that go on past the
/// run, and of those that end in it; by that of the nodes before it.
fn spans_of_node(blank: bool, node: &Node, reads: &[Places], stays: &[Places]) -> Firsts
    requires parts { parts_before (length reads.now) node.now ≡ true }
    requires both { length stays.now ≡ length reads.now }
    ensures { (ts : List Tree) (x : ℕ) → x < 130 → Span blank x reads.now stays.now ts
        → begins_at x result ≡ spans blank x (node_tree ts node.now) }
{
    match node {
        Node::Nothing | Node::Anchor(_) | Node::Behind { .. } => Firsts {
            read: nowhere(),
            stay: anywhere(),
        },
        Node::Char(wanted) => Firsts {
            read: places_of_char(*wanted),
            stay: anywhere_if(char_has(blank, *wanted)),
        },
        Node::Class(class) => Firsts {
            read: places_of_class(class),
            stay: anywhere_if(class_has(blank, class)),
        },
        Node::Same { .. } => Firsts {
            read: anywhere(),
            stay: anywhere(),
        },
        Node::Text { letters, rest } => in_sequence(
            spans_of_letter(blank, letters.fold, letters.first),
            before_rest(
                blank,
                letters.fold,
                letters.others(),
                part(reads, stays, *rest),
            ),
        ),
        Node::Sequence(first, second) => {
            in_sequence(part(reads, stays, *first), part(reads, stays, *second))
        }
        Node::Alternation(first, second) => {
            one_of_two(part(reads, stays, *first), part(reads, stays, *second))
        }
        Node::Repeat { least, body, .. } => in_loop(part(reads, stays, *body), *least),
        Node::Group { body, .. } => part(reads, stays, *body),
        Node::Atomic(body) => part(reads, stays, *body),
        Node::Ahead { negated, body } => ahead(part(reads, stays, *body), *negated),
    }
}

/// Of each node what can come after a run for matches that begin in it: of those that go on past
/// the run, and of those that end in it.
fn spans_of(
    alloc: Global,
    blank: bool,
    nodes: &[Node],
) -> Result<(Vec<Places>, Vec<Places>), AllocError>
    requires { IsOrdered nodes.now }
    ensures reads { IfOk result (λ p. length p.0.items ≡ length nodes.now) }
    ensures stays { IfOk result (λ p. length p.1.items ≡ length nodes.now) }
    ensures spans { IfOk result (λ p. (x : ℕ) → x < 130
        → Span blank x p.0.items p.1.items (trees nodes.now)) }
{
    let mut reads = Vec::with_capacity(alloc, nodes.len())?;
    let mut stays = Vec::with_capacity(alloc, nodes.len())?;
    for place in 0..nodes.len() {
        let next = spans_of_node(blank, &nodes[place], reads.as_slice(), stays.as_slice());
        reads.push_reserved(next.read);
        stays.push_reserved(next.stay);
    }
    Ok((reads, stays))
}

/// Whether a match of the program can begin with white space,
/// or else with an ASCII character of words.
fn begins_in(blank: bool, program: &Program) -> bool {
    match program.firsts.get(program.root) {
        Some(places) => places.ascii & run_bits(blank) != 0,
        None => true,
    }
}

/// What can come after a run in which a match of the program begins, which is white space, or else
/// a word. Anything may, as far as is known, where its matches begin in no such run, and where its
/// table is large.
pub fn behind_runs(alloc: Global, blank: bool, program: &Program) -> Result<Places, AllocError>
    ensures { IfOk result (λ places. StandsBehind blank places
        (slice_index_or (trees_of program.now) program.now.root nothing)) }
{
    let root = program.root;
    let nodes = program.nodes.as_slice();
    if root >= nodes.len() || nodes.len() > MOST_NODES || !begins_in(blank, program) {
        return Ok(anywhere());
    }
    let (reads, stays) = spans_of(alloc, blank, nodes)?;
    Ok(either(reads[root], stays[root]))
}

/// Whether the byte is an ASCII character of words.
pub fn is_word_byte(byte: u8) -> bool
    ensures { result ≡ is_word_char byte }
{
    (b'0' <= byte && byte <= b'9')
        || ((b'A' <= byte && byte <= b'Z')
            || ((b'_' <= byte && byte <= b'_') || (b'a' <= byte && byte <= b'z')))
}

/// Whether the byte is white space.
pub fn is_blank_byte(byte: u8) -> bool
    ensures { result ≡ is_blank byte }
{
    (b'\t' <= byte && byte <= b'\r') || (b' ' <= byte && byte <= b' ')
}

/// Whether the byte is white space, or else an ASCII character of words.
fn is_byte_of(blank: bool, byte: u8) -> bool
    ensures { result ≡ is_of blank byte }
{
    if blank {
        is_blank_byte(byte)
    } else {
        is_word_byte(byte)
    }
}

/// Up to where the characters from a place on are white space, or else ASCII characters of a word.
/// Of a long run only the front is looked at.
pub fn run_end(text: &str, place: usize, blank: bool) -> usize
    requires { place ≤ length text.now }
    ensures { IsRunUpTo blank text.now place result }
{
    let bytes = text.as_bytes();
    let last = bytes.len().min(place.saturating_add(LONGEST));
    let mut end = place;
    while end < last && is_byte_of(blank, bytes[end]) {
        end += 1;
    }
    end
}
