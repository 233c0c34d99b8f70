//! Lists, texts and tables.
ghost use Rattle.std.specs.Prelude.{◌≡◌, ◌↔◌, IsTrue, IfOk};

use crate::below::values::seq::Seq;
use crate::below::values::table::Table;
use crate::below::values::text::Text;
use crate::found::{equal, holds};
use std::alloc::{AllocError, Global};

// Equality of nested values is that of their contents.
fn same(a: &Seq<Seq<u16>>, b: &Seq<Seq<u16>>) -> bool
    ensures { IsTrue result ↔ (a.now ≡ b.now) }
{
    a == b
}

fn same_text(a: &Text, b: &Text) -> bool
    ensures { IsTrue result ↔ (a.now ≡ b.now) }
{
    a == b
}

// A clone has the same contents.
fn twice(a: &Seq<Text>) -> Result<Seq<Text>, AllocError>
    ensures { IfOk result (λ c. c ≡ a.now) }
{
    a.clone()
}

fn pair(alloc: Global, x: u16, y: u16) -> Result<Seq<u16>, AllocError> {
    let mut seq = Seq::new(alloc);
    seq.push(x)?;
    seq.push(y)?;
    Ok(seq)
}

/// Two sequences in a sequence.
fn two_pairs(alloc: Global) -> Result<Seq<Seq<u16>>, AllocError> {
    let mut outer = Seq::new(alloc);
    outer.push(pair(alloc, 1, 2)?)?;
    outer.push(pair(alloc, 3, 4)?)?;
    Ok(outer)
}

#[test]
fn equal_sequences(rt: HostRuntime) {
    let alloc = rt.alloc();
    let outer = two_pairs(alloc).expect(&rt, "memory");
    let mut other = Seq::new(alloc);
    other
        .push(pair(alloc, 1, 2).expect(&rt, "memory"))
        .expect(&rt, "memory");
    holds(&rt, !same(&outer, &other));
    other
        .push(Seq::from_slice(alloc, &[3, 4]).expect(&rt, "memory"))
        .expect(&rt, "memory");
    holds(&rt, same(&outer, &other));
    equal(&rt, outer.len(), 2);
    holds(&rt, outer.get(2).is_none());
}

#[test]
fn shorter_sequences(rt: HostRuntime) {
    let alloc = rt.alloc();
    let outer = two_pairs(alloc).expect(&rt, "memory");
    let mut other = two_pairs(alloc).expect(&rt, "memory");
    other.truncate(1);
    holds(&rt, other < outer);
    holds(&rt, other.pop().is_some());
    holds(&rt, other.is_empty());
}

#[test]
fn longer_sequences(rt: HostRuntime) {
    let alloc = rt.alloc();
    let mut flat = pair(alloc, 5, 6).expect(&rt, "memory");
    flat.extend_from_slice(&[7]).expect(&rt, "memory");
    equal(&rt, flat.iter().copied().max(), Some(7));
    let copy = flat.clone().expect(&rt, "memory");
    holds(&rt, copy == flat);
}

#[test]
fn texts(rt: HostRuntime) {
    let alloc = rt.alloc();
    let mut text = Text::from_str(alloc, "a").expect(&rt, "memory");
    text.push_str("b").expect(&rt, "memory");
    text.push('é').expect(&rt, "memory");
    equal(&rt, text.len(), 4);
    holds(&rt, same_text(&text, &text.clone().expect(&rt, "memory")));
    holds(&rt, Text::new(alloc) < text);
    let mut texts = Seq::new(alloc);
    texts.push(text).expect(&rt, "memory");
    equal(&rt, twice(&texts).expect(&rt, "memory").len(), 1);
}

#[test]
fn tables(rt: HostRuntime) {
    let alloc = rt.alloc();
    let mut table = Table::new(alloc);
    holds(
        &rt,
        table.insert(3u16, 30u16).expect(&rt, "memory").is_none(),
    );
    holds(&rt, table.insert(1, 10).expect(&rt, "memory").is_none());
    equal(&rt, table.insert(3, 33).expect(&rt, "memory"), Some(30));
    equal(&rt, table.get(&3).copied(), Some(33));
    equal(&rt, table.len(), 2);
    holds(&rt, table.clone().expect(&rt, "memory") == table);
    equal(&rt, table.remove(&1), Some(10));
    holds(&rt, table.get(&1).is_none());
}
