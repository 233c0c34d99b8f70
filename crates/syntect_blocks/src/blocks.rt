//! The list in blocks.
ghost use Rattle.std.specs.Prelude.{◌≡◌, ◌≢◌, ◌<◌, ◌≤◌, [], length, insert, remove, slice_get, slice_set, vec_len, Some, IfOk, OnOk, OnErr};
ghost use Rattle.syntect_blocks.specs.Joined.{joined, IsGap, IsPlace};

use std::alloc::{AllocError, Global};
use std::marker::Model;

/// A block with more elements than this is split in two.
const MOST: usize = 512;

/// A list in blocks.
#[derive(Drop)]
pub struct Blocks<T> {
    blocks: Vec<Vec<T>>,
    len: usize,
}

impl<T> Model for Blocks<T> {
    ghost use Rattle.std.specs.Prelude.{◌≡◌, List, length};
    ghost use Rattle.syntect_blocks.specs.Joined.{joined};

    ghost Value = { List T };

    ghost view = { λ a. joined a.blocks.items };

    ghost invariant = { λ a. a.len ≡ length (joined a.blocks.items) };
}

/// The gap before the element at an index, or after the last: its block, and how many of that
/// block's elements are before it. Where two blocks meet it is the gap after the last element of
/// the first one.
fn gap_of<T>(blocks: &[Vec<T>], index: usize) -> (usize, usize)
    requires some { blocks.now ≢ [] }
    requires within { index ≤ length (joined blocks.now) }
    ensures { IsGap blocks.now index result.0 result.1 }
{
    let mut rest = index;
    for (block, elements) in blocks.iter().enumerate() {
        if rest <= elements.len() {
            return (block, rest);
        }
        rest -= elements.len();
    }
    unreachable!()
}

/// The block of the element at an index, and its place there.
fn place_of<T>(blocks: &[Vec<T>], index: usize) -> (usize, usize)
    requires { index < length (joined blocks.now) }
    ensures { IsPlace blocks.now index result.0 result.1 }
{
    let mut rest = index;
    for (block, elements) in blocks.iter().enumerate() {
        if rest < elements.len() {
            return (block, rest);
        }
        rest -= elements.len();
    }
    unreachable!()
}

/// Puts an element before the one at an index, or after the last,
/// and answers the block that has it.
fn put<T: Drop>(blocks: &mut Vec<Vec<T>>, index: usize, x: T) -> Result<usize, AllocError>
    requires some { blocks.old.items ≢ [] }
    requires within { index ≤ length (joined blocks.old.items) }
    ensures ok { OnOk result
        (joined blocks.new.items ≡ insert (joined blocks.old.items) index x) }
    ensures block { IfOk result (λ b. b < vec_len blocks.new) }
    ensures err { OnErr result (joined blocks.new.items ≡ joined blocks.old.items) }
{
    let (block, at) = gap_of(blocks.as_slice(), index);
    match blocks[block].insert(at, x) {
        Ok(()) => {}
        Err(_) => return Err(AllocError),
    }
    Ok(block)
}

/// Splits a block in two halves, if there is memory for that.
fn split<T: Drop>(blocks: &mut Vec<Vec<T>>, block: usize)
    requires { block < vec_len blocks.old }
    ensures { joined blocks.new.items ≡ joined blocks.old.items }
{
    let alloc = *blocks.allocator();
    match blocks.insert(block + 1, Vec::new(alloc)) {
        Ok(()) => {}
        Err(_) => return,
    }
    let half = blocks[block].len() / 2;
    match blocks[block].split_off(half) {
        Ok(tail) => blocks[block + 1] = tail,
        Err(_) => {
            let _ = blocks.remove(block + 1);
        }
    }
}

/// Takes out the element at an index, and its block if that has no other.
fn take_out<T: Drop>(blocks: &mut Vec<Vec<T>>, index: usize) -> T
    requires { index < length (joined blocks.old.items) }
    ensures value { slice_get (joined blocks.old.items) index ≡ Some result }
    ensures rest { joined blocks.new.items ≡ remove (joined blocks.old.items) index }
{
    let (block, at) = place_of(blocks.as_slice(), index);
    let x = blocks[block].remove(at);
    if blocks[block].is_empty() {
        let _ = blocks.remove(block);
    }
    x
}

impl<T> Blocks<T> {
    /// No elements. Takes no memory.
    pub fn new(alloc: Global) -> Blocks<T>
        ensures { result ≡ [] }
    {
        Blocks {
            blocks: Vec::new(alloc),
            len: 0,
        }
    }

    /// How many elements there are. Takes no memory.
    pub fn len(&self) -> usize
        ensures { result ≡ length self.now }
    {
        self.len
    }

    /// The element at an index. Takes no memory.
    pub fn get(&self, index: usize) -> &T
        requires { index < length self.now }
        ensures { slice_get self.now index ≡ Some result.now }
    {
        let (block, at) = place_of(self.blocks.as_slice(), index);
        &self.blocks[block][at]
    }
}

impl<T: Drop> Blocks<T> {
    /// Puts an element in place of the one at an index. Takes no memory.
    pub fn set(&mut self, index: usize, x: T)
        requires { index < length self.old }
        ensures { self.new ≡ slice_set self.old index x }
    {
        let (block, at) = place_of(self.blocks.as_slice(), index);
        let elements = &mut self.blocks[block];
        elements[at] = x;
    }

    /// Puts an element before the one at an index, or after the last. Without memory for it the
    /// elements stay, and it is dropped.
    pub fn insert(&mut self, index: usize, x: T) -> Result<(), AllocError>
        requires { index ≤ length self.old }
        ensures ok { OnOk result (self.new ≡ insert self.old index x) }
        ensures err { OnErr result (self.new ≡ self.old) }
    {
        // more elements than can be counted are more than memory holds
        let Some(len) = self.len.checked_add(1) else {
            return Err(AllocError);
        };
        if self.blocks.is_empty() {
            let alloc = *self.blocks.allocator();
            self.blocks.push(Vec::new(alloc))?;
        }
        let block = put(&mut self.blocks, index, x)?;
        self.len = len;
        if self.blocks[block].len() > MOST {
            split(&mut self.blocks, block);
        }
        Ok(())
    }

    /// Takes out the element at an index. Takes no memory.
    pub fn remove(&mut self, index: usize) -> T
        requires { index < length self.old }
        ensures value { slice_get self.old index ≡ Some result }
        ensures rest { self.new ≡ remove self.old index }
    {
        let x = take_out(&mut self.blocks, index);
        self.len -= 1;
        x
    }
}
