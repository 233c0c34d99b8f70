//! The ranges and regions of a line between operations.
ghost use Rattle.std.specs.Prelude.{◌≡◌, length};
ghost use Rattle.std.specs.Iterator.{at_most};
ghost use Rattle.syntect_operations.specs.Ranges.{ranges, left, items_left, IsReady, line_of, ranges_in, GivesRange, GivesRegion};
ghost use Rattle.syntect_scope.specs.Replay.{InOrder};
ghost use Rattle.syntect_scope.specs.declared.stack.ScopeStackOp.TheVariants.{Noop};

use std::ops::Range;
use syntect_scope::stack::ScopeStackOp;

/// The ranges of a line between operations, each with the operation right before it, and `Noop`
/// before the first.
///
/// There is one more of them than operations. A range is empty where two operations have one place.
#[derive(Clone, Copy, Debug)]
pub struct ScopeRangeIterator<'a> {
    ops: &'a [(usize, ScopeStackOp)],
    line: &'a str,
    from: usize,
    op: Option<ScopeStackOp>,
}

impl<'a> ScopeRangeIterator<'a> {
    /// The ranges of a line under operations whose places rise or stay, lie in the line and between
    /// its characters. Takes no memory.
    pub fn new(ops: &'a [(usize, ScopeStackOp)], line: &'a str) -> ScopeRangeIterator<'a>
        requires { InOrder line.now 0 ops.now (length line.now) }
        ensures left { left result ≡ ranges (length line.now) 0 Noop ops.now }
        ensures ready { IsReady result }
        ensures line { line_of result ≡ line.entry }
    {
        ScopeRangeIterator {
            ops,
            line,
            from: 0,
            op: Some(ScopeStackOp::Noop),
        }
    }
}

impl<'a> Iterator for ScopeRangeIterator<'a> {
    type Item = (Range<usize>, ScopeStackOp);

    ghost can_next = { IsReady };

    ghost next_gives = { GivesRange };

    ghost remaining = { λ s. at_most (items_left s) };

    fn next(&mut self) -> Option<(Range<usize>, ScopeStackOp)> {
        let op = self.op?;
        let from = self.from;
        match self.ops.split_first() {
            Some((first, others)) => {
                let (to, next) = *first;
                self.ops = others;
                self.from = to;
                self.op = Some(next);
                Some((from..to, op))
            }
            None => {
                self.op = None;
                Some((from..self.line.len(), op))
            }
        }
    }
}

/// The parts of a line between operations, each with the operation right before it, and `Noop`
/// before the first.
#[derive(Clone, Copy, Debug)]
pub struct ScopeRegionIterator<'a> {
    ranges: ScopeRangeIterator<'a>,
}

impl<'a> ScopeRegionIterator<'a> {
    /// The parts of a line under operations whose places rise or stay, lie in the line and between
    /// its characters. Takes no memory.
    pub fn new(ops: &'a [(usize, ScopeStackOp)], line: &'a str) -> ScopeRegionIterator<'a>
        requires { InOrder line.now 0 ops.now (length line.now) }
        ensures left { left (ranges_in result) ≡ ranges (length line.now) 0 Noop ops.now }
        ensures ready { IsReady (ranges_in result) }
        ensures line { line_of (ranges_in result) ≡ line.entry }
    {
        ScopeRegionIterator {
            ranges: ScopeRangeIterator::new(ops, line),
        }
    }
}

impl<'a> Iterator for ScopeRegionIterator<'a> {
    type Item = (&'a str, ScopeStackOp);

    ghost can_next = { λ s. IsReady (ranges_in s) };

    ghost next_gives = { GivesRegion };

    ghost remaining = { λ s. at_most (items_left (ranges_in s)) };

    fn next(&mut self) -> Option<(&'a str, ScopeStackOp)> {
        let line = self.ranges.line;
        let (range, op) = self.ranges.next()?;
        Some((&line[range.start..range.end], op))
    }
}
