//! The pieces of a text between the operations on the stack of its scopes.
ghost use Rattle.std.specs.Prelude.{◌≡◌, ◌≤◌, ◌<◌, length, IfOk, OnOk, OnErr, IfErr, MatchOption, true, false};
ghost use Rattle.std.specs.Iterator.{at_most};
ghost use Rattle.std.specs.Str.{IsCharBoundary};
ghost use Rattle.syntect_style.specs.syntect_scope.Stack.{applied, is_refused};
ghost use Rattle.syntect_style.specs.syntect_scope.Replay.{InOrder, AllApply, replay, before_text, bytes_to};
ghost use Rattle.syntect_style.specs.Pieces.{path_of, KeepsTrueStyles, Joins, IsStyled};
ghost use Rattle.syntect_style.specs.Items.{Begins, Gives, GivesUnranged, IsReady, Shows, calls_left};

use crate::highlighter::Highlighter;
use crate::state::HighlightState;
use crate::syntect_scope::stack::{ScopeError, ScopeStackOp};
use std::alloc::Global;
use std::ops::Range;
use syntect_theme::style::Style;

/// The pieces of a text, each with its style and its range of bytes in the text.
///
/// A piece is a stretch that isn't empty between the places of the operations, from the text's
/// start to its end, in the style of the stack at it. Where an operation is refused an `Err` is
/// given for the piece up to it, as the last item, and the state keeps what
/// the earlier operations made.
#[derive(Debug, Drop)]
pub struct RangedHighlightIterator<'a, 'b> {
    pos: usize,
    changes: &'a [(usize, ScopeStackOp)],
    text: &'b str,
    highlighter: &'a Highlighter<'a>,
    state: &'a mut HighlightState,
}

/// Shows the stretch up to an operation, and applies it. A refusal leaves the stack.
fn piece_to<'b>(
    highlighter: &Highlighter<'_>,
    state: &mut HighlightState,
    text: &'b str,
    from: usize,
    to: usize,
    op: &ScopeStackOp,
) -> Result<Option<(Style, &'b str, Range<usize>)>, ScopeError>
    requires order { from ≤ to }
    requires start { IsCharBoundary text.now from }
    requires end { IsCharBoundary text.now to }
    ensures ok { OnOk result (path_of state.new ≡ applied op.now (path_of state.old)) }
    ensures applied { OnOk result (is_refused op.now (path_of state.old) ≡ false) }
    ensures piece { IfOk result (λ o. MatchOption o (from ≡ to) (λ p. (from < to)
        × Shows highlighter.now text.now (KeepsTrueStyles highlighter.now state.old)
        (record { from = from; to = to; scopes = (path_of state.old).scopes }) p)) }
    ensures none { IfErr result (λ e. e ≡ ScopeError.NoClearedScopesToRestore
        → is_refused op.now (path_of state.old) ≡ true) }
    ensures err { OnErr result (path_of state.new ≡ path_of state.old) }
    ensures keeps { KeepsTrueStyles highlighter.now state.old
        → KeepsTrueStyles highlighter.now state.new }
{
    let piece = if from < to {
        let style = state.style(highlighter)?;
        Some((style, &text[from..to], from..to))
    } else {
        None
    };
    state.apply(highlighter, op)?;
    Ok(piece)
}

impl<'a, 'b> RangedHighlightIterator<'a, 'b> {
    /// The pieces of a text under operations whose places rise or stay, lie in the text and between
    /// its characters. Takes no memory.
    pub fn new(
        state: &'a mut HighlightState,
        changes: &'a [(usize, ScopeStackOp)],
        text: &'b str,
        highlighter: &'a Highlighter<'a>,
    ) -> RangedHighlightIterator<'a, 'b>
        requires { InOrder text.now 0 changes.now (length text.now) }
        ensures begins { Begins result highlighter.now text.now changes.now state.old }
        ensures same_state { result.state.ghost_name ≡ state.entry.ghost_name }
    {
        RangedHighlightIterator {
            pos: 0,
            changes,
            text,
            highlighter,
            state,
        }
    }
}

impl<'a, 'b> Iterator for RangedHighlightIterator<'a, 'b> {
    type Item = Result<(Style, &'b str, Range<usize>), ScopeError>;

    ghost can_next = { IsReady };

    ghost next_gives = { Gives };

    ghost remaining = { λ s. at_most (calls_left s) };

    fn next(&mut self) -> Option<Result<(Style, &'b str, Range<usize>), ScopeError>> {
        while let Some((first, others)) = self.changes.split_first() {
            let (to, op) = *first;
            self.changes = others;
            match piece_to(self.highlighter, self.state, self.text, self.pos, to, &op) {
                Err(e) => {
                    self.changes = &[];
                    self.pos = self.text.len();
                    return Some(Err(e));
                }
                Ok(Some(piece)) => {
                    self.pos = to;
                    return Some(Ok(piece));
                }
                Ok(None) => {}
            }
        }
        let from = self.pos;
        let to = self.text.len();
        if from == to {
            return None;
        }
        self.pos = to;
        match self.state.style(self.highlighter) {
            Err(_) => Some(Err(ScopeError::Memory)),
            Ok(style) => Some(Ok((style, &self.text[from..to], from..to))),
        }
    }
}

/// All pieces of a text under operations that are in order. A refusal leaves the stack of the
/// operations before it.
pub fn collect_pieces<'b>(
    alloc: Global,
    highlighter: &Highlighter<'_>,
    state: &mut HighlightState,
    changes: &[(usize, ScopeStackOp)],
    text: &'b str,
) -> Result<Vec<(Style, &'b str)>, ScopeError>
    requires { InOrder text.now 0 changes.now (length text.now) }
    ensures joins { IfOk result (λ pieces. Joins text.now pieces.items) }
    ensures styled { IfOk result (λ pieces. KeepsTrueStyles highlighter.now state.old
        → IsStyled highlighter.now
        (bytes_to (replay changes.now (before_text (path_of state.old))) (length text.now))
        pieces.items) }
    ensures path { OnOk result (path_of state.new
        ≡ (replay changes.now (before_text (path_of state.old))).stack) }
    ensures applied { OnOk result (AllApply (path_of state.old) changes.now) }
    ensures none { IfErr result (λ e. e ≡ ScopeError.NoClearedScopesToRestore
        → ¬ AllApply (path_of state.old) changes.now) }
    ensures keeps { KeepsTrueStyles highlighter.now state.old
        → KeepsTrueStyles highlighter.now state.new }
{
    let mut pieces = Vec::with_capacity(alloc, changes.len().saturating_add(1))?;
    let mut items = RangedHighlightIterator::new(state, changes, text, highlighter);
    while let Some(item) = items.next() {
        match item {
            Err(e) => return Err(e),
            Ok((style, part, _)) => pieces.push((style, part))?,
        }
    }
    Ok(pieces)
}

/// The pieces of a text, each with its style, as a `RangedHighlightIterator` gives them.
#[derive(Debug, Drop)]
pub struct HighlightIterator<'a, 'b> {
    ranged: RangedHighlightIterator<'a, 'b>,
}

impl<'a, 'b> HighlightIterator<'a, 'b> {
    /// The pieces of a text under operations whose places rise or stay, lie in the text and between
    /// its characters. Takes no memory.
    pub fn new(
        state: &'a mut HighlightState,
        changes: &'a [(usize, ScopeStackOp)],
        text: &'b str,
        highlighter: &'a Highlighter<'a>,
    ) -> HighlightIterator<'a, 'b>
        requires { InOrder text.now 0 changes.now (length text.now) }
        ensures begins { Begins result.ranged highlighter.now text.now changes.now state.old }
        ensures same_state { result.ranged.state.ghost_name ≡ state.entry.ghost_name }
    {
        HighlightIterator {
            ranged: RangedHighlightIterator::new(state, changes, text, highlighter),
        }
    }
}

impl<'a, 'b> Iterator for HighlightIterator<'a, 'b> {
    type Item = Result<(Style, &'b str), ScopeError>;

    ghost can_next = { λ s. IsReady s.ranged };

    ghost next_gives = { GivesUnranged };

    ghost remaining = { λ s. at_most (calls_left s.ranged) };

    fn next(&mut self) -> Option<Result<(Style, &'b str), ScopeError>> {
        match self.ranged.next() {
            None => None,
            Some(Err(e)) => Some(Err(e)),
            Some(Ok((style, part, _))) => Some(Ok((style, part))),
        }
    }
}
