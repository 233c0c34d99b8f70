//! Lines as nested spans with classes.
ghost use Rattle.std.specs.Prelude.{◌≡◌, false, true, length, string_bytes, pos, ◌-ℤ◌, IfOk, OnOk, OnErr, IsErrOf};
ghost use Rattle.syntect_writers.specs.Classes.{prefix_of};
ghost use Rattle.syntect_writers.specs.Marks.{marks, written, stack_after, some_refused};
ghost use Rattle.syntect_writers.specs.syntect_scope.Replay.{InOrder};

use crate::class_style::ClassStyle;
use crate::marks::Spans;
use crate::syntect_scope::repository::ScopeRepository;
use crate::syntect_scope::stack::{ScopeError, ScopeStack, ScopeStackOp};
use std::alloc::Global;

/// The text of a line under its operations, as spans.
fn spans_of(
    alloc: Global,
    line: &str,
    ops: &[(usize, ScopeStackOp)],
    prefix: &str,
    stack: &mut ScopeStack,
    repository: &ScopeRepository,
) -> Result<String, ScopeError>
    requires { InOrder line.now 0 ops.now (length line.now) }
    ensures text { IfOk result (λ t. string_bytes t
        ≡ written prefix.now repository.now (marks line.now 0 stack.old ops.now)) }
    ensures stack { OnOk result (stack.new ≡ stack_after stack.old ops.now) }
    ensures accepted { OnOk result (some_refused stack.old ops.now ≡ false) }
    ensures nothing_cleared { IsErrOf result ScopeError.NoClearedScopesToRestore
        → some_refused stack.old ops.now ≡ true }
{
    let mut spans = Spans {
        text: String::new(alloc),
        waiting: None,
    };
    let mut from = 0;
    for (place, op) in ops {
        spans.show_between(prefix, repository, line, from, *place)?;
        spans.operate(prefix, repository, stack, op)?;
        from = *place;
    }
    spans.show_between(prefix, repository, line, from, line.len())?;
    spans.settle(prefix, repository)?;
    let Spans { text, waiting: _ } = spans;
    Ok(text)
}

/// How high a stack is.
fn height(stack: &ScopeStack) -> isize
    ensures { result ≡ pos (length stack.now.scopes) }
{
    stack.as_slice().len() as isize
}

/// A line as HTML: each scope that an operation really pushes begins a span, whose classes are the
/// scope's atoms, and each that it really removes ends one. The spans are nested like the scopes on
/// the stack, which is then the one after the line. A span that ends right where it began is left
/// out. The number tells how many more spans are open after the line than before it; it is negative
/// where the line ends spans of earlier ones.
///
/// The operations' places are byte positions that never decrease, in the line and between its
/// characters. A refusal leaves the stack as it was.
pub fn line_tokens_to_classed_spans(
    alloc: Global,
    line: &str,
    ops: &[(usize, ScopeStackOp)],
    style: ClassStyle,
    stack: &mut ScopeStack,
    repository: &ScopeRepository,
) -> Result<(String, isize), ScopeError>
    requires { InOrder line.now 0 ops.now (length line.now) }
    ensures text { IfOk result (λ r. string_bytes r.0
        ≡ written (prefix_of style) repository.now (marks line.now 0 stack.old ops.now)) }
    ensures number { IfOk result (λ r. r.1 ≡ pos (length (stack_after stack.old ops.now).scopes)
        -ℤ pos (length stack.old.scopes)) }
    ensures stack { OnOk result (stack.new ≡ stack_after stack.old ops.now) }
    ensures accepted { OnOk result (some_refused stack.old ops.now ≡ false) }
    ensures nothing_cleared { IsErrOf result ScopeError.NoClearedScopesToRestore
        → some_refused stack.old ops.now ≡ true }
    ensures err { OnErr result (stack.new ≡ stack.old) }
{
    let mut after = stack.clone()?;
    let text = match spans_of(alloc, line, ops, style.prefix(), &mut after, repository) {
        Ok(text) => text,
        Err(e) => return Err(e),
    };
    let number = height(&after) - height(stack);
    *stack = after;
    Ok((text, number))
}
