//! Whether operations of a line are in order.
ghost use Rattle.std.specs.Prelude.{◌≡◌, ◌↔◌, true, length};
ghost use Rattle.syntect_scope.specs.Replay.{InOrder};

use syntect_scope::stack::ScopeStackOp;

/// Whether operations are in order in a line, as calls that take them ask: their places, which are
/// byte positions, never decrease, lie in the line and stand between its characters.
/// Takes no memory.
pub fn are_in_order(line: &str, ops: &[(usize, ScopeStackOp)]) -> bool
    ensures { (result ≡ true) ↔ InOrder line.now 0 ops.now (length line.now) }
{
    let mut from = 0;
    for (place, _) in ops {
        if *place < from || !line.is_char_boundary(*place) {
            return false;
        }
        from = *place;
    }
    true
}
