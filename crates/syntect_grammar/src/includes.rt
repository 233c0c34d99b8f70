//! How far includes can lead.
ghost use Rattle.std.specs.Prelude.{◌≡◌};
ghost use Rattle.syntect_grammar.specs.Patterns.{room_in};

use crate::syntax_set::SyntaxSet;

/// One more than a set has contexts.
pub fn room_in(set: &SyntaxSet) -> u128
    ensures { result ≡ room_in set.now }
{
    let mut room: u128 = 1;
    for syntax in set.syntaxes() {
        room += syntax.contexts.len() as u128;
    }
    room
}
