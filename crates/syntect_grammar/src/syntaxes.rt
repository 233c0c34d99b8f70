//! The syntaxes that a set holds.
ghost use Rattle.std.specs.Prelude.{◌≡◌, [], IfOk, IfSome};
ghost use Rattle.std.specs.Option.{option_copied};
ghost use Rattle.syntect_grammar.specs.Contexts.{context_at, set_of};
ghost use Rattle.syntect_grammar.specs.Flats.{AreFlatsOf, flats_at};

use crate::below::grammar_contexts::syntax_reference::SyntaxReference;
use crate::below::values::seq::Seq;
use crate::syntax_definition::{Context, ContextId};
use crate::walk::{FlatTable, context_at, flat_table};
use std::alloc::{AllocError, Global};
use std::marker::Model;
use syntect_grammar_lists::list::FlatList;

/// Linked syntaxes, seen as their list, and what is kept of them so as not to be looked for again.
#[derive(Drop)]
pub struct Syntaxes {
    items: Seq<SyntaxReference>,
    /// The patterns of each context's walk.
    flats: FlatTable,
}

impl Model for Syntaxes {
    ghost use Rattle.std.specs.Prelude.{List};
    ghost use Rattle.syntect_grammar.specs.syntect_grammar_contexts.declared.syntax_reference.SyntaxReference.{SyntaxReference as ASyntax};

    ghost Value = { List ASyntax };

    ghost use Rattle.syntect_grammar.specs.Contexts.{set_of};
    ghost use Rattle.syntect_grammar.specs.Flats.{IsTableOf};

    ghost view = { λ s. s.items };

    ghost invariant = { λ s. IsTableOf (set_of s.items) s.flats };
}

impl Clone for Syntaxes {
    ghost is_clone = { λ x y. y ≡ x };

    fn clone(&self) -> Result<Syntaxes, AllocError> {
        Syntaxes::from_linked(self.items.clone()?)
    }
}

impl Syntaxes {
    /// No syntaxes. Takes no memory.
    pub fn new(alloc: Global) -> Syntaxes
        ensures { result ≡ [] }
    {
        Syntaxes {
            items: Seq::new(alloc),
            flats: Seq::new(alloc),
        }
    }

    /// Syntaxes that were linked together.
    pub fn from_linked(items: Seq<SyntaxReference>) -> Result<Syntaxes, AllocError>
        ensures { IfOk result (λ s. s ≡ items) }
    {
        let flats = flat_table(items.allocator(), items.as_slice())?;
        Ok(Syntaxes { items, flats })
    }

    /// The list of them.
    pub fn into_seq(self) -> Seq<SyntaxReference>
        ensures { result ≡ self }
    {
        let Syntaxes { items, flats: _ } = self;
        items
    }

    /// The list of them.
    pub fn as_slice(&self) -> &[SyntaxReference]
        ensures { result.now ≡ self.now }
    {
        self.items.as_slice()
    }

    /// The allocator that the list was made with.
    pub fn allocator(&self) -> Global {
        self.items.allocator()
    }

    /// The context of a number, if they have it.
    pub fn context_at(&self, id: ContextId) -> Option<&Context>
        ensures { option_copied result ≡ context_at (set_of self.now) id }
    {
        context_at(self.items.as_slice(), id)
    }

    /// The patterns of the walk of the context of a number, if they are kept.
    pub fn flats_of(&self, id: ContextId) -> Option<&FlatList>
        ensures { IfSome result (λ flats. AreFlatsOf (set_of self.now) id flats.now) }
    {
        flats_at(&self.flats, id)
    }
}

/// The patterns of the walk that a table holds for a context, if it holds any.
fn flats_at(table: &FlatTable, id: ContextId) -> Option<&FlatList>
    ensures { option_copied result ≡ flats_at table.now id }
{
    let Some(lists) = table.get(id.syntax_index) else {
        return None;
    };
    let Some(kept) = lists.get(id.context_index) else {
        return None;
    };
    kept.as_ref()
}
