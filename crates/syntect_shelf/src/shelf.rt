//! A shelf of grammars, and sets of those that a syntax can reach.
ghost use Rattle.std.specs.Prelude.{◌≡◌, ◌≢◌, ◌<◌, IfErr, IfOk, length};
ghost use Rattle.syntect_grammar.specs.Link.{linked, syntaxes_in, set_paths};
ghost use Rattle.syntect_grammar_limits.specs.syntect_grammar_loader.LoadingSteps.{KeepsAtoms};
ghost use Rattle.syntect_shelf.specs.Gathering.{heads_of, IsSetFor, paths_from, RefusesSet};

use crate::below::base::tree::Tree;
use crate::below::scope::repository::ScopeRepository;
use crate::below::values::seq::Seq;
use crate::below::values::text::Text;
use crate::bodies::no_memory;
use crate::gathering::gather_reached;
use crate::grammar::{Grammar, Loading};
use crate::linking::set_of;
use std::alloc::Global;
use std::marker::Model;
use syntect_grammar::syntax_set::SyntaxSet;
use syntect_grammar_limits::folder_error::FolderWithinError;

/// Grammars of which the heads alone are read.
#[derive(Drop)]
pub struct Shelf {
    pub(crate) grammars: Seq<Grammar>,
    /// The heads, linked: what finders look at.
    pub(crate) heads: SyntaxSet,
    pub(crate) metadata: Seq<Text>,
    pub(crate) loading: Loading,
}

impl Model for Shelf {
    ghost use Rattle.std.specs.Prelude.{◌≡◌};
    ghost use Rattle.syntect_grammar.specs.Link.{linked, syntaxes_in, set_paths};
    ghost use Rattle.syntect_shelf.specs.Gathering.{heads_of, paths_from, Stock};

    ghost Value = { Stock };

    ghost view = { λ s. record {
      grammars = s.grammars;
      heads = s.heads;
      metadata = s.metadata;
      loading = s.loading;
    } };

    ghost invariant = { λ s. (syntaxes_in s.heads ≡ linked (heads_of s.grammars))
        × (set_paths s.heads ≡ paths_from 0 s.grammars) };
}

impl Shelf {
    /// The syntaxes, each at its place with its head alone: its finders answer for the shelf, and
    /// the place is what `set_for` asks for. No line is read by it.
    pub fn heads(&self) -> &SyntaxSet
        ensures heads { result.now ≡ self.now.heads }
        ensures linked { syntaxes_in result.now ≡ linked (heads_of self.now.grammars) }
        ensures paths { set_paths result.now ≡ paths_from 0 self.now.grammars }
    {
        &self.heads
    }

    /// The set for the syntax at a place: all syntaxes that it can reach are read from their files
    /// and linked, and the others stand at their places as heads alone. So lines that begin in this
    /// syntax read as in the set of all.
    ///
    /// A grammar that isn't reached is not read again, and refuses nothing. One that is reached is
    /// refused as `add_from_folder_within` does, with its path. A place that the shelf lacks asks
    /// for plain text alone.
    pub fn set_for<T: Tree>(
        &self,
        tree: &T,
        alloc: Global,
        place: usize,
        repository: &mut ScopeRepository,
    ) -> Result<SyntaxSet, FolderWithinError>
        ensures ok { IfOk result (IsSetFor (T.told tree.now) self.now place repository.old
            repository.new) }
        ensures err { IfErr result (RefusesSet (T.told tree.now) self.now.loading
            self.now.grammars place repository.old) }
        ensures kept { KeepsAtoms repository.old repository.new }
    {
        let grammars = self.grammars.as_slice();
        let definitions = match gather_reached(
            tree,
            alloc,
            grammars,
            &self.loading,
            place,
            repository,
        ) {
            Ok(definitions) => definitions,
            Err(e) => return Err(e),
        };
        match set_of(
            tree,
            alloc,
            definitions,
            grammars,
            self.metadata.as_slice(),
            repository,
        ) {
            Ok(set) => Ok(set),
            Err(_) => Err(no_memory()),
        }
    }
}
