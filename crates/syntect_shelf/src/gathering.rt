//! Grammars of a shelf that are read, as far as a syntax can reach them.
ghost use Rattle.std.specs.Prelude.{◌≡◌, ◌<◌, true, length, slice_set, IfErr, IfNone, IfOk, IfSome, OnOk};
ghost use Rattle.syntect_shelf.specs.Places.{IsClosedShelf};
ghost use Rattle.syntect_grammar_limits.specs.syntect_grammar_loader.LoadingSteps.{KeepsAtoms};
ghost use Rattle.syntect_grammar_limits.specs.syntect_grammar_loader.declared.definition.SyntaxDefinition.{SyntaxDefinition as ADefinition};
ghost use Rattle.syntect_shelf.specs.Gathering.{Gathers, heads_of, IsGathered, IsWholeOf, none_whole, RefusesGrammar, RefusesSet};
ghost use Rattle.syntect_shelf.specs.Unread.{IsUnread, whole_by};

use crate::below::base::tree::Tree;
use crate::below::grammar_loader::definition::SyntaxDefinition;
use crate::below::scope::repository::ScopeRepository;
use crate::bodies::{no_memory, whole_of};
use crate::grammar::{Grammar, Loading, head_of};
use crate::leads::{unread, unread_from};
use std::alloc::{AllocError, Global};
use std::mem;
use syntect_grammar_limits::folder_error::FolderWithinError;

/// What is read of the grammars of a shelf so far.
#[derive(Drop)]
pub(crate) struct Gathering {
    /// At each place the whole definition or its head alone.
    pub(crate) definitions: Vec<SyntaxDefinition>,
    /// Which of them are whole.
    whole: Vec<bool>,
    /// Those that were read and perhaps lead to some that weren't.
    trail: Vec<usize>,
}

/// The heads alone.
pub(crate) fn heads_alone(alloc: Global, grammars: &[Grammar]) -> Result<Gathering, AllocError>
    ensures definitions { IfOk result (λ g. g.definitions.items ≡ heads_of grammars.now) }
    ensures whole { IfOk result (λ g. g.whole.items ≡ none_whole grammars.now) }
{
    let mut definitions = Vec::with_capacity(alloc, grammars.len())?;
    let mut whole = Vec::with_capacity(alloc, grammars.len())?;
    for grammar in grammars {
        definitions.push(head_of(alloc, &grammar.head)?)?;
        whole.push(false)?;
    }
    Ok(Gathering {
        definitions,
        whole,
        trail: Vec::new(alloc),
    })
}

impl Gathering {
    /// A place that is still to be read: first one to which those lead that were read last.
    fn next_unread(&mut self) -> Option<usize>
        ensures none { IfNone result
            (IsClosedShelf (whole_by self.new.whole.items) self.new.definitions.items) }
        ensures some { IfSome result (IsUnread self.new.definitions.items self.new.whole.items) }
        ensures definitions { self.new.definitions ≡ self.old.definitions }
        ensures whole { self.new.whole ≡ self.old.whole }
    {
        'trail: while let Some(place) = self.trail.last().copied() {
            let found = unread_from(self.definitions.as_slice(), self.whole.as_slice(), place);
            if found.is_some() {
                return found;
            }
            self.trail.pop();
        }
        unread(self.definitions.as_slice(), self.whole.as_slice())
    }

    /// Puts a whole definition at a place.
    fn put(&mut self, place: usize, definition: SyntaxDefinition) -> Result<(), AllocError>
        requires definitions { place < length self.old.definitions.items }
        requires whole { place < length self.old.whole.items }
        ensures definitions { OnOk result (self.new.definitions.items
            ≡ slice_set self.old.definitions.items place definition) }
        ensures whole { OnOk result (self.new.whole.items
            ≡ slice_set self.old.whole.items place true) }
    {
        self.trail.push(place)?;
        let _ = mem::replace(&mut self.definitions[place], definition);
        self.whole[place] = true;
        Ok(())
    }

    /// Reads the grammar at a place, and puts its definition there.
    fn gather<T: Tree>(
        &mut self,
        tree: &T,
        alloc: Global,
        grammar: &Grammar,
        loading: &Loading,
        place: usize,
        repository: &mut ScopeRepository,
    ) -> Result<(), FolderWithinError>
        requires definitions { place < length self.old.definitions.items }
        requires whole { place < length self.old.whole.items }
        ensures ok { OnOk result ((d : ADefinition)
            × IsWholeOf (T.told tree.now) loading.now repository.old repository.new d
            grammar.now.source
            × (self.new.definitions.items ≡ slice_set self.old.definitions.items place d)
            × (self.new.whole.items ≡ slice_set self.old.whole.items place true)) }
        ensures err { IfErr result (λ e. RefusesGrammar (T.told tree.now) loading.now
            repository.old e grammar.now.source) }
        ensures kept { KeepsAtoms repository.old repository.new }
    {
        let definition = match whole_of(tree, alloc, grammar, loading, repository) {
            Ok(definition) => definition,
            Err(e) => return Err(e),
        };
        match self.put(place, definition) {
            Ok(()) => Ok(()),
            Err(_) => Err(no_memory()),
        }
    }
}

/// Reads the grammar at a place, if there is one; of the others there are the heads alone.
fn gather_asked<T: Tree>(
    tree: &T,
    alloc: Global,
    grammars: &[Grammar],
    loading: &Loading,
    place: usize,
    repository: &mut ScopeRepository,
) -> Result<Gathering, FolderWithinError>
    ensures ok { IfOk result (λ g. Gathers (T.told tree.now) loading.now grammars.now place
        repository.old g.definitions.items g.whole.items repository.new) }
    ensures is_whole { IfOk result (λ g. whole_by g.whole.items place ≡ true) }
    ensures err { IfErr result (RefusesSet (T.told tree.now) loading.now grammars.now place
        repository.old) }
    ensures kept { KeepsAtoms repository.old repository.new }
{
    let Ok(mut gathering) = heads_alone(alloc, grammars) else {
        return Err(no_memory());
    };
    let Some(grammar) = grammars.get(place) else {
        return Ok(gathering);
    };
    match gathering.gather(tree, alloc, grammar, loading, place, repository) {
        Ok(()) => Ok(gathering),
        Err(e) => Err(e),
    }
}

/// Reads the grammar at a place and then those that are reached, until all of them are whole.
pub(crate) fn gather_reached<T: Tree>(
    tree: &T,
    alloc: Global,
    grammars: &[Grammar],
    loading: &Loading,
    place: usize,
    repository: &mut ScopeRepository,
) -> Result<Vec<SyntaxDefinition>, FolderWithinError>
    ensures ok { IfOk result (λ ds. IsGathered (T.told tree.now) loading.now grammars.now place
        repository.old ds.items repository.new) }
    ensures len { IfOk result (λ ds. length ds.items ≡ length grammars.now) }
    ensures err { IfErr result (RefusesSet (T.told tree.now) loading.now grammars.now place
        repository.old) }
    ensures kept { KeepsAtoms repository.old repository.new }
{
    let mut gathering = match gather_asked(tree, alloc, grammars, loading, place, repository) {
        Ok(gathering) => gathering,
        Err(e) => return Err(e),
    };
    'reach: while let Some(next) = gathering.next_unread() {
        let Some(grammar) = grammars.get(next) else {
            return Err(no_memory());
        };
        match gathering.gather(tree, alloc, grammar, loading, next, repository) {
            Ok(()) => {}
            Err(e) => return Err(e),
        }
    }
    Ok(gathering.definitions)
}
