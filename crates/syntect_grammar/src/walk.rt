//! The patterns of a context, includes walked, each once: what one gives again was given before.
ghost use Rattle.std.specs.Prelude.{◌≡◌, ◌<◌, ◌++◌, ◌∷◌, [], length, true, false, None, IfOk, IfSome, OnOk};
ghost use Rattle.std.specs.Option.{option_copied};
ghost use Rattle.syntect_grammar.specs.syntect_grammar_contexts.Contexts.{target};
ghost use Rattle.syntect_grammar.specs.Contexts.{context_at, set_of};
ghost use Rattle.syntect_grammar.specs.Flats.{AreFlatsOf, AreListsOf, IsOpen, IsTableOf};
ghost use Rattle.syntect_grammar.specs.Patterns.{entries};
ghost use Rattle.syntect_grammar.specs.Walk.{at_first, entering};
ghost use Rattle.syntect_grammar.specs.syntect_regex.Begins.{BeginsAtEdges, BeginsAtLines, NoneBeginsBefore, NoneBeginsOutside};

use crate::below::grammar_contexts::syntax_reference::SyntaxReference;
use crate::below::pattern_table::starts::anywhere;
use crate::below::values::seq::Seq;
use crate::syntax_definition::{Context, ContextId, ContextReference, MatchPattern, Pattern};
use std::alloc::{AllocError, Global};
use syntect_grammar_lists::entered::Entered;
use syntect_grammar_lists::flats::Flat;
use syntect_grammar_lists::list::FlatList;

/// The flat lists of contexts, by syntax and place in that: none of one whose walk was given up.
pub(crate) type FlatTable = Seq<Seq<Option<FlatList>>>;

/// How many steps an entry the walks of a syntax may take before no more lists are kept: ten times
/// what written grammars take, as a long row of includes would ask for the square of its length.
const STEPS_AN_ENTRY: usize = 64;

/// A context that is walked, and the index of the next of its entries.
#[derive(Clone, Copy)]
struct Frame {
    id: ContextId,
    next: usize,
}

/// The lists that a walk works with, whose memory is kept for the next one.
#[derive(Drop)]
struct Walker {
    entered: Entered,
    frames: Vec<Frame>,
    flats: Vec<Flat>,
}

/// The context of a number, if the syntaxes have it.
pub(crate) fn context_at(syntaxes: &[SyntaxReference], id: ContextId) -> Option<&Context>
    ensures { option_copied result ≡ context_at (set_of syntaxes.now) id }
{
    let syntax = syntaxes.get(id.syntax_index)?;
    syntax.contexts.get(id.context_index)
}

/// The entries of a context, none where the syntaxes lack it.
fn entries(syntaxes: &[SyntaxReference], id: ContextId) -> &[Pattern]
    ensures { result.now ≡ entries (set_of syntaxes.now) id }
{
    match context_at(syntaxes, id) {
        Some(context) => context.patterns.as_slice(),
        None => &[],
    }
}

/// A pattern that refers back into an opening match: what is searched for it may begin anywhere.
fn open_flat(context: ContextId, index: usize) -> Flat
    ensures context { result.context ≡ context }
    ensures index { result.index ≡ index }
    ensures captures { result.has_captures ≡ true }
    ensures untold { IsOpen result }
{
    Flat {
        begins: anywhere(),
        words: anywhere(),
        blanks: anywhere(),
        at_edges: false,
        at_lines: false,
        context,
        index,
        has_captures: true,
    }
}

/// What is kept of a pattern that stands at this place.
fn flat_of(context: ContextId, index: usize, m: &MatchPattern) -> Flat
    ensures context { result.context ≡ context }
    ensures index { result.index ≡ index }
    ensures captures { result.has_captures ≡ m.now.has_captures }
    ensures begins { NoneBeginsOutside result.begins m.now.regex }
    ensures words { NoneBeginsBefore false result.words m.now.regex }
    ensures blanks { NoneBeginsBefore true result.blanks m.now.regex }
    ensures edges { result.at_edges ≡ true → BeginsAtEdges m.now.regex }
    ensures lines { result.at_lines ≡ true → BeginsAtLines m.now.regex }
    ensures untold { result.has_captures ≡ true → IsOpen result }
{
    if m.has_captures {
        return open_flat(context, index);
    }
    Flat {
        begins: m.regex.begins(),
        words: m.regex.behind_words(),
        blanks: m.regex.behind_blanks(),
        at_edges: m.regex.begins_at_edges(),
        at_lines: m.regex.begins_at_lines(),
        context,
        index,
        has_captures: false,
    }
}

/// How many steps the walks of these contexts may take.
fn allowance(contexts: &[Context]) -> usize {
    let mut entries = 0usize;
    for context in contexts {
        entries = entries
            .saturating_add(context.patterns.len())
            .saturating_add(1);
    }
    entries.saturating_mul(STEPS_AN_ENTRY)
}

/// Takes a step of those that are allowed, if they are counted and one is left.
fn spend(steps: &mut Option<usize>) -> bool
    ensures uncounted { steps.old ≡ None → (result ≡ true) × (steps.new ≡ None) }
{
    match *steps {
        None => true,
        Some(0) => false,
        Some(left) => {
            *steps = Some(left - 1);
            true
        }
    }
}

/// The flat list of a context that none is kept of.
pub(crate) fn flats_walked(
    alloc: Global,
    syntaxes: &[SyntaxReference],
    id: ContextId,
) -> Result<FlatList, AllocError>
    ensures { IfOk result (λ flats. AreFlatsOf (set_of syntaxes.now) id flats) }
{
    let mut walker = Walker::new(alloc, syntaxes)?;
    let _ = walker.walk(syntaxes, id, &mut None)?;
    FlatList::new(alloc, walker.flats.as_slice())
}

impl Walker {
    /// For walks in these syntaxes.
    fn new(alloc: Global, syntaxes: &[SyntaxReference]) -> Result<Walker, AllocError> {
        Ok(Walker {
            entered: Entered::new(alloc, syntaxes)?,
            frames: Vec::new(alloc),
            flats: Vec::new(alloc),
        })
    }

    /// The context that an include enters.
    fn entering(&self, syntaxes: &[SyntaxReference], r: &ContextReference) -> Option<ContextId>
        ensures { result ≡ entering (set_of syntaxes.now) self.now.entered (target r.now) }
    {
        let id = r.target()?;
        if entries(syntaxes, id).is_empty() || self.entered.has(id) {
            None
        } else {
            Some(id)
        }
    }

    /// Enters a context.
    fn enter(&mut self, id: ContextId) -> Result<(), AllocError>
        ensures entered { OnOk result (self.new.entered ≡ self.old.entered ++ id ∷ []) }
        ensures frames { OnOk result
            (self.new.frames.items ≡ self.old.frames.items ++ at_first id ∷ []) }
        ensures flats { self.new.flats ≡ self.old.flats }
    {
        self.entered.push(id)?;
        self.frames.push(Frame { id, next: 0 })?;
        Ok(())
    }

    /// Begins a walk.
    fn begin(&mut self, id: ContextId) -> Result<(), AllocError>
        ensures entered { OnOk result (self.new.entered ≡ id ∷ []) }
        ensures frames { OnOk result (self.new.frames.items ≡ at_first id ∷ []) }
        ensures flats { self.new.flats.items ≡ [] }
    {
        self.entered.clear();
        self.frames.clear();
        self.flats.clear();
        self.enter(id)
    }

    /// Walks a context, which stands on its own include path, far enough to find the first pattern
    /// that passes a test: repeated ones may be left out. `false` where counted steps run out.
    fn walk(
        &mut self,
        syntaxes: &[SyntaxReference],
        root: ContextId,
        steps: &mut Option<usize>,
    ) -> Result<bool, AllocError>
        ensures found { IfOk result (λ done. done ≡ true
            → AreFlatsOf (set_of syntaxes.now) root self.new.flats.items) }
        ensures uncounted { IfOk result (λ done. steps.old ≡ None → done ≡ true) }
    {
        self.begin(root)?;
        'entries: while let Some(top) = self.frames.pop() {
            if !spend(steps) {
                return Ok(false);
            }
            let entries = entries(syntaxes, top.id);
            if top.next >= entries.len() {
                continue;
            }
            self.frames.push(Frame {
                id: top.id,
                next: top.next + 1,
            })?;
            match &entries[top.next] {
                Pattern::Match(m) => self.flats.push(flat_of(top.id, top.next, m))?,
                Pattern::Include(r) => {
                    if let Some(id) = self.entering(syntaxes, r) {
                        self.enter(id)?;
                    }
                }
            }
        }
        Ok(true)
    }

    /// The flat list of a context, unless its walk is given up.
    fn kept(
        &mut self,
        alloc: Global,
        syntaxes: &[SyntaxReference],
        id: ContextId,
        steps: &mut Option<usize>,
    ) -> Result<Option<FlatList>, AllocError>
        ensures { IfOk result (λ kept. IfSome kept (AreFlatsOf (set_of syntaxes.now) id)) }
    {
        if self.walk(syntaxes, id, steps)? {
            Ok(Some(FlatList::new(alloc, self.flats.as_slice())?))
        } else {
            Ok(None)
        }
    }

    /// The flat lists of the contexts of a syntax.
    fn flats_in(
        &mut self,
        alloc: Global,
        syntaxes: &[SyntaxReference],
        syntax_index: usize,
    ) -> Result<Seq<Option<FlatList>>, AllocError>
        requires { syntax_index < length syntaxes.now }
        ensures { IfOk result (λ lists. AreListsOf (set_of syntaxes.now) syntax_index lists) }
    {
        let contexts = syntaxes[syntax_index].contexts.as_slice();
        let count = contexts.len();
        let mut steps = Some(allowance(contexts));
        let mut lists = Vec::with_capacity(alloc, count)?;
        for context_index in 0..count {
            let id = ContextId {
                syntax_index,
                context_index,
            };
            lists.push(self.kept(alloc, syntaxes, id, &mut steps)?)?;
        }
        Ok(Seq::from_vec(lists))
    }
}

/// The flat lists of all contexts.
pub(crate) fn flat_table(
    alloc: Global,
    syntaxes: &[SyntaxReference],
) -> Result<FlatTable, AllocError>
    ensures { IfOk result (λ table. IsTableOf (set_of syntaxes.now) table) }
{
    let mut walker = Walker::new(alloc, syntaxes)?;
    let mut table = Vec::with_capacity(alloc, syntaxes.len())?;
    for syntax_index in 0..syntaxes.len() {
        table.push(walker.flats_in(alloc, syntaxes, syntax_index)?)?;
    }
    Ok(Seq::from_vec(table))
}
