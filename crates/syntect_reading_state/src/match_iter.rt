//! The match patterns of a context, one after another.
ghost use Rattle.std.specs.Prelude.{◌≡◌, ℕ, ◌+◌, ◌-◌, ◌<◌, ◌++◌, ◌∷◌, [], length, drop, map, IfOk, IfErr, IfSome, IfNone, OnErr, OnOk, MatchOption, IsTrue, false};
ghost use Rattle.std.specs.List.{list_any};
ghost use Rattle.std.specs.Iterator.{at_most};
ghost use Rattle.syntect_reading_state.specs.syntect_grammar_contexts.Contexts.{is_same, target};
ghost use Rattle.syntect_grammar.specs.Contexts.{contexts_of};
ghost use Rattle.syntect_reading_state.specs.Places.{GivesPlace, included_places, items_left, path_of, places_from, places_in, places_left, target_places, room_of, walk_left};
ghost use Rattle.syntect_reading_state.specs.Walking.{StepsTo, included_steps, target_steps, steps_from, steps_left};

use std::alloc::{AllocError, Global};
use syntect_grammar::includes::room_in;
use syntect_grammar::syntax_definition::{Context, ContextId, ContextReference, Pattern};
use syntect_grammar::syntax_set::SyntaxSet;

/// A context that waits for the end of an include: its next entry, and what the include names.
#[derive(Clone, Copy)]
struct Waiting<'a> {
    context: &'a Context,
    next: usize,
    target: ContextId,
}

/// One step of a walk.
enum Step<'a> {
    Found(&'a Context, usize),
    Goes,
    Ends,
}

/// The places of the match patterns of a context, in the order in which they are tried: each is the
/// context that holds the pattern, and its index there. Includes are walked in place. One that is
/// unresolved gives nothing, and so does one whose target the set lacks or that
/// is already being walked.
#[derive(Drop)]
pub struct MatchIter<'a> {
    syntax_set: &'a SyntaxSet,
    context: &'a Context,
    next: usize,
    waiting: Vec<Waiting<'a>>,
    /// How many includes may be followed into one another.
    room: u128,
    failed: bool,
}

fn is_same(a: ContextId, b: ContextId) -> bool
    ensures { result ≡ is_same a b }
{
    a.syntax_index == b.syntax_index && a.context_index == b.context_index
}

/// Whether an include of this context was followed.
fn is_on(waiting: &[Waiting], id: ContextId) -> bool
    ensures { result ≡ list_any (is_same id) (path_of waiting.now) }
{
    for w in waiting {
        if is_same(id, w.target) {
            return true;
        }
    }
    false
}

/// The places of the match patterns of a context, which may be one that the set doesn't hold. Takes
/// no memory; the items can, and none comes after a refusal.
pub fn context_iter<'a>(
    alloc: Global,
    syntax_set: &'a SyntaxSet,
    context: &'a Context,
) -> MatchIter<'a>
    ensures { places_left result ≡ places_in syntax_set.now context.now }
{
    MatchIter {
        syntax_set,
        context,
        next: 0,
        waiting: Vec::new(alloc),
        room: room_in(syntax_set) - 1,
        failed: false,
    }
}

impl<'a> MatchIter<'a> {
    /// The context that an include goes on with, if it gives anything.
    fn followed(&self, reference: &ContextReference) -> Option<(ContextId, &'a Context)>
        ensures nothing { IfNone result
            (included_places (target_places (room_of self.now) self.now.syntax_set.now
            (path_of self.now.waiting.items)) (path_of self.now.waiting.items)
            (target reference.now) ≡ []) }
        ensures places { IfSome result
            (λ p. included_places (target_places (room_of self.now) self.now.syntax_set.now
            (path_of self.now.waiting.items)) (path_of self.now.waiting.items)
            (target reference.now)
            ≡ places_from (room_of self.now - 1) self.now.syntax_set.now
            (path_of self.now.waiting.items ++ p.0 ∷ []) p.1.now 0) }
        ensures steps { IfSome result
            (λ p. included_steps (target_steps (room_of self.now) self.now.syntax_set.now
            (path_of self.now.waiting.items)) (path_of self.now.waiting.items)
            (target reference.now)
            ≡ steps_from (room_of self.now - 1) self.now.syntax_set.now
            (path_of self.now.waiting.items ++ p.0 ∷ []) p.1.now 0) }
    {
        let id = reference.target()?;
        if self.waiting.len() as u128 >= self.room || is_on(self.waiting.as_slice(), id) {
            return None;
        }
        let context = self.syntax_set.context_at(id)?;
        Some((id, context))
    }

    /// Goes on after an include with what it names, if that gives anything.
    fn follow(&mut self, reference: &ContextReference) -> Result<(), AllocError>
        ensures places { OnOk result
            (walk_left self.new ≡ included_places (target_places
            (room_of self.old) self.old.syntax_set.now (path_of self.old.waiting.items))
            (path_of self.old.waiting.items) (target reference.now) ++ walk_left self.old) }
        ensures steps { OnOk result
            (steps_left self.new < included_steps (target_steps
            (room_of self.old) self.old.syntax_set.now (path_of self.old.waiting.items))
            (path_of self.old.waiting.items) (target reference.now) + steps_left self.old + 1) }
        ensures failed { self.new.failed ≡ self.old.failed }
    {
        if let Some((id, context)) = self.followed(reference) {
            self.waiting.push(Waiting {
                context: self.context,
                next: self.next,
                target: id,
            })?;
            self.context = context;
            self.next = 0;
        }
        Ok(())
    }

    /// Goes on with the context that waits, at the end of one.
    fn leave(&mut self) -> Step<'a>
        requires { drop self.old.next self.old.context.now.patterns ≡ [] }
        ensures steps { StepsTo self.old self.new result }
        ensures failed { self.new.failed ≡ self.old.failed }
    {
        match self.waiting.pop() {
            Some(w) => {
                self.context = w.context;
                self.next = w.next;
                Step::Goes
            }
            None => Step::Ends,
        }
    }

    fn step(&mut self) -> Result<Step<'a>, AllocError>
        ensures steps { IfOk result (StepsTo self.old self.new) }
        ensures failed { self.new.failed ≡ self.old.failed }
    {
        let context = self.context;
        match context.patterns.as_slice().get(self.next) {
            Some(Pattern::Match(_)) => {
                let index = self.next;
                self.next += 1;
                Ok(Step::Found(context, index))
            }
            Some(Pattern::Include(reference)) => {
                self.next += 1;
                self.follow(reference)?;
                Ok(Step::Goes)
            }
            None => Ok(self.leave()),
        }
    }
}

impl<'a> Iterator for MatchIter<'a> {
    type Item = Result<(&'a Context, usize), AllocError>;

    ghost next_gives = { GivesPlace };

    ghost remaining = { λ it. at_most (items_left it) };

    fn next(&mut self) -> Option<Result<(&'a Context, usize), AllocError>> {
        if self.failed {
            return None;
        }
        loop {
            match self.step() {
                Ok(Step::Found(context, index)) => return Some(Ok((context, index))),
                Ok(Step::Goes) => {}
                Ok(Step::Ends) => return None,
                Err(e) => {
                    self.failed = true;
                    return Some(Err(e));
                }
            }
        }
    }
}
