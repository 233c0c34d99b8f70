//! What is known of the style of a stack and of its lower parts.
ghost use Rattle.std.specs.Prelude.{◌≡◌, ◌≤◌, ◌<◌, ◌+◌, ◌^◌, ◌++◌, ◌∷◌, [], true, Some, length, slice_get, take, IfOk, IfSome, OnOk, OnErr};
ghost use Rattle.syntect_style.specs.Kept.{AreKnown, AreSmall, AreLeadersOf, IsBase, IsKnown, scopes_of, lowest};
ghost use Rattle.syntect_style.specs.Styling.{style_of, winners};
ghost use Rattle.syntect_theme.specs.declared.theme.Theme.{Theme};

use crate::contest::Leaders;
use crate::highlighter::Highlighter;
use crate::others::SmallLeaders;
use crate::syntect_scope::scope::Scope;
use std::alloc::{AllocError, Global};
use std::marker::Model;
use syntect_theme::style::{Style, StyleModifier};

/// What is known of a stack, by its top scope.
#[derive(Clone, Copy, Debug)]
pub(crate) struct Kept {
    pub(crate) scope: Scope,
    /// What stands after the single rules.
    pub(crate) single: Leaders,
    /// How many of its scopes, from the bottom, decide what the other rules come to.
    pub(crate) base: usize,
    /// What they come to, if it is known and their scores are small.
    pub(crate) others: Option<SmallLeaders>,
    /// The style, if it was shown.
    pub(crate) style: Option<Style>,
}

/// What is known of stacks that each have one scope more on top, the one of a single scope first.
#[derive(Debug, Drop)]
pub(crate) struct KeptStyles {
    entries: Vec<Kept>,
}

impl Model for KeptStyles {
    ghost use Rattle.std.specs.Prelude.{List};
    ghost use Rattle.syntect_style.specs.declared.kept.Kept.{Kept};

    ghost Value = { List Kept };

    ghost view = { λ a. a.entries.items };
}

impl KeptStyles {
    /// Nothing. Takes no memory.
    pub(crate) fn new(alloc: Global) -> KeptStyles
        ensures { result ≡ [] }
    {
        KeptStyles {
            entries: Vec::new(alloc),
        }
    }

    /// A copy of the styles that are kept.
    pub(crate) fn clone(&self) -> Result<KeptStyles, AllocError>
        ensures { IfOk result (λ kept. kept ≡ self.now) }
    {
        Ok(KeptStyles {
            entries: Vec::from_slice(*self.entries.allocator(), self.entries.as_slice())?,
        })
    }

    /// Becomes the same as another one, in the memory that it has where that is enough; nothing
    /// after an `Err`.
    pub(crate) fn clone_from(&mut self, source: &KeptStyles) -> Result<(), AllocError>
        ensures ok { OnOk result (self.new ≡ source.now) }
        ensures err { OnErr result (self.new ≡ []) }
    {
        self.entries.truncate(0);
        self.entries.extend_from_slice(source.entries.as_slice())
    }

    /// How many stacks these are.
    pub(crate) fn len(&self) -> usize
        ensures { result ≡ length self.now }
    {
        self.entries.len()
    }

    /// Whether the stack at a place has this scope on top.
    fn is_at(&self, scope: Scope, place: usize) -> bool
        ensures { result ≡ true → slice_get (scopes_of self.now) place ≡ Some scope }
    {
        match self.entries.get(place) {
            None => false,
            Some(known) => known.scope == scope,
        }
    }

    /// What stands below a place.
    fn below(&self, highlighter: &Highlighter<'_>, place: usize) -> Leaders
        requires { place ≤ length self.now }
        ensures { AreKnown highlighter.now [] self.now
            → AreLeadersOf highlighter.now (lowest place self.now) result }
    {
        if place == 0 {
            return highlighter.bottom();
        }
        self.entries[place - 1].single
    }

    /// How many scopes below a place decide what the other rules come to.
    fn base_below(&self, place: usize) -> usize
        requires { place ≤ length self.now }
        ensures { (theme : Theme) → AreKnown theme [] self.now
            → IsBase theme (lowest place self.now) result }
    {
        if place == 0 {
            return 0;
        }
        self.entries[place - 1].base
    }

    /// How many scopes do with one more on top, at a place.
    fn base_with(&self, highlighter: &Highlighter<'_>, scope: Scope, place: usize) -> usize
        requires within { place ≤ length self.now }
        requires room { place + 1 < 2 ^ 64 }
        ensures { AreKnown highlighter.now [] self.now
            → IsBase highlighter.now (lowest place self.now ++ scope ∷ []) result }
    {
        if highlighter.touches(scope) {
            place + 1
        } else {
            self.base_below(place)
        }
    }

    /// Goes from a stack that is known to the one with this scope more on top. What is known of
    /// that one is taken up again; else it is worked out, and what is known of other stacks above
    /// is dropped.
    pub(crate) fn push(
        &mut self,
        highlighter: &Highlighter<'_>,
        scope: Scope,
        place: usize,
    ) -> Result<(), AllocError>
        requires { place ≤ length self.old }
        ensures ok { OnOk result (lowest (place + 1) self.new
            ≡ lowest place self.old ++ scope ∷ []) }
        ensures len { OnOk result (place < length self.new) }
        ensures err { OnErr result (lowest place self.new ≡ lowest place self.old) }
        ensures known { AreKnown highlighter.now [] self.old
            → AreKnown highlighter.now [] self.new }
    {
        if self.is_at(scope, place) {
            return Ok(());
        }
        let mut single = self.below(highlighter, place);
        highlighter.raise(&mut single, scope, place);
        let base = self.base_with(highlighter, scope, place);
        self.entries.truncate(place);
        self.entries.push(Kept {
            scope,
            single,
            base,
            others: None,
            style: None,
        })?;
        Ok(())
    }

    /// What the other rules come to in the lowest so many scopes, if it is known and their scores
    /// are small.
    fn others_at(&self, count: usize) -> Option<SmallLeaders>
        ensures { IfSome result (λ others. (theme : Theme) → AreKnown theme [] self.now
            → AreSmall theme (lowest count self.now) others) }
    {
        if count == 0 {
            return None;
        }
        self.entries.get(count - 1)?.others
    }

    /// Keeps what the other rules come to in the lowest so many scopes.
    fn keep_others(&mut self, count: usize, others: Option<SmallLeaders>)
        ensures scopes { scopes_of self.new ≡ scopes_of self.old }
        ensures known { (theme : Theme)
            → IfSome others (AreSmall theme (lowest count self.old))
            → AreKnown theme [] self.old → AreKnown theme [] self.new }
    {
        if count > 0 && count <= self.entries.len() {
            self.entries[count - 1].others = others;
        }
    }

    /// The values that prevail in a stack of which this is known.
    fn modifier(
        &mut self,
        highlighter: &Highlighter<'_>,
        stack: &[Scope],
        known: Kept,
    ) -> Result<StyleModifier, AllocError>
        ensures scopes { scopes_of self.new ≡ scopes_of self.old }
        ensures known { lowest known.base self.old ≡ take known.base stack.now
            → AreKnown highlighter.now [] self.old
            → AreKnown highlighter.now [] self.new }
        ensures value { IfOk result (λ m. lowest known.base self.old ≡ take known.base stack.now
            → AreKnown highlighter.now [] self.old
            → IsKnown highlighter.now stack.now known → m ≡ winners highlighter.now stack.now) }
    {
        if let Some(others) = self.others_at(known.base) {
            return Ok(highlighter.finished_small(known.single, others));
        }
        let lower = stack.split_at(known.base.min(stack.len())).0;
        let others = highlighter.others_in(lower)?;
        self.keep_others(known.base, others.small());
        highlighter.finished(known.single, &others)
    }

    /// The style of a stack that is known, whose top is at this place.
    pub(crate) fn style(
        &mut self,
        highlighter: &Highlighter<'_>,
        stack: &[Scope],
        place: usize,
    ) -> Result<Style, AllocError>
        requires { place < length self.old }
        ensures scopes { scopes_of self.new ≡ scopes_of self.old }
        ensures known { lowest (place + 1) self.old ≡ stack.now
            → AreKnown highlighter.now [] self.old
            → AreKnown highlighter.now [] self.new }
        ensures style { IfOk result (λ style. lowest (place + 1) self.old ≡ stack.now
            → AreKnown highlighter.now [] self.old
            → style ≡ style_of highlighter.now stack.now) }
    {
        let known = self.entries[place];
        if let Some(style) = known.style {
            return Ok(style);
        }
        let modifier = self.modifier(highlighter, stack, known)?;
        let style = highlighter.get_default().apply(modifier);
        self.entries[place].style = Some(style);
        Ok(style)
    }
}
