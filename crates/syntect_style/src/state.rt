//! The state of a highlighter between two texts.
ghost use Rattle.std.specs.Prelude.{◌≡◌, ◌≤◌, ◌↔◌, [], length, take, IsTrue, IfOk, OnOk, OnErr, IfErr, true, false};
ghost use Rattle.syntect_style.specs.syntect_scope.Stack.{applied, is_refused};
ghost use Rattle.syntect_style.specs.Kept.{AreKnown, lowest};
ghost use Rattle.syntect_style.specs.Styling.{shown_style};
ghost use Rattle.syntect_style.specs.Pieces.{path_of, KeepsTrueStyles};
ghost use Rattle.syntect_theme.specs.declared.theme.Theme.{Theme as ATheme};

use crate::highlighter::Highlighter;
use crate::kept::KeptStyles;
use crate::syntect_scope::scope::Scope;
use crate::syntect_scope::stack::{ScopeError, ScopeStack, ScopeStackOp};
use std::alloc::AllocError;
use syntect_theme::style::Style;

/// The stack of scopes after the texts so far. What is known of its style is kept with it, so a
/// state belongs to one highlighter: the iterators take the same one for all texts. States are
/// equal where their stacks are.
#[derive(Debug)]
#[derive_where(PartialEq, Eq)]
pub struct HighlightState {
    path: ScopeStack,
    /// What is known of the lower parts of a stack, this one or an earlier one.
    #[derive_where(skip(EqHashOrd))]
    kept: KeptStyles,
    /// How many of these are lower parts of this stack.
    #[derive_where(skip(EqHashOrd))]
    fits: usize,
}

/// Written out, so that crates above call it and needn't prove each part's drop again.
impl Drop for HighlightState {
    fn drop(self) {
        let HighlightState {
            path: _,
            kept: _,
            fits: _,
        } = self;
    }
}

impl HighlightState {
    /// The state of a stack, before a text. Takes no memory.
    pub fn new(highlighter: &Highlighter<'_>, path: ScopeStack) -> HighlightState
        ensures path { path_of result ≡ path }
        ensures keeps { KeepsTrueStyles highlighter.now result }
    {
        let _ = highlighter;
        let kept = KeptStyles::new(path.scopes.allocator());
        HighlightState {
            path,
            kept,
            fits: 0,
        }
    }

    /// The stack. Takes no memory.
    pub fn path(&self) -> &ScopeStack
        ensures { result.now ≡ path_of self.now }
    {
        &self.path
    }

    /// The stack, taken out. Takes no memory.
    pub fn into_path(self) -> ScopeStack
        ensures { result ≡ path_of self }
    {
        let HighlightState {
            path: stack,
            kept: _,
            fits: _,
        } = self;
        stack
    }

    /// A copy of the state.
    pub fn clone(&self) -> Result<HighlightState, AllocError>
        ensures { IfOk result (λ s. s ≡ self.now) }
    {
        Ok(HighlightState {
            path: self.path.clone()?,
            kept: self.kept.clone()?,
            fits: self.fits,
        })
    }

    /// Becomes the same state as another one, in the memory that it has where that is enough. After
    /// an `Err` it has a stack of which nothing is known.
    pub fn clone_from(&mut self, source: &HighlightState) -> Result<(), AllocError>
        ensures ok { OnOk result (self.new ≡ source.now) }
        ensures err { (theme : ATheme) → OnErr result (KeepsTrueStyles theme self.new) }
    {
        self.fits = 0;
        self.kept.clone_from(&source.kept)?;
        match source.path.clone() {
            Ok(path) => {
                self.path = path;
                self.fits = source.fits;
                Ok(())
            }
            Err(e) => {
                self.kept = KeptStyles::new(source.path.scopes.allocator());
                Err(e)
            }
        }
    }

    /// The style of text at this stack.
    pub(crate) fn style(&mut self, highlighter: &Highlighter<'_>) -> Result<Style, AllocError>
        ensures path { path_of self.new ≡ path_of self.old }
        ensures keeps { KeepsTrueStyles highlighter.now self.old
            → KeepsTrueStyles highlighter.now self.new }
        ensures style { IfOk result (λ s. KeepsTrueStyles highlighter.now self.old
            → s ≡ shown_style highlighter.now (path_of self.old).scopes) }
    {
        let stack = self.path.as_slice();
        if stack.is_empty() {
            return Ok(highlighter.get_default());
        }
        let known = self.fits.min(self.kept.len()).min(stack.len());
        follow(&mut self.kept, highlighter, stack, known)?;
        self.fits = stack.len();
        self.kept.style(highlighter, stack, stack.len() - 1)
    }

    /// Applies an operation. A refusal changes nothing.
    pub(crate) fn apply(
        &mut self,
        highlighter: &Highlighter<'_>,
        op: &ScopeStackOp,
    ) -> Result<(), ScopeError>
        ensures ok { OnOk result (path_of self.new ≡ applied op.now (path_of self.old)) }
        ensures applied { OnOk result (is_refused op.now (path_of self.old) ≡ false) }
        ensures none { IfErr result (λ e. e ≡ ScopeError.NoClearedScopesToRestore
            → is_refused op.now (path_of self.old) ≡ true) }
        ensures err { OnErr result (self.new ≡ self.old) }
        ensures keeps { KeepsTrueStyles highlighter.now self.old
            → KeepsTrueStyles highlighter.now self.new }
    {
        let _ = highlighter;
        self.path.apply(op)?;
        self.fits = self.fits.min(self.path.len());
        Ok(())
    }
}

/// Goes on from the part of a stack that is known, of so many scopes, to the whole stack.
fn follow(
    kept: &mut KeptStyles,
    highlighter: &Highlighter<'_>,
    stack: &[Scope],
    known: usize,
) -> Result<(), AllocError>
    requires within { known ≤ length kept.old }
    requires on_stack { known ≤ length stack.now }
    ensures ok { OnOk result (lowest known kept.old ≡ take known stack.now
        → lowest (length stack.now) kept.new ≡ stack.now) }
    ensures len { OnOk result (length stack.now ≤ length kept.new) }
    ensures err { OnErr result (lowest known kept.old ≡ take known stack.now
        → lowest known kept.new ≡ take known stack.now) }
    ensures known { AreKnown highlighter.now [] kept.old → AreKnown highlighter.now [] kept.new }
{
    for place in known..stack.len() {
        match kept.push(highlighter, stack[place], place) {
            Ok(()) => {}
            Err(e) => return Err(e),
        }
    }
    Ok(())
}

impl Clone for HighlightState {
    ghost is_clone = { λ x y. y ≡ x };

    fn clone(&self) -> Result<HighlightState, AllocError> {
        HighlightState::clone(self)
    }
}

/// Whether two states are equal: exactly where their stacks are.
pub fn is_same_state(a: &HighlightState, b: &HighlightState) -> bool
    ensures { IsTrue result ↔ (path_of a.now ≡ path_of b.now) }
{
    a == b
}
