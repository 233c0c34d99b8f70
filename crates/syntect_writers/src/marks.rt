//! Spans while they are written.
ghost use Rattle.std.specs.Prelude.{◌≡◌, ◌≤◌, false, List, ℕ, [], ◌∷◌, ◌++◌, map, replicate, length, drop, IsTrue, OnOk, OnErr, IsErrOf, None, ◌↔◌, string_bytes};
ghost use Rattle.std.specs.Str.{IsCharBoundary};
ghost use Rattle.syntect_writers.specs.Marks.{Mark, words_between, operation_marks, opening_of};
ghost use Rattle.syntect_writers.specs.Marks.Mark.{Begin, End, Words};
ghost use Rattle.syntect_writers.specs.Writing.{Puts};
ghost use Rattle.syntect_writers.specs.syntect_scope.Stack.{applied, is_refused};

use crate::class_style::push_opening;
use crate::escape::push_escaped;
use crate::syntect_scope::repository::ScopeRepository;
use crate::syntect_scope::scope::Scope;
use crate::syntect_scope::stack::{ScopeError, ScopeStack, ScopeStackOp};
use std::alloc::AllocError;

/// The text so far, and the scope of a span that has just begun: its tag waits until something
/// stands in it.
#[derive(Drop)]
pub(crate) struct Spans {
    pub(crate) text: String,
    pub(crate) waiting: Option<Scope>,
}

impl Spans {
    /// Writes the tag that waits.
    pub(crate) fn settle(
        &mut self,
        prefix: &str,
        repository: &ScopeRepository,
    ) -> Result<(), AllocError>
        ensures none { OnOk result (self.new.waiting ≡ None) }
        ensures text { OnOk result (string_bytes self.new.text ≡ string_bytes self.old.text
            ++ opening_of prefix.now repository.now self.old.waiting) }
    {
        if let Some(scope) = self.waiting {
            push_opening(&mut self.text, prefix, repository, scope)?;
            self.waiting = None;
        }
        Ok(())
    }

    /// Begins the span of a scope.
    fn begin(
        &mut self,
        prefix: &str,
        repository: &ScopeRepository,
        scope: Scope,
    ) -> Result<(), AllocError>
        ensures { OnOk result (Puts prefix.now repository.now self.old
            (Begin scope ∷ []) self.new) }
    {
        self.settle(prefix, repository)?;
        self.waiting = Some(scope);
        Ok(())
    }

    /// Ends the last span.
    fn end(&mut self) -> Result<(), AllocError>
        ensures { (prefix : List ℕ) (repo : List (List ℕ))
            → OnOk result (Puts prefix repo self.old (End ∷ []) self.new) }
    {
        if self.waiting.is_some() {
            self.waiting = None;
            return Ok(());
        }
        self.text.push_str("</span>")
    }

    /// Appends a text.
    fn show(
        &mut self,
        prefix: &str,
        repository: &ScopeRepository,
        text: &str,
    ) -> Result<(), AllocError>
        ensures { OnOk result (Puts prefix.now repository.now self.old
            (Words text.now ∷ []) self.new) }
    {
        self.settle(prefix, repository)?;
        push_escaped(&mut self.text, text)
    }

    /// Begins the spans of scopes, one in another.
    fn begin_all(
        &mut self,
        prefix: &str,
        repository: &ScopeRepository,
        scopes: &[Scope],
    ) -> Result<(), AllocError>
        ensures { OnOk result (Puts prefix.now repository.now self.old
            (map Begin scopes.now) self.new) }
    {
        for scope in scopes {
            self.begin(prefix, repository, *scope)?;
        }
        Ok(())
    }

    /// Ends so many spans.
    fn end_all(&mut self, count: usize) -> Result<(), AllocError>
        ensures { (prefix : List ℕ) (repo : List (List ℕ))
            → OnOk result (Puts prefix repo self.old (replicate count End) self.new) }
    {
        for _ in 0..count {
            self.end()?;
        }
        Ok(())
    }

    /// Appends the text between two places of a line, if there is one.
    pub(crate) fn show_between(
        &mut self,
        prefix: &str,
        repository: &ScopeRepository,
        line: &str,
        from: usize,
        to: usize,
    ) -> Result<(), AllocError>
        requires start { IsCharBoundary line.now from }
        requires end { IsCharBoundary line.now to }
        ensures { OnOk result (Puts prefix.now repository.now self.old
            (words_between line.now from to) self.new) }
    {
        if from < to {
            self.show(prefix, repository, &line[from..to])?;
        }
        Ok(())
    }

    /// Applies an operation, and begins and ends the spans of the scopes that it really pushes and
    /// removes. A refusal leaves the stack.
    pub(crate) fn operate(
        &mut self,
        prefix: &str,
        repository: &ScopeRepository,
        stack: &mut ScopeStack,
        op: &ScopeStackOp,
    ) -> Result<(), ScopeError>
        ensures stack { OnOk result (stack.new ≡ applied op.now stack.old) }
        ensures marks { OnOk result (Puts prefix.now repository.now self.old
            (operation_marks op.now stack.old) self.new) }
        ensures accepted { OnOk result (is_refused op.now stack.old ≡ false) }
        ensures nothing_cleared { IsErrOf result ScopeError.NoClearedScopesToRestore
            → IsTrue (is_refused op.now stack.old) }
    {
        let before = stack.len();
        stack.apply(op)?;
        let now = stack.len();
        if now < before {
            self.end_all(before - now)?;
        } else {
            let pushed = stack.as_slice().split_at(before).1;
            self.begin_all(prefix, repository, pushed)?;
        }
        Ok(())
    }
}
