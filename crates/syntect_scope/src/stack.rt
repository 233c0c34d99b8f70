//! Stacks of scopes and the operations on them.
ghost use Rattle.std.specs.Prelude.{◌≡◌, ◌==◌, ◌<◌, ◌≤◌, ◌+◌, ◌-◌, ◌↔◌, [], ◌∷◌, ◌++◌, length, take, drop, List, ℕ, IsTrue, IsOk, IfOk, OnOk, OnErr, IsErrOf, string_bytes};
ghost use Rattle.syntect_scope.specs.Stack.{applied, is_refused, TakesNoMemory, plain};
ghost use Rattle.syntect_scope.specs.Repository.{scopes_text};
ghost use Rattle.syntect_scope.specs.declared.stack.ScopeError.TheVariants.{Memory};

use crate::repository::ScopeRepository;
use crate::scope::Scope;
use std::alloc::{AllocError, AllocFailed, Global};
use syntect_values::seq::Seq;
use thiserror::Error;

/// Why an operation on a stack was refused. The stack is then as it was.
#[derive(Debug, Drop, PartialEq, Eq, Error)]
pub enum ScopeError {
    /// `Restore` came where no `Clear` is left to undo.
    #[error("Tried to restore cleared scopes, but none were cleared")]
    NoClearedScopesToRestore,
    /// There was no memory.
    #[error("Memory")]
    Memory,
}

impl From<AllocError> for ScopeError {
    ghost from_gives = { λ _ e. e ≡ Memory };

    fn from(_e: AllocError) -> ScopeError {
        ScopeError::Memory
    }
}

impl<T: Drop> From<AllocFailed<T>> for ScopeError {
    ghost from_gives = { λ _ e. e ≡ Memory };

    fn from(_e: AllocFailed<T>) -> ScopeError {
        ScopeError::Memory
    }
}

/// How many scopes `Clear` takes off the top.
#[derive(Clone, Copy, Debug, PartialEq, Eq)]
pub enum ClearAmount {
    /// The topmost so many scopes, or all if there are fewer.
    TopN(usize),
    /// All.
    All,
}

/// An operation on a stack of scopes.
#[derive(Clone, Copy, Debug, PartialEq, Eq)]
pub enum ScopeStackOp {
    /// Puts a scope on top.
    Push(Scope),
    /// Takes so many scopes off, or all if there are fewer.
    Pop(usize),
    /// Takes scopes off and remembers them as one list.
    Clear(ClearAmount),
    /// Puts the list that was remembered last back, in its order.
    Restore,
    /// Nothing.
    Noop,
}

/// A scope that an operation really pushed or removed.
#[derive(Clone, Copy, Debug, PartialEq, Eq)]
pub enum BasicScopeStackOp {
    /// The scope was pushed.
    Push(Scope),
    /// The top scope was removed.
    Pop,
}

/// A stack of scopes, the outermost at the bottom.
#[derive(Debug, Drop, PartialEq, Eq)]
pub struct ScopeStack {
    clear_stack: Seq<Seq<Scope>>,
    /// The scopes, the bottom one first.
    pub scopes: Seq<Scope>,
}

impl ScopeStack {
    /// No scopes, and none remembered. Takes no memory.
    pub fn new(alloc: Global) -> ScopeStack
        ensures { result ≡ plain [] }
    {
        ScopeStack {
            clear_stack: Seq::new(alloc),
            scopes: Seq::new(alloc),
        }
    }

    /// A stack of these scopes, the bottom one first. Takes no memory.
    pub fn from_vec(scopes: Vec<Scope>) -> ScopeStack
        ensures { result ≡ plain scopes.items }
    {
        ScopeStack {
            clear_stack: Seq::new(*scopes.allocator()),
            scopes: Seq::from_vec(scopes),
        }
    }

    /// No scopes, and none remembered: `new`.
    pub fn default(alloc: Global) -> ScopeStack
        ensures { result ≡ plain [] }
    {
        ScopeStack::new(alloc)
    }

    /// A copy of the stack, with the scopes that it remembers.
    pub fn clone(&self) -> Result<ScopeStack, AllocError>
        ensures { IfOk result (λ s. s ≡ self.now) }
    {
        let mut clear_stack = Seq::new(self.scopes.allocator());
        for cleared in self.clear_stack.as_slice() {
            clear_stack.push(Seq::from_slice(self.scopes.allocator(), cleared.as_slice())?)?;
        }
        Ok(ScopeStack {
            clear_stack,
            scopes: Seq::from_slice(self.scopes.allocator(), self.scopes.as_slice())?,
        })
    }

    /// The scopes, the bottom one first.
    pub fn as_slice(&self) -> &[Scope]
        ensures { result.now ≡ self.now.scopes }
    {
        self.scopes.as_slice()
    }

    /// The `n` scopes at the bottom.
    pub fn bottom_n(&self, n: usize) -> &[Scope]
        requires { n ≤ length self.now.scopes }
        ensures { result.now ≡ take n self.now.scopes }
    {
        self.scopes.as_slice().split_at(n).0
    }

    /// How many scopes there are.
    pub fn len(&self) -> usize
        ensures { result ≡ length self.now.scopes }
    {
        self.scopes.len()
    }

    /// Whether there are no scopes.
    pub fn is_empty(&self) -> bool
        ensures { IsTrue result ↔ (self.now.scopes ≡ []) }
    {
        self.scopes.is_empty()
    }

    /// Puts a scope on top. Without memory for it the stack stays.
    pub fn push(&mut self, s: Scope) -> Result<(), AllocError>
        ensures ok { OnOk result
            (self.new ≡ record self.old { scopes = self.old.scopes ++ s ∷ [] }) }
        ensures err { OnErr result (self.new ≡ self.old) }
    {
        self.scopes.push(s)?;
        Ok(())
    }

    /// Takes the top scope off, if there is one.
    pub fn pop(&mut self)
        ensures { self.new
            ≡ record self.old { scopes = take (length self.old.scopes - 1) self.old.scopes } }
    {
        let _ = self.scopes.pop();
    }

    /// The texts of the scopes in a repository, the bottom one first, each followed by one space.
    pub fn build_string(&self, repository: &ScopeRepository) -> Result<String, AllocError>
        ensures { IfOk result
            (λ text. string_bytes text ≡ scopes_text repository.now self.now.scopes) }
    {
        let mut text = String::new(self.scopes.allocator());
        for scope in self.scopes.as_slice() {
            repository.append_scope(&mut text, *scope)?;
            text.push(' ')?;
        }
        Ok(text)
    }

    /// Applies an operation. A refusal changes nothing. `Pop` and `Noop` take no memory.
    pub fn apply(&mut self, op: &ScopeStackOp) -> Result<(), ScopeError>
        ensures ok { OnOk result (self.new ≡ applied op.now self.old) }
        ensures nothing_cleared { IsErrOf result ScopeError.NoClearedScopesToRestore
            ↔ IsTrue (is_refused op.now self.old) }
        ensures free { TakesNoMemory op.now → IsOk result }
        ensures err { OnErr result (self.new ≡ self.old) }
    {
        match *op {
            ScopeStackOp::Push(scope) => self.scopes.push(scope)?,
            ScopeStackOp::Pop(count) => self
                .scopes
                .truncate(self.scopes.len().saturating_sub(count)),
            ScopeStackOp::Clear(amount) => self.clear(amount)?,
            ScopeStackOp::Restore => match self.clear_stack.as_slice().last() {
                None => return Err(ScopeError::NoClearedScopesToRestore),
                Some(cleared) => {
                    self.scopes.extend_from_slice(cleared.as_slice())?;
                    let _ = self.clear_stack.pop();
                }
            },
            ScopeStackOp::Noop => {}
        }
        Ok(())
    }

    /// Takes scopes off the top and remembers them as one list.
    fn clear(&mut self, amount: ClearAmount) -> Result<(), AllocError>
        ensures ok { OnOk result (self.new ≡ applied (ScopeStackOp.Clear amount) self.old) }
        ensures err { OnErr result (self.new ≡ self.old) }
    {
        let keep = match amount {
            ClearAmount::TopN(n) => self.scopes.len().saturating_sub(n),
            ClearAmount::All => 0,
        };
        let cleared = self.scopes.as_slice().split_at(keep).1;
        let remembered = Seq::from_slice(self.scopes.allocator(), cleared)?;
        self.clear_stack.push(remembered)?;
        self.scopes.truncate(keep);
        Ok(())
    }
}

impl Clone for ScopeStack {
    ghost is_clone = { λ x y. y ≡ x };

    fn clone(&self) -> Result<ScopeStack, AllocError> {
        ScopeStack::clone(self)
    }
}
