//! Operations on a stack that are reported to a hook.
ghost use Rattle.std.specs.Prelude.{◌≡◌, ◌≤◌, ◌-◌, ◌↔◌, [], length, take, drop, replicate, is_ok, if◌then◌else◌, IsTrue, IsOk, OnOk, OnErr, IsErrOf};
ghost use Rattle.std.specs.List.{FoldsTo};
ghost use Rattle.syntect_scope.specs.Hook.{Hears, removals, additions, hook_calls};
ghost use Rattle.syntect_scope.specs.Stack.{applied, is_refused, TakesNoMemory};
ghost use Rattle.syntect_scope.specs.declared.stack.BasicScopeStackOp.TheVariants.{Pop as Removed};

use crate::scope::Scope;
use crate::stack::{BasicScopeStackOp, ScopeError, ScopeStack, ScopeStackOp};

impl ScopeStack {
    /// Takes scopes off until so many are left, and calls the hook after each.
    fn remove_telling<F: FnMut(BasicScopeStackOp, &[Scope])>(&mut self, keep: usize, hook: &mut F)
        requires callable { F.IsAlwaysCallable hook.old }
        ensures stack { self.new ≡ record self.old { scopes = take keep self.old.scopes } }
        ensures told { FoldsTo (Hears F.FnMut) hook.old
            (removals (length self.old.scopes - keep) self.old.scopes) hook.new }
    {
        while self.scopes.len() > keep {
            self.pop();
            hook(BasicScopeStackOp::Pop, self.as_slice());
        }
    }

    /// Calls the hook for scopes that were cleared.
    fn tell_cleared<F: FnMut(BasicScopeStackOp, &[Scope])>(&self, count: usize, hook: &mut F)
        requires callable { F.IsAlwaysCallable hook.old }
        ensures told { FoldsTo (Hears F.FnMut) hook.old
            (replicate count (Removed, self.now.scopes)) hook.new }
    {
        for _ in 0..count {
            hook(BasicScopeStackOp::Pop, self.as_slice());
        }
    }

    /// Calls the hook for the scopes from a place on, which were pushed.
    fn tell_pushed<F: FnMut(BasicScopeStackOp, &[Scope])>(&self, from: usize, hook: &mut F)
        requires callable { F.IsAlwaysCallable hook.old }
        requires within { from ≤ length self.now.scopes }
        ensures told { FoldsTo (Hears F.FnMut) hook.old
            (additions (take from self.now.scopes) (drop from self.now.scopes)) hook.new }
    {
        let scopes = self.as_slice();
        for place in from..scopes.len() {
            hook(
                BasicScopeStackOp::Push(scopes[place]),
                self.bottom_n(place + 1),
            );
        }
    }

    /// Applies an operation as `apply` does, and calls the hook once for each scope that is really
    /// pushed or removed, with the stack after that; for `Clear` it is each time the stack that is
    /// left. A refusal changes nothing and calls no hook.
    pub fn apply_telling<F: FnMut(BasicScopeStackOp, &[Scope])>(
        &mut self,
        op: &ScopeStackOp,
        hook: &mut F,
    ) -> Result<(), ScopeError>
        requires callable { F.IsAlwaysCallable hook.old }
        ensures ok { OnOk result (self.new ≡ applied op.now self.old) }
        ensures told { OnOk result (FoldsTo (Hears F.FnMut) hook.old
            (hook_calls op.now self.old) hook.new) }
        ensures nothing_cleared { IsErrOf result ScopeError.NoClearedScopesToRestore
            ↔ IsTrue (is_refused op.now self.old) }
        ensures free { TakesNoMemory op.now → IsOk result }
        ensures err { OnErr result (self.new ≡ self.old) }
        ensures silent { OnErr result (hook.new ≡ hook.old) }
    {
        let before = self.scopes.len();
        match *op {
            ScopeStackOp::Pop(count) => self.remove_telling(before.saturating_sub(count), hook),
            ScopeStackOp::Clear(_) => {
                self.apply(op)?;
                self.tell_cleared(before - self.scopes.len(), hook);
            }
            ScopeStackOp::Push(_) | ScopeStackOp::Restore => {
                self.apply(op)?;
                self.tell_pushed(before, hook);
            }
            ScopeStackOp::Noop => {}
        }
        Ok(())
    }

    /// Applies an operation as `apply_telling` does, with a hook that is handed over by value.
    pub fn apply_with_hook<F: FnMut(BasicScopeStackOp, &[Scope])>(
        &mut self,
        op: &ScopeStackOp,
        mut hook: F,
    ) -> Result<(), ScopeError>
        requires callable { F.IsAlwaysCallable hook }
        ensures ok { OnOk result (self.new ≡ applied op.now self.old) }
        ensures told { (last : F) × FoldsTo (Hears F.FnMut) hook
            (if is_ok result then hook_calls op.now self.old else []) last }
        ensures nothing_cleared { IsErrOf result ScopeError.NoClearedScopesToRestore
            ↔ IsTrue (is_refused op.now self.old) }
        ensures free { TakesNoMemory op.now → IsOk result }
        ensures err { OnErr result (self.new ≡ self.old) }
    {
        self.apply_telling(op, &mut hook)
    }
}
