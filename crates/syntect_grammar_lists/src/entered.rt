//! Contexts that a walk has entered.
ghost use Rattle.std.specs.Prelude.{◌≡◌, ◌++◌, ◌∷◌, [], IfOk, OnOk, slice_set};
ghost use Rattle.std.specs.List.{list_any};
ghost use Rattle.syntect_grammar_contexts.specs.Contexts.{is_same};
ghost use Rattle.syntect_grammar_lists.specs.Entered.{AreMarksOf, SetsMark, mark_at};

use std::alloc::{AllocError, Global};
use std::marker::Model;
use syntect_grammar_contexts::context::ContextId;
use syntect_grammar_contexts::syntax_reference::SyntaxReference;

/// The contexts that a walk has entered, seen as their list.
#[derive(Drop)]
pub struct Entered {
    ids: Vec<ContextId>,
    /// Whether a context is among them, by the place of its syntax and its own in that. For one
    /// without a mark the list tells.
    marks: Vec<Vec<bool>>,
}

impl Model for Entered {
    ghost use Rattle.std.specs.Prelude.{List};
    ghost use Rattle.syntect_grammar_contexts.specs.declared.context.ContextId.{ContextId as AnId};
    ghost use Rattle.syntect_grammar_lists.specs.Entered.{AreMarksOf};

    ghost Value = { List AnId };

    ghost view = { λ a. a.ids.items };

    ghost invariant = { λ a. AreMarksOf a.marks.items a.ids.items };
}

/// Sets the mark of an index, if there is one.
fn set_in(row: &mut Vec<bool>, index: usize, value: bool)
    ensures { row.new.items ≡ slice_set row.old.items index value }
{
    if index < row.len() {
        row[index] = value;
    }
}

/// Sets the mark of a context, if it has one.
fn set_mark(marks: &mut Vec<Vec<bool>>, id: ContextId, value: bool)
    ensures { SetsMark id value marks.old.items marks.new.items }
{
    if id.syntax_index < marks.len() {
        set_in(&mut marks[id.syntax_index], id.context_index, value);
    }
}

/// The mark of a context, if it has one.
fn mark_of(marks: &[Vec<bool>], id: ContextId) -> Option<bool>
    ensures { result ≡ mark_at marks.now id }
{
    let row = marks.get(id.syntax_index)?;
    row.get(id.context_index).copied()
}

/// Whether the context is on the list.
fn is_on(ids: &[ContextId], id: ContextId) -> bool
    ensures { result ≡ list_any (is_same id) ids.now }
{
    ids.iter().any(|x| { id.syntax_index == x.syntax_index && id.context_index == x.context_index })
}

/// Takes all contexts off the list, and their marks away.
fn unmark(ids: &mut Vec<ContextId>, marks: &mut Vec<Vec<bool>>)
    requires { AreMarksOf marks.old.items ids.old.items }
    ensures ids { ids.new.items ≡ [] }
    ensures marks { AreMarksOf marks.new.items ids.new.items }
{
    while let Some(id) = ids.pop() {
        set_mark(marks, id, false);
    }
}

/// Marks of the contexts of syntaxes, none of which is on a list.
fn marks_of(alloc: Global, syntaxes: &[SyntaxReference]) -> Result<Vec<Vec<bool>>, AllocError>
    ensures { IfOk result (λ marks. AreMarksOf marks.items []) }
{
    let mut marks = Vec::with_capacity(alloc, syntaxes.len())?;
    for syntax in syntaxes {
        marks.push(vec![in alloc; false; syntax.contexts.len()]?)?;
    }
    Ok(marks)
}

impl Entered {
    /// None, with marks for the contexts of these syntaxes.
    pub fn new(alloc: Global, syntaxes: &[SyntaxReference]) -> Result<Entered, AllocError>
        ensures { IfOk result (λ e. e ≡ []) }
    {
        Ok(Entered {
            ids: Vec::new(alloc),
            marks: marks_of(alloc, syntaxes)?,
        })
    }

    /// Takes them off, and keeps the memory.
    pub fn clear(&mut self)
        ensures { self.new ≡ [] }
    {
        unmark(&mut self.ids, &mut self.marks);
    }

    /// Whether the context is among them.
    pub fn has(&self, id: ContextId) -> bool
        ensures { result ≡ list_any (is_same id) self.now }
    {
        match mark_of(self.marks.as_slice(), id) {
            Some(mark) => mark,
            None => is_on(self.ids.as_slice(), id),
        }
    }

    /// One more.
    pub fn push(&mut self, id: ContextId) -> Result<(), AllocError>
        ensures { OnOk result (self.new ≡ self.old ++ id ∷ []) }
    {
        self.ids.push(id)?;
        set_mark(&mut self.marks, id, true);
        Ok(())
    }
}
