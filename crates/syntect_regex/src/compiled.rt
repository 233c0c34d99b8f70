//! Programs that are made when they are first wanted, or with their pattern.
ghost use Rattle.std.specs.Prelude.{IfOk};
ghost use Rattle.syntect_regex.specs.syntect_pattern_compile.Compiled.{Compiles};
ghost use Rattle.syntect_regex.specs.Kept.{IsKeptOf};

use crate::below::pattern_compile::compiler::compile;
use crate::below::pattern_table::program::Program;
use once_cell::race::OnceBox;
use std::alloc::{AllocError, Global};
use std::marker::Model;

/// What is made of a text, and the text.
#[derive(Drop)]
pub(crate) struct Compiled {
    text: String,
    /// None if the text is no pattern.
    program: Option<Program>,
}

impl Model for Compiled {
    ghost use Rattle.std.specs.Prelude.{List, ℕ, string_bytes};
    ghost use Rattle.syntect_regex.specs.syntect_pattern_compile.Compiled.{Compiles};

    ghost Value = { List ℕ };

    ghost view = { λ a. string_bytes a.text };

    ghost invariant = { λ a. Compiles (string_bytes a.text) a.program };
}

/// What is kept of a pattern to search it.
#[derive(Drop)]
pub(crate) enum Kept {
    /// What was made of its text when the pattern was made. It is asked for without a comparison.
    Own(Box<Option<Program>>),
    /// What the first search makes of it.
    Late(OnceBox<Compiled>),
}

/// What is made of the text, as it is kept, or else made now.
#[inline]
pub(crate) fn program_in<'a>(
    alloc: Global,
    kept: &'a Kept,
    text: &str,
) -> Result<&'a Option<Program>, AllocError>
    requires { IsKeptOf text.now kept.now }
    ensures { IfOk result (λ p. Compiles text.now p.now) }
{
    match kept {
        Kept::Own(program) => Ok(&**program),
        Kept::Late(cell) => late_program(alloc, cell, text),
    }
}

/// What is made of the text, as the cell has it, or else made now and kept there. Of what stands in
/// a cell nothing is known but its type, so it carries its text,
/// and this one is compared with that.
#[inline]
fn late_program<'a>(
    alloc: Global,
    cell: &'a OnceBox<Compiled>,
    text: &str,
) -> Result<&'a Option<Program>, AllocError>
    ensures { IfOk result (λ p. Compiles text.now p.now) }
{
    match cell.get() {
        Some(kept) => of_text(kept, text),
        None => made_in(alloc, cell, text),
    }
}

/// What is kept, which is of this text.
#[inline]
fn of_text<'a>(kept: &'a Compiled, text: &str) -> Result<&'a Option<Program>, AllocError>
    ensures { IfOk result (λ p. Compiles text.now p.now) }
{
    if kept.text.as_str() == text {
        Ok(&kept.program)
    } else {
        // Never met: a cell is filled below alone, with what is made of its own pattern's text
        Err(AllocError)
    }
}

/// What is made of the text, kept in the cell. Where threads race the first one's stays.
#[inline(never)]
fn made_in<'a>(
    alloc: Global,
    cell: &'a OnceBox<Compiled>,
    text: &str,
) -> Result<&'a Option<Program>, AllocError>
    ensures { IfOk result (λ p. Compiles text.now p.now) }
{
    let program = compile(alloc, text)?;
    let compiled = Compiled {
        text: String::from_str(alloc, text)?,
        program,
    };
    let made = Box::new(alloc, compiled)?;
    of_text(cell.get_or_init(move || made), text)
}
