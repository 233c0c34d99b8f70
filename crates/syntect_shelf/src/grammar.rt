//! Grammars on a shelf.
ghost use Rattle.std.specs.Prelude.{◌≡◌, IfOk};
ghost use Rattle.syntect_shelf.specs.Places.{head_alone};

use crate::below::base::limits::Limits;
use crate::below::grammar_loader::definition::SyntaxDefinition;
use crate::below::values::table::Table;
use crate::below::values::text::Text;
use std::alloc::{AllocError, Global};

/// What grammars are loaded with.
#[derive(Clone, Copy)]
pub struct Loading {
    pub lines_include_newline: bool,
    pub limits: Limits,
}

/// Where a grammar is.
#[derive(Drop)]
pub enum Source {
    /// In the file of this path.
    File(Text),
    /// In this library: plain text.
    PlainText,
}

/// A grammar on a shelf.
#[derive(Drop)]
pub struct Grammar {
    /// Its head: a definition without variables and contexts.
    pub head: SyntaxDefinition,
    /// Where it is.
    pub source: Source,
}

/// The head of a definition.
pub(crate) fn head_of(
    alloc: Global,
    definition: &SyntaxDefinition,
) -> Result<SyntaxDefinition, AllocError>
    ensures { IfOk result (λ d. d ≡ head_alone definition.now) }
{
    Ok(SyntaxDefinition {
        name: definition.name.clone()?,
        file_extensions: definition.file_extensions.clone()?,
        scope: definition.scope,
        first_line_match: definition.first_line_match.clone()?,
        hidden: definition.hidden,
        variables: Table::new(alloc),
        contexts: Table::new(alloc),
    })
}
