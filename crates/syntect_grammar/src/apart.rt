//! Sets, taken apart again.
ghost use Rattle.std.specs.Prelude.{◌≡◌, [], map, IfOk};
ghost use Rattle.std.specs.List.{zip};
ghost use Rattle.syntect_grammar.specs.Apart.{by_names, definition_of_syntax};
ghost use Rattle.syntect_grammar.specs.Link.{definitions_in, paths_in, syntaxes_in, set_paths};
ghost use Rattle.syntect_grammar.specs.Metadata.{entries_in, kept_sets, metadata_in};

use crate::below::values::seq::Seq;
use crate::below::values::table::Table;
use crate::below::values::text::Text;
use crate::syntax_definition::{Context, SyntaxDefinition};
use crate::syntax_set::{SyntaxReference, SyntaxSet, SyntaxSetBuilder};
use std::alloc::{AllocError, Global};

/// Contexts by their names.
fn by_names(
    alloc: Global,
    names: Seq<Text>,
    contexts: Seq<Context>,
) -> Result<Table<Text, Context>, AllocError>
    ensures { IfOk result (λ table. table ≡ by_names (zip names contexts)) }
{
    let mut table = Table::new(alloc);
    for (name, context) in names.into_vec().into_iter().zip(contexts.into_vec()) {
        table.insert(name, context)?;
    }
    Ok(table)
}

/// The definition that a syntax of a set is.
fn definition_of(alloc: Global, syntax: SyntaxReference) -> Result<SyntaxDefinition, AllocError>
    ensures { IfOk result (λ d. d ≡ definition_of_syntax syntax) }
{
    let SyntaxReference {
        name,
        file_extensions,
        scope,
        first_line_match,
        hidden,
        variables,
        index: _,
        names,
        contexts,
        first_line: _,
    } = syntax;
    Ok(SyntaxDefinition {
        name,
        file_extensions,
        scope,
        first_line_match,
        hidden,
        variables,
        contexts: by_names(alloc, names.into_seq(), contexts)?,
    })
}

impl SyntaxSet {
    /// A builder of the set's syntaxes, in order: linked references keep their numbers, contexts
    /// their prototypes and marks; paths and metadata stay. Without memory the set is dropped.
    pub fn into_builder(self, alloc: Global) -> Result<SyntaxSetBuilder, AllocError>
        ensures definitions { IfOk result
            (λ builder. definitions_in builder ≡ map definition_of_syntax (syntaxes_in self)) }
        ensures paths { IfOk result (λ builder. paths_in builder ≡ set_paths self) }
        ensures entries { IfOk result (λ builder. entries_in builder ≡ []) }
        ensures metadata { IfOk result (λ builder. kept_sets builder ≡ metadata_in self) }
    {
        let (syntaxes, paths, metadata) = self.into_parts();
        let mut definitions = Vec::with_capacity(alloc, syntaxes.len())?;
        for syntax in syntaxes.into_vec() {
            let definition = definition_of(alloc, syntax)?;
            definitions.push(definition)?;
        }
        Ok(SyntaxSetBuilder::from_parts(alloc, Seq::from_vec(definitions), paths, metadata))
    }
}
