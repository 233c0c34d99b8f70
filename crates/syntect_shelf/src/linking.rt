//! Sets of definitions that stand on a shelf.
ghost use Rattle.std.specs.Prelude.{◌≡◌, [], IfErr, IfOk, OnOk, length, take};
ghost use Rattle.syntect_grammar.specs.Link.{definitions_in, linked, paths_in, syntaxes_in, set_paths};
ghost use Rattle.syntect_grammar.specs.Metadata.{entries_in, kept_sets};
ghost use Rattle.syntect_grammar_limits.specs.syntect_grammar_loader.LoadingSteps.{KeepsAtoms};
ghost use Rattle.syntect_shelf.specs.Gathering.{AddsEntries, HasMetadata, path_at, paths_from};
ghost use Rattle.std.specs.Prelude.{◌∷◌, ◌++◌};

use crate::below::base::tree::Tree;
use crate::below::grammar_loader::definition::SyntaxDefinition;
use crate::below::scope::repository::ScopeRepository;
use crate::below::values::text::Text;
use crate::grammar::{Grammar, Source};
use std::alloc::{AllocError, Global};
use syntect_grammar::syntax_set::{SyntaxSet, SyntaxSetBuilder};

/// Appends a definition, under the path of its grammar's file if it has one.
fn add_from(
    builder: &mut SyntaxSetBuilder,
    definition: SyntaxDefinition,
    source: &Source,
) -> Result<(), AllocError>
    ensures definitions { OnOk result
        (definitions_in builder.new ≡ definitions_in builder.old ++ definition ∷ []) }
    ensures paths { OnOk result (paths_in builder.new ≡ paths_in builder.old
        ++ path_at (length (definitions_in builder.old)) source.now) }
    ensures entries { entries_in builder.new ≡ entries_in builder.old }
    ensures metadata { kept_sets builder.new ≡ kept_sets builder.old }
{
    match source {
        Source::File(path) => builder.add_loaded(definition, path.clone()?),
        Source::PlainText => builder.add(definition),
    }
}

/// A builder of definitions, each under the path of its grammar's file if it has one.
pub(crate) fn builder_of(
    alloc: Global,
    definitions: Vec<SyntaxDefinition>,
    grammars: &[Grammar],
) -> Result<SyntaxSetBuilder, AllocError>
    requires { length definitions.items ≡ length grammars.now }
    ensures definitions { IfOk result (λ b. definitions_in b ≡ definitions.items) }
    ensures paths { IfOk result (λ b. paths_in b ≡ paths_from 0 grammars.now) }
    ensures entries { IfOk result (λ b. entries_in b ≡ []) }
    ensures metadata { IfOk result (λ b. kept_sets b ≡ []) }
{
    let mut builder = SyntaxSetBuilder::new(alloc);
    for (definition, grammar) in definitions.into_iter().zip(grammars.iter()) {
        add_from(&mut builder, definition, &grammar.source)?;
    }
    Ok(builder)
}

/// Adds the metadata of files.
fn add_entries<T: Tree>(
    tree: &T,
    alloc: Global,
    builder: &mut SyntaxSetBuilder,
    metadata: &[Text],
) -> Result<(), AllocError>
    ensures added { OnOk result (AddsEntries (T.told tree.now) metadata.now builder.old
        builder.new) }
    ensures definitions { OnOk result
        (definitions_in builder.new ≡ definitions_in builder.old) }
    ensures paths { OnOk result (paths_in builder.new ≡ paths_in builder.old) }
{
    for path in metadata {
        match builder.add_metadata(tree, alloc, path.as_str()) {
            Ok(()) => {}
            Err(_) => return Err(AllocError),
        }
    }
    Ok(())
}

/// The set of these definitions, each under the path of its grammar's file if it has one, with the
/// metadata of files.
pub(crate) fn set_of<T: Tree>(
    tree: &T,
    alloc: Global,
    definitions: Vec<SyntaxDefinition>,
    grammars: &[Grammar],
    metadata: &[Text],
    repository: &mut ScopeRepository,
) -> Result<SyntaxSet, AllocError>
    requires { length definitions.items ≡ length grammars.now }
    ensures linked { IfOk result (λ set. syntaxes_in set ≡ linked definitions.items) }
    ensures paths { IfOk result (λ set. set_paths set ≡ paths_from 0 grammars.now) }
    ensures metadata { IfOk result
        (HasMetadata (T.told tree.now) metadata.now repository.old repository.new) }
    ensures kept { KeepsAtoms repository.old repository.new }
{
    let mut builder = builder_of(alloc, definitions, grammars)?;
    add_entries(tree, alloc, &mut builder, metadata)?;
    builder.build(alloc, repository)
}
