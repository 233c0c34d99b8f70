//! Which contexts a prototype reaches, and which contexts back references mark.
ghost use Rattle.std.specs.Prelude.{◌≡◌, ◌↔◌, ◌++◌, [], ◌∷◌, true, cond, filter_map, IfOk, OnOk};
ghost use Rattle.std.specs.List.{flat_map};
ghost use Rattle.std.specs.Option.{option_map_or, option_to_list};
ghost use Rattle.std.specs.HashMap as hash;
ghost use Rattle.std.specs.HashSet as marks;
ghost use Rattle.syntect_grammar_contexts.specs.Contexts.{is_same};
ghost use Rattle.syntect_grammar_linker.specs.Reached.{include_step, open_step, entry_steps, entries_given, prototype_steps, has_path_in, is_marked_in_set};
ghost use Rattle.syntect_grammar_linker.specs.Inclusions.{From, inclusions_of, inclusions_by, each_in, each_from, includers_in, if_marked};
ghost use Rattle.syntect_grammar_contexts.specs.Contexts.{count_contexts};
ghost use Rattle.syntect_grammar_contexts.specs.declared.context.ContextId.{ContextId};

use crate::below::values::seq::Seq;
use crate::directory::Directory;
use std::alloc::{AllocError, Global};
use std::collections::{HashMap, HashSet};
use syntect_grammar_contexts::context::{
    Context, ContextId, ContextReference, MatchOperation, Pattern,
};
use syntect_grammar_contexts::context_names::ContextNames;
use syntect_grammar_contexts::syntax_reference::context_named;

/// What an include leads to in the walk from the prototype of the syntax of this index.
fn include_step(
    home: usize,
    names: &ContextNames,
    reference: &ContextReference,
) -> Option<ContextId>
    ensures { result ≡ include_step home names.now reference.now }
{
    match reference {
        ContextReference::Named(name) => context_named(home, names, name.as_str()),
        ContextReference::Direct(id) => Some(*id),
        _ => None,
    }
}

/// What a reference of a push or set leads to in the walk from the prototype of the
/// syntax of this index.
fn open_step(home: usize, names: &ContextNames, reference: &ContextReference) -> Option<ContextId>
    ensures { result ≡ open_step home names.now reference.now }
{
    match reference {
        ContextReference::Named(name) | ContextReference::Inline(name) => {
            context_named(home, names, name.as_str())
        }
        ContextReference::Direct(id) => Some(*id),
        _ => None,
    }
}

/// Adds what the references of a push or set lead to.
fn add_opened(
    home: usize,
    names: &ContextNames,
    references: &[ContextReference],
    steps: &mut Vec<ContextId>,
) -> Result<(), AllocError>
    ensures { OnOk result (steps.new.items ≡ steps.old.items
        ++ filter_map (open_step home names.now) references.now) }
{
    for reference in references {
        if let Some(id) = open_step(home, names, reference) {
            steps.push(id)?;
        }
    }
    Ok(())
}

/// Adds the steps of an entry.
fn add_entry_steps(
    home: usize,
    names: &ContextNames,
    entry: &Pattern,
    steps: &mut Vec<ContextId>,
) -> Result<(), AllocError>
    ensures { OnOk result (steps.new.items ≡ steps.old.items
        ++ entry_steps home names.now entry.now) }
{
    match entry {
        Pattern::Include(reference) => {
            if let Some(id) = include_step(home, names, reference) {
                steps.push(id)?;
            }
            Ok(())
        }
        Pattern::Match(pattern) => match &pattern.operation {
            MatchOperation::Push(references) | MatchOperation::Set(references) => {
                add_opened(home, names, references.as_slice(), steps)
            }
            MatchOperation::Pop | MatchOperation::None => Ok(()),
        },
    }
}

/// The entries of a context, none where there is no such context.
fn entries_of(bodies: &[Seq<Context>], id: ContextId) -> &[Pattern]
    ensures { result.now ≡ entries_given bodies.now id }
{
    let Some(body) = bodies.get(id.syntax_index) else {
        return &[];
    };
    match body.get(id.context_index) {
        Some(context) => context.patterns.as_slice(),
        None => &[],
    }
}

/// Adds the steps of a context.
fn add_steps(
    bodies: &[Seq<Context>],
    home: usize,
    names: &ContextNames,
    id: ContextId,
    steps: &mut Vec<ContextId>,
) -> Result<(), AllocError>
    ensures { OnOk result (steps.new.items ≡ steps.old.items
        ++ prototype_steps bodies.now home names.now id) }
{
    for entry in entries_of(bodies, id) {
        add_entry_steps(home, names, entry, steps)?;
    }
    Ok(())
}

/// The contexts that are reached from the prototype of the syntax of this index.
pub(crate) fn reached_from(
    alloc: Global,
    bodies: &[Seq<Context>],
    home: usize,
    names: &ContextNames,
    prototype: ContextId,
) -> Result<HashSet<ContextId>, AllocError>
    ensures { IfOk result (λ set. (id : ContextId)
        → marks.contains is_same set id
        ≡ has_path_in (prototype_steps bodies.now home names.now) (is_same id)
        (count_contexts bodies.now) prototype) }
{
    let mut reached = HashSet::new(alloc);
    let mut waiting = Vec::new(alloc);
    waiting.push(prototype)?;
    while let Some(id) = waiting.pop() {
        if reached.insert(id)? {
            add_steps(bodies, home, names, id, &mut waiting)?;
        }
    }
    Ok(reached)
}

/// Adds the inclusions of entries of a context: what they include, each with the context.
fn add_inclusions(
    directory: &Directory<'_>,
    id: ContextId,
    entries: &[Pattern],
    inclusions: &mut Vec<(ContextId, ContextId)>,
) -> Result<(), AllocError>
    ensures { OnOk result (inclusions.new.items
        ≡ inclusions.old.items ++ inclusions_of directory.now id entries.now) }
{
    for entry in entries {
        if let Pattern::Include(reference) = entry {
            if let Some(target) = directory.link_of(id.syntax_index, reference) {
                inclusions.push((target, id))?;
            }
        }
    }
    Ok(())
}

/// Adds the inclusions of the contexts of a syntax.
fn add_inclusions_in(
    directory: &Directory<'_>,
    syntax_index: usize,
    contexts: &[Context],
    inclusions: &mut Vec<(ContextId, ContextId)>,
) -> Result<(), AllocError>
    ensures { OnOk result (inclusions.new.items
        ≡ inclusions.old.items
        ++ each_in (inclusions_by directory.now) syntax_index 0 contexts.now) }
{
    for (context_index, context) in contexts.iter().enumerate() {
        let id = ContextId {
            syntax_index,
            context_index,
        };
        add_inclusions(directory, id, context.patterns.as_slice(), inclusions)?;
    }
    Ok(())
}

/// The inclusions of all contexts.
fn inclusions_of(
    alloc: Global,
    directory: &Directory<'_>,
    bodies: &[Seq<Context>],
) -> Result<Vec<(ContextId, ContextId)>, AllocError>
    ensures { IfOk result (λ v. v.items ≡ each_from (inclusions_by directory.now) 0 bodies.now) }
{
    let mut inclusions = Vec::new(alloc);
    for (index, body) in bodies.iter().enumerate() {
        add_inclusions_in(directory, index, body.as_slice(), &mut inclusions)?;
    }
    Ok(inclusions)
}

/// Appends one that includes a context.
fn put_includer(
    alloc: Global,
    includers: &mut HashMap<ContextId, Vec<ContextId>>,
    included: ContextId,
    includer: ContextId,
) -> Result<(), AllocError>
    ensures { OnOk result ((id : ContextId) → option_map_or (λ v. v.items)
        (hash.get is_same includers.new id) []
        ≡ cond (is_same included id)
        (option_map_or (λ v. v.items) (hash.get is_same includers.old id) [] ++ includer ∷ [])
        (option_map_or (λ v. v.items) (hash.get is_same includers.old id) [])) }
{
    if !includers.contains_key(&included) {
        let mut ids = Vec::new(alloc);
        ids.push(includer)?;
        includers.insert(included, ids)?;
        return Ok(());
    }
    if let Some(ids) = includers.get_mut(&included) {
        ids.push(includer)?;
    }
    Ok(())
}

/// What includes each context.
fn includers(
    alloc: Global,
    inclusions: &[(ContextId, ContextId)],
) -> Result<HashMap<ContextId, Vec<ContextId>>, AllocError>
    ensures { IfOk result (λ m. (id : ContextId)
        → option_map_or (λ v. v.items) (hash.get is_same m id) []
        ≡ includers_in inclusions.now id) }
{
    let mut includers: HashMap<ContextId, Vec<ContextId>> = HashMap::new(alloc);
    for inclusion in inclusions {
        put_includer(alloc, &mut includers, inclusion.0, inclusion.1)?;
    }
    Ok(includers)
}

/// Adds the contexts of a syntax that are marked as they are given.
fn add_marked(
    syntax_index: usize,
    contexts: &[Context],
    marked: &mut Vec<ContextId>,
) -> Result<(), AllocError>
    ensures { OnOk result (marked.new.items ≡ marked.old.items
        ++ each_in if_marked syntax_index 0 contexts.now) }
{
    for (context_index, context) in contexts.iter().enumerate() {
        if context.uses_backrefs {
            marked.push(ContextId {
                syntax_index,
                context_index,
            })?;
        }
    }
    Ok(())
}

/// The contexts that are marked as they are given.
fn marked_given(alloc: Global, bodies: &[Seq<Context>]) -> Result<Vec<ContextId>, AllocError>
    ensures { IfOk result (λ v. v.items ≡ each_from if_marked 0 bodies.now) }
{
    let mut marked = Vec::new(alloc);
    for (index, body) in bodies.iter().enumerate() {
        add_marked(index, body.as_slice(), &mut marked)?;
    }
    Ok(marked)
}

/// Adds what includes a context.
fn add_includers(
    includers: &HashMap<ContextId, Vec<ContextId>>,
    id: ContextId,
    waiting: &mut Vec<ContextId>,
) -> Result<(), AllocError>
    ensures { OnOk result (waiting.new.items ≡ waiting.old.items
        ++ option_map_or (λ v. v.items) (hash.get is_same includers.now id) []) }
{
    if let Some(ids) = includers.get(&id) {
        waiting.extend_from_slice(ids.as_slice())?;
    }
    Ok(())
}

/// These contexts, and all that include one of them over any number of includes.
fn spread(
    alloc: Global,
    includers: &HashMap<ContextId, Vec<ContextId>>,
    given: Vec<ContextId>,
) -> Result<HashSet<ContextId>, AllocError>
    ensures { IfOk result (λ set. (id : ContextId)
        → (marks.contains is_same set id ≡ true) ↔ From
        (λ from. option_map_or (λ v. v.items)
        (hash.get is_same includers.now from) []) given.items id) }
{
    let mut waiting = given;
    let mut marked = HashSet::new(alloc);
    while let Some(id) = waiting.pop() {
        if marked.insert(id)? {
            add_includers(includers, id, &mut waiting)?;
        }
    }
    Ok(marked)
}

/// The contexts that have the mark of back references in the set.
pub(crate) fn marked_contexts(
    alloc: Global,
    directory: &Directory<'_>,
    bodies: &[Seq<Context>],
) -> Result<HashSet<ContextId>, AllocError>
    ensures { IfOk result (λ set. (id : ContextId)
        → marks.contains is_same set id ≡ is_marked_in_set directory.now bodies.now id) }
{
    let inclusions = inclusions_of(alloc, directory, bodies)?;
    let includers = includers(alloc, inclusions.as_slice())?;
    let given = marked_given(alloc, bodies)?;
    let marked = spread(alloc, &includers, given)?;
    Ok(marked)
}
