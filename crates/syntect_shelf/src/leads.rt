//! Where references lead out of a syntax, and whether what they lead to was read.
ghost use Rattle.std.specs.Prelude.{◌≡◌, ◌<◌, ℕ, [], length, Some, None, IfNone, IfSome, if◌then◌else◌};
ghost use Rattle.std.specs.List.{flat_map};
ghost use Rattle.std.specs.Option.{option_map_or, option_or, option_to_list};
ghost use Rattle.syntect_grammar.specs.syntect_grammar_contexts.Contexts.{list_of};
ghost use Rattle.syntect_shelf.specs.Places.{IsClosedShelf, last_of_name, last_of_scope, place_of, places_by, places_of_context, places_of_definition, places_of_entry};
ghost use Rattle.syntect_grammar.specs.syntect_grammar_contexts.declared.context.Pattern.TheVariants.{Match};
ghost use Rattle.syntect_shelf.specs.Unread.{IsUnread, unread_among, unread_from, unread_plain, whole_by};

use crate::below::grammar_loader::definition::SyntaxDefinition;
use crate::below::scope::scope::Scope;
use syntect_grammar::syntax_definition::{
    Context, ContextReference, MatchOperation, MatchPattern, Pattern,
};

/// The place, if what stands there fits, else the one before.
fn last_one(before: Option<usize>, place: usize, fits: bool) -> Option<usize>
    ensures { result ≡ (if fits then Some place else before) }
{
    if fits { Some(place) } else { before }
}

/// The place of the last definition of a scope.
#[tactic(auto, using(crate::proofs::UnreadLaws::last_next))]
fn last_of_scope(definitions: &[SyntaxDefinition], scope: Scope) -> Option<usize>
    ensures { result ≡ last_of_scope scope definitions.now }
{
    let mut found = None;
    for (place, definition) in definitions.iter().enumerate() {
        found = last_one(found, place, definition.scope == scope);
    }
    found
}

/// The place of the last definition of a name.
#[tactic(auto, using(crate::proofs::UnreadLaws::last_next))]
fn last_of_name(definitions: &[SyntaxDefinition], name: &str) -> Option<usize>
    ensures { result ≡ last_of_name name.now definitions.now }
{
    let mut found = None;
    for (place, definition) in definitions.iter().enumerate() {
        found = last_one(found, place, definition.name.as_str() == name);
    }
    found
}

/// The place, if there is one and it is still to be read.
fn unread_at(whole: &[bool], place: Option<usize>) -> Option<usize>
    ensures { result ≡ unread_among whole.now (option_to_list place) }
{
    let place = place?;
    if whole.get(place).copied().unwrap_or(true) {
        None
    } else {
        Some(place)
    }
}

/// The place to which a reference leads, if it is still to be read.
fn unread_by(
    definitions: &[SyntaxDefinition],
    whole: &[bool],
    reference: &ContextReference,
) -> Option<usize>
    ensures { result ≡ unread_among whole.now (option_to_list
        (place_of definitions.now reference.now)) }
{
    match reference {
        ContextReference::Named(_) | ContextReference::Inline(_) => None,
        ContextReference::ByScope { scope, .. } => {
            unread_at(whole, last_of_scope(definitions, *scope))
        }
        ContextReference::File { name, .. } => {
            unread_at(whole, last_of_name(definitions, name.as_str()))
        }
        ContextReference::Direct(id) => unread_at(whole, Some(id.syntax_index)),
    }
}

/// The first place to which references lead that is still to be read.
fn unread_by_all(
    definitions: &[SyntaxDefinition],
    whole: &[bool],
    references: &[ContextReference],
) -> Option<usize>
    ensures { result ≡ unread_among whole.now (places_by definitions.now references.now) }
{
    for reference in references {
        let found = unread_by(definitions, whole, reference);
        if found.is_some() {
            return found;
        }
    }
    None
}

/// The first place to which an operation leads that is still to be read.
fn unread_by_operation(
    definitions: &[SyntaxDefinition],
    whole: &[bool],
    operation: &MatchOperation,
) -> Option<usize>
    ensures { result ≡ unread_among whole.now (places_by definitions.now
        (option_map_or (λ refs. refs) (list_of operation.now) [])) }
{
    match operation {
        MatchOperation::Push(references) | MatchOperation::Set(references) => {
            unread_by_all(definitions, whole, references.as_slice())
        }
        MatchOperation::Pop | MatchOperation::None => None,
    }
}

/// The place to which the reference of a `with_prototype` leads, if it is still to be read.
fn unread_by_prototype(
    definitions: &[SyntaxDefinition],
    whole: &[bool],
    reference: &Option<ContextReference>,
) -> Option<usize>
    ensures { result ≡ unread_among whole.now
        (places_by definitions.now (option_to_list reference.now)) }
{
    match reference {
        Some(reference) => unread_by(definitions, whole, reference),
        None => None,
    }
}

/// The first of two places that there is.
fn first_of(first: Option<usize>, second: Option<usize>) -> Option<usize>
    ensures { result ≡ option_or first second }
{
    match first {
        Some(place) => Some(place),
        None => second,
    }
}

/// The first place to which a match leads that is still to be read.
#[tactic(auto, using(crate::proofs::UnreadLaws::match_first))]
fn unread_by_match(
    definitions: &[SyntaxDefinition],
    whole: &[bool],
    pattern: &MatchPattern,
) -> Option<usize>
    ensures { result ≡ unread_among whole.now (places_of_entry definitions.now
        (Match pattern.now)) }
{
    first_of(
        unread_by_operation(definitions, whole, &pattern.operation),
        unread_by_prototype(definitions, whole, &pattern.with_prototype),
    )
}

/// The first place to which an entry leads that is still to be read.
fn unread_by_entry(
    definitions: &[SyntaxDefinition],
    whole: &[bool],
    entry: &Pattern,
) -> Option<usize>
    ensures { result ≡ unread_among whole.now (places_of_entry definitions.now entry.now) }
{
    match entry {
        Pattern::Match(m) => unread_by_match(definitions, whole, m),
        Pattern::Include(reference) => unread_by(definitions, whole, reference),
    }
}

/// The first place to which entries lead that is still to be read.
fn unread_by_entries(
    definitions: &[SyntaxDefinition],
    whole: &[bool],
    entries: &[Pattern],
) -> Option<usize>
    ensures { result ≡ unread_among whole.now
        (flat_map (places_of_entry definitions.now) entries.now) }
{
    for entry in entries {
        let found = unread_by_entry(definitions, whole, entry);
        if found.is_some() {
            return found;
        }
    }
    None
}

/// The first place to which a context leads that is still to be read.
#[tactic(auto, using(crate::proofs::UnreadLaws::among_both))]
fn unread_by_context(
    definitions: &[SyntaxDefinition],
    whole: &[bool],
    context: &Context,
) -> Option<usize>
    ensures { result ≡ unread_among whole.now (places_of_context definitions.now context.now) }
{
    let given = match context.prototype {
        Some(id) => Some(id.syntax_index),
        None => None,
    };
    first_of(
        unread_by_entries(definitions, whole, context.patterns.as_slice()),
        unread_at(whole, given),
    )
}

/// The first place to which a definition leads that is still to be read.
fn unread_by_definition(
    definitions: &[SyntaxDefinition],
    whole: &[bool],
    definition: &SyntaxDefinition,
) -> Option<usize>
    ensures { result ≡ unread_among whole.now
        (places_of_definition definitions.now definition.now) }
{
    for (_, context) in definition.contexts.as_map().iter() {
        let found = unread_by_context(definitions, whole, context);
        if found.is_some() {
            return found;
        }
    }
    None
}

/// The first place that is still to be read and to which the definition at a place leads, if that is
/// whole.
pub(crate) fn unread_from(
    definitions: &[SyntaxDefinition],
    whole: &[bool],
    place: usize,
) -> Option<usize>
    ensures { result ≡ unread_from definitions.now whole.now place }
{
    if !whole.get(place).copied().unwrap_or(true) {
        return None;
    }
    match definitions.get(place) {
        Some(definition) => unread_by_definition(definitions, whole, definition),
        None => None,
    }
}

/// The place of plain text, if it is still to be read.
fn unread_plain(definitions: &[SyntaxDefinition], whole: &[bool]) -> Option<usize>
    ensures { result ≡ unread_plain definitions.now whole.now }
{
    unread_at(whole, last_of_name(definitions, "Plain Text"))
}

/// The first place that is still to be read and to which a whole definition leads.
#[tactic(auto, using(crate::proofs::ClosedLaws::of_whole_found))]
fn unread_of_whole(definitions: &[SyntaxDefinition], whole: &[bool]) -> Option<usize>
    ensures none { IfNone result ((i : ℕ) → i < length definitions.now
        → unread_from definitions.now whole.now i ≡ None) }
    ensures some { IfSome result (IsUnread definitions.now whole.now) }
{
    for place in 0..definitions.len() {
        let found = unread_from(definitions, whole, place);
        if found.is_some() {
            return found;
        }
    }
    None
}

/// A place that is still to be read, if the shelf isn't closed yet.
#[tactic(auto, using(crate::proofs::ClosedLaws::of_plain_found, crate::proofs::ClosedLaws::closed_by))]
pub(crate) fn unread(definitions: &[SyntaxDefinition], whole: &[bool]) -> Option<usize>
    ensures none { IfNone result (IsClosedShelf (whole_by whole.now) definitions.now) }
    ensures some { IfSome result (IsUnread definitions.now whole.now) }
{
    let plain = unread_plain(definitions, whole);
    if plain.is_some() {
        return plain;
    }
    unread_of_whole(definitions, whole)
}
