//! The patterns that a turn looks at.
ghost use Rattle.std.specs.Prelude.{◌≡◌, ◌++◌, drop, map, find, is_none, true, false, IfOk, Some, None, unwrap_or};
ghost use Rattle.std.specs.Option.{option_copied, option_to_list};
ghost use Rattle.std.specs.List.{flat_map};
ghost use Rattle.syntect_reading_choice.specs.syntect_grammar.Contexts.{context_at};
ghost use Rattle.syntect_reading_choice.specs.Chain.{in_sight, last, prototypes_in};
ghost use Rattle.syntect_reading_choice.specs.Parts.{seen_part, parts_by, level_parts, parts_of};

use crate::below::grammar::syntax_definition::{Context, ContextId};
use crate::below::grammar::syntax_set::SyntaxSet;
use crate::level::Level;
use crate::position::Position;
use crate::reader::LineReader;
use std::alloc::AllocError;
use syntect_reading_state::opening::Opening;

/// A part of the chain: a context's patterns, the opening match for them, and whether they are from
/// a `with_prototype`.
#[derive(Clone, Copy)]
pub struct Part<'p> {
    pub id: ContextId,
    pub opening: Option<&'p Opening>,
    pub from_with_prototype: bool,
}

/// The levels from a height on.
#[tactic(auto, using(crate::proofs::ListLaws::drop_past))]
fn levels_from(levels: &[Level], height: usize) -> &[Level]
    ensures { result.now ≡ drop height levels.now }
{
    if height <= levels.len() {
        levels.split_at(height).1
    } else {
        &[]
    }
}

/// The height that the last cut keeps, 0 without one.
fn last_cut(p: &Position) -> usize
    ensures { result ≡ unwrap_or (last p.now.cuts) 0 }
{
    match p.cuts.as_slice().last() {
        Some(cut) => *cut,
        None => 0,
    }
}

/// The levels whose prototypes are looked at, those from the last cut on, but for lowest ones that
/// have none.
fn bringing(p: &Position) -> &[Level]
    ensures prototypes { flat_map (λ l. l.prototypes) result.now
        ≡ flat_map (λ l. l.prototypes) (in_sight p.now) }
    ensures parts { flat_map level_parts result.now ≡ flat_map level_parts (in_sight p.now) }
{
    let height = last_cut(p).max(p.levels.bare());
    levels_from(p.levels.as_slice(), height)
}

/// Adds those of contexts, one after another.
fn add_contexts<'p>(
    ids: &[ContextId],
    opening: Option<&'p Opening>,
    from_with_prototype: bool,
    parts: &mut Vec<Part<'p>>,
) -> Result<(), AllocError>
    ensures { IfOk result (λ _. map seen_part parts.new.items ≡ map seen_part parts.old.items
        ++ parts_by from_with_prototype (option_copied opening.entry) ids.now) }
{
    for id in ids {
        parts.push(Part {
            id: *id,
            opening,
            from_with_prototype,
        })?;
    }
    Ok(())
}

/// Adds those of a level's prototypes.
fn add_level<'p>(level: &'p Level, parts: &mut Vec<Part<'p>>) -> Result<(), AllocError>
    ensures { IfOk result (λ _. map seen_part parts.new.items
        ≡ map seen_part parts.old.items ++ level_parts level.now) }
{
    let ids = level.prototypes.as_slice();
    add_contexts(ids, level.opening.as_ref(), true, parts)
}

/// Adds those of levels.
fn add_levels<'p>(levels: &'p [Level], parts: &mut Vec<Part<'p>>) -> Result<(), AllocError>
    ensures { IfOk result (λ _. map seen_part parts.new.items
        ≡ map seen_part parts.old.items ++ flat_map level_parts levels.now) }
{
    for level in levels {
        add_level(level, parts)?;
    }
    Ok(())
}

/// Adds that of a context's prototype, if it has one.
fn add_prototype<'p>(
    prototype: Option<ContextId>,
    parts: &mut Vec<Part<'p>>,
) -> Result<(), AllocError>
    ensures { IfOk result (λ _. map seen_part parts.new.items ≡ map seen_part parts.old.items
        ++ parts_by false None (option_to_list prototype)) }
{
    match prototype {
        Some(id) => {
            parts.push(Part {
                id,
                opening: None,
                from_with_prototype: false,
            })?;
            Ok(())
        }
        None => Ok(()),
    }
}

/// The parts of a turn's chain.
pub fn parts_of<'p>(
    reader: &LineReader<'_, 'p>,
    top: &'p Level,
    context: &Context,
) -> Result<Vec<Part<'p>>, AllocError>
    ensures { IfOk result (λ v. map seen_part v.items
        ≡ parts_of reader.now.position.now top.now context.now) }
{
    let mut parts = Vec::new(reader.alloc);
    add_levels(bringing(reader.position), &mut parts)?;
    add_prototype(context.prototype, &mut parts)?;
    parts.push(Part {
        id: top.context,
        opening: top.opening.as_ref(),
        from_with_prototype: false,
    })?;
    Ok(parts)
}

/// The first of these contexts that the set lacks.
fn missing_of(set: &SyntaxSet, ids: &[ContextId]) -> Option<ContextId>
    ensures { result ≡ find (λ id. is_none (context_at set.now id)) ids.now }
{
    for id in ids {
        if set.context_at(*id).is_none() {
            return Some(*id);
        }
    }
    None
}

/// The first prototype of the chain that the set lacks.
#[tactic(auto, using(crate::proofs::ListLaws::find_at))]
pub fn missing_prototype(reader: &LineReader<'_, '_>, context: &Context) -> Option<ContextId>
    ensures { result ≡ find (λ id. is_none (context_at reader.now.set.now id))
        (prototypes_in reader.now.position.now context.now) }
{
    for level in bringing(reader.position) {
        if let Some(id) = missing_of(reader.set, level.prototypes.as_slice()) {
            return Some(id);
        }
    }
    let id = context.prototype?;
    if reader.set.context_at(id).is_none() {
        Some(id)
    } else {
        None
    }
}
