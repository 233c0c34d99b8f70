//! All metadata: the sets, and those that match a stack of scopes.
ghost use Rattle.std.specs.Prelude.{◌≡◌, ◌++◌, [], ℕ, List, length, take, map, IfOk, OnOk};
ghost use Rattle.syntect_metadata.specs.syntect_scope.Repository.{IsRepository};
ghost use Rattle.syntect_metadata.specs.Ranking.{matching, IsRanked};
ghost use Rattle.syntect_metadata.specs.Seen.{table_seen};
ghost use Rattle.syntect_metadata.specs.Sets.{ReadsSets, IsOfEntries, with_sets, merged_sets};
ghost use Rattle.syntect_metadata.specs.declared.set.MetadataSet.{MetadataSet as AMetadataSet};

use crate::below::scope::power::MatchPower;
use crate::below::scope::repository::ScopeRepository;
use crate::below::scope::scope::Scope;
use crate::below::values::seq::Seq;
use crate::below::values::text::Text;
use crate::error::MetadataError;
use crate::merge::{Merged, members_of, put_together, sort_by_path};
use crate::raw::LoadMetadata;
use crate::scoped::ScopedMetadata;
use crate::set::MetadataSet;
use std::alloc::{AllocError, Global};
use std::collections::BTreeMap;

/// All sets of metadata.
#[derive(Drop)]
pub struct Metadata {
    /// The sets.
    pub scoped_metadata: Seq<MetadataSet>,
}

/// The sets of settings by their scope texts, but for those that are refused.
#[tactic(auto, using(crate::proofs::SetLaws::all_read))]
fn sets(
    alloc: Global,
    table: BTreeMap<Text, Merged>,
    repository: &mut ScopeRepository,
) -> Result<Seq<MetadataSet>, AllocError>
    ensures ok { IfOk result (ReadsSets repository.old (table_seen table.entries) repository.new) }
    ensures whole { IsRepository repository.new }
    ensures kept { take (length repository.old) repository.new ≡ repository.old }
{
    repository.is_whole();
    let mut sets = Seq::new(alloc);
    for (text, merged) in table {
        let members = members_of(alloc, merged)?;
        match MetadataSet::from_raw(alloc, (text.into_string(), members), repository) {
            Ok(set) => sets.push(set)?,
            Err(MetadataError::Memory) => return Err(AllocError),
            Err(_other) => {}
        }
    }
    Ok(sets)
}

/// The sets that match a stack, each with its score there.
fn matching<'a>(
    sets: &'a Seq<MetadataSet>,
    stack: &[Scope],
) -> Result<Vec<(MatchPower, &'a MetadataSet)>, AllocError>
    ensures { IfOk result (λ scored. map (λ p. (p.0, p.1.now)) scored.items
        ≡ matching stack.now sets.now) }
{
    let mut scored = Vec::new(sets.allocator());
    for set in sets.as_slice() {
        if let Some(score) = set.selector.does_match(stack)? {
            scored.push((score, set))?;
        }
    }
    Ok(scored)
}

/// Puts the greatest score first.
fn rank(scored: &mut Vec<(MatchPower, &MetadataSet)>) -> Result<(), AllocError>
    ensures { OnOk result (IsRanked (map (λ p. (p.0, p.1.now)) scored.old.items)
        (map (λ p. (p.0, p.1.now)) scored.new.items)) }
{
    scored.sort_by(|a, b| b.0.cmp(&a.0))?;
    Ok(())
}

/// Puts sets into a table, each at its scope text, in place of the one that is there.
#[tactic(auto, using(crate::proofs::SetLaws::sets_next))]
fn put_sets(
    sets: Seq<MetadataSet>,
    table: &mut BTreeMap<Text, MetadataSet>,
) -> Result<(), AllocError>
    ensures { OnOk result (table.new.entries ≡ with_sets sets table.old.entries) }
{
    for set in sets.into_vec() {
        let text = set.selector_string.clone()?;
        match table.insert(text, set) {
            Ok(_) => {}
            Err(_) => return Err(AllocError),
        }
    }
    Ok(())
}

/// The sets of a table, in its order.
fn sets_of(
    alloc: Global,
    table: BTreeMap<Text, MetadataSet>,
) -> Result<Seq<MetadataSet>, AllocError>
    ensures { IfOk result (λ sets. sets ≡ map (λ entry. entry.1) table.entries) }
{
    let mut sets = Seq::new(alloc);
    for (_text, set) in table {
        sets.push(set)?;
    }
    Ok(sets)
}

impl Clone for Metadata {
    ghost is_clone = { λ x y. y ≡ x };

    fn clone(&self) -> Result<Metadata, AllocError> {
        self.copied()
    }
}

impl Metadata {
    /// No sets. Takes no memory.
    pub fn default(alloc: Global) -> Metadata
        ensures { result.scoped_metadata ≡ [] }
    {
        Metadata {
            scoped_metadata: Seq::new(alloc),
        }
    }

    /// A copy of the sets.
    fn copied(&self) -> Result<Metadata, AllocError>
        ensures { IfOk result (λ metadata. metadata ≡ self.now) }
    {
        let alloc = self.scoped_metadata.allocator();
        let mut sets = Seq::new(alloc);
        for set in self.scoped_metadata.as_slice() {
            sets.push(set.clone(alloc)?)?;
        }
        Ok(Metadata {
            scoped_metadata: sets,
        })
    }

    /// The sets of entries, in the byte order of their scope texts. The entries go by their paths,
    /// component by component, and those of one scope text are put together: of each of the keys
    /// that are read the last value counts, and the variables of a list of objects, each with a
    /// text as `name` and a `value`, are added; another value adds none. What
    /// `MetadataSet::from_raw` refuses is left out.
    pub fn from_loaded(
        alloc: Global,
        loaded: LoadMetadata,
        repository: &mut ScopeRepository,
    ) -> Result<Metadata, AllocError>
        ensures ok { IfOk result (λ metadata.
            IsOfEntries repository.old loaded.loaded repository.new metadata.scoped_metadata) }
        ensures whole { IsRepository repository.new }
        ensures kept { take (length repository.old) repository.new ≡ repository.old }
    {
        repository.is_whole();
        let mut entries = loaded.loaded.into_vec();
        sort_by_path(&mut entries)?;
        let table = put_together(alloc, entries)?;
        Ok(Metadata {
            scoped_metadata: sets(alloc, table, repository)?,
        })
    }

    /// These sets and those of entries, in the byte order of their scope texts: a new set takes the
    /// place of an old one of the same text, and where the new one is refused the old one stays.
    pub fn merged_with_raw(
        self,
        alloc: Global,
        raw: LoadMetadata,
        repository: &mut ScopeRepository,
    ) -> Result<Metadata, AllocError>
        ensures ok { IfOk result (λ metadata. (fresh : List AMetadataSet)
            × IsOfEntries repository.old raw.loaded repository.new fresh
            × (metadata.scoped_metadata ≡ merged_sets self.scoped_metadata fresh)) }
        ensures whole { IsRepository repository.new }
        ensures kept { take (length repository.old) repository.new ≡ repository.old }
    {
        let fresh = Metadata::from_loaded(alloc, raw, repository)?;
        let mut table = BTreeMap::new(alloc);
        put_sets(self.scoped_metadata, &mut table)?;
        put_sets(fresh.scoped_metadata, &mut table)?;
        Ok(Metadata {
            scoped_metadata: sets_of(alloc, table)?,
        })
    }

    /// The sets that match a stack of scopes, the bottom one first: those of the greatest score
    /// first, and of equal scores in their order here.
    pub fn metadata_for_scope(&self, stack: &[Scope]) -> Result<ScopedMetadata<'_>, AllocError>
        ensures { IfOk result (λ scoped. IsRanked (matching stack.now self.now.scoped_metadata)
            (map (λ p. (p.0, p.1.now)) scoped.items)) }
    {
        let mut scored = matching(&self.scoped_metadata, stack)?;
        rank(&mut scored)?;
        Ok(ScopedMetadata {
            items: Seq::from_vec(scored),
        })
    }
}
