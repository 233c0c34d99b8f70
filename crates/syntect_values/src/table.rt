//! A map that contracts see as the list of its entries.
ghost use Rattle.std.specs.Prelude.{◌≡◌, ◌↔◌, [], length, IsTrue, IfOk, OnOk, OnErr};
ghost use Rattle.std.specs.Option.{option_copied};
ghost use Rattle.std.specs.BTreeMap.{is_at, insert_entry};
ghost use Rattle.std.specs.Map.{lookup, remove_entry};
ghost use Rattle.std.specs.List.{AllZip};
ghost use Rattle.std.specs.Prelude.{◌&&◌};
ghost use Rattle.std.specs.Cmp.Lexicographic.{pointwise, lists_per, lists_equiv};

use std::alloc::{AllocError, AllocFailed, Global};
use std::collections::BTreeMap;
use std::marker::Model;

/// A map, seen as the list of its entries in the order of the keys.
#[derive(Debug, Drop)]
pub struct Table<K: Ord, V> {
    map: BTreeMap<K, V>,
}

impl<K: Ord, V> Model for Table<K, V> {
    ghost use Rattle.std.specs.Prelude.{List};

    ghost Value = { List (K × V) };

    ghost view = { λ a. a.map.entries };
}

impl<K: Ord, V> Table<K, V> {
    /// No entries. Takes no memory.
    pub fn new(alloc: Global) -> Table<K, V>
        ensures { result ≡ [] }
    {
        Table {
            map: BTreeMap::new(alloc),
        }
    }

    /// The entries of a map. Takes no memory.
    pub fn from_map(map: BTreeMap<K, V>) -> Table<K, V>
        ensures { result ≡ map.entries }
    {
        Table { map }
    }

    /// The map of the entries. Takes no memory.
    pub fn into_map(self) -> BTreeMap<K, V>
        ensures { result.entries ≡ self }
    {
        let Table { map } = self;
        map
    }

    /// The map of the entries, lent.
    pub fn as_map(&self) -> &BTreeMap<K, V>
        ensures { result.now.entries ≡ self.now }
    {
        &self.map
    }

    /// How many entries there are.
    pub fn len(&self) -> usize
        ensures { result ≡ length self.now }
    {
        self.map.len()
    }

    /// Whether there are none.
    pub fn is_empty(&self) -> bool
        ensures { IsTrue result ↔ (self.now ≡ []) }
    {
        self.map.is_empty()
    }

    /// The value at a key, if there is one.
    pub fn get(&self, key: &K) -> Option<&V>
        ensures { option_copied result ≡ lookup (is_at (K.cmp key.now)) self.now }
    {
        self.map.get(key)
    }
}

impl<K: Ord + Drop, V: Drop> Table<K, V> {
    /// Puts a value at a key, in place of the one that is there.
    /// Without memory for it the map stays.
    pub fn insert(&mut self, key: K, value: V) -> Result<Option<V>, AllocFailed<(K, V)>>
        ensures ok { OnOk result (self.new ≡ insert_entry K.cmp self.old key value) }
        ensures old { IfOk result (λ before. before ≡ lookup (is_at (K.cmp key)) self.old) }
        ensures err { OnErr result (self.new ≡ self.old) }
    {
        self.map.insert(key, value)
    }

    /// Takes the entry of a key out, if there is one.
    pub fn remove(&mut self, key: &K) -> Option<V>
        ensures value { result ≡ lookup (is_at (K.cmp key.now)) self.old }
        ensures rest { self.new ≡ remove_entry (is_at (K.cmp key.now)) self.old }
    {
        self.map.remove(key)
    }
}

impl<K: Ord + Clone, V: Clone> Clone for Table<K, V> {
    ghost is_clone = { λ x y. AllZip (λ p q. K.is_clone p.0 q.0 × V.is_clone p.1 q.1) x y };

    fn clone(&self) -> Result<Table<K, V>, AllocError> {
        Ok(Table {
            map: self.map.clone()?,
        })
    }
}

impl<K: Ord, V: PartialEq> PartialEq for Table<K, V> {
    ghost use Rattle.std.specs.Cmp.{on_per, and_per};

    ghost eq = { λ x y. pointwise (λ p q. K.eq p.0 q.0 && V.eq p.1 q.1) x y };

    ghost laws = { lists_per
        (and_per (on_per (λ p. p.0) K.PartialEq.laws) (on_per (λ p. p.1) V.laws)) };

    fn eq(&self, other: &Self) -> bool {
        self.map == other.map
    }
}

impl<K: Ord, V: Eq> Eq for Table<K, V> {
    ghost use Rattle.std.specs.Cmp.{on_equiv, and_equiv};

    ghost laws = { lists_equiv
        (and_equiv (on_equiv (λ p. p.0) K.Eq.laws) (on_equiv (λ p. p.1) V.Eq.laws)) };
}
