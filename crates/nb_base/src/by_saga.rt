//! A finite map from the places of sagas.
ghost use Rattle.std.specs.Prelude.{◌≡◌, OnOk, OnErr, None};
ghost use Rattle.std.specs.Option.{option_copied};
ghost use Rattle.std.specs.FinMap as map;

use crate::items::Copied;
use crate::no_memory::NoMemory;
use crate::saga_key::SagaKey;
use std::alloc::Global;
use std::collections::BTreeMap;
use std::collections::btree_map::Iter;
use std::marker::Model;

/// Values by the places of sagas, in the order of the places.
#[derive(Drop)]
pub struct BySaga<V> {
    tree: BTreeMap<SagaKey, V>,
    alloc: Global,
}

impl<V> Model for BySaga<V> {
    ghost use Rattle.std.specs.FinMap as map;
    ghost use Rattle.nb_base.specs.contracts.saga_key.SagaKey as key;

    ghost Value = { map.FinMap ⟦<SagaKey as Ord>⟧.cmp V };

    ghost coded = { map.code key.the_row.coded V.code };

    ghost view = { λ a. map.from_entries a.tree.entries };
}

impl<V: Drop> BySaga<V> {
    /// No values.
    pub fn new(alloc: Global) -> BySaga<V>
        ensures { result ≡ map.empty }
    {
        BySaga {
            tree: BTreeMap::new(alloc),
            alloc,
        }
    }

    /// The value at a place.
    pub fn get(&self, place: &SagaKey) -> Option<&V>
        ensures { option_copied result ≡ map.get self.now place.now }
    {
        self.tree.get(place)
    }

    /// The places with their values, in order.
    pub fn iter(&self) -> Iter<'_, SagaKey, V>
        ensures { result ≡ map.entries self.now }
    {
        self.tree.iter()
    }

    /// Puts a value at a place, in the place of the one that was there.
    pub fn insert(&mut self, place: SagaKey, value: V) -> Result<(), NoMemory>
        ensures ok { OnOk result (self.new ≡ map.insert self.old place value) }
        ensures err { OnErr result (self.new ≡ self.old) }
        // Only a new key takes memory.
        ensures only_new { OnErr result (map.get self.old place ≡ None) }
    {
        self.tree.insert(place, value)?;
        Ok(())
    }

    /// Takes the value at a place out.
    pub fn remove(&mut self, place: &SagaKey)
        ensures { self.new ≡ map.remove self.old place.now }
    {
        let _ = self.tree.remove(place);
    }

    /// Takes the value at a place out, and hands it out.
    pub fn take(&mut self, place: &SagaKey) -> Option<V>
        ensures value { result ≡ map.get self.old place.now }
        ensures rest { self.new ≡ map.remove self.old place.now }
    {
        self.tree.remove(place)
    }
}

impl<V: Copied + Drop> Copied for BySaga<V> {
    fn copy(&self) -> Result<BySaga<V>, NoMemory> {
        let mut copy = BySaga::new(self.alloc);
        for (place, value) in self.iter() {
            copy.insert(place.copy()?, value.copy()?)?;
        }
        Ok(copy)
    }
}
