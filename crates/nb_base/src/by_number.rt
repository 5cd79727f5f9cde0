//! A finite map from numbers.
ghost use Rattle.std.specs.Prelude.{◌≡◌, OnOk, OnErr, IsSome, Some, None};
ghost use Rattle.std.specs.Option.{option_copied};
ghost use Rattle.std.specs.Ordering.{nat_cmp};
ghost use Rattle.std.specs.FinMap as map;
ghost use Rattle.std.specs.Coded.{coded_ℕ};

use crate::items::Copied;
use crate::no_memory::NoMemory;
use std::alloc::Global;
use std::collections::BTreeMap;
use std::collections::btree_map::Iter;
use std::marker::Model;

/// Values by their numbers.
#[derive(Drop)]
pub struct ByNumber<V> {
    tree: BTreeMap<u64, V>,
    alloc: Global,
}

impl<V> Model for ByNumber<V> {
    ghost Value = { map.FinMap nat_cmp V };

    ghost coded = { map.code coded_ℕ V.code };

    ghost view = { λ a. map.from_entries a.tree.entries };
}

impl<V: Drop> ByNumber<V> {
    /// No values.
    pub fn new(alloc: Global) -> ByNumber<V>
        ensures { result ≡ map.empty }
    {
        ByNumber {
            tree: BTreeMap::new(alloc),
            alloc,
        }
    }

    /// The value under a number.
    pub fn get(&self, number: u64) -> Option<&V>
        ensures { option_copied result ≡ map.get self.now number }
    {
        self.tree.get(&number)
    }

    /// The numbers with their values, in order.
    pub fn iter(&self) -> Iter<'_, u64, V>
        ensures { result ≡ map.entries self.now }
    {
        self.tree.iter()
    }

    /// Puts a value under a number, in the place of the one that was there.
    pub fn insert(&mut self, number: u64, value: V) -> Result<(), NoMemory>
        ensures ok { OnOk result (self.new ≡ map.insert self.old number value) }
        ensures err { OnErr result (self.new ≡ self.old) }
        // Only a new key takes memory.
        ensures only_new { OnErr result (map.get self.old number ≡ None) }
    {
        self.tree.insert(number, value)?;
        Ok(())
    }

    /// Puts a value in the place of the one under a number, and hands that one out.
    pub fn replace(&mut self, number: u64, value: V) -> V
        requires { IsSome (map.get self.old number) }
        ensures value { map.get self.old number ≡ Some result }
        ensures rest { self.new ≡ map.insert self.old number value }
    {
        let Ok(found) = self.tree.insert(number, value) else {
            unreachable!()
        };
        let Some(old) = found else { unreachable!() };
        old
    }

    /// Takes the value under a number out.
    pub fn remove(&mut self, number: u64)
        ensures { self.new ≡ map.remove self.old number }
    {
        let _ = self.tree.remove(&number);
    }

    /// Takes the value under a number out, and hands it out.
    pub fn take(&mut self, number: u64) -> Option<V>
        ensures value { result ≡ map.get self.old number }
        ensures rest { self.new ≡ map.remove self.old number }
    {
        self.tree.remove(&number)
    }
}

impl<V: Copied + Drop> Copied for ByNumber<V> {
    fn copy(&self) -> Result<ByNumber<V>, NoMemory> {
        let mut copy = ByNumber::new(self.alloc);
        for (number, value) in self.iter() {
            copy.insert(*number, value.copy()?)?;
        }
        Ok(copy)
    }
}
