//! A finite map from names.
ghost use Rattle.std.specs.Prelude.{◌≡◌, OnOk, OnErr, None};
ghost use Rattle.std.specs.Option.{option_copied};
ghost use Rattle.nb_base.specs.Orders.{name_cmp};
ghost use Rattle.std.specs.FinMap as map;
ghost use Rattle.std.specs.Coded.{coded_ℕ, coded_list};

use crate::items::Copied;
use crate::no_memory::NoMemory;
use crate::text::Text;
use std::alloc::Global;
use std::collections::BTreeMap;
use std::collections::btree_map::Iter;
use std::marker::Model;

/// Values by their names, in the order of the names' bytes.
#[derive(Drop)]
pub struct ByName<V> {
    tree: BTreeMap<Text, V>,
    alloc: Global,
}

impl<V> Model for ByName<V> {
    ghost Value = { map.FinMap name_cmp V };

    ghost coded = { map.code (coded_list coded_ℕ) V.code };

    ghost view = { λ a. map.from_entries a.tree.entries };
}

impl<V: Drop> ByName<V> {
    /// No values.
    pub fn new(alloc: Global) -> ByName<V>
        ensures { result ≡ map.empty }
    {
        ByName {
            tree: BTreeMap::new(alloc),
            alloc,
        }
    }

    /// The value under a name.
    pub fn get(&self, name: &Text) -> Option<&V>
        ensures { option_copied result ≡ map.get self.now name.now }
    {
        self.tree.get(name)
    }

    /// The names with their values, in order.
    pub fn iter(&self) -> Iter<'_, Text, V>
        ensures { result ≡ map.entries self.now }
    {
        self.tree.iter()
    }

    /// Puts a value under a name, in the place of the one that was there.
    pub fn insert(&mut self, name: Text, value: V) -> Result<(), NoMemory>
        ensures ok { OnOk result (self.new ≡ map.insert self.old name value) }
        ensures err { OnErr result (self.new ≡ self.old) }
        // Only a new key takes memory.
        ensures only_new { OnErr result (map.get self.old name ≡ None) }
    {
        self.tree.insert(name, value)?;
        Ok(())
    }

    /// Takes the value under a name out.
    pub fn remove(&mut self, name: &Text)
        ensures { self.new ≡ map.remove self.old name.now }
    {
        let _ = self.tree.remove(name);
    }

    /// Takes the value under a name out, and hands it out.
    pub fn take(&mut self, name: &Text) -> Option<V>
        ensures value { result ≡ map.get self.old name.now }
        ensures rest { self.new ≡ map.remove self.old name.now }
    {
        self.tree.remove(name)
    }
}

impl<V: Copied + Drop> Copied for ByName<V> {
    fn copy(&self) -> Result<ByName<V>, NoMemory> {
        let mut copy = ByName::new(self.alloc);
        for (name, value) in self.iter() {
            copy.insert(name.copy()?, value.copy()?)?;
        }
        Ok(copy)
    }
}
