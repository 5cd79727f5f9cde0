//! A small list of any kind of items, which contracts see as a list.
ghost use Rattle.std.specs.Prelude.{◌≡◌, ◌<◌, ◌≤◌, ◌++◌, ◌^◌, ◌∷◌, [], length, slice_get, Some, IfOk, OnOk, OnErr, IsTrue, ◌↔◌};

use crate::no_memory::NoMemory;
use std::alloc::Global;
use std::marker::Model;

/// Plain data that can be copied, where there is memory.
pub trait Copied: Sized {
    /// A copy that shares nothing with the value.
    fn copy(&self) -> Result<Self, NoMemory>
        ensures { IfOk result (λ x. x ≡ self.now) };
}

/// Fewer than 2^32 items.
#[derive(Debug, Drop)]
pub struct Items<T> {
    inner: Vec<T>,
}

impl<T> Model for Items<T> {
    ghost use Rattle.std.specs.Prelude.{List, ◌<◌, ◌^◌, length};

    ghost Value = { List T };

    ghost view = { λ n. n.inner.items };

    ghost invariant = { λ n. length n.inner.items < 2 ^ 32 };
}

impl<T> Items<T> {
    /// No items.
    pub fn new(alloc: Global) -> Items<T>
        ensures { result ≡ [] }
    {
        Items {
            inner: Vec::new(alloc),
        }
    }

    /// How many items there are.
    pub fn len(&self) -> usize
        ensures value { result ≡ length self.now }
        ensures short { result < 2 ^ 32 }
    {
        self.inner.len()
    }

    /// The item at a place.
    pub fn at(&self, i: usize) -> &T
        requires { i < length self.now }
        ensures { slice_get self.now i ≡ Some result.now }
    {
        &self.inner[i]
    }

    /// Whether there is none.
    pub fn is_empty(&self) -> bool
        ensures { IsTrue result ↔ (self.now ≡ []) }
    {
        self.inner.is_empty()
    }

    /// The items as a slice.
    pub fn as_slice(&self) -> &[T]
        ensures { result.now ≡ self.now }
    {
        self.inner.as_slice()
    }

    /// The same items, with no copy.
    pub fn into_vec(self) -> Vec<T>
        ensures { result.items ≡ self }
    {
        let Items { inner } = self;
        inner
    }
}

impl<T: Drop> Items<T> {
    /// The same items, with no copy.
    pub fn of_vec(inner: Vec<T>) -> Result<Items<T>, NoMemory>
        ensures value { IfOk result (λ x. x ≡ inner.items) }
        // Only too many are refused.
        ensures only_long { OnErr result (2 ^ 32 ≤ length inner.items) }
    {
        if inner.len() >= 1 << 32 {
            return Err(NoMemory);
        }
        Ok(Items { inner })
    }

    /// One more item, at the end.
    pub fn push(&mut self, item: T) -> Result<(), NoMemory>
        ensures ok { OnOk result (self.new ≡ self.old ++ item ∷ []) }
        ensures err { OnErr result (self.new ≡ self.old) }
    {
        if self.inner.len() >= (1 << 32) - 1 {
            return Err(NoMemory);
        }
        self.inner.push(item)?;
        Ok(())
    }
}

impl<T: Copied + Drop> Copied for Items<T> {
    #[tactic(auto, using(crate::proofs::ListLaws::take_next))]
    fn copy(&self) -> Result<Items<T>, NoMemory> {
        let mut items = Items::new(*self.inner.allocator());
        for i in 0..self.len() {
            let item = self.at(i).copy()?;
            items.push(item)?;
        }
        Ok(items)
    }
}

impl Copied for u64 {
    fn copy(&self) -> Result<u64, NoMemory> {
        Ok(*self)
    }
}

impl Copied for u32 {
    fn copy(&self) -> Result<u32, NoMemory> {
        Ok(*self)
    }
}

impl Copied for () {
    fn copy(&self) -> Result<(), NoMemory> {
        Ok(())
    }
}
