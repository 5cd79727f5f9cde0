//! Headers in order, each name once.
ghost use Rattle.std.specs.Prelude.{◌≡◌, ◌≢◌, ◌<◌, ◌^◌, ◌↔◌, length, IsTrue, IfOk, OnOk, OnErr, option_copied, slice_get, Some, []};
ghost use Rattle.nb_base.specs.Messages.{header, with_header, without_header, names, AreDistinct};

use crate::items::Copied;
use crate::no_memory::NoMemory;
use crate::text::Text;
use indexmap::IndexMap;
use std::alloc::Global;
use std::marker::Model;

/// Headers in order, each name once, which contracts see as the list of their names and texts.
#[derive(Drop)]
pub struct Headers {
    map: IndexMap<String, Text>,
}

impl Model for Headers {
    ghost use Rattle.nb_base.specs.Messages.{Pairs, seen, AreDistinct};

    ghost Value = { Pairs };

    ghost view = { λ h. seen h.map.entries };

    ghost invariant = { λ h. AreDistinct (seen h.map.entries) };
}

impl Headers {
    /// No headers.
    pub fn new(alloc: Global) -> Headers
        ensures { result ≡ [] }
    {
        Headers {
            map: IndexMap::new(alloc),
        }
    }

    /// How many headers there are.
    pub fn len(&self) -> usize
        ensures value { result ≡ length self.now }
        ensures distinct { AreDistinct self.now }
    {
        self.map.len()
    }

    /// The text of a header.
    pub fn get(&self, name: &str) -> Option<&Text>
        ensures { option_copied result ≡ header self.now name.now }
    {
        self.map.get(name)
    }

    /// The name and the text of the header at a place.
    pub fn at(&self, i: usize) -> (&str, &Text)
        requires { i < length self.now }
        ensures { slice_get self.now i ≡ Some (result.0.now, result.1.now) }
    {
        let (name, text) = self.map.get_index(i).unwrap();
        (name.as_str(), text)
    }

    /// Sets a header in its place, or adds it at the end.
    pub fn set(&mut self, alloc: Global, name: &str, text: Text) -> Result<(), NoMemory>
        ensures ok { OnOk result (self.new ≡ with_header self.old name.now text) }
        ensures err { OnErr result (self.new ≡ self.old) }
        ensures distinct { OnOk result (AreDistinct self.new) }
    {
        let key = String::from_str(alloc, name)?;
        self.map.insert(key, text)?;
        Ok(())
    }

    /// Takes a header out, and closes up.
    pub fn remove(&mut self, name: &str)
        ensures value { self.new ≡ without_header self.old name.now }
        ensures distinct { AreDistinct self.new }
    {
        self.map.shift_remove(name);
    }
}

impl Copied for Headers {
    fn copy(&self) -> Result<Headers, NoMemory> {
        let alloc = *self.map.allocator();
        let mut headers = Headers::new(alloc);
        for i in 0..self.len() {
            let (name, text) = self.at(i);
            headers.set(alloc, name, text.copy()?)?;
        }
        Ok(headers)
    }
}
