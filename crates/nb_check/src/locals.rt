//! Names that `let`s made, found by the name.
ghost use Rattle.std.specs.Prelude.{◌≡◌, ◌++◌, ◌∷◌, [], length, take, OnOk, OnErr};
ghost use Rattle.std.specs.FinMap as names;
ghost use Rattle.nb_check.specs.Kinds.{local_in};
ghost use Rattle.nb_check.specs.Places.{place_if, kind_by};

use crate::sight::Local;
use nb_base::{ByName, Copied, NoMemory, Text};
use nb_script::item::FieldKind;
use sqlite_items::Items as Rows;
use std::alloc::Global;
use std::marker::Model;

/// Names in order. Of several that are the same the first counts.
#[derive(Drop)]
pub(crate) struct LocalTable {
    names: Rows<Local>,
    /// The place of each name that is in sight, and what is left of others.
    places: ByName<usize>,
}

impl Model for LocalTable {
    ghost use Rattle.std.specs.Prelude.{List};
    ghost use Rattle.nb_check.specs.declared.sight.Local.{Local};
    ghost use Rattle.nb_check.specs.Places.{ArePlaces};

    ghost Value = { List Local };

    ghost view = { λ t. t.names };

    ghost invariant = { λ t. ArePlaces t.places t.names };
}

fn place_of(places: &ByName<usize>, name: &Text) -> Option<usize>
    ensures { result ≡ names.get places.now name.now }
{
    match places.get(name) {
        None => None,
        Some(place) => Some(*place),
    }
}

/// The kind of what stands at the place, if it has this name.
fn kind_by(name: &Text, place: Option<usize>, names: &[Local]) -> Option<Option<FieldKind>>
    ensures { result ≡ kind_by name.now place names.now }
{
    match place {
        None => None,
        Some(place) => match names.get(place) {
            None => None,
            Some(local) => {
                if local.name == *name {
                    Some(local.kind)
                } else {
                    None
                }
            }
        },
    }
}

fn put_place_if(
    is_new: bool,
    places: &mut ByName<usize>,
    name: &Text,
    place: usize,
) -> Result<(), NoMemory>
    ensures ok { OnOk result (places.new ≡ place_if is_new places.old name.now place) }
    ensures err { OnErr result (places.new ≡ places.old) }
{
    if !is_new {
        return Ok(());
    }
    let name = name.copy()?;
    places.insert(name, place)?;
    Ok(())
}

fn cut(names: &mut Rows<Local>, count: usize)
    ensures { names.new ≡ take count names.old }
{
    while names.len() > count {
        let _last = names.pop();
    }
}

impl LocalTable {
    pub(crate) fn new(alloc: Global) -> LocalTable
        ensures { result ≡ [] }
    {
        LocalTable {
            names: Rows::new(alloc),
            places: ByName::new(alloc),
        }
    }

    pub(crate) fn len(&self) -> usize
        ensures { result ≡ length self.now }
    {
        self.names.len()
    }

    /// The kind of the first name that is the same.
    pub(crate) fn kind_of(&self, name: &Text) -> Option<Option<FieldKind>>
        ensures { result ≡ local_in name.now self.now }
    {
        let place = place_of(&self.places, name);
        kind_by(name, place, self.names.as_slice())
    }

    pub(crate) fn push(&mut self, local: Local) -> Result<(), NoMemory>
        ensures { OnOk result (self.new ≡ self.old ++ local ∷ []) }
    {
        let is_new = self.kind_of(&local.name).is_none();
        put_place_if(is_new, &mut self.places, &local.name, self.names.len())?;
        self.names.push(local)?;
        Ok(())
    }

    /// Takes all names but the first ones out of sight.
    pub(crate) fn cut(&mut self, count: usize)
        ensures { self.new ≡ take count self.old }
    {
        cut(&mut self.names, count);
    }
}
