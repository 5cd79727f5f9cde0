//! The places of sagas under their ids, while a commit is made.
ghost use Rattle.std.specs.Prelude.{◌≡◌, ◌≢◌, ◌++◌, ℕ, List, fold, true, false, None, Some, IfOk, OnOk, option_to_list};
ghost use Rattle.std.specs.FinMap as map;
ghost use Rattle.nb_base.specs.declared.saga_key.SagaKey.{SagaKey};
ghost use Rattle.nb_store.specs.Batches.{MakesRoom, link_of, links_of, ids_at, touched_ids, id_in, linked, HasLink, HaveLinks, AreWiderIds, HasId, AreSwept};

use crate::batch::Link;
use nb_base::{ByName, BySaga, Copied, Items, Names, NoMemory, SagaKey, SagaRow, Text};
use nb_saga_store::Written;
use std::alloc::Global;

/// Adds the place of a saga that is put.
fn add_link(links: &mut Items<Link>, write: &Written) -> Result<(), NoMemory>
    ensures { OnOk result (links.new ≡ links.old ++ option_to_list (link_of write.now)) }
{
    match write {
        Written::Saga { place, row } => links.push(Link {
            id: row.id.copy()?,
            place: place.copy()?,
        }),
        Written::SagaGone { .. } => Ok(()),
        Written::Row { .. } => Ok(()),
        Written::RowGone { .. } => Ok(()),
    }
}

/// The places of the sagas that are put, with their ids.
pub(crate) fn links_of(alloc: Global, writes: &Items<Written>) -> Result<Items<Link>, NoMemory>
    ensures { IfOk result (λ links. links ≡ links_of writes.now) }
{
    let mut links = Items::new(alloc);
    for i in 0..writes.len() {
        add_link(&mut links, writes.at(i))?;
    }
    Ok(links)
}

/// Adds the id of the saga at a place, where there is one.
fn add_old_id(names: &mut Names, sagas: &BySaga<SagaRow>, place: &SagaKey) -> Result<(), NoMemory>
    ensures { OnOk result (names.new ≡ names.old ++ id_in (map.get sagas.now place.now)) }
{
    match sagas.get(place) {
        Some(row) => names.push(row.id.copy()?),
        None => Ok(()),
    }
}

/// Adds the ids of the sagas that a write takes away and puts.
fn add_ids(names: &mut Names, sagas: &BySaga<SagaRow>, write: &Written) -> Result<(), NoMemory>
    ensures { OnOk result (names.new ≡ names.old ++ ids_at sagas.now write.now) }
{
    match write {
        Written::Saga { place, row } => {
            add_old_id(names, sagas, place)?;
            names.push(row.id.copy()?)
        }
        Written::SagaGone { place } => add_old_id(names, sagas, place),
        Written::Row { .. } => Ok(()),
        Written::RowGone { .. } => Ok(()),
    }
}

/// The ids under which the writes may change something.
pub(crate) fn touched_ids(
    alloc: Global,
    sagas: &BySaga<SagaRow>,
    writes: &Items<Written>,
) -> Result<Names, NoMemory>
    ensures { IfOk result (λ names. names ≡ touched_ids sagas.now writes.now) }
{
    let mut names = Items::new(alloc);
    for i in 0..writes.len() {
        add_ids(&mut names, sagas, writes.at(i))?;
    }
    Ok(names)
}

/// Puts a place under an id that has none.
fn make_one_link_room(ids: &mut ByName<SagaKey>, link: &Link) -> Result<(), NoMemory>
    ensures room { MakesRoom ids.old link.now.id link.now.place ids.new }
    ensures there { OnOk result (HasLink ids.new link.now) }
{
    if ids.get(&link.id).is_none() {
        ids.insert(link.id.copy()?, link.place.copy()?)?;
    }
    Ok(())
}

/// Makes room for each of the links.
pub(crate) fn make_link_room(ids: &mut ByName<SagaKey>, links: &Items<Link>) -> Result<(), NoMemory>
    ensures wider { AreWiderIds links.now ids.old ids.new }
    ensures there { OnOk result (HaveLinks ids.new links.now) }
{
    for i in 0..links.len() {
        make_one_link_room(ids, links.at(i))?;
    }
    Ok(())
}

/// Puts a place under an id that has one, which takes no memory.
fn put_link(ids: &mut ByName<SagaKey>, link: Link)
    requires { HasLink ids.old link }
    ensures { ids.new ≡ linked ids.old link }
{
    let Link { id, place } = link;
    let _ = ids.insert(id, place);
}

/// Puts the places under their ids.
pub(crate) fn put_links(ids: &mut ByName<SagaKey>, links: Items<Link>)
    requires { HaveLinks ids.old links }
    ensures { ids.new ≡ fold linked ids.old links }
{
    for link in links.into_vec() {
        put_link(ids, link);
    }
}

/// Whether the saga at a place has this id.
fn has_id(sagas: &BySaga<SagaRow>, place: &SagaKey, id: &Text) -> bool
    ensures so { result ≡ true → HasId sagas.now place.now id.now }
    ensures not { result ≡ false → HasId sagas.now place.now id.now → ⊥ }
{
    match sagas.get(place) {
        Some(row) => row.id == *id,
        None => false,
    }
}

/// Whether the saga at the place under an id hasn't that id.
fn is_stale(sagas: &BySaga<SagaRow>, ids: &ByName<SagaKey>, id: &Text) -> bool
    ensures so { result ≡ true → (place : SagaKey) → map.get ids.now id.now ≡ Some place → HasId sagas.now place id.now → ⊥ }
    ensures not { result ≡ false → (place : SagaKey) → map.get ids.now id.now ≡ Some place → HasId sagas.now place id.now }
{
    match ids.get(id) {
        Some(place) => !has_id(sagas, place, id),
        None => false,
    }
}

/// Takes the places under these ids away that have no saga with the id.
pub(crate) fn sweep(sagas: &BySaga<SagaRow>, ids: &mut ByName<SagaKey>, names: &Names)
    ensures { AreSwept sagas.now names.now ids.old ids.new }
{
    for i in 0..names.len() {
        let id = names.at(i);
        if is_stale(sagas, ids, id) {
            ids.remove(id);
        }
    }
}
