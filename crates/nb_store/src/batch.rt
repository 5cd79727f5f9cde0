//! All that a commit needs, made before the one change of the cells, and the commit in memory around that change.
ghost use Rattle.std.specs.Prelude.{◌≡◌, ◌⊎◌, ◌+◌, ◌<◌, ◌^◌, map, fold, IfOk, OnOk, MatchResult};
ghost use Rattle.std.specs.FinMap as finite;
ghost use Rattle.nb_base.specs.Shown.{Stored, stored};
ghost use Rattle.nb_base.specs.declared.tables.Tables.{Tables};
ghost use Rattle.nb_cells.specs.Cells.{AreInSpaces, AreDistinct};
ghost use Rattle.nb_saga_store.specs.Writes.{written_of, with_written};
ghost use Rattle.nb_store.specs.Applied.{Applied, IsCounted, IsOfApply, Leads};
ghost use Rattle.nb_store.specs.Batches.{IsWider, AreWiderIds, HaveRoom, HaveLinks, AreApart, AreOf, IsOlder, AreSwept, linked};

use crate::apply::apply;
use crate::fault::StoreFault;
use crate::links::{make_link_room, put_links, sweep};
use crate::room::{clear, make_room, write_all};
use nb_base::{ByName, Items, Names, NoMemory, OutboxRow, SagaKey, Tables, Text, Writes};
use nb_cells::{Cells, Changes};
use nb_saga_store::Written;
use std::alloc::Global;

/// The place of a saga, and its id.
#[derive(Drop)]
pub(crate) struct Link {
    pub id: Text,
    pub place: SagaKey,
}

/// What a commit writes in memory, and the changes of the cells.
#[derive(Drop)]
pub(crate) struct Batch {
    /// The id of the message.
    pub id: Text,
    pub writes: Items<Written>,
    pub links: Items<Link>,
    /// The ids under which something may change.
    pub names: Names,
    pub changes: Changes,
}

/// What the writes of the commit with this number leave.
pub(crate) fn written(
    alloc: Global,
    writes: &Writes,
    endpoint: &Text,
    n: u64,
) -> Result<Items<Written>, NoMemory>
    ensures { IfOk result (λ items. items ≡ map (written_of endpoint.now n) writes.now) }
{
    let mut items = Items::new(alloc);
    for i in 0..writes.len() {
        items.push(Written::of(alloc, writes.at(i), endpoint, n)?)?;
    }
    Ok(items)
}

/// Makes room for a commit, and puts the record of its message.
fn reserve(
    tables: &mut Tables,
    ids: &mut ByName<SagaKey>,
    batch: &Batch,
    id: Text,
    row: OutboxRow,
) -> Result<(), NoMemory>
    ensures wider { IsWider batch.now.writes (stored tables.old) (stored tables.new) }
    ensures ids { AreWiderIds batch.now.links ids.old ids.new }
    ensures outbox { (tables.new.outbox ≡ tables.old.outbox) ⊎ (tables.new.outbox ≡ finite.insert tables.old.outbox id row) }
    ensures room { OnOk result (HaveRoom (stored tables.new) batch.now.writes) }
    ensures links { OnOk result (HaveLinks ids.new batch.now.links) }
    ensures there { OnOk result (tables.new.outbox ≡ finite.insert tables.old.outbox id row) }
{
    tables.outbox.insert(id, row)?;
    make_room(tables, &batch.writes)?;
    make_link_room(ids, &batch.links)
}

/// Makes room for a commit in memory, and then the changes of the cells.
pub(crate) fn attempt<D: Cells>(
    alloc: Global,
    base: &mut D,
    tables: &mut Tables,
    ids: &mut ByName<SagaKey>,
    batch: &Batch,
    id: Text,
    row: OutboxRow,
) -> Result<(), StoreFault>
    requires spaces { AreInSpaces batch.now.changes }
    requires distinct { AreDistinct batch.now.changes }
    ensures wider { IsWider batch.now.writes (stored tables.old) (stored tables.new) }
    ensures ids { AreWiderIds batch.now.links ids.old ids.new }
    ensures outbox { (tables.new.outbox ≡ tables.old.outbox) ⊎ (tables.new.outbox ≡ finite.insert tables.old.outbox id row) }
    ensures room { OnOk result (HaveRoom (stored tables.new) batch.now.writes) }
    ensures links { OnOk result (HaveLinks ids.new batch.now.links) }
    ensures there { OnOk result (tables.new.outbox ≡ finite.insert tables.old.outbox id row) }
    ensures applied { (before after : Tables) → Leads batch.now.changes before after → Applied D.honest D.now D.images D.firm base.old base.new before after result }
    ensures answers { MatchResult result (λ x. Unit {0}) IsOfApply }
    ensures cause { IsCounted (D.count base.old) (D.count base.new) result }
{
    match reserve(tables, ids, batch, id, row) {
        Ok(()) => apply(alloc, base, &batch.changes),
        Err(NoMemory) => Err(StoreFault::NoMemory),
    }
}

/// Makes the writes for which there is room, and counts the commit.
pub(crate) fn fulfil(tables: &mut Tables, ids: &mut ByName<SagaKey>, batch: Batch)
    requires room { HaveRoom (stored tables.old) batch.writes }
    requires apart { AreApart batch.writes }
    requires links { HaveLinks ids.old batch.links }
    requires fits { tables.old.commits + 1 < 2 ^ 64 }
    ensures written { stored tables.new ≡ record (fold with_written (stored tables.old) batch.writes) { commits = tables.old.commits + 1 } }
    ensures outbox { tables.new.outbox ≡ tables.old.outbox }
    ensures ids { AreSwept tables.new.sagas batch.names (fold linked ids.old batch.links) ids.new }
{
    let Batch {
        writes,
        links,
        names,
        ..
    } = batch;
    let commits = tables.commits + 1;
    write_all(tables, writes);
    put_links(ids, links);
    sweep(&tables.sagas, ids, &names);
    tables.commits = commits;
}

/// Takes the room for a commit of this number away again, and the record of its message.
pub(crate) fn undo(tables: &mut Tables, ids: &mut ByName<SagaKey>, batch: &Batch, number: u64)
    ensures before { (t : Stored) → IsWider batch.now.writes t (stored tables.old) → AreOf number batch.now.writes → IsOlder number t → stored tables.new ≡ t }
    ensures outbox { tables.new.outbox ≡ finite.remove tables.old.outbox batch.now.id }
    ensures ids { AreSwept tables.new.sagas batch.now.names ids.old ids.new }
{
    clear(tables, &batch.writes, number);
    tables.outbox.remove(&batch.id);
    sweep(&tables.sagas, ids, &batch.names);
}
