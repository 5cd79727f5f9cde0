//! The tables in memory, with an index of the sagas' ids.
ghost use Rattle.std.specs.Prelude.{◌≡◌, ◌+◌, IfOk, MatchResult, Some, None, is_ok, true, if◌then◌else◌, option_copied};
ghost use Rattle.std.specs.FinMap as map;
ghost use Rattle.nb_base.specs.Shown.{stored, shown, seen, saga_seen, row_seen, with_id};
ghost use Rattle.nb_base.specs.Sound.{IsSoundTables};
ghost use Rattle.nb_base.specs.declared.entry.OutboxRow.{OutboxRow};
ghost use Rattle.nb_outbox.specs.Spelled.{sent_record, IsRecord};
ghost use Rattle.nb_store.specs.Applied.{Applied, IsCounted, IsOfApply};
ghost use Rattle.nb_store.specs.Batches.{IsBatch, after_batch};
ghost use Rattle.nb_store.specs.Calls.{HaveApartPlaces, handled, marked};
ghost use Rattle.nb_store.specs.Lookups.{purgeable};
ghost use Rattle.nb_store.specs.Opening.{IsOpen};

use crate::batch::{Batch, attempt, fulfil, undo, written};
use crate::changes::commit_changes;
use crate::fault::StoreFault;
use crate::links::{links_of, touched_ids};
use crate::lookups::purgeable;
use crate::parts::Parts;
use nb_base::{
    ByName, Copied, Items, Key, Keys, Moment, Names, NoMemory, OutboxRow, Plan, Read, Reads, Row,
    SagaKey, SagaRow, Seen, Tables, Text, Value,
};
use nb_cells::Cells;
use std::alloc::Global;
use std::marker::Model;

/// Sound tables, of which each part has a spelling, and the places of the sagas by their ids.
#[derive(Drop)]
pub struct Kept {
    tables: Tables,
    ids: ByName<SagaKey>,
}

impl Model for Kept {
    ghost use Rattle.nb_base.specs.declared.tables.Tables.{Tables};
    ghost use Rattle.nb_store.specs.Kept.{IsKept};
    ghost use Rattle.nb_base.specs.contracts.tables.Tables as tables_type;

    ghost Value = { Tables };

    ghost coded = { tables_type.the_row.coded };

    ghost view = { λ k. k.tables };

    ghost invariant = { λ k. IsKept k.tables k.ids };
}

/// What a saga shows, where there is one.
fn seen_saga(row: Option<&SagaRow>) -> Result<Seen, NoMemory>
    ensures { IfOk result (λ s. s ≡ saga_seen (option_copied row.entry)) }
{
    match row {
        Some(row) => Ok(Seen::Saga(row.copy()?)),
        None => Ok(Seen::Absent),
    }
}

/// What a row shows, where there is one.
fn seen_row(row: Option<&Row>) -> Seen
    ensures { result ≡ row_seen (option_copied row.entry) }
{
    match row {
        Some(row) => Seen::Row {
            version: row.version,
            value: row.value,
        },
        None => Seen::Absent,
    }
}

impl Kept {
    /// The tables whose cells were read.
    pub fn of_parts(parts: Parts) -> Kept
        requires { IsOpen parts }
        ensures { result ≡ parts.tables }
    {
        let Parts { tables, ids, .. } = parts;
        Kept { tables, ids }
    }

    /// The record of a message.
    pub fn record(&self, id: &Text) -> Option<&OutboxRow>
        ensures value { option_copied result ≡ map.get self.now.outbox id.now }
        ensures sound { IsSoundTables self.now }
    {
        self.tables.outbox.get(id)
    }

    /// Puts the record of a message, once its messages were sent. It takes no memory.
    pub fn mark_record(&mut self, id: Text, row: OutboxRow)
        requires { (r : OutboxRow) × (map.get self.old.outbox id ≡ Some r) × (row ≡ sent_record r) × IsRecord row }
        ensures { (r : OutboxRow) → map.get self.old.outbox id ≡ Some r → self.new ≡ marked self.old id r }
    {
        let _ = self.tables.outbox.insert(id, row);
    }

    /// Takes the record of a message out.
    pub fn remove_record(&mut self, id: &Text)
        ensures { self.new ≡ record self.old { outbox = map.remove self.old.outbox id.now } }
    {
        self.tables.outbox.remove(id);
    }

    /// All that the commit of a plan needs, by which its message gets this record.
    pub fn batch(
        &self,
        alloc: Global,
        id: Text,
        plan: &Plan,
        endpoint: &Text,
        row: &OutboxRow,
    ) -> Result<Batch, NoMemory>
        requires unrecorded { map.get self.now.outbox id ≡ None }
        requires apart { HaveApartPlaces plan.now.writes }
        requires sound { IsSoundTables (handled endpoint.now self.now id plan.now.writes row.now) }
        requires number { row.now.n ≡ self.now.commits + 1 }
        ensures batch { IfOk result (λ b. IsBatch self.now b row.now) }
        ensures after { IfOk result (λ b. after_batch self.now b row.now ≡ handled endpoint.now self.now id plan.now.writes row.now) }
    {
        let changes = commit_changes(alloc, plan, endpoint, &id, row)?;
        let writes = written(alloc, &plan.writes, endpoint, row.n)?;
        let links = links_of(alloc, &writes)?;
        let names = touched_ids(alloc, &self.tables.sagas, &writes)?;
        Ok(Batch {
            id,
            writes,
            links,
            names,
            changes,
        })
    }

    /// Makes a commit in memory and in the cells, or in neither.
    pub fn commit<D: Cells>(
        &mut self,
        alloc: Global,
        base: &mut D,
        batch: Batch,
        row: OutboxRow,
    ) -> Result<(), StoreFault>
        requires { IsBatch self.old batch row }
        ensures tables { self.new ≡ (if is_ok result then after_batch self.old batch row else self.old) }
        ensures applied { Applied D.honest D.now D.images D.firm base.old base.new self.old (after_batch self.old batch row) result }
        ensures answers { MatchResult result (λ x. Unit {0}) IsOfApply }
        ensures cause { IsCounted (D.count base.old) (D.count base.new) result }
    {
        let number = self.tables.commits + 1;
        let id = batch.id.copy()?;
        match attempt(
            alloc,
            base,
            &mut self.tables,
            &mut self.ids,
            &batch,
            id,
            row,
        ) {
            Ok(()) => {
                fulfil(&mut self.tables, &mut self.ids, batch);
                Ok(())
            }
            Err(fault) => {
                undo(&mut self.tables, &mut self.ids, &batch, number);
                Err(fault)
            }
        }
    }

    /// The number of commits.
    pub fn commits(&self) -> u64
        ensures value { result ≡ self.now.commits }
        ensures sound { IsSoundTables self.now }
    {
        self.tables.commits
    }

    /// A copy of the tables.
    pub fn all(&self) -> Result<Tables, NoMemory>
        ensures { IfOk result (λ t. t ≡ self.now) }
    {
        self.tables.copy()
    }

    /// The ids of the records that may go, by their bytes.
    pub fn purgeable(&self, alloc: Global, retention: u64, m: Moment) -> Result<Names, NoMemory>
        ensures { IfOk result (λ names. names ≡ purgeable self.now retention m) }
    {
        purgeable(alloc, &self.tables.outbox, retention, m)
    }

    /// The saga at a place.
    pub fn saga(&self, place: &SagaKey) -> Option<&SagaRow>
        ensures { option_copied result ≡ map.get self.now.sagas place.now }
    {
        self.tables.sagas.get(place)
    }

    /// The row under a name.
    pub fn row(&self, name: &Text) -> Option<&Row>
        ensures { option_copied result ≡ map.get self.now.rows name.now }
    {
        self.tables.rows.get(name)
    }

    /// The tables, with no copy.
    pub fn into_tables(self) -> Tables
        ensures value { result ≡ self }
        ensures sound { IsSoundTables self }
    {
        let Kept { tables, .. } = self;
        tables
    }

    /// The saga at a place.
    fn saga_at(&self, alloc: Global, saga: &Text, corr: &Value) -> Result<Seen, NoMemory>
        ensures { IfOk result (λ s. s ≡ saga_seen (map.get self.now.sagas (record { saga = saga.now; corr = corr.now }))) }
    {
        let place = SagaKey {
            saga: saga.copy()?,
            corr: corr.copy()?,
        };
        seen_saga(self.tables.sagas.get(&place))
    }

    /// The saga of a type that has an id.
    pub fn saga_with(&self, saga: &Text, id: &Text) -> Option<&SagaRow>
        ensures { option_copied result ≡ with_id saga.now id.now (map.entries self.now.sagas) }
    {
        let Some(place) = self.ids.get(id) else {
            return None;
        };
        if place.saga != *saga {
            return None;
        }
        self.tables.sagas.get(place)
    }

    /// What stands at a key.
    fn shown(&self, alloc: Global, key: &Key) -> Result<Seen, NoMemory>
        ensures { IfOk result (λ s. s ≡ shown (stored self.now) key.now) }
    {
        match key {
            Key::ByCorr { saga, corr } => self.saga_at(alloc, saga, corr),
            Key::ById { saga, id } => seen_saga(self.saga_with(saga, id)),
            Key::Row { name } => Ok(seen_row(self.tables.rows.get(name))),
        }
    }

    /// Each key with what stands there.
    pub fn read(&self, alloc: Global, keys: &Keys) -> Result<Reads, NoMemory>
        ensures { IfOk result (λ reads. reads ≡ seen (stored self.now) keys.now) }
    {
        let mut reads = Items::new(alloc);
        for i in 0..keys.len() {
            let key = keys.at(i).copy()?;
            let seen = self.shown(alloc, &key)?;
            reads.push(Read { key, seen })?;
        }
        Ok(reads)
    }
}
