//! The tables over a store of cells.
ghost use Rattle.std.specs.Prelude.{◌≡◌, ◌≢◌, ◌≤◌, ◌+◌, ◌↔◌, IsTrue, IfOk, IfErr, IsOk, Err, Some, None, MatchResult, is_ok, true, false, if◌then◌else◌, option_copied};
ghost use Rattle.std.specs.FinMap as map;
ghost use Rattle.nb_base.specs.Shown.{stored, seen, with_id};
ghost use Rattle.nb_base.specs.Sound.{IsSoundTables, limit};
ghost use Rattle.nb_base.specs.declared.entry.OutboxRow.{OutboxRow};
ghost use Rattle.nb_store.specs.Applied.{Applied, IsCounted, IsOfApply, IsOfCommit};
ghost use Rattle.nb_base.specs.Causes.{Rose};
ghost use Rattle.nb_cells.specs.Cells.{CellMap};
ghost use Rattle.nb_store.specs.Calls.{HaveApartPlaces, committed, id_of, marked, purged};
ghost use Rattle.nb_store.specs.CellMaps.{HasCells};
ghost use Rattle.nb_store.specs.Lookups.{CanGo, purgeable};
ghost use Rattle.nb_store.specs.Scanning.{ScansAll, Opens, Refuses};
ghost use Rattle.nb_store.specs.declared.fault.StoreFault.TheVariants.{Failed, Spent};
ghost use Rattle.nb_outbox.specs.Spelled.{sent_record};

use crate::apply::apply;
use crate::changes::{erase_record, mark_changes};
use crate::fault::StoreFault;
use crate::kept::Kept;
use crate::parts::{LIMIT, Parts, Scanned};
use crate::scan::scan_all;
use nb_base::{
    Copied, Envelope, Items, Keys, MESSAGE_ID, Moment, Names, NoMemory, Ops, OutboxRow, Plan,
    Reads, Row, SagaKey, SagaRow, Tables, Text,
};
use nb_cells::Cells;
use nb_outbox::is_purgeable;
use std::alloc::Global;

/// Tables, and the store of their cells. They are kept in memory, so that what reads them makes no call of the store.
#[derive(Drop)]
pub struct Store<D> {
    base: D,
    tables: Kept,
}

/// The store of cells, and the tables that it had.
#[derive(Drop)]
pub struct StoreClosed<D> {
    pub base: D,
    pub tables: Tables,
}

/// Why tables can't be opened, and the store of cells.
#[derive(Drop)]
pub struct StoreRefusal<D> {
    pub fault: StoreFault,
    pub base: D,
}

/// The tables whose cells the store has.
fn open<D: Cells>(alloc: Global, base: &mut D) -> Result<Kept, StoreFault>
    ensures honest_before { D.honest base.new → D.honest base.old }
    ensures kept_firm { D.honest base.new → D.firm base.old → D.firm base.new }
    ensures kept { (m : CellMap) → D.honest base.new → D.firm base.old → D.now base.old m → D.now base.new m }
    ensures images { (n : CellMap) → D.honest base.new → D.images base.new n → D.images base.old n }
    ensures opened { (m : CellMap) → D.honest base.new → D.firm base.old → D.now base.old m → MatchResult result (Opens m) (Refuses m) }
    ensures sound { IfOk result (λ t. IsSoundTables t) }
    ensures cause { IsCounted (D.count base.old) (D.count base.new) result }
{
    let cells = scan_all(alloc, base)?;
    read_cells(alloc, &cells)
}

/// The tables for which the cells stand.
fn read_cells(alloc: Global, cells: &Scanned) -> Result<Kept, StoreFault>
    ensures opened { (m : CellMap) → ScansAll m cells.now → MatchResult result (Opens m) (Refuses m) }
    ensures sound { IfOk result (λ t. IsSoundTables t) }
    ensures answers { IfErr result (λ e. e ≢ Failed) }
{
    let mut parts = Parts::new(alloc);
    match parts.join_spaces(alloc, cells) {
        Ok(()) => Ok(Kept::of_parts(parts)),
        Err(fault) => Err(fault),
    }
}

/// The id of a message.
fn id_of(incoming: &Envelope) -> &Text
    ensures { result.now ≡ id_of incoming.now }
{
    incoming.header(MESSAGE_ID).unwrap()
}

/// The record, once its messages were sent.
fn sent_row(alloc: Global, row: &OutboxRow) -> OutboxRow
    ensures { result ≡ sent_record row.now }
{
    OutboxRow {
        n: row.n,
        at: row.at,
        sent: true,
        ops: Items::new(alloc),
    }
}

impl<D: Cells> Store<D> {
    /// The tables whose cells the store has. It is handed back where it is refused.
    #[tactic(auto, using(crate::proofs::CellLaws::opens_cells))]
    pub fn start(alloc: Global, base: D) -> Result<Store<D>, StoreRefusal<D>>
        ensures honest_before { MatchResult result (λ s. D.honest s.base → D.honest base) (λ r. D.honest r.base → D.honest base) }
        ensures kept_firm { MatchResult result (λ s. D.honest s.base → D.firm base → D.firm s.base) (λ r. D.honest r.base → D.firm base → D.firm r.base) }
        ensures kept { (m : CellMap) → MatchResult result (λ s. D.honest s.base → D.firm base → D.now base m → D.now s.base m) (λ r. D.honest r.base → D.firm base → D.now base m → D.now r.base m) }
        ensures images { (n : CellMap) → MatchResult result (λ s. D.honest s.base → D.images s.base n → D.images base n) (λ r. D.honest r.base → D.images r.base n → D.images base n) }
        ensures opened { (m : CellMap) → MatchResult result (λ s. D.honest s.base → D.firm base → D.now base m → Opens m s.tables) (λ r. D.honest r.base → D.firm base → D.now base m → Refuses m r.fault) }
        // The cells of the tables are those that the store tells.
        ensures cells { (m : CellMap) → IfOk result (λ s. D.honest s.base → D.firm base → D.now base m → HasCells m s.tables) }
        ensures sound { IfOk result (λ s. IsSoundTables s.tables) }
        ensures later { MatchResult result (λ s. D.count base ≤ D.count s.base) (λ r. D.count base ≤ D.count r.base) }
        ensures failed { IfErr result (λ r. r.fault ≡ Failed → Rose (D.count base) (D.count r.base)) }
    {
        let mut base = base;
        match open(alloc, &mut base) {
            Ok(tables) => Ok(Store { base, tables }),
            Err(fault) => Err(StoreRefusal { fault, base }),
        }
    }

    /// Each key with what stands there. No call of the store of cells is made.
    pub fn read(&self, alloc: Global, keys: &Keys) -> Result<Reads, NoMemory>
        ensures { IfOk result (λ reads. reads ≡ seen (stored self.now.tables) keys.now) }
    {
        self.tables.read(alloc, keys)
    }

    /// The record of a message, where it was handled. No call of the store of cells is made.
    pub fn outbox(&self, id: &Text) -> Result<Option<OutboxRow>, NoMemory>
        ensures { IfOk result (λ found. found ≡ map.get self.now.tables.outbox id.now) }
    {
        match self.tables.record(id) {
            Some(row) => Ok(Some(row.copy()?)),
            None => Ok(None),
        }
    }

    /// The record of a message, with no copy.
    pub fn record(&self, id: &Text) -> Option<&OutboxRow>
        ensures value { option_copied result ≡ map.get self.now.tables.outbox id.now }
        ensures sound { IsSoundTables self.now.tables }
    {
        self.tables.record(id)
    }

    /// The number of commits.
    pub fn commits(&self) -> u64
        ensures value { result ≡ self.now.tables.commits }
        ensures sound { IsSoundTables self.now.tables }
    {
        self.tables.commits()
    }

    /// The saga at a place, with no copy.
    pub fn saga(&self, place: &SagaKey) -> Option<&SagaRow>
        ensures { option_copied result ≡ map.get self.now.tables.sagas place.now }
    {
        self.tables.saga(place)
    }

    /// The saga of a type that has an id, with no copy.
    pub fn saga_with(&self, saga: &Text, id: &Text) -> Option<&SagaRow>
        ensures { option_copied result ≡ with_id saga.now id.now (map.entries self.now.tables.sagas) }
    {
        self.tables.saga_with(saga, id)
    }

    /// The row under a name, with no copy.
    pub fn row(&self, name: &Text) -> Option<&Row>
        ensures { option_copied result ≡ map.get self.now.tables.rows name.now }
    {
        self.tables.row(name)
    }

    /// Whether the record of a message was sent, and has stood for `retention` seconds at the moment `m`.
    pub fn can_purge(&self, id: &Text, retention: u64, m: Moment) -> bool
        ensures { IsTrue result ↔ CanGo self.now.tables retention m id.now }
    {
        match self.tables.record(id) {
            Some(row) => is_purgeable(row, retention, m),
            None => false,
        }
    }

    /// The ids of the records that may be purged, by their bytes.
    pub fn purgeable(&self, alloc: Global, retention: u64, m: Moment) -> Result<Names, NoMemory>
        ensures { IfOk result (λ names. names ≡ purgeable self.now.tables retention m) }
    {
        self.tables.purgeable(alloc, retention, m)
    }

    /// A copy of all that the tables hold.
    pub fn all(&self) -> Result<Tables, NoMemory>
        ensures { IfOk result (λ t. t ≡ self.now.tables) }
    {
        self.tables.all()
    }

    /// The next commit, for which there is a number.
    fn commit_next(
        &mut self,
        alloc: Global,
        id: Text,
        plan: &Plan,
        ops: &Ops,
        endpoint: &Text,
        m: Moment,
    ) -> Result<u64, StoreFault>
        requires unrecorded { map.get self.old.tables.outbox id ≡ None }
        requires apart { HaveApartPlaces plan.now.writes }
        requires sound { IsSoundTables (committed endpoint.now self.old.tables id m plan.now.writes ops.now) }
        ensures number { IfOk result (λ n. n ≡ self.old.tables.commits + 1) }
        ensures tables { self.new.tables ≡ (if is_ok result then committed endpoint.now self.old.tables id m plan.now.writes ops.now else self.old.tables) }
        ensures applied { Applied D.honest D.now D.images D.firm self.old.base self.new.base self.old.tables (committed endpoint.now self.old.tables id m plan.now.writes ops.now) result }
        ensures answers { MatchResult result (λ x. Unit {0}) IsOfApply }
        ensures cause { IsCounted (D.count self.old.base) (D.count self.new.base) result }
    {
        let n = self.tables.commits() + 1;
        let row = OutboxRow {
            n,
            at: m,
            sent: false,
            ops: ops.copy()?,
        };
        let batch = self.tables.batch(alloc, id, plan, endpoint, &row)?;
        match self.tables.commit(alloc, &mut self.base, batch, row) {
            Ok(()) => Ok(n),
            Err(fault) => Err(fault),
        }
    }

    /// Makes the writes of a plan, records the message as handled at `m` with what is to be sent, and answers the number
    /// of the commit. Numbers end at 2^62.
    pub fn commit(
        &mut self,
        alloc: Global,
        incoming: &Envelope,
        plan: &Plan,
        ops: &Ops,
        endpoint: &Text,
        m: Moment,
    ) -> Result<u64, StoreFault>
        requires unrecorded { map.get self.old.tables.outbox (id_of incoming.now) ≡ None }
        requires apart { HaveApartPlaces plan.now.writes }
        requires sound { self.old.tables.commits ≢ limit → IsSoundTables (committed endpoint.now self.old.tables (id_of incoming.now) m plan.now.writes ops.now) }
        ensures spent { (result ≡ Err Spent) ↔ (self.old.tables.commits ≡ limit) }
        ensures spent_base { result ≡ Err Spent → self.new.base ≡ self.old.base }
        ensures number { IfOk result (λ n. n ≡ self.old.tables.commits + 1) }
        ensures tables { self.new.tables ≡ (if is_ok result then committed endpoint.now self.old.tables (id_of incoming.now) m plan.now.writes ops.now else self.old.tables) }
        ensures applied { Applied D.honest D.now D.images D.firm self.old.base self.new.base self.old.tables (committed endpoint.now self.old.tables (id_of incoming.now) m plan.now.writes ops.now) result }
        ensures answers { MatchResult result (λ x. Unit {0}) IsOfCommit }
        ensures cause { IsCounted (D.count self.old.base) (D.count self.new.base) result }
    {
        if self.tables.commits() == LIMIT {
            return Err(StoreFault::Spent);
        }
        let id = id_of(incoming).copy()?;
        self.commit_next(alloc, id, plan, ops, endpoint, m)
    }

    /// Marks the record of a message as sent, and takes its messages out. Where it was sent already nothing is done.
    pub fn mark(&mut self, alloc: Global, id: &Text) -> Result<(), StoreFault>
        requires { (r : OutboxRow) × (map.get self.old.tables.outbox id.now ≡ Some r) }
        ensures tables { (r : OutboxRow) → map.get self.old.tables.outbox id.now ≡ Some r → self.new.tables ≡ (if is_ok result then marked self.old.tables id.now r else self.old.tables) }
        ensures sent { (r : OutboxRow) → map.get self.old.tables.outbox id.now ≡ Some r → r.sent ≡ true → IsOk result × (self.new.base ≡ self.old.base) }
        ensures applied { (r : OutboxRow) → map.get self.old.tables.outbox id.now ≡ Some r → r.sent ≡ false → Applied D.honest D.now D.images D.firm self.old.base self.new.base self.old.tables (marked self.old.tables id.now r) result }
        ensures answers { MatchResult result (λ x. Unit {0}) IsOfApply }
        ensures cause { IsCounted (D.count self.old.base) (D.count self.new.base) result }
    {
        let row = self.tables.record(id).unwrap();
        if row.sent {
            return Ok(());
        }
        let changes = mark_changes(alloc, id, row)?;
        let sent = sent_row(alloc, row);
        let key = id.copy()?;
        match apply(alloc, &mut self.base, &changes) {
            Ok(()) => {
                self.tables.mark_record(key, sent);
                Ok(())
            }
            Err(fault) => Err(fault),
        }
    }

    /// Takes the record of a message out, which was sent.
    pub fn purge(&mut self, alloc: Global, id: &Text) -> Result<(), StoreFault>
        requires { (r : OutboxRow) × (map.get self.old.tables.outbox id.now ≡ Some r) × (r.sent ≡ true) }
        ensures applied { Applied D.honest D.now D.images D.firm self.old.base self.new.base self.old.tables (purged self.old.tables id.now) result }
        ensures cause { IsCounted (D.count self.old.base) (D.count self.new.base) result }
        ensures tables { self.new.tables ≡ (if is_ok result then purged self.old.tables id.now else self.old.tables) }
        ensures answers { MatchResult result (λ x. Unit {0}) IsOfApply }
    {
        let changes = erase_record(alloc, id)?;
        match apply(alloc, &mut self.base, &changes) {
            Ok(()) => {
                self.tables.remove_record(id);
                Ok(())
            }
            Err(fault) => Err(fault),
        }
    }

    /// The store of cells.
    pub fn base(&self) -> &D
        ensures { result.now ≡ self.now.base }
    {
        &self.base
    }

    /// The store of cells, and the tables.
    pub fn close(self) -> StoreClosed<D>
        ensures base { result.base ≡ self.base }
        ensures tables { result.tables ≡ self.tables }
        ensures sound { IsSoundTables result.tables }
    {
        let Store { base, tables } = self;
        StoreClosed {
            base,
            tables: tables.into_tables(),
        }
    }
}
