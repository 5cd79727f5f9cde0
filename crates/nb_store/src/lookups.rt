//! Records that may go.
ghost use Rattle.std.specs.Prelude.{◌≡◌, ◌++◌, ◌&&◌, ◌+◌, nat_le, IfOk, OnOk};
ghost use Rattle.std.specs.Option.{option_to_list};
ghost use Rattle.std.specs.List.{filter_map};
ghost use Rattle.std.specs.FinMap as map;
ghost use Rattle.nb_store.specs.Lookups.{going};

use nb_base::{ByName, Copied, Items, Moment, Names, NoMemory, OutboxRow, Text};
use nb_outbox::is_purgeable;
use std::alloc::Global;

/// Whether a record may go.
fn may_go(row: &OutboxRow, retention: u64, m: Moment) -> bool
    ensures { result ≡ (row.now.sent && nat_le (row.now.at + retention) m) }
{
    is_purgeable(row, retention, m)
}

/// Adds the id of a record that may go.
fn add_going(
    names: &mut Names,
    retention: u64,
    m: Moment,
    id: &Text,
    row: &OutboxRow,
) -> Result<(), NoMemory>
    ensures { OnOk result (names.new ≡ names.old ++ option_to_list (going retention m (id.now, row.now))) }
{
    if !may_go(row, retention, m) {
        return Ok(());
    }
    names.push(id.copy()?)
}

/// The ids of the records that may go, by their bytes.
pub(crate) fn purgeable(
    alloc: Global,
    records: &ByName<OutboxRow>,
    retention: u64,
    m: Moment,
) -> Result<Names, NoMemory>
    ensures { IfOk result (λ names. names ≡ filter_map (going retention m) (map.entries records.now)) }
{
    let mut names = Items::new(alloc);
    for (id, row) in records.iter() {
        add_going(&mut names, retention, m, id, row)?;
    }
    Ok(names)
}
