//! Reads of cells, each in a transaction that is dropped.
ghost use Rattle.std.specs.Prelude.{◌≡◌, ℕ, false, map, All, IfOk, IsTrue, length, ◌<◌, [], MatchOption, slice_index_or};
ghost use Rattle.nb_cells.specs.Cells.{CellMap, Scans};
ghost use Rattle.nb_sql.specs.Held.{Tells, IsImage};
ghost use Rattle.nb_sql.specs.Shown.{shown_in, shown_of, AreShown};
ghost use Rattle.nb_sql.specs.Statements.{cells_schema, command_of};
ghost use Rattle.sqlite.specs.State.{HasCleanDisk};
ghost use Rattle.sqlite.specs.Held.{state};
ghost use Rattle.sqlite.specs.Given.{IsPlain};
ghost use Rattle.sqlite.specs.Order.{column};
ghost use Rattle.sqlite.specs.declared.types.Value.TheVariants.{Blob};
ghost use Rattle.sqlite.specs.Effect.{Reads};
ghost use Rattle.sqlite.specs.Values.{bound};
ghost use Rattle.sqlite.specs.Listing.{understood, reads_listing};

use crate::refusal::Refusal;
use crate::statements::{GET, SCAN};
use nb_base::{Bytes, Items};
use nb_cells::{Cell, CellList};
use sqlite::{Alter, Connection, Error, Row, params};
use sqlite_value::value::ValueRef;
use std::alloc::Global;

/// The rows of a query.
fn read_all<S: Alter>(
    conn: &mut Connection<S>,
    sql: &str,
    params: &[ValueRef<'_>],
) -> Result<Vec<Row>, Error>
    requires idle { conn.old.in_transaction ≡ false }
    requires plain { IsPlain (understood cells_schema sql.now) }
    requires unlisted { reads_listing cells_schema sql.now ≡ false }
    ensures idle { conn.new.in_transaction ≡ false }
    ensures clean { HasCleanDisk (state S.Store conn.new) → HasCleanDisk (state S.Store conn.old) }
    ensures ok { (m : CellMap) → HasCleanDisk (state S.Store conn.new) → Tells (state S.Store conn.old) m → IfOk result (λ rows. IsTrue (state S.Store conn.old).is_open × Reads (command_of (understood cells_schema sql.now)) (state S.Store conn.old).now (bound params.now) rows.items) }
    ensures same { (m : CellMap) → HasCleanDisk (state S.Store conn.new) → Tells (state S.Store conn.old) m → Tells (state S.Store conn.new) m }
    ensures images { (n : CellMap) → HasCleanDisk (state S.Store conn.new) → IsImage (state S.Store conn.new) n → IsImage (state S.Store conn.old) n }
{
    let mut tx = conn.transaction();
    tx.query_all(sql, params)
}

/// What the first row holds.
fn first_bytes(rows: &[Row]) -> Result<Option<Bytes>, Refusal>
    ensures { IfOk result (λ found. MatchOption found (rows.now ≡ []) (λ b. (k : ℕ) × (k < length rows.now) × (column (slice_index_or rows.now k []) 0 ≡ Blob b))) }
{
    if rows.is_empty() {
        return Ok(None);
    }
    let held = rows[0].get(0)?;
    Ok(Some(Bytes::of_vec(held)?))
}

/// The bytes of the cell at a place.
pub(crate) fn read_one<S: Alter>(
    conn: &mut Connection<S>,
    space: u8,
    key: &[u8],
) -> Result<Option<Bytes>, Refusal>
    requires idle { conn.old.in_transaction ≡ false }
    ensures idle { conn.new.in_transaction ≡ false }
    ensures clean { HasCleanDisk (state S.Store conn.new) → HasCleanDisk (state S.Store conn.old) }
    ensures ok { (m : CellMap) → HasCleanDisk (state S.Store conn.new) → Tells (state S.Store conn.old) m → IfOk result (λ found. found ≡ m space key.now) }
    ensures same { (m : CellMap) → HasCleanDisk (state S.Store conn.new) → Tells (state S.Store conn.old) m → Tells (state S.Store conn.new) m }
    ensures images { (n : CellMap) → HasCleanDisk (state S.Store conn.new) → IsImage (state S.Store conn.new) n → IsImage (state S.Store conn.old) n }
{
    let rows = read_all(conn, GET, params![u32::from(space), key])?;
    first_bytes(rows.as_slice())
}

/// The cell that a row shows.
fn cell_of(space: u8, row: &Row) -> Result<Cell, Refusal>
    ensures { IfOk result (λ c. (c.space ≡ space) × (shown_in row.now ≡ shown_of c)) }
{
    let key = Bytes::of_vec(row.get(0)?)?;
    let bytes = Bytes::of_vec(row.get(1)?)?;
    Ok(Cell { space, key, bytes })
}

/// The cells that the rows show.
fn cells_of(alloc: Global, space: u8, rows: &[Row]) -> Result<CellList, Refusal>
    ensures { IfOk result (AreShown space rows.now) }
{
    let mut cells = Items::new(alloc);
    for row in rows {
        cells.push(cell_of(space, row)?)?;
    }
    Ok(cells)
}

/// The cells of a space, with keys that ascend by their bytes.
pub(crate) fn read_space<S: Alter>(
    alloc: Global,
    conn: &mut Connection<S>,
    space: u8,
) -> Result<CellList, Refusal>
    requires idle { conn.old.in_transaction ≡ false }
    ensures idle { conn.new.in_transaction ≡ false }
    ensures clean { HasCleanDisk (state S.Store conn.new) → HasCleanDisk (state S.Store conn.old) }
    ensures ok { (m : CellMap) → HasCleanDisk (state S.Store conn.new) → Tells (state S.Store conn.old) m → IfOk result (Scans m space) }
    ensures same { (m : CellMap) → HasCleanDisk (state S.Store conn.new) → Tells (state S.Store conn.old) m → Tells (state S.Store conn.new) m }
    ensures images { (n : CellMap) → HasCleanDisk (state S.Store conn.new) → IsImage (state S.Store conn.new) n → IsImage (state S.Store conn.old) n }
{
    let rows = read_all(conn, SCAN, params![u32::from(space)])?;
    cells_of(alloc, space, rows.as_slice())
}
