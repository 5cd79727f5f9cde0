//! The cells of a store at its opening.
ghost use Rattle.std.specs.Prelude.{◌≡◌, ◌⊎◌, [], IfOk, OnOk, IfErr, MatchOption};
ghost use Rattle.nb_base.specs.Sound.{IsSoundPost};
ghost use Rattle.nb_cells.specs.Cells.{CellMap};
ghost use Rattle.nb_cells.specs.Faults.{IsCounted};
ghost use Rattle.nb_queue.specs.Opening.{IsNextCell, IsCellOf, IsSomeNext, IsSomeEntry, TellsNext, AreLoaded, IsRefusedFor, IsRefusal, IsOpened, IsOfCells, AreScans, Ascend};

use crate::changes::{ENTRIES, NEXT};
use crate::fault::PostFault;
use crate::post::LIMIT;
use crate::queues::Queues;
use crate::read::{read_entry, read_next, read_number};
use nb_base::{ByNumber, Copied, NoMemory, PostState, Queued};
use nb_cells::{Cell, CellFault, CellList, Cells};
use nb_envelope::FormatFault;
use std::alloc::Global;

/// The next number that a cell tells.
fn next_of(cell: &Cell) -> Option<u64>
    ensures { MatchOption result (IsSomeNext cell.now → ⊥) (λ n. IsNextCell n cell.now.key cell.now.bytes) }
{
    if !cell.key.is_empty() {
        return None;
    }
    let Ok(next) = read_next(cell.bytes.as_slice()) else {
        return None;
    };
    if next < 2 || next > LIMIT {
        return None;
    }
    Some(next)
}

/// An entry with its number.
#[derive(Drop)]
struct Numbered {
    number: u64,
    entry: Queued,
}

/// The entry of a cell, whose number is below the next one.
fn entry_of(alloc: Global, cell: &Cell, next: u64) -> Result<Option<Numbered>, NoMemory>
    ensures { IfOk result (λ o. MatchOption o (IsSomeEntry next cell.now → ⊥) (λ x. IsCellOf next x.number x.entry cell.now.key cell.now.bytes)) }
{
    let Ok(number) = read_number(cell.key.as_slice()) else {
        return Ok(None);
    };
    if number < 1 || next <= number {
        return Ok(None);
    }
    match read_entry(alloc, cell.bytes.as_slice()) {
        Ok(entry) => Ok(Some(Numbered { number, entry })),
        Err(FormatFault::Damaged) => Ok(None),
        Err(FormatFault::NoMemory) => Err(NoMemory),
    }
}

/// The refusal of a cell.
fn damage(space: u8, cell: &Cell) -> PostFault
    ensures value { (result ≡ PostFault.NoMemory) ⊎ (result ≡ PostFault.Damaged space cell.now.key) }
    ensures kind { IsOfCells result }
{
    match cell.key.copy() {
        Ok(key) => PostFault::Damaged { space, key },
        Err(NoMemory) => PostFault::NoMemory,
    }
}

/// The next number that the cells of its space tell.
pub(crate) fn load_next(cells: &CellList) -> Result<u64, PostFault>
    ensures ok { IfOk result (TellsNext cells.now) }
    ensures kinds { IfErr result IsOfCells }
    ensures err { Ascend cells.now → IfErr result (IsRefusedFor IsSomeNext 1 cells.now) }
{
    if cells.is_empty() {
        return Ok(1);
    }
    let first = cells.at(0);
    let Some(next) = next_of(first) else {
        return Err(damage(NEXT, first));
    };
    if cells.len() > 1 {
        return Err(damage(NEXT, cells.at(1)));
    }
    Ok(next)
}

/// The entries of the cells of their space.
pub(crate) fn load_entries(
    alloc: Global,
    cells: &CellList,
    next: u64,
) -> Result<ByNumber<Queued>, PostFault>
    ensures ok { IfOk result (λ entries. AreLoaded next entries cells.now) }
    ensures kinds { IfErr result IsOfCells }
    ensures err { IfErr result (IsRefusedFor (IsSomeEntry next) 2 cells.now) }
{
    let mut entries = ByNumber::new(alloc);
    for i in 0..cells.len() {
        let cell = cells.at(i);
        let Some(Numbered { number, entry }) = entry_of(alloc, cell, next)? else {
            return Err(damage(ENTRIES, cell));
        };
        entries.insert(number, entry)?;
    }
    Ok(entries)
}

/// The cells of the four spaces.
#[derive(Drop)]
pub(crate) struct Found {
    next: CellList,
    entries: CellList,
    third: CellList,
    fourth: CellList,
}

/// Scans the four spaces.
pub(crate) fn scan_all<P: Cells>(alloc: Global, cells: &mut P) -> Result<Found, CellFault>
    ensures honest_before { P.honest cells.new → P.honest cells.old }
    ensures kept_firm { P.honest cells.new → P.firm cells.old → P.firm cells.new }
    ensures kept { (m : CellMap) → P.honest cells.new → P.firm cells.old → P.now cells.old m → P.now cells.new m }
    ensures images { (n : CellMap) → P.honest cells.new → P.images cells.new n → P.images cells.old n }
    ensures ok { (m : CellMap) → P.honest cells.new → P.firm cells.old → P.now cells.old m → IfOk result (λ f. AreScans m f.next f.entries f.third f.fourth) }
    ensures cause { IsCounted (P.count cells.old) (P.count cells.new) result }
{
    let next = cells.scan(alloc, NEXT)?;
    let entries = cells.scan(alloc, ENTRIES)?;
    let third = cells.scan(alloc, 3)?;
    let fourth = cells.scan(alloc, 4)?;
    Ok(Found {
        next,
        entries,
        third,
        fourth,
    })
}

/// A space without cells.
fn load_none(space: u8, cells: &CellList) -> Result<(), PostFault>
    ensures ok { OnOk result (cells.now ≡ []) }
    ensures kinds { IfErr result IsOfCells }
    ensures err { IfErr result (IsRefusedFor (λ c. ⊥) space cells.now) }
{
    if cells.is_empty() {
        return Ok(());
    }
    Err(damage(space, cells.at(0)))
}

/// The post of which these are the cells.
pub(crate) fn load(alloc: Global, found: &Found) -> Result<Queues, PostFault>
    ensures ok { IfOk result (λ p. IsOpened p found.now.next found.now.entries found.now.third found.now.fourth) }
    ensures sound { IfOk result IsSoundPost }
    ensures kinds { IfErr result IsOfCells }
    ensures err { Ascend found.now.next → IfErr result (IsRefusal found.now.next found.now.entries found.now.third found.now.fourth) }
{
    let next = load_next(&found.next)?;
    let entries = load_entries(alloc, &found.entries, next)?;
    if let Err(third) = load_none(3, &found.third) {
        return Err(third);
    }
    if let Err(fourth) = load_none(4, &found.fourth) {
        return Err(fourth);
    }
    Ok(Queues::new(alloc, PostState { entries, next })?)
}
