//! A store of cells.
ghost use Rattle.std.specs.Prelude.{◌≡◌, ◌⊎◌, ℕ, IfOk, OnOk, Err};
ghost use Rattle.nb_cells.specs.Cells.{CellMap, IsSpace, AreInSpaces, AreDistinct, AreAlike, changed, Scans};
ghost use Rattle.nb_cells.specs.Faults.{IsCounted};

use crate::cell::CellList;
use crate::change::Changes;
use crate::fault::CellFault;
use nb_base::Bytes;
use std::alloc::Global;

/// A store of cells, by the maps of cells that it tells, by those that may be found when it is opened again after a
/// stop, and by the count of its faults.
pub trait Cells {
    // The outside has kept its part so far, as a disk that reads what was written. It may fall at any call.
    ghost honest: { Self → Type 0 };

    // The store tells this map.
    ghost now: { Self → CellMap → Type 0 };

    // This map may be found when the store is opened again after a stop.
    ghost images: { Self → CellMap → Type 0 };

    // No refused apply has left the store unable to tell its map.
    ghost firm: { Self → Type 0 };

    // How many calls failed.
    ghost count: { Self → ℕ };

    /// How many calls failed.
    fn faults(&self) -> u64
        ensures { result ≡ count self.now };

    /// The bytes of the cell at a place.
    fn get(&mut self, alloc: Global, space: u8, key: &Bytes) -> Result<Option<Bytes>, CellFault>
        requires { IsSpace space }
        ensures honest_before { honest self.new → honest self.old }
        ensures kept_firm { honest self.new → firm self.old → firm self.new }
        ensures kept { (m : CellMap) → honest self.new → firm self.old → now self.old m → now self.new m }
        ensures images { (n : CellMap) → honest self.new → images self.new n → images self.old n }
        ensures ok { (m : CellMap) → honest self.new → firm self.old → now self.old m → IfOk result (λ found. found ≡ m space key.now) }
        ensures cause { IsCounted (count self.old) (count self.new) result };

    /// The cells of a space, with keys that ascend by their bytes.
    fn scan(&mut self, alloc: Global, space: u8) -> Result<CellList, CellFault>
        requires { IsSpace space }
        ensures honest_before { honest self.new → honest self.old }
        ensures kept_firm { honest self.new → firm self.old → firm self.new }
        ensures kept { (m : CellMap) → honest self.new → firm self.old → now self.old m → now self.new m }
        ensures images { (n : CellMap) → honest self.new → images self.new n → images self.old n }
        ensures ok { (m : CellMap) → honest self.new → firm self.old → now self.old m → IfOk result (Scans m space) }
        ensures cause { IsCounted (count self.old) (count self.new) result };

    /// Makes all of the changes, or none. After `Failed` the store may be found with all of them or with none when it
    /// is opened again.
    fn apply(&mut self, alloc: Global, changes: &Changes) -> Result<(), CellFault>
        requires spaces { AreInSpaces changes.now }
        requires distinct { AreDistinct changes.now }
        ensures honest_before { honest self.new → honest self.old }
        ensures ok { (m : CellMap) → honest self.new → firm self.old → now self.old m → OnOk result (now self.new (changed changes.now m)) }
        ensures ok_firm { honest self.new → firm self.old → OnOk result (firm self.new) }
        ensures ok_images { (m n : CellMap) → honest self.new → firm self.old → now self.old m → images self.new n → OnOk result (AreAlike n (changed changes.now m)) }
        ensures no_memory { (m : CellMap) → honest self.new → firm self.old → now self.old m → result ≡ Err CellFault.NoMemory → now self.new m }
        ensures no_memory_firm { honest self.new → firm self.old → result ≡ Err CellFault.NoMemory → firm self.new }
        ensures no_memory_images { (n : CellMap) → honest self.new → result ≡ Err CellFault.NoMemory → images self.new n → images self.old n }
        ensures failed { (m : CellMap) → honest self.new → firm self.old → now self.old m → result ≡ Err CellFault.Failed → firm self.new → now self.new m }
        ensures failed_images { (m n : CellMap) → honest self.new → firm self.old → now self.old m → result ≡ Err CellFault.Failed → images self.new n → images self.old n ⊎ AreAlike n (changed changes.now m) }
        ensures cause { IsCounted (count self.old) (count self.new) result };

    // A store tells one map.
    ghost one: { (c : Self) (m n : CellMap) → honest c → now c m → now c n → AreAlike m n };
}
