//! What joins the spellings of sagas and rows and their reading, and the cells of sagas and rows with what the writes
//! of a plan leave.
ghost use Rattle.std.specs.Prelude.{◌≡◌, ◌==◌, ℕ, List, false};
ghost use Rattle.std.specs.List.{AllByRecursion};
ghost use Rattle.nb_base.specs.Shown.{Stored};
ghost use Rattle.nb_base.specs.declared.plan.Write.{Write};
ghost use Rattle.nb_base.specs.declared.value.Value.{Value};
ghost use Rattle.nb_cells.specs.Cells.{CellMap, changed};
ghost use Rattle.nb_envelope.specs.Formats.{IsFormat, NoneBegins};
ghost use Rattle.nb_saga_store.specs.Spelled.{spelled_place, spelled_saga, spelled_row, IsPlace, IsRowOf, IsRow};
ghost use Rattle.nb_saga_store.specs.Read.{place_in, saga_in, row_in};
ghost use Rattle.nb_saga_store.specs.Maps.{HaveStored, AreSpelled};
ghost use Rattle.nb_saga_store.specs.Writes.{written_of, all_written, changes_of};
ghost use Rattle.nb_saga_store.specs.Written.{IsSpelled};

/// The places of sagas.
pub fn law_places()
    ensures both_ways { IsFormat IsPlace spelled_place place_in }
    ensures none_begins { NoneBegins IsPlace spelled_place }
{}

/// The sagas with one correlation value.
pub fn law_sagas()
    ensures both_ways { (corr : Value) → IsFormat (IsRowOf corr) spelled_saga (saga_in corr) }
    ensures none_begins { (corr : Value) → NoneBegins (IsRowOf corr) spelled_saga }
{}

/// Rows.
pub fn law_rows()
    ensures both_ways { IsFormat IsRow spelled_row row_in }
    ensures none_begins { NoneBegins IsRow spelled_row }
{}

/// Where cells have some sagas and rows, the changes of a plan's writes make them those that the writes leave, and
/// leave the cells of other spaces.
pub fn law_writes()
    ensures stored { (endpoint : List ℕ) (n : ℕ) (m : CellMap) (t : Stored) (ws : List Write) → AreSpelled t → AllByRecursion (λ w. IsSpelled (written_of endpoint n w)) ws → HaveStored m t → HaveStored (changed (changes_of endpoint n ws) m) (all_written endpoint n t ws) }
    ensures spelled { (endpoint : List ℕ) (n : ℕ) (t : Stored) (ws : List Write) → AreSpelled t → AllByRecursion (λ w. IsSpelled (written_of endpoint n w)) ws → AreSpelled (all_written endpoint n t ws) }
    ensures elsewhere { (endpoint : List ℕ) (n : ℕ) (m : CellMap) (ws : List Write) (space : ℕ) (key : List ℕ) → (space == 2) ≡ false → (space == 3) ≡ false → changed (changes_of endpoint n ws) m space key ≡ m space key }
{}
