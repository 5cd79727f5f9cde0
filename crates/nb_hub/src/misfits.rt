//! Stored sagas that don't fit the script.
ghost use Rattle.std.specs.Prelude.{◌≡◌, ◌⊎◌, ◌≤◌, IfOk, Some};
ghost use Rattle.std.specs.FinMap as map;
ghost use Rattle.nb_base.specs.Sound.{CanCorrelate, HaveDistinctNames, IsSoundSaga};
ghost use Rattle.nb_base.specs.declared.saga_key.SagaKey.{SagaKey};
ghost use Rattle.nb_base.specs.declared.saga_row.SagaRow.{SagaRow};
ghost use Rattle.nb_hub.specs.Starting.{IsLeastMisfit, IsUpTo};
ghost use Rattle.nb_saga_store.specs.Spelled.{spelled_place};

use nb_base::{BySaga, Bytes, Handling, NoMemory, SagaKey, SagaRow};
use nb_saga_store::saga_cell;
use std::alloc::Global;

/// The lesser of the keys, by their bytes.
fn lesser(least: Option<Bytes>, key: Bytes) -> Bytes
    ensures one { (result ≡ key) ⊎ (least ≡ Some result) }
    ensures key { IsUpTo result key }
    ensures least { (l : _) → least ≡ Some l → IsUpTo result l }
{
    match least {
        Some(least) => { if key < least { key } else { least } }
        None => key,
    }
}

/// The key of a saga's cell.
fn key_of(alloc: Global, place: &SagaKey, row: &SagaRow) -> Result<Bytes, NoMemory>
    requires corr { row.now.corr ≡ place.now.corr }
    requires kind { CanCorrelate row.now.corr }
    requires revision { 1 ≤ row.now.revision }
    requires names { HaveDistinctNames row.now.fields }
    ensures { IfOk result (λ key. key ≡ spelled_place place.now) }
{
    let cell = saga_cell(alloc, &place.saga, row)?;
    Ok(cell.key)
}

/// The key of the cell of a saga that doesn't fit the script: the least, by its bytes.
pub fn least_misfit<M: Handling>(
    alloc: Global,
    handlers: &M,
    sagas: &BySaga<SagaRow>,
) -> Result<Option<Bytes>, NoMemory>
    requires { (commits : _) × ((place : SagaKey) (row : SagaRow) → map.get sagas.now place ≡ Some row → IsSoundSaga commits place row) }
    ensures { IfOk result (IsLeastMisfit (M.meaning handlers.now) (map.entries sagas.now)) }
{
    let mut least: Option<Bytes> = None;
    for (place, row) in sagas.iter() {
        if !handlers.fits(&place.saga, row) {
            let key = key_of(alloc, place, row)?;
            least = Some(lesser(least, key));
        }
    }
    Ok(least)
}
