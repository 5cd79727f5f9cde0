//! The ids of what a commit makes.
ghost use Rattle.std.specs.Prelude.{◌≡◌, IfOk};
ghost use Rattle.nb_dispatch.specs.Dispatches.{made_id, saga_id_after, sender};

use nb_base::{Copied, FromSaga, NoMemory, SagaRef, Text};
use nb_headers::SagaName;
use std::alloc::Global;

/// The endpoint, the number of the commit and an index, parted by slashes.
pub fn made_id(alloc: Global, endpoint: &str, n: u64, index: u64) -> Result<Text, NoMemory>
    ensures { IfOk result (λ t. t ≡ made_id endpoint.now n index) }
{
    let id = format!(in alloc; "{endpoint}/{n}/{index}")?;
    Text::of_string(id)
}

/// The id of a saga, after the commit with this number.
pub fn saga_id(alloc: Global, endpoint: &str, n: u64, which: &SagaRef) -> Result<Text, NoMemory>
    ensures { IfOk result (λ t. t ≡ saga_id_after endpoint.now n which.now) }
{
    match which {
        SagaRef::New(block) => made_id(alloc, endpoint, n, u64::from(*block)),
        SagaRef::Stored(id) => id.copy(),
    }
}

/// The saga that sends a message.
pub fn sender(
    alloc: Global,
    endpoint: &str,
    n: u64,
    from: &Option<FromSaga>,
) -> Result<Option<SagaName>, NoMemory>
    ensures { IfOk result (λ s. s ≡ sender endpoint.now n from.now) }
{
    match from {
        Some(from) => {
            let saga = from.saga.copy()?;
            let id = saga_id(alloc, endpoint, n, &from.which)?;
            Ok(Some(SagaName { saga, id }))
        }
        None => Ok(None),
    }
}
