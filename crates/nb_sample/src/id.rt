//! The ids of the sample's messages.
ghost use Rattle.std.specs.Prelude.{◌≡◌, length, IfOk};
ghost use Rattle.nb_sample.specs.Ids.{sample_id};

use nb_base::{NoMemory, Text};
use std::alloc::Global;
use uuid::Uuid;

/// The id of the message with this number.
pub(crate) fn sample_id(alloc: Global, seed: u64, i: u64) -> Result<Text, NoMemory>
    ensures value { IfOk result (λ t. t ≡ sample_id seed i) }
    ensures long { IfOk result (λ t. length t ≡ 36) }
{
    let name = format!(in alloc; "{seed}/{i}")?;
    let id = Uuid::new_v5(&Uuid::NAMESPACE_URL, name.as_bytes());
    let mut buffer = Uuid::encode_buffer();
    Text::new(alloc, id.hyphenated().encode_lower(&mut buffer))
}
