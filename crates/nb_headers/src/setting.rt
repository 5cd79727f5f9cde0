//! One header set from borrowed text.
ghost use Rattle.std.specs.Prelude.{◌≡◌, ◌≢◌, OnOk};
ghost use Rattle.nb_base.specs.Messages.{with_header, id_name};

use nb_base::{Envelope, NoMemory, Text};
use std::alloc::Global;

/// Sets a header in its place, or adds it at the end. It isn't the one that names the message.
pub(crate) fn set(
    alloc: Global,
    envelope: &mut Envelope,
    name: &str,
    text: &str,
) -> Result<(), NoMemory>
    requires { name.now ≢ id_name }
    ensures { OnOk result (envelope.new
        ≡ record envelope.old {
          headers = with_header envelope.old.headers name.now text.now;
        }) }
{
    let text = Text::new(alloc, text)?;
    envelope.set_header(alloc, name, text)
}
