//! What stands under a name or a key.
ghost use Rattle.std.specs.Prelude.{◌≡◌, option_copied, option_and_then};
ghost use Rattle.nb_base.specs.declared.saga_row.Seen.TheVariants.{Absent};
ghost use Rattle.nb_check.specs.Keys.{value_in};
ghost use Rattle.nb_eval.specs.Worlds.{seen_in, saga_there, number_there, touched_at, row_now, world_of, saga_value};

use crate::scene::{Instance, Scene, State, Touched};
use nb_base::{Field, Key, Read, SagaRow, Seen, Text, Value};

/// The value of the first field of this name.
pub(crate) fn value_in<'a>(name: &Text, fields: &'a [Field]) -> Option<&'a Value>
    ensures { option_copied result ≡ value_in name.now fields.now }
{
    for f in fields {
        if f.name == *name {
            return Some(&f.value);
        }
    }
    None
}

/// The value of a field of the saga, which may be the correlation property.
pub(crate) fn saga_value<'a>(name: &Text, saga: &'a Option<Instance>) -> Option<&'a Value>
    ensures { option_copied result ≡ saga_value name.now saga.now }
{
    match saga {
        None => None,
        Some(i) => {
            if i.property == *name {
                return Some(&i.corr);
            }
            value_in(name, i.fields.as_slice())
        }
    }
}

/// The number of the row of this name, where it was read as there.
pub(crate) fn number_read(name: &Text, reads: &[Read]) -> Option<i64>
    ensures { result ≡ number_there (seen_in reads.now (Key.Row name.now)) }
{
    for r in reads {
        match &r.key {
            Key::Row { name: other } if *other == *name => {
                return match &r.seen {
                    Seen::Row { value, .. } => Some(*value),
                    _ => None,
                };
            }
            _ => {}
        }
    }
    None
}

/// What the row was set to, where a statement touched it.
fn touched_at(name: &Text, rows: &[Touched]) -> Option<Option<i64>>
    ensures { result ≡ touched_at name.now rows.now }
{
    for t in rows {
        if t.name == *name {
            return Some(t.value);
        }
    }
    None
}

impl Scene {
    /// The number of a row as the statements so far left it.
    pub(crate) fn row_now(&self, name: &Text, state: &State) -> Option<i64>
        ensures { result ≡ row_now name.now (world_of self.now) state.now }
    {
        match touched_at(name, state.touched.as_slice()) {
            Some(value) => value,
            None => number_read(name, self.reads.as_slice()),
        }
    }
}
