//! The keys of the table `subscribers`.
ghost use Rattle.std.specs.Prelude.{◌≡◌, ◌++◌, true, IfOk, Some, codes};
ghost use Rattle.toml.specs.Data.{as_array, get};
ghost use Rattle.toml.specs.View.{items_view, table_view, view};
ghost use Rattle.nb_base.specs.SettingsRules.{are_subscribers};
ghost use Rattle.nb_settings.specs.Faults.{array_faults, item_faults, kind_faults, subscriber_faults, subscriber_faults_at};
ghost use Rattle.nb_settings.specs.Files.{Reads};
ghost use Rattle.nb_settings.specs.Values.{queues_of, subscribers_at, subscribers_of, texts_of};

use crate::queues::{are_all_queues, differ};
use crate::refusal::{SettingsKind, SettingsRefusal, fault, fault_under};
use nb_base::{Items, Names, Subscriber, Subscribers, Text};
use std::alloc::Global;
use toml::{Table, Value};

/// The texts of an array.
fn texts_in(alloc: Global, name: &str, items: &[Value]) -> Result<Names, SettingsRefusal>
    ensures { Reads result (kind_faults (codes "subscribers." ++ name.now) (items_view items.now))
        (texts_of (items_view items.now)) }
{
    let mut texts = Items::new(alloc);
    for item in items {
        let Some(text) = item.as_str() else {
            return Err(fault_under(alloc, "subscribers.", name, SettingsKind::WrongKind));
        };
        texts.push(Text::new(alloc, text)?)?;
    }
    Ok(texts)
}

/// The queues of an array.
fn queues_within(alloc: Global, name: &str, items: &[Value]) -> Result<Names, SettingsRefusal>
    ensures { Reads result (item_faults (codes "subscribers." ++ name.now) (items_view items.now))
        (texts_of (items_view items.now)) }
{
    let queues = texts_in(alloc, name, items)?;
    if queues.len() > 16 || !are_all_queues(queues.as_slice()) {
        return Err(fault_under(alloc, "subscribers.", name, SettingsKind::OutOfRange));
    }
    if !differ(queues.as_slice()) {
        return Err(fault_under(alloc, "subscribers.", name, SettingsKind::Repeated));
    }
    Ok(queues)
}

/// The queues that get a copy of a message.
fn queues_in(alloc: Global, name: &str, value: &Value) -> Result<Names, SettingsRefusal>
    ensures { Reads result
        (array_faults (codes "subscribers." ++ name.now) (as_array (view value.now)))
        (queues_of (view value.now)) }
{
    match value {
        Value::Array(items) => queues_within(alloc, name, items.as_slice()),
        _ => Err(fault_under(alloc, "subscribers.", name, SettingsKind::WrongKind)),
    }
}

/// The subscribers of a table, in the order of its keys.
fn subscribers_within(alloc: Global, table: &Table) -> Result<Subscribers, SettingsRefusal>
    ensures reads { Reads result (subscriber_faults (table_view table.now))
        (subscribers_of (table_view table.now)) }
    ensures sound { IfOk result (λ subscribers. are_subscribers subscribers ≡ true) }
{
    let mut subscribers = Items::new(alloc);
    for (name, value) in table.iter() {
        let queues = queues_in(alloc, name.as_str(), value)?;
        let name = Text::new(alloc, name.as_str())?;
        subscribers.push(Subscriber { name, queues })?;
    }
    Ok(subscribers)
}

/// The subscribers, if any are given.
pub(crate) fn subscribers_in(alloc: Global, root: &Value) -> Result<Subscribers, SettingsRefusal>
    ensures reads { Reads result (subscriber_faults_at (view root.now))
        (subscribers_at (view root.now)) }
    ensures sound { IfOk result (λ subscribers. are_subscribers subscribers ≡ true) }
{
    match root.get("subscribers") {
        None => Ok(Items::new(alloc)),
        Some(Value::Table(table)) => subscribers_within(alloc, table),
        Some(_) => Err(fault(alloc, "subscribers", SettingsKind::WrongKind)),
    }
}
