//! The keys of the table `routes`.
ghost use Rattle.std.specs.Prelude.{◌≡◌, ◌++◌, [], true, IfOk, Some, codes};
ghost use Rattle.toml.specs.Data.{as_str, get};
ghost use Rattle.toml.specs.View.{table_view, view};
ghost use Rattle.nb_base.specs.SettingsRules.{are_routes, is_queue};
ghost use Rattle.nb_settings.specs.Faults.{route_faults, route_faults_at, text_faults};
ghost use Rattle.nb_settings.specs.Files.{Reads};
ghost use Rattle.nb_settings.specs.Values.{routes_at, routes_of, text_or};

use crate::queues::is_queue;
use crate::refusal::{SettingsKind, SettingsRefusal, fault, fault_under};
use nb_base::{Items, Route, Routes, Text};
use std::alloc::Global;
use toml::{Table, Value};

/// The queue of a message.
fn queue_in(alloc: Global, name: &str, value: &Value) -> Result<Text, SettingsRefusal>
    ensures { Reads result
        (text_faults (codes "routes." ++ name.now) is_queue (as_str (view value.now)))
        (text_or [] (Some (view value.now))) }
{
    match value {
        Value::String(text) => {
            if is_queue(text.as_str()) {
                Ok(Text::new(alloc, text.as_str())?)
            } else {
                Err(fault_under(alloc, "routes.", name, SettingsKind::OutOfRange))
            }
        }
        _ => Err(fault_under(alloc, "routes.", name, SettingsKind::WrongKind)),
    }
}

/// The routes of a table, in the order of its keys.
fn routes_within(alloc: Global, table: &Table) -> Result<Routes, SettingsRefusal>
    ensures reads { Reads result (route_faults (table_view table.now))
        (routes_of (table_view table.now)) }
    ensures sound { IfOk result (λ routes. are_routes routes ≡ true) }
{
    let mut routes = Items::new(alloc);
    for (name, value) in table.iter() {
        let queue = queue_in(alloc, name.as_str(), value)?;
        let name = Text::new(alloc, name.as_str())?;
        routes.push(Route { name, queue })?;
    }
    Ok(routes)
}

/// The routes, if any are given.
pub(crate) fn routes_in(alloc: Global, root: &Value) -> Result<Routes, SettingsRefusal>
    ensures reads { Reads result (route_faults_at (view root.now)) (routes_at (view root.now)) }
    ensures sound { IfOk result (λ routes. are_routes routes ≡ true) }
{
    match root.get("routes") {
        None => Ok(Items::new(alloc)),
        Some(Value::Table(table)) => routes_within(alloc, table),
        Some(_) => Err(fault(alloc, "routes", SettingsKind::WrongKind)),
    }
}
