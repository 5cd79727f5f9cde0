//! The keys of the table `policies`.
ghost use Rattle.std.specs.Prelude.{◌≡◌, ◌++◌, true, is_some, unwrap_or, IfOk, Some, codes};
ghost use Rattle.std.specs.Option.{option_and_then};
ghost use Rattle.toml.specs.Data.{as_str, get};
ghost use Rattle.toml.specs.View.{table_view, view};
ghost use Rattle.nb_base.specs.SettingsRules.{are_policies};
ghost use Rattle.nb_base.specs.declared.route.Action.TheVariants as action;
ghost use Rattle.nb_settings.specs.Faults.{policy_faults, policy_faults_at, text_faults};
ghost use Rattle.nb_settings.specs.Files.{Reads};
ghost use Rattle.nb_settings.specs.Values.{action_of, policies_at, policies_of};

use crate::refusal::{SettingsKind, SettingsRefusal, fault, fault_under};
use nb_base::{Action, Items, Policies, Policy, Text};
use std::alloc::Global;
use toml::{Table, Value};

/// The action of this name.
fn action_named(text: &str) -> Option<Action>
    ensures { result ≡ action_of text.now }
{
    if text == "error" {
        Some(Action::Error)
    } else if text == "immediate" {
        Some(Action::Immediate)
    } else if text == "discard" {
        Some(Action::Discard)
    } else {
        None
    }
}

/// What is done with the faults of a name.
fn action_in(alloc: Global, name: &str, value: &Value) -> Result<Action, SettingsRefusal>
    ensures { Reads result
        (text_faults (codes "policies." ++ name.now) (λ text. is_some (action_of text))
        (as_str (view value.now)))
        (unwrap_or (option_and_then action_of (as_str (view value.now))) action.Error) }
{
    match value {
        Value::String(text) => match action_named(text.as_str()) {
            Some(action) => Ok(action),
            None => Err(fault_under(alloc, "policies.", name, SettingsKind::OutOfRange)),
        },
        _ => Err(fault_under(alloc, "policies.", name, SettingsKind::WrongKind)),
    }
}

/// The policies of a table, in the order of its keys.
fn policies_within(alloc: Global, table: &Table) -> Result<Policies, SettingsRefusal>
    ensures reads { Reads result (policy_faults (table_view table.now))
        (policies_of (table_view table.now)) }
    ensures sound { IfOk result (λ policies. are_policies policies ≡ true) }
{
    let mut policies = Items::new(alloc);
    for (name, value) in table.iter() {
        let action = action_in(alloc, name.as_str(), value)?;
        let name = Text::new(alloc, name.as_str())?;
        policies.push(Policy { name, action })?;
    }
    Ok(policies)
}

/// The policies, if any are given.
pub(crate) fn policies_in(alloc: Global, root: &Value) -> Result<Policies, SettingsRefusal>
    ensures reads { Reads result (policy_faults_at (view root.now)) (policies_at (view root.now)) }
    ensures sound { IfOk result (λ policies. are_policies policies ≡ true) }
{
    match root.get("policies") {
        None => Ok(Items::new(alloc)),
        Some(Value::Table(table)) => policies_within(alloc, table),
        Some(_) => Err(fault(alloc, "policies", SettingsKind::WrongKind)),
    }
}
