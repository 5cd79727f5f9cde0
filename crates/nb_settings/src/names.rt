//! The keys `endpoint` and `error`.
ghost use Rattle.std.specs.Prelude.{◌≡◌, [], bytes_eq, true, false, IfOk, codes};
ghost use Rattle.toml.specs.Data.{get};
ghost use Rattle.toml.specs.View.{view};
ghost use Rattle.nb_base.specs.SettingsRules.{is_endpoint, is_queue};
ghost use Rattle.nb_settings.specs.Faults.{endpoint_faults_at, error_faults_at, own_faults};
ghost use Rattle.nb_settings.specs.Files.{Reads};
ghost use Rattle.nb_settings.specs.Values.{endpoint_at, error_at};

use crate::queues::{is_endpoint, is_queue};
use crate::refusal::{SettingsKind, SettingsRefusal, fault};
use nb_base::Text;
use std::alloc::Global;
use toml::Value;

/// The endpoint's name.
pub(crate) fn endpoint_in(alloc: Global, root: &Value) -> Result<Text, SettingsRefusal>
    ensures reads { Reads result (endpoint_faults_at (view root.now))
        (endpoint_at (view root.now)) }
    ensures range { IfOk result (λ t. is_endpoint t ≡ true) }
{
    match root.get("endpoint") {
        None => Err(fault(alloc, "endpoint", SettingsKind::Missing)),
        Some(Value::String(text)) => {
            if is_endpoint(text.as_str()) {
                Ok(Text::new(alloc, text.as_str())?)
            } else {
                Err(fault(alloc, "endpoint", SettingsKind::OutOfRange))
            }
        }
        Some(_) => Err(fault(alloc, "endpoint", SettingsKind::WrongKind)),
    }
}

/// The queue, unless it is the endpoint's own.
fn other_queue(alloc: Global, endpoint: &Text, queue: &str) -> Result<Text, SettingsRefusal>
    ensures reads { Reads result (own_faults endpoint.now queue.now) queue.now }
    ensures differs { IfOk result (λ t. bytes_eq t endpoint.now ≡ false) }
{
    if queue == endpoint.as_str() {
        return Err(fault(alloc, "error", SettingsKind::SameQueue));
    }
    Ok(Text::new(alloc, queue)?)
}

/// The error queue.
pub(crate) fn error_in(
    alloc: Global,
    endpoint: &Text,
    root: &Value,
) -> Result<Text, SettingsRefusal>
    ensures reads { Reads result (error_faults_at endpoint.now (view root.now))
        (error_at (view root.now)) }
    ensures range { IfOk result (λ t. is_queue t ≡ true) }
    ensures differs { IfOk result (λ t. bytes_eq t endpoint.now ≡ false) }
{
    match root.get("error") {
        None => other_queue(alloc, endpoint, "error"),
        Some(Value::String(text)) => {
            if is_queue(text.as_str()) {
                other_queue(alloc, endpoint, text.as_str())
            } else {
                Err(fault(alloc, "error", SettingsKind::OutOfRange))
            }
        }
        Some(_) => Err(fault(alloc, "error", SettingsKind::WrongKind)),
    }
}
