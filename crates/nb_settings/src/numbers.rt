//! The keys whose values are numbers.
ghost use Rattle.std.specs.Prelude.{◌≡◌, ◌≤◌, IfOk, Some, option_map, codes};
ghost use Rattle.toml.specs.Data.{get};
ghost use Rattle.toml.specs.View.{view};
ghost use Rattle.nb_settings.specs.Faults.{number_faults, outbox_faults_at, retry_faults, retry_faults_at};
ghost use Rattle.nb_settings.specs.Files.{Reads};
ghost use Rattle.nb_settings.specs.Values.{AreInRange, number_or, retention_at, retries_at, retries_of};

use crate::refusal::{SettingsKind, SettingsRefusal, fault};
use crate::retries::Retries;
use std::alloc::Global;
use toml::Value;

/// A whole number from 0 to the most, or what stands for one that is absent.
fn number_in(
    alloc: Global,
    key: &str,
    value: Option<&Value>,
    most: u32,
    missing: u32,
) -> Result<u32, SettingsRefusal>
    requires { missing ≤ most }
    ensures reads { Reads result
        (number_faults key.now most (option_map (λ v. view v.now) value.entry))
        (number_or missing (option_map (λ v. view v.now) value.entry)) }
    ensures range { IfOk result (λ n. n ≤ most) }
{
    match value {
        None => Ok(missing),
        Some(Value::Integer(n)) => {
            if *n >= 0 && *n <= most as i64 {
                Ok(*n as u32)
            } else {
                Err(fault(alloc, key, SettingsKind::OutOfRange))
            }
        }
        Some(_) => Err(fault(alloc, key, SettingsKind::WrongKind)),
    }
}

/// The numbers of the table `recoverability`.
fn retries_within(alloc: Global, group: &Value) -> Result<Retries, SettingsRefusal>
    ensures reads { Reads result (retry_faults (view group.now))
        (retries_of (Some (view group.now))) }
    ensures range { IfOk result AreInRange }
{
    let immediate = group.get("immediate");
    let immediate = number_in(alloc, "recoverability.immediate", immediate, 1000, 5)?;
    let delayed = group.get("delayed");
    let delayed = number_in(alloc, "recoverability.delayed", delayed, 1000, 3)?;
    let increase = group.get("increase");
    let increase = number_in(alloc, "recoverability.increase", increase, 86400, 10)?;
    Ok(Retries {
        immediate,
        delayed,
        increase: increase as u64,
    })
}

/// The numbers of recoverability, as far as they are given.
pub(crate) fn retries_in(alloc: Global, root: &Value) -> Result<Retries, SettingsRefusal>
    ensures reads { Reads result (retry_faults_at (view root.now)) (retries_at (view root.now)) }
    ensures range { IfOk result AreInRange }
{
    match root.get("recoverability") {
        None => Ok(Retries {
            immediate: 5,
            delayed: 3,
            increase: 10,
        }),
        Some(group) => {
            if group.is_table() {
                retries_within(alloc, group)
            } else {
                Err(fault(alloc, "recoverability", SettingsKind::WrongKind))
            }
        }
    }
}

/// The seconds for which a record is kept.
pub(crate) fn retention_in(alloc: Global, root: &Value) -> Result<u64, SettingsRefusal>
    ensures reads { Reads result (outbox_faults_at (view root.now)) (retention_at (view root.now)) }
    ensures range { IfOk result (λ n. n ≤ 315360000) }
{
    match root.get("outbox") {
        None => Ok(604800),
        Some(group) => {
            if !group.is_table() {
                return Err(fault(alloc, "outbox", SettingsKind::WrongKind));
            }
            let retention = group.get("retention");
            let retention = number_in(alloc, "outbox.retention", retention, 315360000, 604800)?;
            Ok(retention as u64)
        }
    }
}
