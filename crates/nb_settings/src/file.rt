//! The bytes of a settings file.
ghost use Rattle.std.specs.Prelude.{◌≡◌, MatchOption, IfOk, None, Some};
ghost use Rattle.toml.specs.Data.{table as table_data};
ghost use Rattle.toml.specs.View.{view};
ghost use Rattle.nb_settings.specs.Faults.{unknown_faults};
ghost use Rattle.nb_settings.specs.Faults as in_table;
ghost use Rattle.nb_settings.specs.Files.{faults_of, root_of, toml_of, Reads, ReadsSettings};
ghost use Rattle.nb_settings.specs.Missing.{AreRouted, faults_for};
ghost use Rattle.nb_settings.specs.Unknown.{least, others_of};
ghost use Rattle.nb_script.specs.Tree.{script};
ghost use Rattle.nb_check.specs.Sends.{sends};

use crate::missing::first_unrouted;
use crate::names::{endpoint_in, error_in};
use crate::numbers::{retention_in, retries_in};
use crate::policies::policies_in;
use crate::refusal::{SettingsFault, SettingsKind, SettingsRefusal, fault, fault_under};
use crate::routes::routes_in;
use crate::subscribers::subscribers_in;
use crate::unknown::unknown_in;
use nb_base::{NoMemory, Settings};
use nb_check::Checked;
use std::alloc::Global;
use toml::Value;

/// The most bytes that a file has.
const MOST_BYTES: usize = 1048576;

/// The table that the bytes are.
fn table_of(alloc: Global, bytes: &[u8]) -> Result<Option<Value>, NoMemory>
    ensures { IfOk result (λ o. MatchOption o (toml_of bytes.now ≡ None)
        (λ v. (ms : _) × (toml_of bytes.now ≡ Some ms) × (view v ≡ table_data ms))) }
{
    match toml::table_from_slice(alloc, bytes) {
        Ok(table) => Ok(Some(Value::Table(table))),
        Err(e) if e.is_memory() => Err(NoMemory),
        Err(_) => Ok(None),
    }
}

/// Refuses a key that means nothing.
fn refuse_unknown(alloc: Global, root: &Value) -> Result<(), SettingsRefusal>
    ensures { Reads result (unknown_faults (least (others_of (view root.now)))) tt }
{
    match unknown_in(alloc, root)? {
        None => Ok(()),
        Some(key) => Err(SettingsRefusal::Fault(SettingsFault {
            key,
            kind: SettingsKind::Unknown,
        })),
    }
}

/// The settings of a table.
fn settings_at(alloc: Global, root: &Value) -> Result<Settings, SettingsRefusal>
    ensures { ReadsSettings result (in_table.faults_of (view root.now)) (view root.now) }
{
    let endpoint = endpoint_in(alloc, root)?;
    let error = error_in(alloc, &endpoint, root)?;
    let retries = retries_in(alloc, root)?;
    let retention = retention_in(alloc, root)?;
    let routes = routes_in(alloc, root)?;
    let subscribers = subscribers_in(alloc, root)?;
    let policies = policies_in(alloc, root)?;
    refuse_unknown(alloc, root)?;
    Ok(Settings {
        endpoint,
        error,
        immediate: retries.immediate,
        delayed: retries.delayed,
        increase: retries.increase,
        retention,
        routes,
        subscribers,
        policies,
    })
}

/// The settings of a file, or the first bad key, whatever the script sends.
fn settings_in(alloc: Global, bytes: &[u8]) -> Result<Settings, SettingsRefusal>
    ensures { ReadsSettings result (faults_of bytes.now) (root_of bytes.now) }
{
    if bytes.len() > MOST_BYTES {
        return Err(fault(alloc, "", SettingsKind::NotToml));
    }
    match table_of(alloc, bytes)? {
        Some(root) => settings_at(alloc, &root),
        None => Err(fault(alloc, "", SettingsKind::NotToml)),
    }
}

/// The settings that the bytes of a file say for a script, or the first bad key.
pub fn read_settings(
    alloc: Global,
    bytes: &[u8],
    checked: &Checked,
) -> Result<Settings, SettingsRefusal>
    ensures reads { ReadsSettings result (faults_for bytes.now (sends (script checked.now)))
        (root_of bytes.now) }
    ensures routed { IfOk result (λ settings. AreRouted settings.routes
        (sends (script checked.now))) }
{
    let settings = settings_in(alloc, bytes)?;
    match first_unrouted(&settings, checked.sends()) {
        Some(name) => Err(fault_under(alloc, "routes.", name.as_str(), SettingsKind::NoRoute)),
        None => Ok(settings),
    }
}
