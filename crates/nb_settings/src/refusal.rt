//! Why bytes are no settings.
ghost use Rattle.std.specs.Prelude.{◌≡◌, ◌++◌, IfOk};
ghost use Rattle.nb_settings.specs.Faults.{bad};
ghost use Rattle.nb_settings.specs.Files.{IsFirst};

use nb_base::{Copied, NoMemory, Text};
use std::alloc::Global;
use thiserror::Error;

/// What is wrong with a key.
#[derive(Clone, Copy, Debug, PartialEq, Eq)]
pub enum SettingsKind {
    /// The bytes are no TOML, or more than 1,048,576. The key is empty.
    NotToml,
    /// The key has to be there.
    Missing,
    /// Another kind of value has to stand there, or a table.
    WrongKind,
    /// The value lies outside of its range.
    OutOfRange,
    /// The error queue is the endpoint's own.
    SameQueue,
    /// A subscriber stands there twice.
    Repeated,
    /// The key means nothing: the least of such keys, by bytes.
    Unknown,
    /// The script sends a message that has no route: the first one that it sends, in its text.
    NoRoute,
}

/// The first bad key, written whole, and what is wrong with it.
#[derive(Debug, Drop)]
pub struct SettingsFault {
    pub key: Text,
    pub kind: SettingsKind,
}

impl Copied for SettingsFault {
    fn copy(&self) -> Result<SettingsFault, NoMemory> {
        let key = self.key.copy()?;
        Ok(SettingsFault {
            key,
            kind: self.kind,
        })
    }
}

/// Why settings weren't read.
#[derive(Debug, Drop, Error)]
pub enum SettingsRefusal {
    #[error("a bad key")]
    Fault(SettingsFault),
    #[error("no memory")]
    NoMemory,
}

impl Copied for SettingsRefusal {
    fn copy(&self) -> Result<SettingsRefusal, NoMemory> {
        match self {
            SettingsRefusal::Fault(fault) => Ok(SettingsRefusal::Fault(fault.copy()?)),
            SettingsRefusal::NoMemory => Ok(SettingsRefusal::NoMemory),
        }
    }
}

impl From<NoMemory> for SettingsRefusal {
    ghost use Rattle.std.specs.Prelude.{◌≡◌};
    ghost use Rattle.nb_settings.specs.declared.refusal.SettingsRefusal.TheVariants.{NoMemory};

    ghost from_gives = { λ _ e. e ≡ NoMemory };

    fn from(_refused: NoMemory) -> SettingsRefusal {
        SettingsRefusal::NoMemory
    }
}

/// The refusal of a bad key.
pub(crate) fn fault(alloc: Global, key: &str, kind: SettingsKind) -> SettingsRefusal
    ensures { IsFirst (bad key.now kind) result }
{
    match Text::new(alloc, key) {
        Ok(key) => SettingsRefusal::Fault(SettingsFault { key, kind }),
        Err(NoMemory) => SettingsRefusal::NoMemory,
    }
}

/// The refusal of a bad key of a table.
pub(crate) fn fault_under(
    alloc: Global,
    prefix: &str,
    name: &str,
    kind: SettingsKind,
) -> SettingsRefusal
    ensures { IsFirst (bad (prefix.now ++ name.now) kind) result }
{
    match joined(alloc, prefix, name) {
        Ok(key) => SettingsRefusal::Fault(SettingsFault { key, kind }),
        Err(NoMemory) => SettingsRefusal::NoMemory,
    }
}

/// The two texts as one.
pub(crate) fn joined(alloc: Global, prefix: &str, name: &str) -> Result<Text, NoMemory>
    ensures { IfOk result (λ t. t ≡ prefix.now ++ name.now) }
{
    let mut key = String::from_str(alloc, prefix)?;
    key.push_str(name)?;
    Text::of_string(key)
}
