//! The settings file of an endpoint, read from TOML: the settings, or the first bad key.
#![tactic(auto)]

mod file;
mod group;
mod laws;
mod missing;
mod names;
mod numbers;
mod policies;
mod queues;
mod refusal;
mod retries;
mod routes;
mod subscribers;
mod unknown;

pub use file::read_settings;
pub use laws::law_least;
pub use missing::missing_route;
pub use refusal::{SettingsFault, SettingsKind, SettingsRefusal};
