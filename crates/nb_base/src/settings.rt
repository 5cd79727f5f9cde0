//! The settings of an endpoint.
ghost use Rattle.std.specs.Prelude.{IsTrue};
ghost use Rattle.nb_base.specs.SettingsRules.{are_settings};

use crate::items::Copied;
use crate::no_memory::NoMemory;
use crate::route::{Policies, Routes, Subscribers};
use crate::text::Text;

/// The settings of an endpoint, within their ranges.
#[derive(Debug, Drop)]
pub struct Settings {
    /// The endpoint's name, which is its own queue's name: 1 to 100 letters, digits, `.`, `-` and `_`.
    pub endpoint: Text,
    /// The error queue, which isn't the own queue: 1 to 200 bytes.
    pub error: Text,
    /// Immediate retries, 0 to 1000.
    pub immediate: u32,
    /// Delayed retries, 0 to 1000.
    pub delayed: u32,
    /// Seconds by which each delayed retry waits longer, 0 to 86,400.
    pub increase: u64,
    /// Seconds for which the record of a handled message is kept, 0 to 315,360,000.
    pub retention: u64,
    pub routes: Routes,
    pub subscribers: Subscribers,
    pub policies: Policies,
    ghost sound: { IsTrue (are_settings endpoint error immediate delayed increase retention
        routes subscribers policies) },
}

impl Copied for Settings {
    fn copy(&self) -> Result<Settings, NoMemory> {
        let endpoint = self.endpoint.copy()?;
        let error = self.error.copy()?;
        let routes = self.routes.copy()?;
        let subscribers = self.subscribers.copy()?;
        let policies = self.policies.copy()?;
        Ok(Settings {
            endpoint,
            error,
            immediate: self.immediate,
            delayed: self.delayed,
            increase: self.increase,
            retention: self.retention,
            routes,
            subscribers,
            policies,
        })
    }
}
