//! The groups of keys that settings know.
ghost use Rattle.std.specs.Prelude.{◌≡◌};
ghost use Rattle.nb_settings.specs.Unknown.{knows, prefix_of};

/// A group of known keys.
#[derive(Clone, Copy, Debug, PartialEq, Eq)]
pub(crate) enum Group {
    Top,
    Recoverability,
    Outbox,
}

impl Group {
    /// Whether the key means something there.
    pub fn knows(self, key: &str) -> bool
        ensures { result ≡ knows self key.now }
    {
        match self {
            Group::Top => {
                key == "endpoint"
                    || key == "error"
                    || key == "recoverability"
                    || key == "outbox"
                    || key == "routes"
                    || key == "subscribers"
                    || key == "policies"
            }
            Group::Recoverability => { key == "immediate" || key == "delayed" || key == "increase" }
            Group::Outbox => key == "retention",
        }
    }

    /// What stands before a key of the group where the key is written whole.
    pub fn prefix(self) -> &'static str
        ensures { result.now ≡ prefix_of self }
    {
        match self {
            Group::Top => "",
            Group::Recoverability => "recoverability.",
            Group::Outbox => "outbox.",
        }
    }
}
