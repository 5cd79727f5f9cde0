//! How often a failed message is tried again.

/// The numbers of recoverability.
#[derive(Clone, Copy, Debug, PartialEq, Eq)]
pub(crate) struct Retries {
    /// Immediate retries.
    pub immediate: u32,
    /// Delayed retries.
    pub delayed: u32,
    /// Seconds by which each delayed retry waits longer.
    pub increase: u64,
}
