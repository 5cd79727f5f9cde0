//! What the words of the program say.

use nb_base::Moment;

/// What is to be done.
#[derive(Clone, Copy, Debug, PartialEq, Eq)]
pub enum Command {
    /// Loads the lines of the input, handles what is due, and prints the report.
    Run,
    /// Prints the report of what stands.
    Show,
    /// Puts failed messages back into their queues, and prints the report.
    Retry,
    /// Removes the records that are old enough, and prints the report.
    Purge,
    /// Runs the sample in memory, and prints its summary.
    Sample,
}

/// The command and its options.
#[derive(Clone, Copy, Debug, PartialEq, Eq)]
pub struct Words {
    pub command: Command,
    /// How many workers serve, 1 to 16.
    pub workers: u64,
    /// The moment of the run; without it the clock's.
    pub at: Option<Moment>,
    /// Seconds past that moment up to which delayed messages are handled, 0 to 31,536,000.
    pub horizon: u64,
    /// How often a message may be taken, 1 to 200,000.
    pub turns: u64,
    /// The seed of the sample, 0 to 1,000,000.
    pub seed: u64,
    /// How many lines the sample has, 1 to 20,000.
    pub count: u64,
}
