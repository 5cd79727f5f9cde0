//! The values and the traits of the outside that every crate above speaks of.
#![tactic(auto)]

mod by_name;
mod by_number;
mod by_saga;
mod bytes;
mod clock;
mod entry;
mod envelope;
mod failed;
mod gate;
mod handling;
mod headers;
mod hold_gate;
mod host;
mod items;
mod mem_sink;
mod mem_source;
mod moment;
mod no_memory;
mod plan;
mod route;
mod saga_key;
mod saga_row;
mod settings;
mod sink;
mod source;
mod tables;
mod text;
mod value;

pub use by_name::ByName;
pub use by_number::ByNumber;
pub use by_saga::BySaga;
pub use bytes::Bytes;
pub use clock::{Clock, FixedClock};
pub use entry::{Count, Counts, Entries, Entry, Op, Ops, OutboxRow, Waiting, Which};
pub use envelope::{Envelope, Envelopes, MESSAGE_ID};
pub use failed::Failed;
pub use gate::{Gate, OpenGate, Point};
pub use handling::Handling;
pub use headers::Headers;
pub use hold_gate::HoldGate;
pub use host::{HostClock, ReadSource, WriteSink};
pub use items::{Copied, Items};
pub use mem_sink::MemSink;
pub use mem_source::MemSource;
pub use moment::{LAST, Moment};
pub use no_memory::NoMemory;
pub use plan::{
    Fault, FaultKind, FromSaga, Intent, Intents, Outcome, Plan, SagaRef, Target, Verdict, Write,
    Writes,
};
pub use route::{Action, Policies, Policy, Route, Routes, Subscriber, Subscribers};
pub use saga_key::SagaKey;
pub use saga_row::{Read, Reads, SagaRow, Seen};
pub use settings::Settings;
pub use sink::{Sink, WriteStop, write_all};
pub use source::{ReadStop, Source, read_all};
pub use tables::{Discard, Discards, PostState, Queued, Row, Tables};
pub use text::Text;
pub use value::{Field, Fields, Key, Keys, Names, Numbers, Value};
