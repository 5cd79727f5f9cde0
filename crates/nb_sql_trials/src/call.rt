//! One call of the program over two stores of any kind.

use nb_base::{Bytes, FixedClock, Items, MemSink, MemSource, Moment, NoMemory, Text};
use nb_cells::Cells;
use nb_endpoint::{Ended, run_alone};
use std::alloc::Global;

/// What a call comes to: the code of its status, what it printed, and its stores.
#[derive(Drop)]
pub struct Called<P, D> {
    pub code: u8,
    pub out: Text,
    pub post: P,
    pub base: D,
}

const SCRIPT: &str = r#"message Shop.PlaceOrder { orderId: text, amount: int }
message Charge { orderId: text, amount: int }
message OrderExpired { orderId: text }
message Credit { account: text, amount: int }
saga Order on orderId: text {
  fields { total: int }
  start Shop.PlaceOrder by orderId {
    set total = saga.total + msg.amount;
    send Charge { orderId: msg.orderId, amount: msg.amount };
    timeout 3600 OrderExpired { orderId: msg.orderId };
  }
  timeout OrderExpired { add row("expired") by 1; complete; }
}
handler Credit { add row(msg.account) by msg.amount; }
"#;

const SETTINGS: &str = r#"endpoint = "Sales"
[routes]
Charge = "Billing"
"#;

/// The most bytes that a call of a source or of the sink moves.
const PIECE: usize = 4096;

/// The words of a text, which are parted by blanks.
fn words_of(alloc: Global, text: &str) -> Result<Vec<Text>, NoMemory> {
    let mut words = Vec::new(alloc);
    for word in text.split(' ') {
        words.push(Text::new(alloc, word)?)?;
    }
    Ok(words)
}

/// A source of a text, without faults.
fn source(alloc: Global, text: &str) -> Result<MemSource, NoMemory> {
    let bytes = Bytes::new(alloc, text.as_bytes())?;
    Ok(MemSource::new(bytes, PIECE, Items::new(alloc)))
}

/// The text that a sink holds.
fn held(alloc: Global, sink: &MemSink) -> Result<Text, NoMemory> {
    match str::from_utf8(sink.held()) {
        Ok(text) => Text::new(alloc, text),
        Err(_) => Err(NoMemory),
    }
}

/// Calls the program with these words and this input over two stores.
pub fn call<P: Cells + Drop, D: Cells + Drop>(
    alloc: Global,
    words: &str,
    input: &str,
    post: P,
    base: D,
) -> Result<Called<P, D>, NoMemory> {
    let words = words_of(alloc, words)?;
    let mut script = source(alloc, SCRIPT)?;
    let mut settings = source(alloc, SETTINGS)?;
    let mut input = source(alloc, input)?;
    let mut out = MemSink::new(alloc, PIECE, 65536, Items::new(alloc))?;
    let mut clock = FixedClock(Moment::FIRST);
    let ended = run_alone(
        alloc,
        words.as_slice(),
        &mut script,
        &mut settings,
        &mut input,
        &mut out,
        post,
        base,
        &mut clock,
    );
    let Ended {
        status,
        post,
        base,
        history: _,
        printed: _,
    } = ended;
    let out = held(alloc, &out)?;
    Ok(Called {
        code: status.code(),
        out,
        post,
        base,
    })
}
