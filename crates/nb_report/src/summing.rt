//! The summary of a sample's run.
ghost use Rattle.std.specs.Prelude.{◌≡◌, ◌++◌, ◌∷◌, [], string_bytes, length, IfOk};
ghost use Rattle.std.specs.FinMap as map;
ghost use Rattle.nb_core.specs.Past.{taken, takes};
ghost use Rattle.nb_report.specs.Summary.{sum_of, number_in, head_lines, table_lines, post_lines, summary};

use nb_base::{ByName, ByNumber, BySaga, NoMemory, PostState, Queued, Row, SagaRow, Tables, Text};
use nb_core::{Event, Events, History, State};
use std::alloc::Global;

/// How many Takes there are since the last Stop, with one more event.
fn taken(takes: u64, event: &Event) -> Result<u64, NoMemory>
    ensures { IfOk result (λ n. n ≡ taken takes (event.now ∷ [])) }
{
    match event {
        Event::Take { .. } => takes.checked_add(1).ok_or(NoMemory),
        Event::Stop { .. } => Ok(0),
        _ => Ok(takes),
    }
}

/// How many Takes there are since the last Stop.
#[tactic(auto, using(crate::proofs::TakenLaws::taken_next))]
fn takes(events: &Events) -> Result<u64, NoMemory>
    ensures { IfOk result (λ n. n ≡ takes events.now) }
{
    let mut takes = 0u64;
    for event in events.as_slice() {
        takes = taken(takes, event)?;
    }
    Ok(takes)
}

/// The values of the rows together.
fn sum_of(rows: &ByName<Row>) -> Result<i64, NoMemory>
    ensures { IfOk result (λ sum. sum ≡ sum_of (map.entries rows.now)) }
{
    let mut sum = 0i64;
    for (_, row) in rows.iter() {
        sum = sum.checked_add(row.value).ok_or(NoMemory)?;
    }
    Ok(sum)
}

/// How many entries are in a queue.
fn number_in(queue: &Text, entries: &ByNumber<Queued>) -> Result<u64, NoMemory>
    ensures { IfOk result (λ n. n ≡ number_in queue.now (map.entries entries.now)) }
{
    let mut number = 0u64;
    for (_, entry) in entries.iter() {
        if entry.queue == *queue {
            number = number.checked_add(1).ok_or(NoMemory)?;
        }
    }
    Ok(number)
}

/// How many sagas there are.
fn number_of_sagas(sagas: &BySaga<SagaRow>) -> Result<u64, NoMemory>
    ensures { IfOk result (λ n. n ≡ length (map.entries sagas.now)) }
{
    let mut number = 0u64;
    for _ in sagas.iter() {
        number = number.checked_add(1).ok_or(NoMemory)?;
    }
    Ok(number)
}

/// How many rows there are.
fn number_of_rows(rows: &ByName<Row>) -> Result<u64, NoMemory>
    ensures { IfOk result (λ n. n ≡ length (map.entries rows.now)) }
{
    let mut number = 0u64;
    for _ in rows.iter() {
        number = number.checked_add(1).ok_or(NoMemory)?;
    }
    Ok(number)
}

/// The lines on the tables.
fn table_lines(alloc: Global, tables: &Tables) -> Result<String, NoMemory>
    ensures { IfOk result (λ s. string_bytes s ≡ table_lines tables.now) }
{
    let commits = tables.commits;
    let sagas = number_of_sagas(&tables.sagas)?;
    let rows = number_of_rows(&tables.rows)?;
    let sum = sum_of(&tables.rows)?;
    Ok(format!(in alloc; "commits {commits}\nsagas {sagas}\nrows {rows}\nsum {sum}\n")?)
}

/// The lines on the queues.
fn post_lines(alloc: Global, error: &Text, post: &PostState) -> Result<String, NoMemory>
    ensures { IfOk result (λ s. string_bytes s ≡ post_lines error.now post.now) }
{
    let failed = number_in(error, &post.entries)?;
    let next = post.next;
    Ok(format!(in alloc; "error {failed}\nnext {next}\n")?)
}

/// The lines on the seed, the number of lines and the Takes.
fn head_lines(alloc: Global, seed: u64, count: u64, takes: u64) -> Result<String, NoMemory>
    ensures { IfOk result (λ s. string_bytes s ≡ head_lines seed count takes) }
{
    Ok(format!(in alloc; "sample {seed} {count}\ntakes {takes}\n")?)
}

/// The summary of a sample, whose error queue is `error`.
#[tactic(auto, unfolding(crate::specs::Summary::summary))]
pub fn summary(
    alloc: Global,
    seed: u64,
    count: u64,
    error: &Text,
    history: &History,
    state: &State,
) -> Result<Text, NoMemory>
    ensures { IfOk result (λ text. text ≡ summary seed count error.now history.now.events state.now) }
{
    let takes = takes(&history.events)?;
    let mut out = head_lines(alloc, seed, count, takes)?;
    let tables = table_lines(alloc, &state.tables)?;
    out.push_str(tables.as_str())?;
    let post = post_lines(alloc, error, &state.post)?;
    out.push_str(post.as_str())?;
    Text::of_string(out)
}
