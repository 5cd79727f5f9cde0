//! The report of a state.
ghost use Rattle.std.specs.Prelude.{◌≡◌, string_bytes, IfOk};
ghost use Rattle.std.specs.List.{flat_map};
ghost use Rattle.nb_report.specs.Lines.{head, discarded_line};
ghost use Rattle.nb_report.specs.Reports.{report};

use crate::base::push_base;
use crate::post::push_post;
use nb_base::{Discard, Discards, Moment, NoMemory, Text};
use nb_core::State;
use nb_headers::moment_text;
use nb_recover::json_text;
use std::alloc::Global;

/// The lines on the moment, the number of commits and the next number.
fn head(alloc: Global, moment: Moment, commits: u64, next: u64) -> Result<String, NoMemory>
    ensures { IfOk result (λ s. string_bytes s ≡ head moment commits next) }
{
    let text = moment_text(alloc, moment)?;
    let text = text.as_str();
    Ok(format!(in alloc; "moment {text}\ncommits {commits}\nnext {next}\n")?)
}

/// The line of a message that was given up.
fn discarded_line(alloc: Global, discard: &Discard) -> Result<String, NoMemory>
    ensures { IfOk result (λ s. string_bytes s ≡ discarded_line discard.now) }
{
    let id = json_text(alloc, &discard.id)?;
    let name = json_text(alloc, &discard.name)?;
    Ok(format!(in alloc; "discarded {id} {name}\n")?)
}

/// The lines of the messages that were given up, in order.
fn discarded_lines(alloc: Global, discarded: &Discards) -> Result<String, NoMemory>
    ensures { IfOk result (λ s. string_bytes s ≡ flat_map discarded_line discarded.now) }
{
    let mut out = String::new(alloc);
    for discard in discarded.as_slice() {
        let line = discarded_line(alloc, discard)?;
        out.push_str(line.as_str())?;
    }
    Ok(out)
}

/// The report of a state.
#[tactic(auto, unfolding(crate::specs::Reports::report))]
pub fn report(alloc: Global, state: &State) -> Result<Text, NoMemory>
    ensures { IfOk result (λ text. text ≡ report state.now) }
{
    let mut out = head(alloc, state.moment, state.tables.commits, state.post.next)?;
    push_base(alloc, &mut out, &state.tables)?;
    push_post(alloc, &mut out, &state.post)?;
    let discarded = discarded_lines(alloc, &state.discarded)?;
    out.push_str(discarded.as_str())?;
    Text::of_string(out)
}
