//! What of a report a stop in the middle may not change.

use nb_base::NoMemory;
use std::alloc::Global;

/// Adds the words of a line but for the one at this place, counted from 0.
fn push_but(out: &mut String, line: &str, place: usize) -> Result<(), NoMemory> {
    let mut at = 0usize;
    for word in line.split(' ') {
        if at != place {
            out.push_str(word)?;
            out.push(' ')?;
        }
        at = at.saturating_add(1);
    }
    Ok(())
}

/// A line without what a stop may change: of a record the moment, of an entry its number. A line that tells the moment or the
/// next number is left out.
fn settled_line(alloc: Global, line: &str) -> Result<String, NoMemory> {
    let mut out = String::new(alloc);
    if line.starts_with("moment ") || line.starts_with("next ") {
        return Ok(out);
    }
    let place = if line.starts_with("outbox ") {
        3
    } else if line.starts_with("queue ") {
        2
    } else {
        usize::MAX
    };
    push_but(&mut out, line, place)?;
    Ok(out)
}

/// The lines of a report without what a stop may change, and with each line that repeats the one before it left out: a message
/// may be sent more than once, under one id.
pub fn settled(alloc: Global, report: &str) -> Result<String, NoMemory> {
    let mut out = String::new(alloc);
    let mut before = String::new(alloc);
    for line in report.lines() {
        let line = settled_line(alloc, line)?;
        if !line.is_empty() && line != before {
            out.push_str(line.as_str())?;
            out.push('\n')?;
        }
        before = line;
    }
    Ok(out)
}
