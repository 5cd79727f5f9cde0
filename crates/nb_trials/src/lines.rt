//! Input lines, from a shorter way to write them.

use nb_base::NoMemory;
use std::alloc::Global;

/// A text within a JSON text.
fn escaped(alloc: Global, text: &str) -> Result<String, NoMemory> {
    let mut out = String::new(alloc);
    for c in text.chars() {
        if c == '"' || c == '\\' {
            out.push('\\')?;
        }
        out.push(c)?;
    }
    Ok(out)
}

/// The input line of a message that is written as its type, its id and its body, parted by blanks. Any other text stands for
/// itself.
fn line(alloc: Global, message: &str) -> Result<String, NoMemory> {
    let Some((name, rest)) = message.split_once(' ') else {
        return Ok(String::from_str(alloc, message)?);
    };
    let Some((id, body)) = rest.split_once(' ') else {
        return Ok(String::from_str(alloc, message)?);
    };
    let body = escaped(alloc, body)?;
    let body = body.as_str();
    Ok(format!(in alloc;
        "{{\"headers\":{{\"NServiceBus.EnclosedMessageTypes\":\"{name}\",\"NServiceBus.MessageId\":\"{id}\"}},\"body\":\"{body}\"}}"
    )?)
}

/// The input lines of messages, one a line.
pub fn messages(alloc: Global, text: &str) -> Result<String, NoMemory> {
    let mut out = String::new(alloc);
    for message in text.lines() {
        let line = line(alloc, message)?;
        out.push_str(line.as_str())?;
        out.push('\n')?;
    }
    Ok(out)
}
