//! A message: its headers in order, and its body.
ghost use Rattle.std.specs.Prelude.{◌≡◌, ◌≢◌, ◌<◌, if◌then◌else◌, Some, None};
ghost use Rattle.std.specs.Prelude.{length, IfOk, OnOk, OnErr, option_copied, ◌∷◌, []};
ghost use Rattle.nb_base.specs.Messages.{header, with_header, without_header, id_name, has_id, IsMessage};

use crate::headers::Headers;
use crate::items::{Copied, Items};
use crate::no_memory::NoMemory;
use crate::text::Text;
use std::alloc::Global;
use std::marker::Model;

/// The name of the header that names a message.
pub const MESSAGE_ID: &str = "NServiceBus.MessageId";

/// A message: headers in order, each name once, of which one names the message, and a body.
#[derive(Drop)]
pub struct Envelope {
    headers: Headers,
    body: Text,
}

impl Model for Envelope {
    ghost use Rattle.nb_base.specs.Messages.{Message, IsMessage};

    ghost Value = { Message };

    ghost view = { λ e. record { headers = e.headers; body = e.body } };

    ghost invariant = { λ e. IsMessage (record { headers = e.headers; body = e.body }) };
}

impl Envelope {
    /// A message with an id and no other header.
    pub fn new(alloc: Global, id: &Text, body: Text) -> Result<Envelope, NoMemory>
        requires { 0 < length id.now }
        ensures { IfOk result (λ e. e ≡ record { headers = (id_name, id.now) ∷ []; body = body }) }
    {
        let text = id.copy()?;
        let mut headers = Headers::new(alloc);
        headers.set(alloc, MESSAGE_ID, text)?;
        Ok(Envelope { headers, body })
    }

    /// A message with these headers, where they have an id that isn't empty.
    pub fn of_headers(headers: Headers, body: Text) -> Option<Envelope>
        ensures { result ≡ (if has_id headers
            then Some (record { headers = headers; body = body })
            else None) }
    {
        let _count = headers.len();
        match headers.get(MESSAGE_ID) {
            Some(id) if !id.is_empty() => {}
            _ => return None,
        }
        Some(Envelope { headers, body })
    }

    /// The headers.
    pub fn headers(&self) -> &Headers
        ensures value { result.now ≡ self.now.headers }
        ensures sound { IsMessage self.now }
    {
        &self.headers
    }

    /// The body.
    pub fn body(&self) -> &Text
        ensures value { result.now ≡ self.now.body }
        ensures sound { IsMessage self.now }
    {
        &self.body
    }

    /// The text of a header.
    pub fn header(&self, name: &str) -> Option<&Text>
        ensures value { option_copied result ≡ header self.now.headers name.now }
        ensures sound { IsMessage self.now }
    {
        self.headers.get(name)
    }

    /// Sets a header in its place, or adds it at the end.
    pub fn set_header(&mut self, alloc: Global, name: &str, text: Text) -> Result<(), NoMemory>
        requires { name.now ≡ id_name → 0 < length text }
        ensures ok { OnOk result
            (self.new ≡ record self.old { headers = with_header self.old.headers name.now text }) }
        ensures err { OnErr result (self.new ≡ self.old) }
    {
        self.headers.set(alloc, name, text)?;
        Ok(())
    }

    /// Takes a header out, and closes up.
    pub fn without(&mut self, name: &str)
        requires { name.now ≢ id_name }
        ensures { self.new ≡
            record self.old { headers = without_header self.old.headers name.now } }
    {
        self.headers.remove(name);
    }
}

impl Copied for Envelope {
    fn copy(&self) -> Result<Envelope, NoMemory> {
        let headers = self.headers.copy()?;
        let body = self.body.copy()?;
        Ok(Envelope { headers, body })
    }
}

/// Envelopes, in order.
pub type Envelopes = Items<Envelope>;
