//! What the headers of a message say of the blocks that it meets.
ghost use Rattle.std.specs.Prelude.{◌≡◌, Some, option_copied, IfOk};
ghost use Rattle.nb_check.specs.Meets.{is_true, is_timeout, is_empty, address_in, address_by, address_of, incoming_of, incoming, addresses, fits_role};
ghost use Rattle.nb_check.specs.Blocks.{part_block};
ghost use Rattle.nb_check.specs.Sites.{fits_block};
ghost use Rattle.nb_script.specs.Tree as tree;

use nb_base::{Bytes, Copied, Envelope, Names, NoMemory, Text};
use nb_headers::names::{IS_SAGA_TIMEOUT_MESSAGE, SAGA_ID, SAGA_TYPE};
use nb_headers::{message_type, type_name};
use nb_script::item::{Answer, Part};
use std::alloc::Global;

/// The saga to which a message goes: the name of its type, and its id.
#[derive(Debug, Drop)]
pub struct Address {
    pub saga: Bytes,
    pub id: Text,
}

impl Copied for Address {
    fn copy(&self) -> Result<Address, NoMemory> {
        let saga = self.saga.copy()?;
        let id = self.id.copy()?;
        Ok(Address { saga, id })
    }
}

/// A message whose type is declared.
#[derive(Debug, Drop)]
pub struct Incoming {
    /// The position of its type among the declared messages.
    pub message: u32,
    /// The name of its type.
    pub name: Text,
    pub timeout: bool,
    pub address: Option<Address>,
}

impl Copied for Incoming {
    fn copy(&self) -> Result<Incoming, NoMemory> {
        let name = self.name.copy()?;
        let address = match &self.address {
            Some(address) => Some(address.copy()?),
            None => None,
        };
        Ok(Incoming {
            message: self.message,
            name,
            timeout: self.timeout,
            address,
        })
    }
}

fn is_timeout(e: &Envelope) -> bool
    ensures { result ≡ is_timeout e.now }
{
    match e.header(IS_SAGA_TIMEOUT_MESSAGE) {
        Some(text) => text.as_str() == "True" || text.as_str() == "true",
        None => false,
    }
}

fn address_in(alloc: Global, saga: &[u8], id: &Text) -> Result<Option<Address>, NoMemory>
    ensures { IfOk result (λ a. a ≡ address_in saga.now id.now) }
{
    if saga.is_empty() || id.is_empty() {
        return Ok(None);
    }
    let saga = Bytes::new(alloc, saga)?;
    let id = id.copy()?;
    Ok(Some(Address { saga, id }))
}

fn address_by(
    alloc: Global,
    saga: Option<&Text>,
    id: Option<&Text>,
) -> Result<Option<Address>, NoMemory>
    ensures { IfOk result (λ a. a
        ≡ address_by (option_copied saga.entry) (option_copied id.entry)) }
{
    match (saga, id) {
        (Some(saga), Some(id)) => address_in(alloc, type_name(saga.as_str()), id),
        _ => Ok(None),
    }
}

fn address_of(alloc: Global, e: &Envelope) -> Result<Option<Address>, NoMemory>
    ensures { IfOk result (λ a. a ≡ address_of e.now) }
{
    address_by(alloc, e.header(SAGA_TYPE), e.header(SAGA_ID))
}

impl Incoming {
    /// What is said of a message, where its type is declared.
    pub(crate) fn of(
        alloc: Global,
        names: &Names,
        e: &Envelope,
    ) -> Result<Option<Incoming>, NoMemory>
        ensures { IfOk result (λ m. m ≡ incoming names.now e.now) }
    {
        let Some(message) = message_type(e, names) else {
            return Ok(None);
        };
        let Some(name) = names.as_slice().get(message as usize) else {
            return Ok(None);
        };
        let name = name.copy()?;
        let address = address_of(alloc, e)?;
        Ok(Some(Incoming {
            message,
            name,
            timeout: is_timeout(e),
            address,
        }))
    }

    fn addresses(&self, saga: &Text) -> bool
        ensures { result ≡ addresses self.now.address saga.now }
    {
        match &self.address {
            None => false,
            Some(address) => address.saga.as_slice() == saga.as_str().as_bytes(),
        }
    }

    /// Whether a message of the part's type meets the block of a part of this saga.
    pub(crate) fn fits_part(&self, saga: &Text, part: &Part) -> bool
        ensures { result ≡ fits_block self.now (Some (part_block saga.now (tree.part part.now))) }
    {
        match part {
            Part::ByField { .. } => !self.timeout,
            Part::ById {
                answer: Answer::Reply,
                ..
            } => !self.timeout && self.addresses(saga),
            Part::ById {
                answer: Answer::Timeout,
                ..
            } => self.timeout && self.addresses(saga),
        }
    }
}
