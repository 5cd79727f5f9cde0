//! A script that breaks no rule, which contracts see as its items.
ghost use Rattle.std.specs.Prelude.{◌≡◌, ◌<◌, ◌^◌, [], length, true, Some, is_some, slice_get, option_copied, IfOk, IfErr};
ghost use Rattle.nb_script.specs.Scripts.{rows_of, items_of};
ghost use Rattle.nb_script.specs.Tree.{script};
ghost use Rattle.nb_check.specs.Bodies.{Decodes};
ghost use Rattle.nb_check.specs.Declarations.{messages, sagas};
ghost use Rattle.nb_check.specs.Fits.{fits, lift, saga_named};
ghost use Rattle.nb_check.specs.Keys.{same_key};
ghost use Rattle.nb_check.specs.Breaches as breaches;
ghost use Rattle.nb_check.specs.Rules.{script_faults};
ghost use Rattle.nb_check.specs.Sends.{sends};
ghost use Rattle.nb_check.specs.Blocks.{blocks};
ghost use Rattle.nb_check.specs.Meets.{incoming};
ghost use Rattle.nb_check.specs.Sites.{block_at, sites_from, numbers_in};
ghost use Rattle.std.specs.List.{IsDistinct};
ghost use Rattle.nb_check.specs.Checks.{declared_names, body_fields, blocks_met, keys_read, AreDeclared};
ghost use Rattle.nb_check.specs.Faults.{IsCheckFault};

use crate::bodies::{BodyFault, decoded};
use crate::breach::{Breach, first_of};
use crate::fault::CheckFault;
use crate::fits::{fits_type, lifted, saga_named};
use crate::incoming::Incoming;
use crate::key_set::read_set;
use crate::rules::script_faults;
use crate::sends::sends;
use crate::sites::{Blocks, Site, numbers_by_name, sites};
use crate::tables::MessageTable;
use crate::types::{MessageType, SagaType, messages, names_of, sagas};
use nb_base::{ByName, Envelope, Fields, Items, Keys, Names, NoMemory, SagaRow, Text};
use nb_script::Script;
use nb_script::item::Item;
use std::alloc::Global;
use std::marker::Model;

/// A script that breaks no rule.
#[derive(Drop)]
pub struct Checked {
    script: Script,
    types: Items<MessageType>,
    names: Names,
    kinds: Items<SagaType>,
    sends: Names,
    sites: Items<Site>,
    numbers: ByName<Blocks>,
}

impl Model for Checked {
    ghost use Rattle.std.specs.Prelude.{List};
    ghost use Rattle.std.specs.Coded.{codes};
    ghost use Rattle.nb_script.specs.Scripts.{rows_of, items_of};
    ghost use Rattle.nb_script.specs.declared.item.Item.{Item};
    ghost use Rattle.nb_script.specs.contracts.item.Item as e;
    ghost use Rattle.nb_check.specs.Checks.{IsChecked};

    ghost Value = { List Item };

    ghost coded = { Prim.hlevel (codes, e.the_row.coded) };

    ghost view = { λ c. rows_of c.script };

    ghost invariant = { λ c. IsChecked
        (items_of c.script) c.types c.names c.kinds c.sends c.sites c.numbers };
}

/// The breach that no other is before.
fn first_breach(
    alloc: Global,
    types: &MessageTable,
    items: &[Item],
) -> Result<Option<Breach>, NoMemory>
    requires { types.now ≡ messages (script items.now) }
    ensures { IfOk result (λ b. b ≡ breaches.first_of (script_faults (script items.now))) }
{
    let breaches = script_faults(alloc, types, items)?;
    Ok(first_of(breaches.as_slice()))
}

/// The script, where it breaks no rule.
#[tactic(auto, using(crate::proofs::FirstLaws::first_none))]
pub fn check(alloc: Global, script: Script) -> Result<Checked, CheckFault>
    ensures value { IfOk result (λ c. c ≡ rows_of script) }
    ensures rules { IfOk result (λ c. script_faults (items_of script) ≡ []) }
    ensures refused { IfErr result (λ f. IsCheckFault script f) }
{
    let types = MessageTable::new(alloc, messages(alloc, script.items())?)?;
    if let Some(breach) = first_breach(alloc, &types, script.items())? {
        return Err(CheckFault::of(&script, breach));
    }
    let types = types.into_types();
    let names = names_of(alloc, types.as_slice())?;
    let kinds = sagas(alloc, script.items())?;
    let sends = sends(alloc, script.items())?;
    let sites = sites(alloc, script.items())?;
    let numbers = numbers_by_name(alloc, sites.as_slice())?;
    Ok(Checked {
        script,
        types,
        names,
        kinds,
        sends,
        sites,
        numbers,
    })
}

impl Checked {
    /// A copy of the checked script.
    pub fn copy(&self, alloc: Global) -> Result<Checked, NoMemory>
        ensures { IfOk result (λ c. ∥ script c ≡ script self.now ∥₁) }
    {
        let script = self.script.copy(alloc)?;
        match check(alloc, script) {
            Ok(checked) => Ok(checked),
            Err(_) => Err(NoMemory),
        }
    }

    /// The items of the script.
    pub fn items(&self) -> &[Item]
        ensures value { result.now ≡ self.now }
        ensures rules { script_faults (script self.now) ≡ [] }
    {
        self.script.items()
    }

    /// The names of the declared messages, in the order of the script.
    pub fn names(&self) -> &Names
        ensures { result.now ≡ declared_names (script self.now) }
    {
        &self.names
    }

    /// The types of the messages that the script sends to the queues of their routes, one for each `send` in the text, in
    /// order.
    #[tactic(auto, using(crate::proofs::SentLaws::sent_declared))]
    pub fn sends(&self) -> &Names
        ensures value { result.now ≡ sends (script self.now) }
        ensures declared { AreDeclared (script self.now) }
    {
        &self.sends
    }

    /// The declared messages, in the order of the script.
    pub(crate) fn types(&self) -> &[MessageType]
        ensures { result.now ≡ messages (script self.now) }
    {
        self.types.as_slice()
    }

    /// What the headers say of a message, where its type is declared.
    pub fn incoming(&self, alloc: Global, e: &Envelope) -> Result<Option<Incoming>, NoMemory>
        ensures { IfOk result (λ m. m ≡ incoming (declared_names (script self.now)) e.now) }
    {
        Incoming::of(alloc, &self.names, e)
    }

    /// Where the blocks stand, in the order of the script.
    fn sites(&self) -> &[Site]
        ensures { result.now ≡ sites_from 0 (script self.now) }
    {
        self.sites.as_slice()
    }

    /// How many blocks the script has.
    #[tactic(auto, using(crate::proofs::SiteLaws::sites_count))]
    pub fn block_count(&self) -> usize
        ensures count { result ≡ length (blocks (script self.now)) }
        ensures few { length (blocks (script self.now)) < 2 ^ 32 }
    {
        self.sites.len()
    }

    /// Where the block with this number stands.
    pub fn site(&self, number: u32) -> Option<&Site>
        ensures { block_at (script self.now) (option_copied result)
            ≡ slice_get (blocks (script self.now)) number }
    {
        self.sites().get(number as usize)
    }

    /// The numbers of the blocks of this type.
    pub(crate) fn numbers_of(&self, name: &Text) -> &[u32]
        ensures { result.now ≡ numbers_in name.now 0 (sites_from 0 (script self.now)) }
    {
        match self.numbers.get(name) {
            Some(numbers) => numbers.as_slice(),
            None => &[],
        }
    }

    /// Whether a saga of this name is declared.
    pub fn has_saga(&self, saga: &Text) -> bool
        ensures { result ≡ is_some (saga_named saga.now (sagas (script self.now))) }
    {
        saga_named(saga, self.kinds.as_slice()).is_some()
    }

    /// Whether a stored saga fits its type, where that is declared: its revision lies from 1 to the declared one, and it
    /// has the kind of the correlation property and exactly the fields that its revision has, in order with their kinds.
    pub fn fits(&self, saga: &Text, row: &SagaRow) -> bool
        ensures { result ≡ fits (sagas (script self.now)) saga.now row.now }
    {
        match saga_named(saga, self.kinds.as_slice()) {
            None => true,
            Some(kind) => fits_type(kind, row),
        }
    }

    /// The row with the declared revision and the declared fields in order. A field that the row doesn't have yet has its
    /// first value.
    pub fn lift(&self, alloc: Global, saga: &Text, row: &SagaRow) -> Result<SagaRow, NoMemory>
        requires declared { is_some (saga_named saga.now (sagas (script self.now))) ≡ true }
        requires fits { fits (sagas (script self.now)) saga.now row.now ≡ true }
        ensures { IfOk result (λ r. Some r ≡ lift (sagas (script self.now)) saga.now row.now) }
    {
        match saga_named(saga, self.kinds.as_slice()) {
            None => Err(NoMemory),
            Some(kind) => lifted(alloc, kind, row),
        }
    }
}

/// The fields of a body of the message with this number.
pub fn decode_body(
    alloc: Global,
    c: &Checked,
    message: u32,
    body: &Text,
) -> Result<Fields, BodyFault>
    ensures { Decodes result (body_fields (script c.now) message body.now) }
{
    match c.types.as_slice().get(message as usize) {
        Some(declared) => decoded(alloc, declared.fields.as_slice(), body),
        None => Err(BodyFault::Undecodable),
    }
}

/// The numbers of the blocks that a message meets, rising.
pub fn meets(alloc: Global, c: &Checked, e: &Envelope) -> Result<Blocks, NoMemory>
    ensures { IfOk result (λ ns. ns ≡ blocks_met (script c.now) e.now) }
{
    match c.incoming(alloc, e)? {
        Some(m) => c.met(alloc, &m),
        None => Ok(Items::new(alloc)),
    }
}

/// The keys that a message reads, each once, in the order of first use. There are none where its body doesn't decode or
/// it meets no block.
pub fn keys(alloc: Global, c: &Checked, e: &Envelope) -> Result<Keys, NoMemory>
    ensures value { IfOk result (λ ks. ks ≡ keys_read (script c.now) e.now) }
    ensures distinct { IfOk result (λ ks. IsDistinct same_key ks) }
{
    read_set(alloc, c, e)
}
