//! The keys that a message reads.
ghost use Rattle.std.specs.Prelude.{◌≡◌, ◌++◌, [], map, slice_get, IfOk, OnOk, option_copied, option_map};
ghost use Rattle.nb_script.specs.Tree as tree;
ghost use Rattle.nb_script.specs.Tree.{phrase, block, otherwise, listed, script};
ghost use Rattle.nb_check.specs.Keys as spec;
ghost use Rattle.nb_check.specs.Keys.{key_of, row_key, call_key, term_keys, named_row_keys, args_keys, delay_keys, phrase_keys, phrases_keys, braces_keys, otherwise_keys};
ghost use Rattle.nb_check.specs.Keys.{corr_key, id_key, role_keys, block_keys, met_keys, read_set};
ghost use Rattle.nb_check.specs.Declarations.{messages};
ghost use Rattle.nb_check.specs.Blocks.{part_block, blocks};
ghost use Rattle.nb_check.specs.Sites.{keys_at, numbers_keys, site_block};

use crate::bodies::{BodyFault, decoded};
use crate::checked::Checked;
use crate::incoming::{Address, Incoming};
use crate::known::{Known, value_in};
use crate::sites::Site;
use crate::types::MessageType;
use nb_base::{Copied, Envelope, Fields, Items, Key, Keys, NoMemory, Text, Value};
use nb_headers::message_id;
use nb_script::expr::{Arg, Expr, Function};
use nb_script::item::{Item, Part};
use nb_script::stmt::{After, Block, Else, RowName, Stmt};
use std::alloc::Global;

/// The most bytes of a row's name.
const MOST_NAME: usize = 65536;

fn push_row(name: Option<Text>, keys: &mut Keys) -> Result<(), NoMemory>
    ensures { OnOk result (keys.new ≡ keys.old ++ key_of name) }
{
    match name {
        Some(name) if name.len() <= MOST_NAME => keys.push(Key::Row { name }),
        _ => Ok(()),
    }
}

fn push_corr(saga: &Text, value: Option<&Value>, keys: &mut Keys) -> Result<(), NoMemory>
    ensures { OnOk result (keys.new ≡ keys.old ++ corr_key saga.now (option_copied value.entry)) }
{
    match value {
        None => Ok(()),
        Some(value) => {
            let saga = saga.copy()?;
            let corr = value.copy()?;
            keys.push(Key::ByCorr { saga, corr })
        }
    }
}

fn push_id(saga: &Text, address: &Option<Address>, keys: &mut Keys) -> Result<(), NoMemory>
    ensures { OnOk result (keys.new ≡ keys.old ++ id_key saga.now address.now) }
{
    match address {
        None => Ok(()),
        Some(address) => {
            let saga = saga.copy()?;
            let id = address.id.copy()?;
            keys.push(Key::ById { saga, id })
        }
    }
}

impl Known {
    fn row_key(&self, alloc: Global, e: &Expr, keys: &mut Keys) -> Result<(), NoMemory>
        ensures { OnOk result (keys.new ≡ keys.old ++ row_key (tree.tree e.now) self.now) }
    {
        let name = self.static_text(alloc, e)?;
        push_row(name, keys)
    }

    fn call_key(
        &self,
        alloc: Global,
        function: Function,
        e: &Expr,
        keys: &mut Keys,
    ) -> Result<(), NoMemory>
        ensures { OnOk result (keys.new
            ≡ keys.old ++ call_key function (tree.tree e.now) self.now) }
    {
        match function {
            Function::Row | Function::Has => self.row_key(alloc, e, keys),
            Function::Text | Function::Len => Ok(()),
        }
    }

    /// Adds the keys of the rows in an expression.
    fn term_keys(&self, alloc: Global, e: &Expr, keys: &mut Keys) -> Result<(), NoMemory>
        ensures { OnOk result (keys.new ≡ keys.old ++ term_keys (tree.tree e.now) self.now) }
    {
        match e {
            Expr::Call {
                function,
                argument,
                ..
            } => {
                self.term_keys(alloc, argument.get(), keys)?;
                self.call_key(alloc, *function, argument.get(), keys)?;
                Ok(())
            }
            Expr::Paren { inner, .. } => self.term_keys(alloc, inner.get(), keys),
            Expr::Prefix { operand, .. } => self.term_keys(alloc, operand.get(), keys),
            Expr::Infix { left, right, .. } => {
                self.term_keys(alloc, left.get(), keys)?;
                self.term_keys(alloc, right.get(), keys)?;
                Ok(())
            }
            _ => Ok(()),
        }
    }

    fn named_row_keys(&self, alloc: Global, row: &RowName, keys: &mut Keys) -> Result<(), NoMemory>
        ensures { OnOk result (keys.new
            ≡ keys.old ++ named_row_keys (tree.row_name row.now) self.now) }
    {
        self.term_keys(alloc, &row.name, keys)?;
        self.row_key(alloc, &row.name, keys)?;
        Ok(())
    }

    fn args_keys(&self, alloc: Global, args: &[Arg], keys: &mut Keys) -> Result<(), NoMemory>
        ensures { OnOk result (keys.new ≡ keys.old ++ args_keys (map tree.arg args.now) self.now) }
    {
        for a in args {
            self.term_keys(alloc, &a.value, keys)?;
        }
        Ok(())
    }

    fn delay_keys(
        &self,
        alloc: Global,
        after: &Option<After>,
        keys: &mut Keys,
    ) -> Result<(), NoMemory>
        ensures { OnOk result (keys.new
            ≡ keys.old ++ delay_keys (option_map tree.after after.now) self.now) }
    {
        match after {
            None => Ok(()),
            Some(after) => self.term_keys(alloc, &after.delay, keys),
        }
    }

    /// Adds the keys of the rows in a statement.
    #[cycle(statements)]
    fn statement_keys(&self, alloc: Global, d: &Stmt, keys: &mut Keys) -> Result<(), NoMemory>
        ensures { OnOk result (keys.new ≡ keys.old ++ phrase_keys (phrase d.now) self.now) }
    {
        match d {
            Stmt::Let { value, .. } | Stmt::Set { value, .. } => {
                self.term_keys(alloc, value, keys)
            }
            Stmt::Put { row, value, .. } | Stmt::Add { row, value, .. } => {
                self.named_row_keys(alloc, row, keys)?;
                self.term_keys(alloc, value, keys)?;
                Ok(())
            }
            Stmt::Erase { row, .. } => self.named_row_keys(alloc, row, keys),
            Stmt::Send { after, make, .. } => {
                self.delay_keys(alloc, after, keys)?;
                self.args_keys(alloc, make.args.as_slice(), keys)?;
                Ok(())
            }
            Stmt::Publish { make, .. } | Stmt::Reply { make, .. } => {
                self.args_keys(alloc, make.args.as_slice(), keys)
            }
            Stmt::Timeout { delay, make, .. } => {
                self.term_keys(alloc, delay, keys)?;
                self.args_keys(alloc, make.args.as_slice(), keys)?;
                Ok(())
            }
            Stmt::Complete { .. } => Ok(()),
            Stmt::Refuse { text, .. } => self.term_keys(alloc, text, keys),
            Stmt::If {
                test,
                block,
                otherwise,
                ..
            } => {
                self.term_keys(alloc, test, keys)?;
                self.body_keys(alloc, block, keys)?;
                self.else_keys(alloc, otherwise, keys)?;
                Ok(())
            }
        }
    }

    /// Adds the keys of the rows in a block's text.
    #[cycle(statements)]
    fn body_keys(&self, alloc: Global, b: &Block, keys: &mut Keys) -> Result<(), NoMemory>
        ensures { OnOk result (keys.new ≡ keys.old ++ braces_keys (block b.now) self.now) }
    {
        for d in b.body.as_slice() {
            self.statement_keys(alloc, d, keys)?;
        }
        Ok(())
    }

    #[cycle(statements)]
    fn else_keys(&self, alloc: Global, o: &Else, keys: &mut Keys) -> Result<(), NoMemory>
        ensures { OnOk result (keys.new ≡ keys.old ++ otherwise_keys (otherwise o.now) self.now) }
    {
        match o {
            Else::Nothing => Ok(()),
            Else::Last { block, .. } => self.body_keys(alloc, block, keys),
            Else::Chain {
                test,
                block,
                otherwise,
                ..
            } => {
                self.term_keys(alloc, test, keys)?;
                self.body_keys(alloc, block, keys)?;
                self.else_keys(alloc, otherwise.get(), keys)?;
                Ok(())
            }
        }
    }
}

impl Incoming {
    /// Adds the keys of a part of this saga.
    fn part_keys(
        &self,
        alloc: Global,
        known: &Known,
        saga: &Text,
        part: &Part,
        keys: &mut Keys,
    ) -> Result<(), NoMemory>
        ensures { OnOk result (keys.new
            ≡ keys.old ++ block_keys self.now known.now
            (part_block saga.now (tree.part part.now))) }
    {
        match part {
            Part::ByField { field, block, .. } => {
                push_corr(saga, value_in(field, known.fields.as_slice()), keys)?;
                known.body_keys(alloc, block, keys)?;
                Ok(())
            }
            Part::ById { block, .. } => {
                push_id(saga, &self.address, keys)?;
                known.body_keys(alloc, block, keys)?;
                Ok(())
            }
        }
    }

    /// Adds the keys of the block that stands there.
    fn site_keys(
        &self,
        alloc: Global,
        known: &Known,
        items: &[Item],
        site: &Site,
        keys: &mut Keys,
    ) -> Result<(), NoMemory>
        ensures { OnOk result (keys.new
            ≡ keys.old ++ keys_at self.now known.now (site_block (script items.now) site.now)) }
    {
        match items.get(site.item as usize) {
            Some(Item::Handler { block, .. }) => known.body_keys(alloc, block, keys),
            Some(Item::Saga(saga)) => match saga.parts.as_slice().get(site.part as usize) {
                Some(part) => self.part_keys(alloc, known, &saga.name, part, keys),
                None => Ok(()),
            },
            Some(Item::Message { .. }) => Ok(()),
            None => Ok(()),
        }
    }
}

impl Checked {
    /// Adds the keys of the block with this number.
    fn number_keys(
        &self,
        alloc: Global,
        m: &Incoming,
        known: &Known,
        number: u32,
        keys: &mut Keys,
    ) -> Result<(), NoMemory>
        ensures { OnOk result (keys.new
            ≡ keys.old ++ keys_at m.now known.now
            (slice_get (blocks (script self.now)) number)) }
    {
        match self.site(number) {
            Some(site) => m.site_keys(alloc, known, self.items(), site, keys),
            None => Ok(()),
        }
    }

    /// The keys of the blocks with these numbers, in order.
    fn numbers_keys(
        &self,
        alloc: Global,
        m: &Incoming,
        known: &Known,
        numbers: &[u32],
    ) -> Result<Keys, NoMemory>
        ensures { IfOk result (λ ks. ks
            ≡ numbers_keys m.now known.now (blocks (script self.now)) numbers.now) }
    {
        let mut keys = Items::new(alloc);
        for number in numbers {
            self.number_keys(alloc, m, known, *number, &mut keys)?;
        }
        Ok(keys)
    }

    /// The keys of the blocks that the message meets, in order.
    #[tactic(auto, using(crate::proofs::SiteLaws::keys_met))]
    fn met_keys(&self, alloc: Global, m: &Incoming, known: &Known) -> Result<Keys, NoMemory>
        ensures { IfOk result (λ ks. ks ≡ met_keys m.now known.now (blocks (script self.now))) }
    {
        let met = self.met(alloc, m)?;
        self.numbers_keys(alloc, m, known, met.as_slice())
    }
}

fn same_value(a: &Value, b: &Value) -> bool
    ensures { result ≡ spec.same_value a.now b.now }
{
    match (a, b) {
        (Value::Int(m), Value::Int(n)) => m == n,
        (Value::Text(s), Value::Text(t)) => s == t,
        (Value::Bool(b), Value::Bool(c)) => { if *b { *c } else { !*c } }
        _ => false,
    }
}

fn same_key(a: &Key, b: &Key) -> bool
    ensures { result ≡ spec.same_key a.now b.now }
{
    match (a, b) {
        (Key::ByCorr { saga: s, corr: v }, Key::ByCorr { saga: t, corr: w }) => {
            s == t && same_value(v, w)
        }
        (Key::ById { saga: s, id: v }, Key::ById { saga: t, id: w }) => s == t && v == w,
        (Key::Row { name: s }, Key::Row { name: t }) => s == t,
        _ => false,
    }
}

fn has_key(key: &Key, keys: &[Key]) -> bool
    ensures { result ≡ spec.has_key key.now keys.now }
{
    for k in keys {
        if same_key(k, key) {
            return true;
        }
    }
    false
}

fn add_key(keys: &mut Keys, key: &Key) -> Result<(), NoMemory>
    ensures { OnOk result (keys.new ≡ spec.with_key keys.old key.now) }
{
    if has_key(key, keys.as_slice()) {
        return Ok(());
    }
    keys.push(key.copy()?)
}

fn without_repeats(alloc: Global, all: &[Key]) -> Result<Keys, NoMemory>
    ensures { IfOk result (λ ks. ks ≡ spec.with_keys [] all.now) }
{
    let mut keys = Items::new(alloc);
    for key in all {
        add_key(&mut keys, key)?;
    }
    Ok(keys)
}

#[tactic(auto, using(crate::proofs::KeyLaws::one_key))]
fn each_once(alloc: Global, all: Keys) -> Result<Keys, NoMemory>
    ensures { IfOk result (λ ks. ks ≡ spec.with_keys [] all) }
{
    // One key has no other like it.
    if all.len() < 2 {
        return Ok(all);
    }
    without_repeats(alloc, all.as_slice())
}

/// The fields of a message of the declared type with this number, where its body has them.
fn fields_for(
    alloc: Global,
    types: &[MessageType],
    message: u32,
    e: &Envelope,
) -> Result<Option<Fields>, NoMemory>
    ensures { IfOk result (λ fs. fs ≡ spec.fields_for e.now (slice_get types.now message)) }
{
    let Some(message) = types.get(message as usize) else {
        return Ok(None);
    };
    match decoded(alloc, message.fields.as_slice(), e.body()) {
        Ok(fields) => Ok(Some(fields)),
        Err(BodyFault::Undecodable) => Ok(None),
        Err(BodyFault::NoMemory) => Err(NoMemory),
    }
}

/// The keys that a message reads, each once, in the order of first use. There are none where its body doesn't decode or
/// it meets no block.
pub(crate) fn read_set(alloc: Global, c: &Checked, e: &Envelope) -> Result<Keys, NoMemory>
    ensures { IfOk result (λ ks. ks ≡ read_set (script c.now) (messages (script c.now)) e.now) }
{
    let Some(message) = c.incoming(alloc, e)? else {
        return Ok(Items::new(alloc));
    };
    let Some(fields) = fields_for(alloc, c.types(), message.message, e)? else {
        return Ok(Items::new(alloc));
    };
    let id = message_id(e).copy()?;
    let known = Known { id, fields };
    let all = c.met_keys(alloc, &message, &known)?;
    each_once(alloc, all)
}
