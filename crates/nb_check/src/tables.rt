//! Fields and messages, found by their names.
ghost use Rattle.std.specs.Prelude.{◌≡◌, IfOk, OnOk, option_copied, is_some, map};
ghost use Rattle.std.specs.FinMap as names;
ghost use Rattle.nb_script.specs.Tree as tree;
ghost use Rattle.nb_check.specs.Kinds as kinds;
ghost use Rattle.nb_check.specs.Statements as statements;
ghost use Rattle.nb_check.specs.Tables.{AreKinds, AreFields, AreGiven, AreNames, with_first};

use crate::types::{Declared, MessageType};
use nb_base::{ByName, Copied, Items, NoMemory, Text};
use nb_script::expr::Arg;
use nb_script::item::FieldKind;
use std::alloc::Global;
use std::marker::Model;

/// Whether there is a value under the name.
pub(crate) fn is_among<V: Drop>(table: &ByName<V>, name: &Text) -> bool
    ensures { result ≡ is_some (names.get table.now name.now) }
{
    table.get(name).is_some()
}

/// Puts a value under a name that has none yet.
fn put_first<V: Drop>(table: &mut ByName<V>, name: &Text, value: V) -> Result<(), NoMemory>
    ensures { OnOk result (table.new ≡ with_first table.old name.now value) }
{
    if is_among(table, name) {
        return Ok(());
    }
    let name = name.copy()?;
    table.insert(name, value)?;
    Ok(())
}

/// Fields with their kinds. Of several with one name the first counts.
#[derive(Drop)]
pub(crate) struct FieldTable {
    declared: Items<Declared>,
    kinds: ByName<FieldKind>,
}

impl Model for FieldTable {
    ghost use Rattle.std.specs.Prelude.{List};
    ghost use Rattle.nb_check.specs.declared.types.Declared.{Declared};
    ghost use Rattle.nb_check.specs.Tables.{AreKinds};

    ghost Value = { List Declared };

    ghost view = { λ t. t.declared };

    ghost invariant = { λ t. AreKinds t.kinds t.declared };
}

fn kinds_of(alloc: Global, declared: &[Declared]) -> Result<ByName<FieldKind>, NoMemory>
    ensures { IfOk result (λ table. AreKinds table declared.now) }
{
    let mut kinds = ByName::new(alloc);
    for d in declared {
        put_first(&mut kinds, &d.name, d.kind)?;
    }
    Ok(kinds)
}

impl FieldTable {
    pub(crate) fn new(alloc: Global, declared: Items<Declared>) -> Result<FieldTable, NoMemory>
        ensures { IfOk result (λ t. t ≡ declared) }
    {
        let kinds = kinds_of(alloc, declared.as_slice())?;
        Ok(FieldTable { declared, kinds })
    }

    /// The fields in order.
    pub(crate) fn as_slice(&self) -> &[Declared]
        ensures { result.now ≡ self.now }
    {
        self.declared.as_slice()
    }

    /// The kind of the first field of this name.
    pub(crate) fn kind_in(&self, name: &Text) -> Option<FieldKind>
        ensures { result ≡ kinds.kind_in name.now self.now }
    {
        match self.kinds.get(name) {
            None => None,
            Some(kind) => Some(*kind),
        }
    }
}

/// Messages with their fields. Of several with one name the first counts.
#[derive(Drop)]
pub(crate) struct MessageTable {
    types: Items<MessageType>,
    fields: ByName<FieldTable>,
}

impl Model for MessageTable {
    ghost use Rattle.std.specs.Prelude.{List};
    ghost use Rattle.nb_check.specs.declared.types.MessageType.{MessageType};
    ghost use Rattle.nb_check.specs.Tables.{AreFields};

    ghost Value = { List MessageType };

    ghost view = { λ t. t.types };

    ghost invariant = { λ t. AreFields t.fields t.types };
}

fn fields_by_name(alloc: Global, types: &[MessageType]) -> Result<ByName<FieldTable>, NoMemory>
    ensures { IfOk result (λ table. AreFields table types.now) }
{
    let mut table = ByName::new(alloc);
    for t in types {
        let fields = FieldTable::new(alloc, t.fields.copy()?)?;
        put_first(&mut table, &t.name, fields)?;
    }
    Ok(table)
}

impl MessageTable {
    pub(crate) fn new(alloc: Global, types: Items<MessageType>) -> Result<MessageTable, NoMemory>
        ensures { IfOk result (λ t. t ≡ types) }
    {
        let fields = fields_by_name(alloc, types.as_slice())?;
        Ok(MessageTable { types, fields })
    }

    /// The fields of the first message of this name.
    pub(crate) fn fields_of(&self, name: &Text) -> Option<&FieldTable>
        ensures { option_copied result ≡ statements.fields_of name.now self.now }
    {
        self.fields.get(name)
    }

    pub(crate) fn into_types(self) -> Items<MessageType>
        ensures { result ≡ self }
    {
        let MessageTable { types, .. } = self;
        types
    }
}

/// The names that are given to a message that is made.
pub(crate) fn given_names(alloc: Global, args: &[Arg]) -> Result<ByName<u32>, NoMemory>
    ensures { IfOk result (λ table. AreGiven table (map tree.arg args.now)) }
{
    let mut given = ByName::new(alloc);
    for a in args {
        let name = a.name.copy()?;
        given.insert(name, a.at)?;
    }
    Ok(given)
}

/// The names of a list, with no more said of them than that they are there.
pub(crate) fn names_table(alloc: Global, names: &[Text]) -> Result<ByName<bool>, NoMemory>
    ensures { IfOk result (λ table. AreNames table names.now) }
{
    let mut table = ByName::new(alloc);
    for n in names {
        let name = n.copy()?;
        table.insert(name, true)?;
    }
    Ok(table)
}
