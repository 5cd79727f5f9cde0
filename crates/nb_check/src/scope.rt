//! What is in sight of an expression, over the tables of a script.
ghost use Rattle.std.specs.Prelude.{◌≡◌, ◌++◌, ◌∷◌, [], length, take, bytes_eq, option_copied, IfOk, OnOk};
ghost use Rattle.nb_check.specs.Kinds as kinds;
ghost use Rattle.nb_check.specs.Statements as statements;

use crate::locals::LocalTable;
use crate::sight::Local;
use crate::tables::{FieldTable, is_among, names_table};
use nb_base::{ByName, Names, NoMemory, Text};
use nb_script::expr::Holder;
use nb_script::item::FieldKind;
use std::alloc::Global;
use std::marker::Model;

/// What a part of a saga sees of it.
#[derive(Drop)]
pub(crate) struct SagaScope {
    correlation: Text,
    fields: FieldTable,
    timeouts: Names,
    timeout_table: ByName<bool>,
}

impl Model for SagaScope {
    ghost use Rattle.nb_check.specs.declared.sight.SagaSight.{SagaSight};
    ghost use Rattle.nb_check.specs.Tables.{AreNames};

    ghost Value = { SagaSight };

    ghost view = { λ s. record {
      correlation = s.correlation;
      fields = s.fields;
      timeouts = s.timeouts;
    } };

    ghost invariant = { λ s. AreNames s.timeout_table s.timeouts };
}

impl SagaScope {
    /// The correlation property stands among the fields too.
    pub(crate) fn new(
        alloc: Global,
        correlation: Text,
        fields: FieldTable,
        timeouts: Names,
    ) -> Result<SagaScope, NoMemory>
        ensures { IfOk result (λ s. s
            ≡ record { correlation = correlation; fields = fields; timeouts = timeouts }) }
    {
        let timeout_table = names_table(alloc, timeouts.as_slice())?;
        Ok(SagaScope {
            correlation,
            fields,
            timeouts,
            timeout_table,
        })
    }

    /// Whether the name is that of the correlation property.
    pub(crate) fn correlates_by(&self, name: &Text) -> bool
        ensures { result ≡ bytes_eq self.now.correlation name.now }
    {
        self.correlation == *name
    }

    pub(crate) fn kind_in(&self, name: &Text) -> Option<FieldKind>
        ensures { result ≡ kinds.kind_in name.now self.now.fields }
    {
        self.fields.kind_in(name)
    }

    /// Whether the saga has a timeout part of this message.
    pub(crate) fn has_timeout(&self, name: &Text) -> bool
        ensures { result ≡ statements.has_name name.now self.now.timeouts }
    {
        is_among(&self.timeout_table, name)
    }
}

/// What is in sight of an expression.
#[derive(Drop)]
pub(crate) struct Scope<'a> {
    message: Option<&'a FieldTable>,
    saga: Option<&'a SagaScope>,
    names: LocalTable,
}

impl<'a> Model for Scope<'a> {
    ghost use Rattle.std.specs.Prelude.{option_copied};
    ghost use Rattle.nb_check.specs.declared.sight.Sight.{Sight};

    ghost Value = { Sight };

    ghost view = { λ g. record {
      message = option_copied g.message;
      saga = option_copied g.saga;
      names = g.names;
    } };
}

impl<'a> Scope<'a> {
    pub(crate) fn new(
        alloc: Global,
        message: Option<&'a FieldTable>,
        saga: Option<&'a SagaScope>,
    ) -> Scope<'a>
        ensures { result ≡ record {
          message = option_copied message.entry;
          saga = option_copied saga.entry;
          names = [];
        } }
    {
        Scope {
            message,
            saga,
            names: LocalTable::new(alloc),
        }
    }

    /// The message's fields, where it is declared.
    pub(crate) fn message(&self) -> Option<&'a FieldTable>
        ensures { option_copied result ≡ self.now.message }
    {
        self.message
    }

    /// The saga, in a part of one.
    pub(crate) fn saga(&self) -> Option<&'a SagaScope>
        ensures { option_copied result ≡ self.now.saga }
    {
        self.saga
    }

    pub(crate) fn message_kind(&self, name: &Text) -> Option<FieldKind>
        ensures { result ≡ kinds.message_kind name.now self.now.message }
    {
        match self.message() {
            None => None,
            Some(fields) => fields.kind_in(name),
        }
    }

    pub(crate) fn saga_kind(&self, name: &Text) -> Option<FieldKind>
        ensures { result ≡ kinds.saga_kind name.now self.now.saga }
    {
        match self.saga() {
            None => None,
            Some(saga) => saga.kind_in(name),
        }
    }

    pub(crate) fn field_kind(&self, holder: Holder, name: &Text) -> Option<FieldKind>
        ensures { result ≡ kinds.field_kind holder name.now self.now }
    {
        match holder {
            Holder::Message => self.message_kind(name),
            Holder::Saga => self.saga_kind(name),
        }
    }

    /// The kind of the first name that is the same.
    pub(crate) fn local(&self, name: &Text) -> Option<Option<FieldKind>>
        ensures { result ≡ kinds.local_in name.now self.now.names }
    {
        self.names.kind_of(name)
    }

    /// How many names `let`s made.
    pub(crate) fn count(&self) -> usize
        ensures { result ≡ length self.now.names }
    {
        self.names.len()
    }

    /// Brings a name into sight.
    pub(crate) fn bring(&mut self, local: Local) -> Result<(), NoMemory>
        ensures { OnOk result (self.new
            ≡ record self.old { names = self.old.names ++ local ∷ [] }) }
    {
        self.names.push(local)
    }

    /// Takes all names but the first ones out of sight.
    pub(crate) fn cut(&mut self, count: usize)
        ensures { self.new ≡ record self.old { names = take count self.old.names } }
    {
        self.names.cut(count);
    }
}
