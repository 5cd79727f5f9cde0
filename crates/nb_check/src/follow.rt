//! The rules that statements break.
ghost use Rattle.std.specs.Prelude.{◌≡◌, ◌++◌, map, take, IfOk, OnOk, Some, option_copied, option_map};
ghost use Rattle.nb_script.specs.Tree as tree;
ghost use Rattle.nb_script.specs.Tree.{phrase, block, otherwise};
ghost use Rattle.nb_check.specs.Statements as spec;
ghost use Rattle.nb_check.specs.Statements.{placed_args, all_given, takes, args_faults, missing_faults, made_faults, make_faults, value_faults, row_faults, delay_faults, needs_saga, originator_faults, set_faults, timeout_faults, after, phrase_faults, phrases_faults, braces_faults, otherwise_faults};

use crate::breach::{Breaches, CheckKind, Placed, blame, want_distinct, want_true};
use crate::scope::{SagaScope, Scope};
use crate::sight::{Judgement, Local, want};
use crate::tables::{FieldTable, MessageTable, given_names, is_among};
use crate::types::{Declared, type_text};
use nb_base::{Copied, Items, NoMemory, Text};
use nb_script::expr::{Arg, Expr, Make, TypeName};
use nb_script::item::FieldKind;
use nb_script::stmt::{After, Block, Else, RowName, Stmt};
use std::alloc::Global;

fn placed_args(alloc: Global, args: &[Arg]) -> Result<Items<Placed>, NoMemory>
    ensures { IfOk result (λ ps. ps ≡ placed_args (map tree.arg args.now)) }
{
    let mut placed = Items::new(alloc);
    for a in args {
        let name = a.name.copy()?;
        placed.push(Placed { name, at: a.at })?;
    }
    Ok(placed)
}

fn all_given(alloc: Global, declared: &[Declared], args: &[Arg]) -> Result<bool, NoMemory>
    ensures { IfOk result (λ b. b ≡ all_given declared.now (map tree.arg args.now)) }
{
    let given = given_names(alloc, args)?;
    for d in declared {
        if !is_among(&given, &d.name) {
            return Ok(false);
        }
    }
    Ok(true)
}

fn want_field(
    breaches: &mut Breaches,
    kind: Option<FieldKind>,
    at: u32,
    e: Judgement,
) -> Result<(), NoMemory>
    ensures { OnOk result (breaches.new ≡ breaches.old ++ takes kind at e) }
{
    match kind {
        None => blame(breaches, at, CheckKind::UnknownField),
        Some(k) => want(breaches, k, e),
    }
}

fn want_field_in(
    breaches: &mut Breaches,
    declared: Option<&FieldTable>,
    name: &Text,
    at: u32,
    e: Judgement,
) -> Result<(), NoMemory>
    ensures { OnOk result (breaches.new
        ≡ breaches.old ++ spec.takes_in (option_copied declared.entry) name.now at e) }
{
    match declared {
        None => Ok(()),
        Some(declared) => want_field(breaches, declared.kind_in(name), at, e),
    }
}

fn want_all(
    alloc: Global,
    breaches: &mut Breaches,
    declared: Option<&FieldTable>,
    make: &Make,
) -> Result<(), NoMemory>
    ensures { OnOk result (breaches.new
        ≡ breaches.old ++ missing_faults (option_copied declared.entry) (tree.make make.now)) }
{
    match declared {
        None => blame(breaches, make.name.at, CheckKind::UnknownMessage),
        Some(declared) => {
            let holds = all_given(alloc, declared.as_slice(), make.args.as_slice())?;
            want_true(breaches, holds, make.name.at, CheckKind::FieldMissing)
        }
    }
}

fn want_saga(breaches: &mut Breaches, at: u32, saga: Option<&SagaScope>) -> Result<(), NoMemory>
    ensures { OnOk result (breaches.new
        ≡ breaches.old ++ needs_saga at (option_copied saga.entry)) }
{
    match saga {
        None => blame(breaches, at, CheckKind::NoSaga),
        Some(_) => Ok(()),
    }
}

fn want_originator(
    breaches: &mut Breaches,
    at: u32,
    originator_at: Option<u32>,
    saga: Option<&SagaScope>,
) -> Result<(), NoMemory>
    ensures { OnOk result (breaches.new
        ≡ breaches.old ++ originator_faults at originator_at (option_copied saga.entry)) }
{
    match originator_at {
        None => Ok(()),
        Some(_) => want_saga(breaches, at, saga),
    }
}

fn want_set(
    breaches: &mut Breaches,
    at: u32,
    field_at: u32,
    field: &Text,
    e: Judgement,
    saga: Option<&SagaScope>,
) -> Result<(), NoMemory>
    ensures { OnOk result (breaches.new
        ≡ breaches.old ++ set_faults at field_at field.now e (option_copied saga.entry)) }
{
    match saga {
        None => blame(breaches, at, CheckKind::NoSaga),
        Some(saga) => {
            let holds = !saga.correlates_by(field);
            want_true(breaches, holds, field_at, CheckKind::SetsCorrelation)?;
            want_field(breaches, saga.kind_in(field), field_at, e)?;
            Ok(())
        }
    }
}

fn want_timeout(
    alloc: Global,
    breaches: &mut Breaches,
    name: &TypeName,
    saga: Option<&SagaScope>,
) -> Result<(), NoMemory>
    ensures { OnOk result (breaches.new
        ≡ breaches.old ++ timeout_faults name.now (option_copied saga.entry)) }
{
    match saga {
        None => Ok(()),
        Some(saga) => {
            let text = type_text(alloc, name)?;
            let holds = saga.has_timeout(&text);
            want_true(breaches, holds, name.at, CheckKind::NoTimeoutPart)
        }
    }
}

impl<'a> Scope<'a> {
    fn want_value(&self, k: FieldKind, e: &Expr, breaches: &mut Breaches) -> Result<(), NoMemory>
        ensures { OnOk result (breaches.new
            ≡ breaches.old ++ value_faults k (tree.tree e.now) self.now) }
    {
        let judged = self.judge(e, breaches)?;
        want(breaches, k, judged)?;
        Ok(())
    }

    fn want_row(&self, row: &RowName, breaches: &mut Breaches) -> Result<(), NoMemory>
        ensures { OnOk result (breaches.new
            ≡ breaches.old ++ row_faults (tree.row_name row.now) self.now) }
    {
        self.judge(&row.name, breaches)?;
        self.want_name(&row.name, breaches)?;
        Ok(())
    }

    fn want_delay(&self, after: &Option<After>, breaches: &mut Breaches) -> Result<(), NoMemory>
        ensures { OnOk result (breaches.new
            ≡ breaches.old ++ delay_faults (option_map tree.after after.now) self.now) }
    {
        match after {
            None => Ok(()),
            Some(after) => self.want_value(FieldKind::Int, &after.delay, breaches),
        }
    }

    fn want_args(
        &self,
        declared: Option<&FieldTable>,
        args: &[Arg],
        breaches: &mut Breaches,
    ) -> Result<(), NoMemory>
        ensures { OnOk result (breaches.new
            ≡ breaches.old
            ++ args_faults (option_copied declared.entry) (map tree.arg args.now) self.now) }
    {
        for a in args {
            let judged = self.judge(&a.value, breaches)?;
            want_field_in(breaches, declared, &a.name, a.at, judged)?;
        }
        Ok(())
    }

    fn want_made(
        &self,
        alloc: Global,
        declared: Option<&FieldTable>,
        make: &Make,
        breaches: &mut Breaches,
    ) -> Result<(), NoMemory>
        ensures { OnOk result (breaches.new
            ≡ breaches.old
            ++ made_faults (option_copied declared.entry) (tree.make make.now) self.now) }
    {
        want_all(alloc, breaches, declared, make)?;
        let placed = placed_args(alloc, make.args.as_slice())?;
        want_distinct(alloc, breaches, CheckKind::FieldTwice, placed.as_slice())?;
        self.want_args(declared, make.args.as_slice(), breaches)?;
        Ok(())
    }

    fn want_make(
        &self,
        alloc: Global,
        messages: &MessageTable,
        make: &Make,
        breaches: &mut Breaches,
    ) -> Result<(), NoMemory>
        ensures { OnOk result (breaches.new
            ≡ breaches.old ++ make_faults messages.now (tree.make make.now) self.now) }
    {
        let name = type_text(alloc, &make.name)?;
        self.want_made(alloc, messages.fields_of(&name), make, breaches)
    }

    /// Adds the rules that a `let` breaks, and brings its name into sight.
    fn follow_let(
        &mut self,
        name_at: u32,
        name: &Text,
        value: &Expr,
        breaches: &mut Breaches,
    ) -> Result<(), NoMemory>
        ensures broken { OnOk result (breaches.new
            ≡ breaches.old ++ spec.let_faults name_at name.now (tree.tree value.now) self.old) }
        ensures after { OnOk result (self.new
            ≡ spec.after_let name.now (tree.tree value.now) self.old) }
    {
        let judged = self.judge(value, breaches)?;
        let is_new = self.local(name).is_none();
        want_true(breaches, is_new, name_at, CheckKind::NameTwice)?;
        let name = name.copy()?;
        self.bring(Local {
            name,
            kind: judged.kind,
        })?;
        Ok(())
    }

    fn want_set_value(
        &self,
        at: u32,
        field_at: u32,
        field: &Text,
        value: &Expr,
        breaches: &mut Breaches,
    ) -> Result<(), NoMemory>
        ensures { OnOk result (breaches.new
            ≡ breaches.old
            ++ spec.set_value_faults at field_at field.now (tree.tree value.now) self.now) }
    {
        let judged = self.judge(value, breaches)?;
        want_set(breaches, at, field_at, field, judged, self.saga())?;
        Ok(())
    }

    fn want_put(&self, row: &RowName, value: &Expr, breaches: &mut Breaches) -> Result<(), NoMemory>
        ensures { OnOk result (breaches.new
            ≡ breaches.old
            ++ spec.put_faults (tree.row_name row.now) (tree.tree value.now) self.now) }
    {
        self.want_row(row, breaches)?;
        self.want_value(FieldKind::Int, value, breaches)?;
        Ok(())
    }

    fn want_send(
        &self,
        alloc: Global,
        messages: &MessageTable,
        after: &Option<After>,
        make: &Make,
        breaches: &mut Breaches,
    ) -> Result<(), NoMemory>
        ensures { OnOk result (breaches.new
            ≡ breaches.old
            ++ spec.send_faults messages.now (option_map tree.after after.now)
            (tree.make make.now) self.now) }
    {
        self.want_delay(after, breaches)?;
        self.want_make(alloc, messages, make, breaches)?;
        Ok(())
    }

    fn want_reply(
        &self,
        alloc: Global,
        messages: &MessageTable,
        at: u32,
        originator_at: Option<u32>,
        make: &Make,
        breaches: &mut Breaches,
    ) -> Result<(), NoMemory>
        ensures { OnOk result (breaches.new
            ≡ breaches.old
            ++ spec.reply_faults messages.now at originator_at (tree.make make.now) self.now) }
    {
        want_originator(breaches, at, originator_at, self.saga())?;
        self.want_make(alloc, messages, make, breaches)?;
        Ok(())
    }

    fn want_timed(
        &self,
        alloc: Global,
        messages: &MessageTable,
        at: u32,
        delay: &Expr,
        make: &Make,
        breaches: &mut Breaches,
    ) -> Result<(), NoMemory>
        ensures { OnOk result (breaches.new
            ≡ breaches.old
            ++ spec.timed_faults messages.now at (tree.tree delay.now)
            (tree.make make.now) self.now) }
    {
        want_saga(breaches, at, self.saga())?;
        self.want_value(FieldKind::Int, delay, breaches)?;
        want_timeout(alloc, breaches, &make.name, self.saga())?;
        self.want_make(alloc, messages, make, breaches)?;
        Ok(())
    }

    /// Adds the rules that a statement breaks, and brings its name into sight.
    #[cycle(statements)]
    fn follow(
        &mut self,
        alloc: Global,
        messages: &MessageTable,
        d: &Stmt,
        breaches: &mut Breaches,
    ) -> Result<(), NoMemory>
        ensures broken { OnOk result (breaches.new
            ≡ breaches.old ++ phrase_faults messages.now (phrase d.now) self.old) }
        ensures after { OnOk result (self.new ≡ after (phrase d.now) self.old) }
    {
        match d {
            Stmt::Let {
                name_at,
                name,
                value,
                ..
            } => self.follow_let(*name_at, name, value, breaches),
            Stmt::Set {
                at,
                field_at,
                field,
                value,
                ..
            } => self.want_set_value(*at, *field_at, field, value, breaches),
            Stmt::Put { row, value, .. } | Stmt::Add { row, value, .. } => {
                self.want_put(row, value, breaches)
            }
            Stmt::Erase { row, .. } => self.want_row(row, breaches),
            Stmt::Send { after, make, .. } => self.want_send(
                alloc, messages, after, make, breaches,
            ),
            Stmt::Publish { make, .. } => self.want_make(alloc, messages, make, breaches),
            Stmt::Reply {
                at,
                originator_at,
                make,
                ..
            } => self.want_reply(alloc, messages, *at, *originator_at, make, breaches),
            Stmt::Timeout {
                at,
                delay,
                make,
                ..
            } => self.want_timed(alloc, messages, *at, delay, make, breaches),
            Stmt::Complete { at, .. } => want_saga(breaches, *at, self.saga()),
            Stmt::Refuse { text, .. } => self.want_value(FieldKind::Text, text, breaches),
            Stmt::If {
                test,
                block,
                otherwise,
                ..
            } => {
                self.want_value(FieldKind::Bool, test, breaches)?;
                self.follow_block(alloc, messages, block, breaches)?;
                self.follow_else(alloc, messages, otherwise, breaches)?;
                Ok(())
            }
        }
    }

    /// Adds the rules that a block breaks. What is in sight is then as before.
    #[cycle(statements)]
    pub(crate) fn follow_block(
        &mut self,
        alloc: Global,
        messages: &MessageTable,
        b: &Block,
        breaches: &mut Breaches,
    ) -> Result<(), NoMemory>
        ensures broken { OnOk result (breaches.new
            ≡ breaches.old ++ braces_faults messages.now (block b.now) self.old) }
        ensures after { OnOk result (self.new ≡ self.old) }
    {
        let count = self.count();
        for d in b.body.as_slice() {
            self.follow(alloc, messages, d, breaches)?;
        }
        self.cut(count);
        Ok(())
    }

    #[cycle(statements)]
    fn follow_else(
        &mut self,
        alloc: Global,
        messages: &MessageTable,
        o: &Else,
        breaches: &mut Breaches,
    ) -> Result<(), NoMemory>
        ensures broken { OnOk result (breaches.new
            ≡ breaches.old ++ otherwise_faults messages.now (otherwise o.now) self.old) }
        ensures after { OnOk result (self.new ≡ self.old) }
    {
        match o {
            Else::Nothing => Ok(()),
            Else::Last { block, .. } => self.follow_block(alloc, messages, block, breaches),
            Else::Chain {
                test,
                block,
                otherwise,
                ..
            } => {
                self.want_value(FieldKind::Bool, test, breaches)?;
                self.follow_block(alloc, messages, block, breaches)?;
                self.follow_else(alloc, messages, otherwise.get(), breaches)?;
                Ok(())
            }
        }
    }
}
