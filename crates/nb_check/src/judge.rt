//! The rules that expressions break.
ghost use Rattle.std.specs.Prelude.{◌≡◌, ◌++◌, IfOk, OnOk, Some};
ghost use Rattle.nb_script.specs.Tree as tree;
ghost use Rattle.nb_check.specs.Kinds as spec;
ghost use Rattle.nb_check.specs.Breaches.{unless_some};
ghost use Rattle.nb_check.specs.Kinds.{field_kind, judgement, local_in, is_message_field, is_id, is_text_function, piece_kind, piece_field, name_faults, message_field_faults, saga_field_faults, field_faults, argument_faults};

use crate::breach::{Breaches, CheckKind, blame, want_true};
use crate::known::is_join;
use crate::scope::Scope;
use crate::sight::{
    Judgement, call_kind, constant_kind, is_kind, made_by, prefix_kind, refuse_text, taken_by,
    want, want_operands,
};
use nb_base::{NoMemory, Text};
use nb_script::expr::{Constant, Expr, Function, Holder};
use nb_script::item::FieldKind;

/// A field of the message, in parentheses or not.
fn is_message_field(e: &Expr) -> bool
    ensures { result ≡ is_message_field (tree.tree e.now) }
{
    match e {
        Expr::Field {
            holder: Holder::Message,
            ..
        } => true,
        Expr::Paren { inner, .. } => is_message_field(inner.get()),
        _ => false,
    }
}

fn is_id(constant: Constant) -> bool
    ensures { result ≡ is_id constant }
{
    match constant {
        Constant::Id => true,
        _ => false,
    }
}

fn is_text_function(function: Function) -> bool
    ensures { result ≡ is_text_function function }
{
    match function {
        Function::Text => true,
        _ => false,
    }
}

fn want_piece(breaches: &mut Breaches, kind: Option<FieldKind>, at: u32) -> Result<(), NoMemory>
    ensures { OnOk result (breaches.new ≡ breaches.old ++ piece_kind kind at) }
{
    match kind {
        None => Ok(()),
        Some(k) => want_true(
            breaches,
            is_kind(k, FieldKind::Text),
            at,
            CheckKind::RowName,
        ),
    }
}

impl<'a> Scope<'a> {
    fn want_piece_field(
        &self,
        holder: Holder,
        name: &Text,
        at: u32,
        breaches: &mut Breaches,
    ) -> Result<(), NoMemory>
        ensures { OnOk result (breaches.new
            ≡ breaches.old ++ piece_field holder name.now at self.now) }
    {
        match holder {
            Holder::Message => want_piece(breaches, self.message_kind(name), at),
            Holder::Saga => blame(breaches, at, CheckKind::RowName),
        }
    }

    /// Adds the tokens that can't stand in a row's name.
    pub(crate) fn want_name(&self, e: &Expr, breaches: &mut Breaches) -> Result<(), NoMemory>
        ensures { OnOk result (breaches.new
            ≡ breaches.old ++ name_faults (tree.tree e.now) self.now) }
    {
        match e {
            Expr::Number { at, .. } | Expr::Name { at, .. } | Expr::Prefix { at, .. } => {
                blame(breaches, *at, CheckKind::RowName)
            }
            Expr::Quoted { .. } => Ok(()),
            Expr::Constant { at, constant } => {
                want_true(breaches, is_id(*constant), *at, CheckKind::RowName)
            }
            Expr::Field {
                at,
                holder,
                name,
                ..
            } => self.want_piece_field(*holder, name, *at, breaches),
            Expr::Call {
                at,
                function,
                argument,
                ..
            } => {
                let holds = is_text_function(*function) && is_message_field(argument.get());
                want_true(breaches, holds, *at, CheckKind::RowName)
            }
            Expr::Paren { inner, .. } => self.want_name(inner.get(), breaches),
            Expr::Infix {
                left,
                at,
                op,
                right,
            } => {
                self.want_name(left.get(), breaches)?;
                want_true(breaches, is_join(*op), *at, CheckKind::RowName)?;
                self.want_name(right.get(), breaches)?;
                Ok(())
            }
        }
    }

    fn want_message_field(
        &self,
        name: &Text,
        name_at: u32,
        breaches: &mut Breaches,
    ) -> Result<(), NoMemory>
        ensures { OnOk result (breaches.new
            ≡ breaches.old ++ message_field_faults name_at name.now self.now.message) }
    {
        match self.message() {
            None => Ok(()),
            Some(declared) => {
                let kind = declared.kind_in(name);
                want_true(breaches, kind.is_some(), name_at, CheckKind::UnknownField)
            }
        }
    }

    fn want_saga_field(
        &self,
        name: &Text,
        at: u32,
        name_at: u32,
        breaches: &mut Breaches,
    ) -> Result<(), NoMemory>
        ensures { OnOk result (breaches.new
            ≡ breaches.old ++ saga_field_faults at name_at name.now self.now.saga) }
    {
        match self.saga() {
            None => blame(breaches, at, CheckKind::NoSaga),
            Some(saga) => {
                let kind = saga.kind_in(name);
                want_true(breaches, kind.is_some(), name_at, CheckKind::UnknownField)
            }
        }
    }

    fn want_field(
        &self,
        holder: Holder,
        name: &Text,
        at: u32,
        name_at: u32,
        breaches: &mut Breaches,
    ) -> Result<(), NoMemory>
        ensures { OnOk result (breaches.new
            ≡ breaches.old ++ field_faults holder at name_at name.now self.now) }
    {
        match holder {
            Holder::Message => self.want_message_field(name, name_at, breaches),
            Holder::Saga => self.want_saga_field(name, at, name_at, breaches),
        }
    }

    fn want_argument(
        &self,
        function: Function,
        e: &Expr,
        judged: Judgement,
        breaches: &mut Breaches,
    ) -> Result<(), NoMemory>
        requires { judged ≡ judgement (tree.tree e.now) self.now }
        ensures { OnOk result (breaches.new
            ≡ breaches.old ++ argument_faults function (tree.tree e.now) self.now) }
    {
        match function {
            Function::Row | Function::Has => self.want_name(e, breaches),
            Function::Text => refuse_text(breaches, judged),
            Function::Len => want(breaches, FieldKind::Text, judged),
        }
    }

    fn judge_field(
        &self,
        holder: Holder,
        name: &Text,
        at: u32,
        name_at: u32,
        breaches: &mut Breaches,
    ) -> Result<Judgement, NoMemory>
        ensures said { IfOk result (λ j. j
            ≡ record { at = at; kind = field_kind holder name.now self.now }) }
        ensures broken { OnOk result (breaches.new
            ≡ breaches.old ++ field_faults holder at name_at name.now self.now) }
    {
        self.want_field(holder, name, at, name_at, breaches)?;
        Ok(Judgement {
            at,
            kind: self.field_kind(holder, name),
        })
    }

    fn judge_name(
        &self,
        name: &Text,
        at: u32,
        breaches: &mut Breaches,
    ) -> Result<Judgement, NoMemory>
        ensures said { IfOk result (λ j. j
            ≡ record { at = at; kind = spec.known (local_in name.now self.now.names) }) }
        ensures broken { OnOk result (breaches.new
            ≡ breaches.old
            ++ unless_some (local_in name.now self.now.names) at CheckKind.UnknownName) }
    {
        let found = self.local(name);
        want_true(breaches, found.is_some(), at, CheckKind::UnknownName)?;
        Ok(Judgement {
            at,
            kind: known(found),
        })
    }

    /// The place and the kind of an expression; the rules that it breaks are added.
    pub(crate) fn judge(&self, e: &Expr, breaches: &mut Breaches) -> Result<Judgement, NoMemory>
        ensures said { IfOk result (λ j. j ≡ judgement (tree.tree e.now) self.now) }
        ensures broken { OnOk result (breaches.new
            ≡ breaches.old ++ spec.faults (tree.tree e.now) self.now) }
    {
        match e {
            Expr::Number { at, .. } => Ok(judged(*at, FieldKind::Int)),
            Expr::Quoted { at, .. } => Ok(judged(*at, FieldKind::Text)),
            Expr::Constant { at, constant } => Ok(judged(*at, constant_kind(*constant))),
            Expr::Field {
                at,
                holder,
                name_at,
                name,
                ..
            } => self.judge_field(*holder, name, *at, *name_at, breaches),
            Expr::Name { at, name } => self.judge_name(name, *at, breaches),
            Expr::Call {
                at,
                function,
                argument,
                ..
            } => {
                let inner = self.judge(argument.get(), breaches)?;
                self.want_argument(*function, argument.get(), inner, breaches)?;
                Ok(judged(*at, call_kind(*function)))
            }
            Expr::Paren { open_at, inner, .. } => {
                let inner = self.judge(inner.get(), breaches)?;
                Ok(Judgement {
                    at: *open_at,
                    kind: inner.kind,
                })
            }
            Expr::Prefix { at, op, operand } => {
                let inner = self.judge(operand.get(), breaches)?;
                want(breaches, prefix_kind(*op), inner)?;
                Ok(judged(*at, prefix_kind(*op)))
            }
            Expr::Infix {
                left,
                op,
                right,
                ..
            } => {
                let left = self.judge(left.get(), breaches)?;
                let right = self.judge(right.get(), breaches)?;
                want_operands(breaches, taken_by(*op), left, right)?;
                Ok(judged(left.at, made_by(*op)))
            }
        }
    }
}

fn judged(at: u32, kind: FieldKind) -> Judgement
    ensures { result ≡ record { at = at; kind = Some kind } }
{
    Judgement {
        at,
        kind: Some(kind),
    }
}

fn known(found: Option<Option<FieldKind>>) -> Option<FieldKind>
    ensures { result ≡ spec.known found }
{
    match found {
        None => None,
        Some(kind) => kind,
    }
}
