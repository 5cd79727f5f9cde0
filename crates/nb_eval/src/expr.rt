//! The value of an expression.
ghost use Rattle.std.specs.Prelude.{◌≡◌, Some, option_copied};
ghost use Rattle.nb_eval.specs.Expressions as spec;
ghost use Rattle.nb_eval.specs.Expressions.{constant_value, number_or_zero, call_value, value_of, whole_of, text_of, truth_of, row_at};
ghost use Rattle.nb_eval.specs.Values as values;
ghost use Rattle.nb_eval.specs.Values.{Gives};
ghost use Rattle.nb_eval.specs.Worlds.{world_of};
ghost use Rattle.nb_script.specs.Tree.{tree, row_name};

use crate::find::{saga_value, value_in};
use crate::scene::{Scene, State};
use crate::stop::Stop;
use crate::values::{applied, measured, short, shown, text, truth, unary, whole};
use nb_base::{Copied, Text, Value};
use nb_script::expr::{Binary, Constant, Expr, Function, Holder};
use nb_script::stmt::RowName;
use std::alloc::Global;

/// A copy of a value, where it was found.
fn found(value: Option<&Value>) -> Result<Value, Stop>
    ensures { Gives result (values.found (option_copied value.entry)) }
{
    match value {
        Some(v) => Ok(v.copy()?),
        None => Err(Stop::Wrong),
    }
}

/// A row's name, which is the result of a `++`.
fn row_name(value: Value) -> Result<Text, Stop>
    ensures { Gives result (spec.row_name value) }
{
    let name = text(value)?;
    short(name)
}

impl Scene {
    fn constant(&self, constant: Constant) -> Result<Value, Stop>
        ensures { Gives result (values.found (Some (constant_value constant (world_of self.now)))) }
    {
        match constant {
            Constant::True => Ok(Value::Bool(true)),
            Constant::False => Ok(Value::Bool(false)),
            Constant::Retries => Ok(Value::Int(i64::from(self.round))),
            Constant::Now => Ok(Value::Int(self.moment.seconds() as i64)),
            Constant::Sent => match self.sent {
                Some(moment) => Ok(Value::Int(moment.seconds() as i64)),
                None => Ok(Value::Int(-1)),
            },
            Constant::Id => Ok(Value::Text(self.id.copy()?)),
        }
    }

    fn field(&self, holder: Holder, name: &Text, state: &State) -> Result<Value, Stop>
        ensures { Gives result (spec.field_value holder name.now (world_of self.now) state.now) }
    {
        match holder {
            Holder::Message => found(value_in(name, self.fields.as_slice())),
            Holder::Saga => found(saga_value(name, &state.saga)),
        }
    }

    /// The number of a row, or 0 where there is none.
    pub(crate) fn number_or_zero(&self, name: &Text, state: &State) -> i64
        ensures { result ≡ number_or_zero name.now (world_of self.now) state.now }
    {
        self.row_now(name, state).unwrap_or(0)
    }

    fn call(
        &self,
        alloc: Global,
        function: Function,
        state: &State,
        v: Value,
    ) -> Result<Value, Stop>
        ensures { Gives result (call_value function (world_of self.now) state.now v) }
    {
        match function {
            Function::Row => {
                let name = row_name(v)?;
                Ok(Value::Int(self.number_or_zero(&name, state)))
            }
            Function::Has => {
                let name = row_name(v)?;
                Ok(Value::Bool(self.row_now(&name, state).is_some()))
            }
            Function::Text => shown(alloc, &v),
            Function::Len => measured(&v),
        }
    }

    /// The value of an expression.
    pub(crate) fn value(&self, alloc: Global, state: &State, e: &Expr) -> Result<Value, Stop>
        ensures { Gives result (value_of (tree e.now) (world_of self.now) state.now) }
    {
        match e {
            Expr::Number { value, .. } => Ok(Value::Int(*value)),
            Expr::Quoted { text, .. } => Ok(Value::Text(text.copy()?)),
            Expr::Constant { constant, .. } => self.constant(*constant),
            Expr::Field { holder, name, .. } => self.field(*holder, name, state),
            Expr::Name { name, .. } => found(value_in(name, state.names.as_slice())),
            Expr::Call {
                function,
                argument,
                ..
            } => {
                let v = self.value(alloc, state, argument.get())?;
                self.call(alloc, *function, state, v)
            }
            Expr::Paren { inner, .. } => self.value(alloc, state, inner.get()),
            Expr::Prefix { op, operand, .. } => {
                let v = self.value(alloc, state, operand.get())?;
                unary(*op, &v)
            }
            Expr::Infix {
                left,
                op,
                right,
                ..
            } => {
                let v = self.value(alloc, state, left.get())?;
                match op {
                    Binary::And => {
                        if truth(&v)? {
                            let w = self.value(alloc, state, right.get())?;
                            Ok(Value::Bool(truth(&w)?))
                        } else {
                            Ok(Value::Bool(false))
                        }
                    }
                    Binary::Or => {
                        if truth(&v)? {
                            Ok(Value::Bool(true))
                        } else {
                            let w = self.value(alloc, state, right.get())?;
                            Ok(Value::Bool(truth(&w)?))
                        }
                    }
                    _ => {
                        let w = self.value(alloc, state, right.get())?;
                        applied(*op, v, w)
                    }
                }
            }
        }
    }

    pub(crate) fn whole_of(&self, alloc: Global, state: &State, e: &Expr) -> Result<i64, Stop>
        ensures { Gives result (whole_of (tree e.now) (world_of self.now) state.now) }
    {
        let v = self.value(alloc, state, e)?;
        whole(&v)
    }

    pub(crate) fn text_of(&self, alloc: Global, state: &State, e: &Expr) -> Result<Text, Stop>
        ensures { Gives result (text_of (tree e.now) (world_of self.now) state.now) }
    {
        let v = self.value(alloc, state, e)?;
        text(v)
    }

    pub(crate) fn truth_of(&self, alloc: Global, state: &State, e: &Expr) -> Result<bool, Stop>
        ensures { Gives result (truth_of (tree e.now) (world_of self.now) state.now) }
    {
        let v = self.value(alloc, state, e)?;
        truth(&v)
    }

    /// The name of the row that a statement changes.
    pub(crate) fn row_at(&self, alloc: Global, state: &State, row: &RowName) -> Result<Text, Stop>
        ensures { Gives result (row_at (row_name row.now) (world_of self.now) state.now) }
    {
        let v = self.value(alloc, state, &row.name)?;
        row_name(v)
    }
}
