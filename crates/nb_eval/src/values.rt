//! Values, and what the operators make of them.
ghost use Rattle.std.specs.Prelude.{◌≡◌, ◌+ℤ◌, ◌-ℤ◌, ◌*ℤ◌, neg_ℤ};
ghost use Rattle.nb_eval.specs.Values as spec;
ghost use Rattle.nb_eval.specs.Values.{Gives, in_range, short, same, order, applied, unary, shown, measured};

use crate::stop::{Limit, Stop};
use nb_base::{Text, Value};
use nb_script::expr::{Binary, Unary};
use std::alloc::Global;
use std::cmp::Ordering;

/// The most bytes of a text that a script makes, and of a row's name.
const MOST_TEXT: usize = 65536;

pub(crate) fn whole(value: &Value) -> Result<i64, Stop>
    ensures { Gives result (spec.whole value.now) }
{
    match value {
        Value::Int(n) => Ok(*n),
        _ => Err(Stop::Wrong),
    }
}

pub(crate) fn text(value: Value) -> Result<Text, Stop>
    ensures { Gives result (spec.text value) }
{
    match value {
        Value::Text(text) => Ok(text),
        _ => Err(Stop::Wrong),
    }
}

pub(crate) fn truth(value: &Value) -> Result<bool, Stop>
    ensures { Gives result (spec.truth value.now) }
{
    match value {
        Value::Bool(b) => Ok(*b),
        _ => Err(Stop::Wrong),
    }
}

pub(crate) fn sum(m: i64, n: i64) -> Result<i64, Stop>
    ensures { Gives result (in_range (m +ℤ n)) }
{
    match m.checked_add(n) {
        Some(k) => Ok(k),
        None => Err(Stop::Passed(Limit::Overflow)),
    }
}

fn difference(m: i64, n: i64) -> Result<i64, Stop>
    ensures { Gives result (in_range (m -ℤ n)) }
{
    match m.checked_sub(n) {
        Some(k) => Ok(k),
        None => Err(Stop::Passed(Limit::Overflow)),
    }
}

fn product(m: i64, n: i64) -> Result<i64, Stop>
    ensures { Gives result (in_range (m *ℤ n)) }
{
    match m.checked_mul(n) {
        Some(k) => Ok(k),
        None => Err(Stop::Passed(Limit::Overflow)),
    }
}

fn negated(n: i64) -> Result<i64, Stop>
    ensures { Gives result (in_range (neg_ℤ n)) }
{
    match n.checked_neg() {
        Some(k) => Ok(k),
        None => Err(Stop::Passed(Limit::Overflow)),
    }
}

/// A text that isn't too long.
pub(crate) fn short(text: Text) -> Result<Text, Stop>
    ensures { Gives result (short text) }
{
    if text.len() > MOST_TEXT {
        Err(Stop::Passed(Limit::TooLong))
    } else {
        Ok(text)
    }
}

fn joined(v: Value, w: Value) -> Result<Value, Stop>
    ensures { Gives result (spec.joined v w) }
{
    let left = text(v)?;
    let right = text(w)?;
    let mut joined = left.into_string();
    joined.push_str(right.as_str())?;
    let joined = Text::of_string(joined)?;
    Ok(Value::Text(short(joined)?))
}

fn same(v: &Value, w: &Value) -> Result<bool, Stop>
    ensures { Gives result (same v.now w.now) }
{
    match (v, w) {
        (Value::Int(m), Value::Int(n)) => Ok(*m == *n),
        (Value::Text(a), Value::Text(b)) => Ok(*a == *b),
        (Value::Bool(b), Value::Bool(c)) => Ok(if *b { *c } else { !*c }),
        _ => Err(Stop::Wrong),
    }
}

/// The order of two numbers, or of two texts by their bytes.
fn order(v: &Value, w: &Value) -> Result<Ordering, Stop>
    ensures { Gives result (order v.now w.now) }
{
    match (v, w) {
        (Value::Int(m), Value::Int(n)) => Ok((*m).cmp(n)),
        (Value::Text(a), Value::Text(b)) => Ok(a.cmp(b)),
        _ => Err(Stop::Wrong),
    }
}

/// What an operator with two operands makes of them, both evaluated.
pub(crate) fn applied(op: Binary, v: Value, w: Value) -> Result<Value, Stop>
    ensures { Gives result (applied op v w) }
{
    match op {
        Binary::Times => Ok(Value::Int(product(whole(&v)?, whole(&w)?)?)),
        Binary::Plus => Ok(Value::Int(sum(whole(&v)?, whole(&w)?)?)),
        Binary::Minus => Ok(Value::Int(difference(whole(&v)?, whole(&w)?)?)),
        Binary::Join => joined(v, w),
        Binary::Equal => Ok(Value::Bool(same(&v, &w)?)),
        Binary::Unequal => Ok(Value::Bool(!same(&v, &w)?)),
        Binary::Less => Ok(Value::Bool(order(&v, &w)?.is_lt())),
        Binary::LessOrEqual => Ok(Value::Bool(order(&v, &w)?.is_le())),
        Binary::Greater => Ok(Value::Bool(order(&v, &w)?.is_gt())),
        Binary::GreaterOrEqual => Ok(Value::Bool(order(&v, &w)?.is_ge())),
        Binary::And => {
            let left = truth(&v)?;
            let right = truth(&w)?;
            Ok(Value::Bool(left && right))
        }
        Binary::Or => {
            let left = truth(&v)?;
            let right = truth(&w)?;
            Ok(Value::Bool(left || right))
        }
    }
}

/// What an operator in front makes of its operand.
pub(crate) fn unary(op: Unary, v: &Value) -> Result<Value, Stop>
    ensures { Gives result (unary op v.now) }
{
    match op {
        Unary::Negative => Ok(Value::Int(negated(whole(v)?)?)),
        Unary::Not => Ok(Value::Bool(!truth(v)?)),
    }
}

/// A number in decimal digits, or `true` or `false`.
pub(crate) fn shown(alloc: Global, value: &Value) -> Result<Value, Stop>
    ensures { Gives result (shown value.now) }
{
    match value {
        Value::Int(n) => {
            let text = format!(in alloc; "{n}")?;
            Ok(Value::Text(Text::of_string(text)?))
        }
        Value::Text(_) => Err(Stop::Wrong),
        Value::Bool(true) => Ok(Value::Text(Text::new(alloc, "true")?)),
        Value::Bool(false) => Ok(Value::Text(Text::new(alloc, "false")?)),
    }
}

/// The number of bytes of a text.
pub(crate) fn measured(value: &Value) -> Result<Value, Stop>
    ensures { Gives result (measured value.now) }
{
    match value {
        Value::Text(text) => Ok(Value::Int(text.len() as i64)),
        _ => Err(Stop::Wrong),
    }
}
