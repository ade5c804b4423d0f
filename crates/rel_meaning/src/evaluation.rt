ghost use Rattle.std.specs.Prelude.{◌≡◌, IfOk, IsSome};
ghost use Rattle.rel_meaning.specs.Eval.{eval, negate_value, arith_values, not_value, and_values, or_values};
ghost use Rattle.rel_meaning.specs.Expression.{expression_of};
ghost use Rattle.rows.specs.Layouts.{column_in, column_type, IsRowIn};
ghost use Rattle.rel_meaning.specs.Typing.{type_of, CanNegate, CanCompute};

use crate::expr::compared;
use crate::{ArithOp, Expr};
use lists::Duplicate;
use rows::{Layout, Row, Value, place_of};
use std::alloc::{AllocError, Global};

fn negated(value: Value) -> Value
    requires { CanNegate value }
    ensures { result ≡ negate_value value }
{
    match value {
        Value::Number(number) => Value::Number(-number),
        _ => Value::Null,
    }
}

fn computed(op: ArithOp, left: Value, right: Value) -> Value
    requires { CanCompute op left right }
    ensures { result ≡ arith_values op left right }
{
    match (left, right) {
        (Value::Number(a), Value::Number(b)) => Value::Number(match op {
            ArithOp::Add => a + b,
            ArithOp::Sub => a - b,
            ArithOp::Mul => a * b,
        }),
        _ => Value::Null,
    }
}

fn opposite(value: Value) -> Value
    ensures { result ≡ not_value value }
{
    match value {
        Value::Truth(truth) => Value::Truth(!truth),
        _ => Value::Null,
    }
}

fn both(left: Value, right: Value) -> Value
    ensures { result ≡ and_values left right }
{
    match (left, right) {
        (Value::Truth(false), _) | (_, Value::Truth(false)) => Value::Truth(false),
        (Value::Truth(true), Value::Truth(true)) => Value::Truth(true),
        _ => Value::Null,
    }
}

fn either(left: Value, right: Value) -> Value
    ensures { result ≡ or_values left right }
{
    match (left, right) {
        (Value::Truth(true), _) | (_, Value::Truth(true)) => Value::Truth(true),
        (Value::Truth(false), Value::Truth(false)) => Value::Truth(false),
        _ => Value::Null,
    }
}

/// The value of a variable's column in a row of the layout, and null where the layout has no such column.
pub fn column_value(
    alloc: Global,
    row: &Row,
    layout: &Layout,
    var: u32,
    col: u32,
) -> Result<Value, AllocError>
    requires { IsRowIn layout.now row.now }
    ensures { IfOk result (λ value. value ≡ column_in layout.now row.now var col) }
{
    let _width = row.len();
    match place_of(layout.items(), var, col) {
        Some(place) => row.get(place).duplicate(alloc),
        None => Ok(Value::Null),
    }
}

/// The value of an expression under a row of the layout.
pub fn evaluate(alloc: Global, expr: &Expr, row: &Row, layout: &Layout) -> Result<Value, AllocError>
    requires typed { IsSome (type_of (expression_of expr.now) (column_type layout.now)) }
    requires row { IsRowIn layout.now row.now }
    ensures { IfOk result (λ value. value ≡ eval (expression_of expr.now) (column_in layout.now row.now)) }
{
    match expr {
        Expr::Number(number) => Ok(Value::Number(*number)),
        Expr::Word(word) => Ok(Value::Word(word.duplicate(alloc)?)),
        Expr::Truth(truth) => Ok(Value::Truth(*truth)),
        Expr::Column { var, col } => column_value(alloc, row, layout, *var, *col),
        Expr::Negate(operand) => Ok(negated(evaluate(alloc, operand, row, layout)?)),
        Expr::Not(operand) => Ok(opposite(evaluate(alloc, operand, row, layout)?)),
        Expr::Arith { op, left, right } => {
            let first = evaluate(alloc, left, row, layout)?;
            let second = evaluate(alloc, right, row, layout)?;
            Ok(computed(*op, first, second))
        }
        Expr::Compare { op, left, right } => {
            let first = evaluate(alloc, left, row, layout)?;
            let second = evaluate(alloc, right, row, layout)?;
            Ok(compared(*op, &first, &second))
        }
        Expr::And { left, right } => {
            let first = evaluate(alloc, left, row, layout)?;
            let second = evaluate(alloc, right, row, layout)?;
            Ok(both(first, second))
        }
        Expr::Or { left, right } => {
            let first = evaluate(alloc, left, row, layout)?;
            let second = evaluate(alloc, right, row, layout)?;
            Ok(either(first, second))
        }
        Expr::IsNull { expr, negated } => {
            let value = evaluate(alloc, expr, row, layout)?;
            Ok(Value::Truth(matches!(value, Value::Null) != *negated))
        }
    }
}
