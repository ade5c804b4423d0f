//! Values of expressions under a row where its bytes lie.
ghost use Rattle.std.specs.Prelude.{◌≡◌};
ghost use Rattle.rows.specs.RowSeen.{seen};
ghost use Rattle.rel_meaning.specs.Eval.{eval, negate_value, arith_values, compare_values, not_value, and_values, or_values};
ghost use Rattle.rel_meaning.specs.Expression.{expression_of};
ghost use Rattle.rel_meaning.specs.Typing.{CanNegate, CanCompute};
ghost use Rattle.rel_meaning.specs.Under.{IsSafe, IsTyped, under};

use crate::expr::holds;
use crate::{ArithOp, CompareOp, Expr};
use rows::{RowView, ValueView, compare_views};

fn negated(value: ValueView<'_>) -> ValueView<'_>
    requires { CanNegate (seen value) }
    ensures { seen result ≡ negate_value (seen value.entry) }
{
    match value {
        ValueView::Number(number) => ValueView::Number(-number),
        _ => ValueView::Null,
    }
}

fn computed<'a>(op: ArithOp, left: ValueView<'a>, right: ValueView<'a>) -> ValueView<'a>
    requires { CanCompute op (seen left) (seen right) }
    ensures { seen result ≡ arith_values op (seen left.entry) (seen right.entry) }
{
    match (left, right) {
        (ValueView::Number(a), ValueView::Number(b)) => ValueView::Number(match op {
            ArithOp::Add => a + b,
            ArithOp::Sub => a - b,
            ArithOp::Mul => a * b,
        }),
        _ => ValueView::Null,
    }
}

// The truth of a comparison of two values, and null where one is null.
fn compared<'a>(op: CompareOp, left: ValueView<'a>, right: ValueView<'a>) -> ValueView<'a>
    ensures { seen result ≡ compare_values op (seen left.entry) (seen right.entry) }
{
    if matches!(left, ValueView::Null) || matches!(right, ValueView::Null) {
        return ValueView::Null;
    }
    ValueView::Truth(holds(op, compare_views(left, right)))
}

fn opposite(value: ValueView<'_>) -> ValueView<'_>
    ensures { seen result ≡ not_value (seen value.entry) }
{
    match value {
        ValueView::Truth(truth) => ValueView::Truth(!truth),
        _ => ValueView::Null,
    }
}

fn both<'a>(left: ValueView<'a>, right: ValueView<'a>) -> ValueView<'a>
    ensures { seen result ≡ and_values (seen left.entry) (seen right.entry) }
{
    match (left, right) {
        (ValueView::Truth(false), _) | (_, ValueView::Truth(false)) => ValueView::Truth(false),
        (ValueView::Truth(true), ValueView::Truth(true)) => ValueView::Truth(true),
        _ => ValueView::Null,
    }
}

fn either<'a>(left: ValueView<'a>, right: ValueView<'a>) -> ValueView<'a>
    ensures { seen result ≡ or_values (seen left.entry) (seen right.entry) }
{
    match (left, right) {
        (ValueView::Truth(true), _) | (_, ValueView::Truth(true)) => ValueView::Truth(true),
        (ValueView::Truth(false), ValueView::Truth(false)) => ValueView::Truth(false),
        _ => ValueView::Null,
    }
}

// The value of an expression whose parts can be computed.
pub(crate) fn value_of<'a>(expr: &'a Expr, row: &RowView<'a>, var: u32) -> ValueView<'a>
    requires { IsSafe var row.now (expression_of expr.now) }
    ensures { seen result ≡ eval (expression_of expr.now) (under var row.now) }
{
    match expr {
        Expr::Number(number) => ValueView::Number(*number),
        Expr::Word(word) => ValueView::Word(word.items()),
        Expr::Truth(truth) => ValueView::Truth(*truth),
        Expr::Column { col, .. } => row.field(*col),
        Expr::Negate(operand) => negated(value_of(operand, row, var)),
        Expr::Not(operand) => opposite(value_of(operand, row, var)),
        Expr::Arith { op, left, right } => {
            let first = value_of(left, row, var);
            let second = value_of(right, row, var);
            computed(*op, first, second)
        }
        Expr::Compare { op, left, right } => {
            let first = value_of(left, row, var);
            let second = value_of(right, row, var);
            compared(*op, first, second)
        }
        Expr::And { left, right } => {
            let first = value_of(left, row, var);
            let second = value_of(right, row, var);
            both(first, second)
        }
        Expr::Or { left, right } => {
            let first = value_of(left, row, var);
            let second = value_of(right, row, var);
            either(first, second)
        }
        Expr::IsNull { expr, negated } => {
            let value = value_of(expr, row, var);
            ValueView::Truth(matches!(value, ValueView::Null) != *negated)
        }
    }
}

/// The value of an expression under the row of a variable, where its bytes lie. It takes no memory.
pub fn evaluate_view<'a>(expr: &'a Expr, row: &RowView<'a>, var: u32) -> ValueView<'a>
    requires { IsTyped var row.now (expression_of expr.now) }
    ensures { seen result ≡ eval (expression_of expr.now) (under var row.now) }
{
    value_of(expr, row, var)
}
