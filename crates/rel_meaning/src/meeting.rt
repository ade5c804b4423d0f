//! Whether a test is true, without a value for its truth.
ghost use Rattle.std.specs.Prelude.{◌≡◌};
ghost use Rattle.rows.specs.RowSeen.{seen};
ghost use Rattle.rel_meaning.specs.Eval.{compare_values, eval};
ghost use Rattle.rel_meaning.specs.Expression.{expression_of};
ghost use Rattle.rel_meaning.specs.Meaning.{is_true};
ghost use Rattle.rel_meaning.specs.Under.{IsSafe, IsTyped, under};

use crate::expr::holds;
use crate::view::value_of;
use crate::{CompareOp, Expr};
use rows::{RowView, ValueView, compare_views};

// Whether a comparison of two values is true.
fn is_so(op: CompareOp, first: &ValueView<'_>, second: &ValueView<'_>) -> bool
    ensures { result ≡ is_true (compare_values op (seen first.now) (seen second.now)) }
{
    match (first, second) {
        (ValueView::Number(a), ValueView::Number(b)) => holds(op, a.cmp(b)),
        (ValueView::Null, _) | (_, ValueView::Null) => false,
        _ => holds(op, compare_views(*first, *second)),
    }
}

// The value of an operand: of a column or a number at once.
fn operand<'a>(expr: &'a Expr, row: &RowView<'a>, var: u32) -> ValueView<'a>
    requires { IsSafe var row.now (expression_of expr.now) }
    ensures { seen result ≡ eval (expression_of expr.now) (under var row.now) }
{
    match expr {
        Expr::Number(number) => ValueView::Number(*number),
        Expr::Column { col, .. } => row.field(*col),
        _ => value_of(expr, row, var),
    }
}

// Whether a test whose parts can be computed is true.
#[tactic(auto, using(crate::proofs::Truths::true_both, crate::proofs::Truths::true_either))]
fn is_met<'a>(expr: &'a Expr, row: &RowView<'a>, var: u32) -> bool
    requires { IsSafe var row.now (expression_of expr.now) }
    ensures { result ≡ is_true (eval (expression_of expr.now) (under var row.now)) }
{
    match expr {
        Expr::Compare { op, left, right } => {
            let first = operand(left, row, var);
            let second = operand(right, row, var);
            is_so(*op, &first, &second)
        }
        Expr::And { left, right } => is_met(left, row, var) && is_met(right, row, var),
        Expr::Or { left, right } => is_met(left, row, var) || is_met(right, row, var),
        _ => matches!(value_of(expr, row, var), ValueView::Truth(true)),
    }
}

/// Whether a test is true under the row of a variable, where its bytes lie. It takes no memory.
pub fn meets_view<'a>(expr: &'a Expr, row: &RowView<'a>, var: u32) -> bool
    requires { IsTyped var row.now (expression_of expr.now) }
    ensures { result ≡ is_true (eval (expression_of expr.now) (under var row.now)) }
{
    is_met(expr, row, var)
}
