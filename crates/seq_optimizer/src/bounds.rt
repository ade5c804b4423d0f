ghost use Rattle.std.specs.Prelude.{◌≡◌, ◌++◌, ◌∷◌, [], IfOk, OnOk};
ghost use Rattle.std.specs.Option.{option_map};
ghost use Rattle.rel_meaning.specs.Expression.{expression_of, question_of};
ghost use Rattle.rel_meaning.specs.Typing.{type_of};
ghost use Rattle.rows.specs.declared.plain.LayoutColumn.{LayoutColumn};
ghost use Rattle.plan_tree.specs.Keys.{column_ref};
ghost use Rattle.plan_tree.specs.Conjuncts.{conjuncts};
ghost use Rattle.seq_optimizer.specs.Bounds.{bound_of, bound_op, bounds_of, compared, comparison_of, constant_value, signed_value, IsFitNumber, IsFitConstant, IsFitComparison, is_constant, is_fixing, is_number, turned, IsTyped};
ghost use Rattle.seq_optimizer.specs.Compared.{compared_to};

use crate::NoMemory;
use crate::conjuncts::conjuncts;
use lists::{Duplicate, Sequence};
use rel_meaning::{CompareOp, Expr, Query};
use rows::{Bound, BoundList, BoundOp, ColumnRef, Value};
use std::alloc::Global;

// A column compared with a constant, with the column on the left of the operator.
#[derive(Clone, Copy)]
pub(crate) struct Comparison<'a> {
    pub column: ColumnRef,
    pub op: CompareOp,
    pub constant: &'a Expr,
}

// The column that an expression is, if it is one.
pub(crate) fn plain_column(expr: &Expr) -> Option<ColumnRef>
    ensures { result ≡ column_ref (expression_of expr.now) }
{
    match expr {
        Expr::Column { var, col } => Some(ColumnRef {
            var: *var,
            col: *col,
        }),
        _ => None,
    }
}

fn is_number(expr: &Expr) -> bool
    ensures { result ≡ is_number (expression_of expr.now) }
{
    matches!(expr, Expr::Number(_))
}

// Whether an expression is a number, with a sign or not, a text or a truth value.
fn is_constant(expr: &Expr) -> bool
    ensures { result ≡ is_constant (expression_of expr.now) }
{
    match expr {
        Expr::Number(_) | Expr::Word(_) | Expr::Truth(_) => true,
        Expr::Negate(operand) => is_number(operand),
        _ => false,
    }
}

// The operator that says the same of two operands that change places.
fn turned(op: CompareOp) -> CompareOp
    ensures { result ≡ turned op }
{
    match op {
        CompareOp::Equal => CompareOp::Equal,
        CompareOp::NotEqual => CompareOp::NotEqual,
        CompareOp::Less => CompareOp::More,
        CompareOp::AtMost => CompareOp::AtLeast,
        CompareOp::More => CompareOp::Less,
        CompareOp::AtLeast => CompareOp::AtMost,
    }
}

// The comparison of a column with a constant, if the operands are that in this order.
fn compared<'a>(op: CompareOp, column: &'a Expr, constant: &'a Expr) -> Option<Comparison<'a>>
    ensures { option_map compared_to result ≡ compared op (column_ref (expression_of column.now)) (expression_of constant.now) }
{
    let column = plain_column(column)?;
    if is_constant(constant) {
        Some(Comparison {
            column,
            op,
            constant,
        })
    } else {
        None
    }
}

// The comparison of a column with a constant that a conjunct is, if it is one.
pub(crate) fn comparison_of(expr: &Expr) -> Option<Comparison<'_>>
    ensures { option_map compared_to result ≡ comparison_of (expression_of expr.now) }
{
    let Expr::Compare { op, left, right } = expr else {
        return None;
    };
    match compared(*op, left, right) {
        Some(comparison) => Some(comparison),
        None => compared(turned(*op), right, left),
    }
}

// Whether a conjunct is a bound by `=`.
pub(crate) fn is_fixing(expr: &Expr) -> bool
    ensures { result ≡ is_fixing (expression_of expr.now) }
{
    match comparison_of(expr) {
        Some(comparison) => matches!(comparison.op, CompareOp::Equal),
        None => false,
    }
}

fn bound_op(op: CompareOp) -> Option<BoundOp>
    ensures { result ≡ bound_op op }
{
    match op {
        CompareOp::Equal => Some(BoundOp::Equal),
        CompareOp::NotEqual => None,
        CompareOp::Less => Some(BoundOp::Less),
        CompareOp::AtMost => Some(BoundOp::AtMost),
        CompareOp::More => Some(BoundOp::More),
        CompareOp::AtLeast => Some(BoundOp::AtLeast),
    }
}

// The number with its sign turned round.
fn signed_value(expr: &Expr) -> Value
    requires { IsFitNumber (expression_of expr.now) }
    ensures { result ≡ signed_value (expression_of expr.now) }
{
    match expr {
        Expr::Number(number) => Value::Number(-*number),
        _ => Value::Null,
    }
}

// The value of a constant.
fn constant_value(alloc: Global, expr: &Expr) -> Result<Value, NoMemory>
    requires { IsFitConstant (expression_of expr.now) }
    ensures { IfOk result (λ value. value ≡ constant_value (expression_of expr.now)) }
{
    match expr {
        Expr::Number(number) => Ok(Value::Number(*number)),
        Expr::Word(word) => Ok(Value::Word(word.duplicate(alloc)?)),
        Expr::Truth(truth) => Ok(Value::Truth(*truth)),
        Expr::Negate(operand) => Ok(signed_value(operand)),
        _ => Ok(Value::Null),
    }
}

// The bound that a conjunct sets to a column of a variable, if it sets one.
fn bound_of(alloc: Global, conjunct: &Expr, var: u32, col: u32) -> Result<Option<Bound>, NoMemory>
    requires { IsFitComparison (expression_of conjunct.now) }
    ensures { IfOk result (λ bound. bound ≡ bound_of var col (expression_of conjunct.now)) }
{
    let Some(comparison) = comparison_of(conjunct) else {
        return Ok(None);
    };
    if comparison.column.var != var || comparison.column.col != col {
        return Ok(None);
    }
    let Some(op) = bound_op(comparison.op) else {
        return Ok(None);
    };
    let value = constant_value(alloc, comparison.constant)?;
    Ok(Some(Bound { op, value }))
}

// Adds the bound that a conjunct sets to a column of a variable.
fn put_bound(
    alloc: Global,
    conjunct: &Expr,
    var: u32,
    col: u32,
    out: &mut Vec<Bound>,
) -> Result<(), NoMemory>
    requires { IsFitComparison (expression_of conjunct.now) }
    ensures { OnOk result (out.new.items ≡ out.old.items ++ bounds_of var col (expression_of conjunct.now ∷ [])) }
{
    if let Some(bound) = bound_of(alloc, conjunct, var, col)? {
        out.push(bound)?;
    }
    Ok(())
}

/// The bounds that the conjuncts of a query set to a column of a range variable, in the order of the text. The value of
/// each is that of the constant, and the operator is turned round where the constant stands first. An `Err` is want of
/// memory.
pub fn bounds_of(alloc: Global, query: &Query, var: u32, column: u32) -> Result<BoundList, NoMemory>
    requires { IsTyped (question_of query.now).test }
    ensures { IfOk result (λ bounds. bounds ≡ bounds_of var column (conjuncts (question_of query.now).test)) }
{
    let conjuncts = conjuncts(alloc, &query.test)?;
    let mut bounds = Vec::new(alloc);
    for conjunct in &conjuncts {
        put_bound(alloc, conjunct, var, column, &mut bounds)?;
    }
    Ok(Sequence::from_vec(bounds))
}
