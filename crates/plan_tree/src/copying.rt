ghost use Rattle.std.specs.Prelude.{◌≡◌, IfOk, map};
ghost use Rattle.std.specs.Option.{option_map};
ghost use Rattle.rel_meaning.specs.Expression.{expression_of, output_of, question_of};

use crate::ExprList;
use lists::{Duplicate, Sequence};
use rel_meaning::{Expr, Query, Target, TargetList, Var, VarList};
use std::alloc::{AllocError, Global};

/// A copy of an expression. Err is want of memory, here and in the calls below.
#[cycle(copies)]
pub fn copy_expr(alloc: Global, expr: &Expr) -> Result<Expr, AllocError>
    ensures { IfOk result (λ copy. expression_of copy ≡ expression_of expr.now) }
{
    Ok(match expr {
        Expr::Number(number) => Expr::Number(*number),
        Expr::Word(text) => Expr::Word(text.duplicate(alloc)?),
        Expr::Truth(truth) => Expr::Truth(*truth),
        Expr::Column { var, col } => Expr::Column {
            var: *var,
            col: *col,
        },
        Expr::Negate(inner) => Expr::Negate(copy_boxed(alloc, inner)?),
        Expr::Not(inner) => Expr::Not(copy_boxed(alloc, inner)?),
        Expr::Arith { op, left, right } => Expr::Arith {
            op: *op,
            left: copy_boxed(alloc, left)?,
            right: copy_boxed(alloc, right)?,
        },
        Expr::Compare { op, left, right } => Expr::Compare {
            op: *op,
            left: copy_boxed(alloc, left)?,
            right: copy_boxed(alloc, right)?,
        },
        Expr::And { left, right } => Expr::And {
            left: copy_boxed(alloc, left)?,
            right: copy_boxed(alloc, right)?,
        },
        Expr::Or { left, right } => Expr::Or {
            left: copy_boxed(alloc, left)?,
            right: copy_boxed(alloc, right)?,
        },
        Expr::IsNull { expr, negated } => Expr::IsNull {
            expr: copy_boxed(alloc, expr)?,
            negated: *negated,
        },
    })
}

// A copy of an expression in a box of its own.
#[cycle(copies)]
fn copy_boxed(alloc: Global, expr: &Expr) -> Result<Box<Expr>, AllocError>
    ensures { IfOk result (λ copy. expression_of copy.value ≡ expression_of expr.now) }
{
    Ok(Box::new(alloc, copy_expr(alloc, expr)?)?)
}

/// Copies of expressions, in order.
pub fn copy_exprs(alloc: Global, exprs: &ExprList) -> Result<ExprList, AllocError>
    ensures { IfOk result (λ copies. map expression_of copies ≡ map expression_of exprs.now) }
{
    let mut copies = Vec::with_capacity(alloc, exprs.len())?;
    for expr in exprs.items() {
        copies.push(copy_expr(alloc, expr)?)?;
    }
    Ok(Sequence::from_vec(copies))
}

// A copy of a test, where there is one.
fn copy_test(alloc: Global, test: &Option<Expr>) -> Result<Option<Expr>, AllocError>
    ensures { IfOk result (λ copy. option_map expression_of copy ≡ option_map expression_of test.now) }
{
    Ok(match test {
        None => None,
        Some(expr) => Some(copy_expr(alloc, expr)?),
    })
}

// A copy of a target.
fn copy_target(alloc: Global, target: &Target) -> Result<Target, AllocError>
    ensures { IfOk result (λ copy. output_of copy ≡ output_of target.now) }
{
    Ok(Target {
        name: target.name.duplicate(alloc)?,
        expr: copy_expr(alloc, &target.expr)?,
    })
}

/// Copies of targets, in order.
pub fn copy_targets(alloc: Global, targets: &TargetList) -> Result<TargetList, AllocError>
    ensures { IfOk result (λ copies. map output_of copies ≡ map output_of targets.now) }
{
    let mut copies = Vec::with_capacity(alloc, targets.len())?;
    for target in targets.items() {
        copies.push(copy_target(alloc, target)?)?;
    }
    Ok(Sequence::from_vec(copies))
}

// A copy of a range variable.
fn copy_var(alloc: Global, var: &Var) -> Result<Var, AllocError>
    ensures { IfOk result (λ copy. copy ≡ var.now) }
{
    Ok(Var {
        name: var.name.duplicate(alloc)?,
        relation: var.relation,
    })
}

// Copies of range variables, in order.
fn copy_vars(alloc: Global, vars: &VarList) -> Result<VarList, AllocError>
    ensures { IfOk result (λ copies. copies ≡ vars.now) }
{
    let mut copies = Vec::with_capacity(alloc, vars.len())?;
    for var in vars.items() {
        copies.push(copy_var(alloc, var)?)?;
    }
    Ok(Sequence::from_vec(copies))
}

/// Copies of items that need no memory of their own, in order.
pub fn copy_plain<T: Copy + Drop>(alloc: Global, items: &[T]) -> Result<Sequence<T>, AllocError>
    ensures { IfOk result (λ copies. copies ≡ items.now) }
{
    let mut copies = Vec::with_capacity(alloc, items.len())?;
    for item in items {
        copies.push(*item)?;
    }
    Ok(Sequence::from_vec(copies))
}

/// A copy of a query.
pub fn copy_query(alloc: Global, query: &Query) -> Result<Query, AllocError>
    ensures { IfOk result (λ copy. question_of copy ≡ question_of query.now) }
{
    Ok(Query {
        vars: copy_vars(alloc, &query.vars)?,
        targets: copy_targets(alloc, &query.targets)?,
        test: copy_test(alloc, &query.test)?,
        unique: query.unique,
        keys: copy_plain(alloc, query.keys.items())?,
    })
}
