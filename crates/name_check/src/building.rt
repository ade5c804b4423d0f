ghost use Rattle.std.specs.Prelude.{◌≡◌, IfOk};
ghost use Rattle.rel_meaning.specs.Expression.{expression_of};
ghost use Rattle.name_check.specs.Built.{built_before, built_between};

use postquel_tokens::{BinaryOp, UnaryOp};
use rel_meaning::{ArithOp, CompareOp, Expr};
use std::alloc::{AllocError, Global};

pub(crate) fn built_before(alloc: Global, op: UnaryOp, operand: Expr) -> Result<Expr, AllocError>
    ensures { IfOk result (λ e. expression_of e ≡ built_before op (expression_of operand)) }
{
    let operand = Box::new(alloc, operand)?;
    Ok(match op {
        UnaryOp::Not => Expr::Not(operand),
        UnaryOp::Negate => Expr::Negate(operand),
    })
}

pub(crate) fn built_between(
    alloc: Global,
    op: BinaryOp,
    left: Expr,
    right: Expr,
) -> Result<Expr, AllocError>
    ensures { IfOk result (λ e. expression_of e ≡ built_between op (expression_of left) (expression_of right)) }
{
    let left = Box::new(alloc, left)?;
    let right = Box::new(alloc, right)?;
    Ok(match op {
        BinaryOp::Or => Expr::Or { left, right },
        BinaryOp::And => Expr::And { left, right },
        BinaryOp::Equal => Expr::Compare {
            op: CompareOp::Equal,
            left,
            right,
        },
        BinaryOp::NotEqual => Expr::Compare {
            op: CompareOp::NotEqual,
            left,
            right,
        },
        BinaryOp::Less => Expr::Compare {
            op: CompareOp::Less,
            left,
            right,
        },
        BinaryOp::AtMost => Expr::Compare {
            op: CompareOp::AtMost,
            left,
            right,
        },
        BinaryOp::More => Expr::Compare {
            op: CompareOp::More,
            left,
            right,
        },
        BinaryOp::AtLeast => Expr::Compare {
            op: CompareOp::AtLeast,
            left,
            right,
        },
        BinaryOp::Add => Expr::Arith {
            op: ArithOp::Add,
            left,
            right,
        },
        BinaryOp::Sub => Expr::Arith {
            op: ArithOp::Sub,
            left,
            right,
        },
        BinaryOp::Mul => Expr::Arith {
            op: ArithOp::Mul,
            left,
            right,
        },
    })
}
