//! The operands of the topmost chain of `and` of a query's test.
ghost use Rattle.std.specs.Prelude.{◌≡◌, ◌++◌, map, IfOk, OnOk};
ghost use Rattle.std.specs.Option.{option_map};
ghost use Rattle.rel_meaning.specs.Expression.{expression_of};
ghost use Rattle.plan_tree.specs.Conjuncts.{conjuncts, operands};
ghost use Rattle.seq_optimizer.specs.Compared.{expression_at};

use crate::NoMemory;
use rel_meaning::Expr;
use std::alloc::Global;

// Adds the operands of a chain.
fn put_operands<'a>(expr: &'a Expr, out: &mut Vec<&'a Expr>) -> Result<(), NoMemory>
    ensures { OnOk result (map expression_at out.new.items ≡ map expression_at out.old.items ++ operands (expression_of expr.now)) }
{
    match expr {
        Expr::And { left, right } => {
            put_operands(left, out)?;
            out.push(right)?;
        }
        _ => out.push(expr)?,
    }
    Ok(())
}

// The conjuncts of a test, in the order of the text.
pub(crate) fn conjuncts(alloc: Global, test: &Option<Expr>) -> Result<Vec<&Expr>, NoMemory>
    ensures { IfOk result (λ v. map expression_at v.items ≡ conjuncts (option_map expression_of test.now)) }
{
    let mut conjuncts = Vec::new(alloc);
    if let Some(test) = test {
        put_operands(test, &mut conjuncts)?;
    }
    Ok(conjuncts)
}
