//! Tests of rows that are held.
ghost use Rattle.std.specs.Prelude.{◌≡◌, IfOk, map};
ghost use Rattle.rel_meaning.specs.Expression.{expression_of};
ghost use Rattle.rows.specs.Layouts.{IsRowIn, column_in};
ghost use Rattle.plan_tree.specs.Conjuncts.{all_met};
ghost use Rattle.plan_tree.specs.WellFormed.{AreTests};

use rel_meaning::{Expr, evaluate};
use rows::{Layout, Row, Value};
use std::alloc::{AllocError, Global};

// Whether all tests are true for a row of the layout.
pub(crate) fn are_true(
    alloc: Global,
    tests: &[Expr],
    row: &Row,
    layout: &Layout,
) -> Result<bool, AllocError>
    requires tests { AreTests layout.now (map expression_of tests.now) }
    requires row { IsRowIn layout.now row.now }
    ensures { IfOk result (λ so. so ≡ all_met (map expression_of tests.now) (column_in layout.now row.now)) }
{
    for test in tests {
        let value = evaluate(alloc, test, row, layout)?;
        if !matches!(value, Value::Truth(true)) {
            return Ok(false);
        }
    }
    Ok(true)
}
