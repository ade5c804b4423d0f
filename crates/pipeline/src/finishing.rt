//! From the rows of a source to the rows of a position.
ghost use Rattle.std.specs.Prelude.{◌≡◌, ℕ, List, IfOk, map};
ghost use Rattle.std.specs.List.{AllByRecursion};
ghost use Rattle.rows.specs.declared.value.Value.{Value};
ghost use Rattle.rows.specs.Layouts.{IsRowIn};
ghost use Rattle.rel_meaning.specs.Expression.{expression_of, output_of};
ghost use Rattle.rel_meaning.specs.Meaning.{layout_column};
ghost use Rattle.plan_tree.specs.Fragments.{projected, targets_of};
ghost use Rattle.plan_tree.specs.Pieces.{ending_of, piece_of, probing_of};
ghost use Rattle.plan_tree.specs.Rows.{kept};
ghost use Rattle.aggregate_op.specs.Stored.{IsPartialOf};
ghost use Rattle.plan_tree.specs.WellFormed.{AreTests, HasShape, IsEnd, IsFolded};
ghost use Rattle.pipeline.specs.Ends.{CanFinish, IsPartOf, led_to_end};
ghost use Rattle.pipeline.specs.Probes.{AreValues};
ghost use Rattle.pipeline.specs.Scans.{scanned};

use crate::chain::run_probes;
use crate::projecting::project_rows;
use crate::row_testing::are_true;
use aggregate_op::{Fold, partial};
use hash_join::Built;
use lists::Duplicate;
use plan_tree::{End, Fragment};
use rel_meaning::{Expr, TargetList, column_layout};
use rows::{ColumnList, Layout, LayoutColumnList, LayoutPart, Rows};
use std::alloc::{AllocError, Global};
use std::sync::Arc;

// The columns of a relation in a layout.
pub(crate) fn layout_columns(
    alloc: Global,
    columns: &ColumnList,
) -> Result<LayoutColumnList, AllocError>
    ensures { IfOk result (λ made. made ≡ map layout_column columns.now) }
{
    let mut made = Vec::with_capacity(alloc, columns.len())?;
    for column in columns.items() {
        made.push(column_layout(column))?;
    }
    Ok(LayoutColumnList::from_vec(made))
}

// The layout of the rows of a relation.
pub(crate) fn scanned_layout(
    alloc: Global,
    var: u32,
    columns: &ColumnList,
) -> Result<Layout, AllocError>
    ensures { IfOk result (λ layout. layout ≡ scanned var columns.now) }
{
    let mut parts = Vec::new(alloc);
    let columns = layout_columns(alloc, columns)?;
    parts.push(LayoutPart { var, columns })?;
    Ok(Layout::from_vec(parts))
}

// Copies of the rows for which the tests are true.
fn passing_rows(
    alloc: Global,
    tests: &[Expr],
    layout: &Layout,
    rows: &Rows,
) -> Result<Rows, AllocError>
    requires tests { AreTests layout.now (map expression_of tests.now) }
    requires rows { AllByRecursion (IsRowIn layout.now) rows.now }
    ensures { IfOk result (λ found. found ≡ kept layout.now (map expression_of tests.now) rows.now) }
{
    let mut kept = Vec::new(alloc);
    for row in rows.items() {
        if are_true(alloc, tests, row, layout)? {
            kept.push(row.duplicate(alloc)?)?;
        }
    }
    Ok(Rows::from_vec(kept))
}

// The rows for which the tests are true. Without tests none is copied.
fn tested_rows(
    alloc: Global,
    tests: &[Expr],
    layout: &Layout,
    rows: Rows,
) -> Result<Rows, AllocError>
    requires tests { AreTests layout.now (map expression_of tests.now) }
    requires rows { AllByRecursion (IsRowIn layout.now) rows }
    ensures { IfOk result (λ found. found ≡ kept layout.now (map expression_of tests.now) rows) }
{
    if tests.is_empty() {
        return Ok(rows);
    }
    passing_rows(alloc, tests, layout, &rows)
}

// The rows for which the tests are true.
pub(crate) fn kept_rows(
    alloc: Global,
    tests: &[Expr],
    layout: &Layout,
    rows: Rows,
) -> Result<Rows, AllocError>
    requires tests { AreTests layout.now (map expression_of tests.now) }
    requires rows { AllByRecursion (IsRowIn layout.now) rows }
    ensures rows { IfOk result (λ found. found ≡ kept layout.now (map expression_of tests.now) rows) }
    ensures fit { IfOk result (AllByRecursion (IsRowIn layout.now)) }
{
    tested_rows(alloc, tests, layout, rows)
}

// The partial of the values of the targets for each row.
fn folded_rows(
    alloc: Global,
    targets: &TargetList,
    fold: &Fold,
    layout: &Layout,
    rows: &Rows,
) -> Result<Rows, AllocError>
    requires folded { IsFolded layout.now (map output_of targets.now) fold.now }
    requires rows { AllByRecursion (IsRowIn layout.now) rows.now }
    ensures { IfOk result (IsPartialOf fold.now (targets_of (map output_of targets.now) layout.now rows.now)) }
{
    let rows = project_rows(alloc, targets, rows, layout)?;
    partial(alloc, &rows, fold)
}

// The rows as the end takes them.
fn end_rows(alloc: Global, end: &End, layout: &Layout, rows: Rows) -> Result<Rows, AllocError>
    requires end { IsEnd layout.now (ending_of end.now) }
    requires rows { AllByRecursion (IsRowIn layout.now) rows }
    ensures part { IfOk result (IsPartOf (ending_of end.now) (projected (ending_of end.now) layout.now rows)) }
    ensures shape { IfOk result (HasShape layout.now (ending_of end.now)) }
{
    match end {
        End::Build { .. } | End::Sort { .. } => Ok(rows),
        End::Answer { targets, .. } => project_rows(alloc, targets, &rows, layout),
        End::Fold { targets, fold } => folded_rows(alloc, targets, fold, layout, &rows),
    }
}

// The rows of a position, from those of its source that passed.
pub(crate) fn finish_rows(
    alloc: Global,
    fragment: &Fragment,
    layout: &Layout,
    inputs: &[Arc<Built>],
    rows: Rows,
) -> Result<Rows, AllocError>
    requires can { CanFinish layout.now (piece_of fragment.now) (map (λ x. x.value) inputs.now) }
    requires rows { AllByRecursion (IsRowIn layout.now) rows }
    ensures shape { IfOk result (HasShape fragment.now.layout (ending_of fragment.now.end)) }
    ensures part { IfOk result (λ found. (rows : List (List Value)) × IsPartOf (ending_of fragment.now.end) rows found) }
    ensures output { (values : List (List (List Value))) → AreValues values (map probing_of fragment.now.pipe.probes) (map (λ x. x.value) inputs.now) →
        IfOk result (IsPartOf (ending_of fragment.now.end) (led_to_end values (piece_of fragment.now) layout.now rows)) }
{
    let rows = run_probes(alloc, fragment.pipe.probes.items(), inputs, layout, rows)?;
    end_rows(alloc, &fragment.end, &fragment.layout, rows)
}
