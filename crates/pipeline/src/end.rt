//! What a fragment's positions become.
ghost use Rattle.std.specs.Prelude.{◌≡◌, List, IfOk};
ghost use Rattle.rows.specs.declared.value.Value.{Value};
ghost use Rattle.hash_join.specs.Table.{rows_of};
ghost use Rattle.aggregate_op.specs.Partials.{partial};
ghost use Rattle.aggregate_op.specs.Stored.{ArePartialsOf};
ghost use Rattle.plan_tree.specs.EndValues.{IsEndValue, kept_by, one_list};
ghost use Rattle.plan_tree.specs.Fragments.{ended};
ghost use Rattle.plan_tree.specs.Pieces.{ending_of};
ghost use Rattle.pipeline.specs.Ends.{ArePartsOf};

use aggregate_op::{Fold, merge_all};
use hash_join::{Built, Parts, arrange, build};
use plan_tree::{End, Fragment};
use rows::{ColumnRefList, Layout, Rows};
use std::alloc::{AllocError, Global};
use std::sync::Arc;

// Rows as one list, which no probe looks up.
fn one_list(alloc: Global, rows: Rows) -> Result<Built, AllocError>
    ensures { IfOk result (λ table. table ≡ one_list rows) }
{
    let mut lists = Vec::with_capacity(alloc, 1)?;
    lists.push(Arc::new(alloc, rows)?)?;
    build(
        alloc,
        Parts::from_vec(lists),
        &Layout::new(alloc),
        &ColumnRefList::new(alloc),
    )
}

// The partial of all rows, by those of parts.
fn folded_parts(alloc: Global, parts: Parts, fold: &Fold) -> Result<Built, AllocError>
    ensures { IfOk result (λ table. (lists : List (List (List Value))) → ArePartialsOf fold.now lists parts → table ≡ one_list (partial fold.now (rows_of lists))) }
{
    let rows = merge_all(alloc, parts.into_vec(), fold)?;
    one_list(alloc, rows)
}

// The end's value of what the positions gave.
fn ended_parts(alloc: Global, end: &End, layout: &Layout, parts: Parts) -> Result<Built, AllocError>
    ensures { IfOk result (λ table. (lists : List (List (List Value))) → ArePartsOf (ending_of end.now) lists parts → table ≡ kept_by (ending_of end.now) layout.now parts (ended (ending_of end.now) (rows_of lists))) }
{
    match end {
        End::Build { keys } => build(alloc, parts, layout, keys),
        End::Answer { unique, keys, .. } => arrange(alloc, parts, *unique, keys),
        End::Fold { fold, .. } => folded_parts(alloc, parts, fold),
        End::Sort { keys } => arrange(alloc, parts, false, keys),
    }
}

/// The end's value of what a fragment's positions gave, in order: a table that is found by its keys for a build, the partial
/// of all rows where groups are folded, and else the rows in their order. What a position gave are rows or, where groups are
/// folded, the partial of rows that may be folded. An error is want of memory.
pub fn end_value(alloc: Global, fragment: &Fragment, parts: Parts) -> Result<Built, AllocError>
    requires { (lists : List (List (List Value))) × ArePartsOf (ending_of fragment.now.end) lists parts }
    ensures value { IfOk result (IsEndValue (ending_of fragment.now.end) fragment.now.layout parts) }
    ensures rows { (lists : List (List (List Value))) → ArePartsOf (ending_of fragment.now.end) lists parts →
        IfOk result (λ table. table ≡ kept_by (ending_of fragment.now.end) fragment.now.layout parts (ended (ending_of fragment.now.end) (rows_of lists))) }
{
    ended_parts(alloc, &fragment.end, &fragment.layout, parts)
}
