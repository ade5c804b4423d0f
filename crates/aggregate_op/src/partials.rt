//! What is known of each group of some rows, and of the rows of several parts.
ghost use Rattle.std.specs.Prelude.{◌≡◌, ◌<◌, ◌++◌, List, map, length, IfOk, OnOk};
ghost use Rattle.std.specs.List.{AllByRecursion};
ghost use Rattle.lists.specs.Arranged.{Ascends};
ghost use Rattle.rows.specs.declared.value.Value.{Value};
ghost use Rattle.aggregate_op.specs.Partials.{IsFoldRow, partial};
ghost use Rattle.aggregate_op.specs.Runs.{group_order, seen};
ghost use Rattle.aggregate_op.specs.Stored.{ArePartialsOf, IsPartialOf, IsStoredRow, all_rows};

use crate::Fold;
use crate::groups::{in_group_order, leading};
use crate::merging::merge_rows;
use crate::runs::known_of;
use rows::{Row, Rows};
use std::alloc::{AllocError, Global};
use std::sync::Arc;

// What is known of each group of rows that stand in the order of their groups.
fn known_rows(alloc: Global, rows: &[&Row], fold: &Fold) -> Result<Vec<Row>, AllocError>
    requires { Ascends (group_order fold.now) (map seen rows.now) }
    ensures known { IfOk result (λ found. found.items ≡ partial fold.now (map seen rows.now)) }
    ensures stored { OnOk result (AllByRecursion (IsStoredRow fold.now) (map seen rows.now)) }
{
    let mut found = Vec::with_capacity(alloc, rows.len())?;
    let mut done = 0;
    while done < rows.len() {
        let (_, left) = rows.split_at(done);
        let first = left[0];
        let (run, _) = left.split_at(leading(left, first, fold));
        found.push(known_of(alloc, first, run, fold)?)?;
        done += run.len();
    }
    Ok(found)
}

// The partial of rows, by their groups in order.
fn partial_of(alloc: Global, rows: &[Row], fold: &Fold) -> Result<Vec<Row>, AllocError>
    ensures { IfOk result (λ found. AllByRecursion (IsFoldRow fold.now) rows.now
        → IsPartialOf fold.now rows.now found.items) }
{
    let ordered = in_group_order(alloc, rows, fold)?;
    Ok(known_rows(alloc, ordered.as_slice(), fold)?)
}

/// What is known of each group of some rows, in ascending order of the groups, where each row has
/// the group values and then a value for each op, a number or null under `Sum`. An error is want of
/// memory.
pub fn partial(alloc: Global, rows: &Rows, fold: &Fold) -> Result<Rows, AllocError>
    ensures { IfOk result (λ found. AllByRecursion (IsFoldRow fold.now) rows.now
        → IsPartialOf fold.now rows.now found) }
{
    Ok(Rows::from_vec(partial_of(alloc, rows.items(), fold)?))
}

/// The partial of the rows of two partials. An error is want of memory.
pub fn merge(alloc: Global, left: &Rows, right: &Rows, fold: &Fold) -> Result<Rows, AllocError>
    ensures { IfOk result (λ found. (a b : List (List Value)) → IsPartialOf fold.now a left.now
        → IsPartialOf fold.now b right.now → IsPartialOf fold.now (a ++ b) found) }
{
    let left = left.copy(alloc)?.into_vec();
    let right = right.copy(alloc)?.into_vec();
    Ok(Rows::from_vec(merge_rows(alloc, left, right, fold)?))
}

// The rows of a part. They are moved where nothing else shares them, and copied else.
fn rows_of(alloc: Global, part: Arc<Rows>) -> Result<Vec<Row>, AllocError>
    ensures { IfOk result (λ rows. rows.items ≡ part.value) }
{
    match Arc::try_unwrap(part) {
        Ok(rows) => Ok(rows.into_vec()),
        Err(shared) => Ok(shared.copy(alloc)?.into_vec()),
    }
}

// The rows of one part at most.
fn only_part(alloc: Global, mut parts: Vec<Arc<Rows>>) -> Result<Vec<Row>, AllocError>
    requires { length parts.items < 2 }
    ensures { IfOk result (λ rows. rows.items ≡ all_rows (map (λ part. part.value) parts.items)) }
{
    match parts.pop() {
        Some(part) => rows_of(alloc, part),
        None => Ok(Vec::new(alloc)),
    }
}

// The parts of the first half, merged with those of the second.
fn merge_parts(
    alloc: Global,
    mut parts: Vec<Arc<Rows>>,
    fold: &Fold,
) -> Result<Vec<Row>, AllocError>
    ensures { IfOk result (λ found. (lists : List (List (List Value)))
        → ArePartialsOf fold.now lists (map (λ part. part.value) parts.items)
        → IsPartialOf fold.now (all_rows lists) found.items) }
{
    if parts.len() < 2 {
        return only_part(alloc, parts);
    }
    let second = parts.split_off(parts.len() / 2)?;
    let left = merge_parts(alloc, parts, fold)?;
    let right = merge_parts(alloc, second, fold)?;
    Ok(merge_rows(alloc, left, right, fold)?)
}

/// The partial of the rows of several partials, in order. Each row is merged once for each time
/// that the number of parts can be halved. The rows of a part that nothing else shares are moved,
/// and not copied. An error is want of memory.
pub fn merge_all(alloc: Global, parts: Vec<Arc<Rows>>, fold: &Fold) -> Result<Rows, AllocError>
    ensures { IfOk result (λ found. (lists : List (List (List Value)))
        → ArePartialsOf fold.now lists (map (λ part. part.value) parts.items)
        → IsPartialOf fold.now (all_rows lists) found) }
{
    Ok(Rows::from_vec(merge_parts(alloc, parts, fold)?))
}
