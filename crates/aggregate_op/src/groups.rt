//! The groups of rows, and rows in their order.
ghost use Rattle.std.specs.Prelude.{◌≡◌, take, map, IfOk};
ghost use Rattle.std.specs.List.Sorted.{IsPermutation};
ghost use Rattle.lists.specs.Arranged.{Ascends};
ghost use Rattle.aggregate_op.specs.Partials.{group_of};
ghost use Rattle.aggregate_op.specs.Runs.{group_order, leading, seen};

use crate::Fold;
use rows::{Row, Value};
use std::alloc::{AllocError, Global};
use std::cmp::Ordering;

// The first values.
pub(crate) fn front(values: &[Value], count: usize) -> &[Value]
    ensures { result.now ≡ take count values.now }
{
    &values[..count.min(values.len())]
}

// The order of the groups of two rows.
pub(crate) fn group_order(a: &Row, b: &Row, fold: &Fold) -> Ordering
    ensures { result ≡ group_order fold.now a.now b.now }
{
    let groups = fold.groups as usize;
    front(a.items(), groups).cmp(front(b.items(), groups))
}

// Each of the rows, where it stands.
fn references(alloc: Global, rows: &[Row]) -> Result<Vec<&Row>, AllocError>
    ensures { IfOk result (λ v. map seen v.items ≡ rows.now) }
{
    let mut references = Vec::with_capacity(alloc, rows.len())?;
    for row in rows {
        references.push(row)?;
    }
    Ok(references)
}

// The rows in the order of their groups.
pub(crate) fn in_group_order<'a>(
    alloc: Global,
    rows: &'a [Row],
    fold: &Fold,
) -> Result<Vec<&'a Row>, AllocError>
    ensures moved { IfOk result (λ v. IsPermutation rows.now (map seen v.items)) }
    ensures ascend { IfOk result (λ v. Ascends (group_order fold.now) (map seen v.items)) }
{
    let mut ordered = references(alloc, rows)?;
    ordered.sort_by(|a, b| group_order(a, b, fold))?;
    Ok(ordered)
}

// How many rows at the front are of the group of a row.
pub(crate) fn leading(rows: &[&Row], first: &Row, fold: &Fold) -> usize
    ensures { result ≡ leading fold.now (group_of fold.now first.now) (map seen rows.now) }
{
    let mut count = 0;
    for row in rows {
        if group_order(row, first, fold).is_ne() {
            return count;
        }
        count += 1;
    }
    count
}
