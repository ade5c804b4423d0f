//! Rows of what is known of a group.
ghost use Rattle.std.specs.Prelude.{◌≡◌, ◌++◌, [], take, IfOk, OnOk};
ghost use Rattle.aggregate_op.specs.Joined.{joined, joined_known, no_parts};
ghost use Rattle.aggregate_op.specs.Partials.{part_of};

use crate::parts::{added, behind, part_width, put_joined_parts, put_sum};
use crate::{Fold, FoldOp};
use lists::Duplicate;
use rows::{Row, Value};
use std::alloc::{AllocError, Global};

/// So many rows of one group are too many to be told apart.
pub(crate) const MOST_ROWS: i64 = 1 << 48;

// Adds copies of values.
pub(crate) fn put_copies(
    values: &mut Vec<Value>,
    alloc: Global,
    copied: &[Value],
) -> Result<(), AllocError>
    ensures { OnOk result (values.new.items ≡ values.old.items ++ copied.now) }
{
    for value in copied {
        values.push(value.duplicate(alloc)?)?;
    }
    Ok(())
}

// Adds an op's part of no value.
fn put_no_part(values: &mut Vec<Value>, op: FoldOp) -> Result<(), AllocError>
    ensures { OnOk result (values.new.items ≡ values.old.items ++ part_of op []) }
{
    match op {
        FoldOp::Count => values.push(Value::Number(0))?,
        FoldOp::Min | FoldOp::Max => values.push(Value::Null)?,
        FoldOp::Sum => put_sum(values, 0, 0, 0)?,
    }
    Ok(())
}

// Adds the part of each op of no row.
pub(crate) fn put_no_parts(values: &mut Vec<Value>, ops: &[FoldOp]) -> Result<(), AllocError>
    ensures { OnOk result (values.new.items ≡ values.old.items ++ no_parts ops.now) }
{
    for op in ops {
        put_no_part(values, *op)?;
    }
    Ok(())
}

// How many values a row of what is known of a group has.
pub(crate) fn known_width(fold: &Fold) -> usize {
    let mut width = (fold.groups as usize).saturating_add(1);
    for op in fold.ops.items() {
        width = width.saturating_add(part_width(*op));
    }
    width
}

// Adds what is known of a group by two rows of it, behind its values.
fn put_joined_known(
    known: &mut Vec<Value>,
    alloc: Global,
    fold: &Fold,
    left: &[Value],
    right: &[Value],
) -> Result<(), AllocError>
    ensures { OnOk result (known.new.items
        ≡ known.old.items ++ joined_known fold.now left.now right.now) }
{
    let rows = added(left, right, 0);
    if rows >= MOST_ROWS {
        known.push(Value::Number(MOST_ROWS))?;
        return put_no_parts(known, fold.ops.items());
    }
    known.push(Value::Number(rows))?;
    put_joined_parts(
        known,
        alloc,
        fold.ops.items(),
        behind(left, 1),
        behind(right, 1),
    )
}

// What is known of a group by two rows of it. What is in `known` before is lost.
pub(crate) fn joined_row(
    alloc: Global,
    known: &mut Vec<Value>,
    left: Row,
    right: &Row,
    fold: &Fold,
) -> Result<Row, AllocError>
    ensures { IfOk result (λ row. row ≡ joined fold.now left right.now) }
{
    let groups = fold.groups as usize;
    known.clear();
    put_joined_known(
        known,
        alloc,
        fold,
        behind(left.items(), groups),
        behind(right.items(), groups),
    )?;
    let mut values = left.into_vec();
    values.truncate(groups);
    values.append(known)?;
    Ok(Row::from_vec(values))
}
