//! What is known of a group by its rows.
ghost use Rattle.std.specs.Prelude.{◌≡◌, ◌<◌, ◌+◌, ◌+ℤ◌, ◌^◌, ◌++◌, [], ◌∷◌, pos, map, length};
ghost use Rattle.std.specs.Prelude.{IfOk, OnOk};
ghost use Rattle.std.specs.Int.{w64, saturate_signed};
ghost use Rattle.std.specs.List.{AllByRecursion};
ghost use Rattle.rows.specs.declared.value.Value.TheVariants.{Number};
ghost use Rattle.rows.specs.Values.{column_of};
ghost use Rattle.aggregate_op.specs.Joined.{carried};
ghost use Rattle.aggregate_op.specs.Partials.{greatest, group_of, high_part, integer_in, known_of};
ghost use Rattle.aggregate_op.specs.Partials.{least, low_part, most_rows, part_of};
ghost use Rattle.aggregate_op.specs.Partials.{parts_of, unless_too_many};
ghost use Rattle.aggregate_op.specs.Runs.{AreStoredAt, IsStoredColumn, column_values, parts_at};
ghost use Rattle.aggregate_op.specs.Runs.{seen, sum_part};
ghost use Rattle.aggregate_op.specs.Stored.{IsStored, IsStoredRow};

use crate::groups::front;
use crate::known::{MOST_ROWS, known_width, put_copies, put_no_parts};
use crate::parts::{
    SUM_UNIT, behind, carried, copy_at, greater, is_null_at, lesser, number_at, put_sum,
};
use crate::{Fold, FoldOp};
use rows::{Row, Value};
use std::alloc::{AllocError, Global};

// How many values of a column aren't null.
fn count_of(rows: &[&Row], column: usize) -> i64
    ensures { result ≡ pos (length (column_values column (map seen rows.now))) }
{
    let mut count = 0usize;
    for row in rows {
        if !is_null_at(row.items(), column) {
            count += 1;
        }
    }
    count as i64
}

// Values that begin with the least of a column, if there is one.
fn least_of<'a>(rows: &[&'a Row], column: usize) -> &'a [Value]
    ensures { column_of result.now 0 ≡ least (column_values column (map seen rows.now)) }
{
    let mut found: &[Value] = &[];
    for row in rows {
        found = lesser(found, behind(row.items(), column));
    }
    found
}

// Values that begin with the greatest of a column, if there is one.
fn greatest_of<'a>(rows: &[&'a Row], column: usize) -> &'a [Value]
    ensures { column_of result.now 0 ≡ greatest (column_values column (map seen rows.now)) }
{
    let mut found: &[Value] = &[];
    for row in rows {
        found = greater(found, behind(row.items(), column));
    }
    found
}

// What a sum holds with the number of a column of one more row.
fn summed(sum: (i64, i64), values: &[Value], column: usize) -> (i64, i64)
    ensures sum { let number = integer_in (column_of values.now column) in
        Number result.0 ∷ Number result.1 ∷ []
        ≡ carried (saturate_signed w64 (sum.0 +ℤ high_part number))
        (saturate_signed w64 (sum.1 +ℤ low_part number)) }
    ensures stored { IsStored (column_of values.now column) }
{
    let number = number_at(values, column);
    carried(
        sum.0.saturating_add(number.div_euclid(SUM_UNIT)),
        sum.1.saturating_add(number.rem_euclid(SUM_UNIT)),
    )
}

// How often the sum of a column holds the unit, and what is left.
fn sum_of(rows: &[&Row], column: usize) -> (i64, i64)
    ensures sum { length rows.now < most_rows
        → Number result.0 ∷ Number result.1 ∷ []
        ≡ sum_part (column_values column (map seen rows.now)) }
    ensures stored { IsStoredColumn FoldOp.Sum column (map seen rows.now) }
{
    let mut sum = (0, 0);
    for row in rows {
        sum = summed(sum, row.items(), column);
    }
    sum
}

// Adds the part of a sum of a column.
fn put_sum_of(parts: &mut Vec<Value>, rows: &[&Row], column: usize) -> Result<(), AllocError>
    ensures added { OnOk result (length rows.now < most_rows
        → parts.new.items
        ≡ parts.old.items ++ part_of FoldOp.Sum (column_values column (map seen rows.now))) }
    ensures stored { IsStoredColumn FoldOp.Sum column (map seen rows.now) }
{
    let (high, low) = sum_of(rows, column);
    put_sum(parts, count_of(rows, column), high, low)
}

// Adds an op's part of a column.
fn put_part(
    parts: &mut Vec<Value>,
    alloc: Global,
    op: FoldOp,
    rows: &[&Row],
    column: usize,
) -> Result<(), AllocError>
    ensures added { OnOk result (length rows.now < most_rows
        → parts.new.items
        ≡ parts.old.items ++ part_of op (column_values column (map seen rows.now))) }
    ensures stored { OnOk result (IsStoredColumn op column (map seen rows.now)) }
{
    match op {
        FoldOp::Count => parts.push(Value::Number(count_of(rows, column)))?,
        FoldOp::Min => parts.push(copy_at(alloc, least_of(rows, column), 0)?)?,
        FoldOp::Max => parts.push(copy_at(alloc, greatest_of(rows, column), 0)?)?,
        FoldOp::Sum => put_sum_of(parts, rows, column)?,
    }
    Ok(())
}

// Adds the part of each op, whose values stand in the columns from a number on.
fn put_parts(
    parts: &mut Vec<Value>,
    alloc: Global,
    ops: &[FoldOp],
    rows: &[&Row],
    column: usize,
) -> Result<(), AllocError>
    requires { column + length ops.now < 2 ^ 64 }
    ensures added { OnOk result (length rows.now < most_rows
        → parts.new.items ≡ parts.old.items ++ parts_at column ops.now (map seen rows.now)) }
    ensures stored { OnOk result (AreStoredAt column ops.now (map seen rows.now)) }
{
    let Some((op, ops)) = ops.split_first() else {
        return Ok(());
    };
    put_part(parts, alloc, *op, rows, column)?;
    put_parts(parts, alloc, ops, rows, column + 1)
}

// Adds the part of each op of rows. The parts of so many rows that they can't be told apart are
// lost.
fn put_parts_of(
    parts: &mut Vec<Value>,
    alloc: Global,
    rows: &[&Row],
    fold: &Fold,
) -> Result<(), AllocError>
    ensures added { OnOk result (parts.new.items
        ≡ parts.old.items ++ parts_of fold.now (unless_too_many (map seen rows.now))) }
    ensures stored { OnOk result (AllByRecursion (IsStoredRow fold.now) (map seen rows.now)) }
{
    let ops = fold.ops.items();
    let column = fold.groups as usize;
    if rows.len() < MOST_ROWS as usize {
        return put_parts(parts, alloc, ops, rows, column);
    }
    let mut lost = Vec::new(alloc);
    put_parts(&mut lost, alloc, ops, rows, column)?;
    put_no_parts(parts, ops)
}

// What is known of a group by its rows, the first of which tells its values.
pub(crate) fn known_of(
    alloc: Global,
    first: &Row,
    rows: &[&Row],
    fold: &Fold,
) -> Result<Row, AllocError>
    ensures known { IfOk result (λ known.
        known ≡ known_of fold.now (group_of fold.now first.now) (map seen rows.now)) }
    ensures stored { OnOk result (AllByRecursion (IsStoredRow fold.now) (map seen rows.now)) }
{
    let mut known = Vec::with_capacity(alloc, known_width(fold))?;
    put_copies(
        &mut known,
        alloc,
        front(first.items(), fold.groups as usize),
    )?;
    let count = rows.len().min(MOST_ROWS as usize);
    known.push(Value::Number(count as i64))?;
    put_parts_of(&mut known, alloc, rows, fold)?;
    Ok(Row::from_vec(known))
}
