//! The parts of the ops of a fold.
ghost use Rattle.std.specs.Prelude.{◌≡◌, ◌++◌, [], ◌∷◌, IfOk, OnOk, drop};
ghost use Rattle.rows.specs.declared.value.Value.TheVariants.{Number};
ghost use Rattle.rows.specs.Values.{column_of, is_null, value_cmp};
ghost use Rattle.aggregate_op.specs.Joined.{added, carried, greater, joined_part, joined_parts};
ghost use Rattle.aggregate_op.specs.Joined.{lesser, part_width};
ghost use Rattle.aggregate_op.specs.Stored.{IsStored};
ghost use Rattle.aggregate_op.specs.Partials.{integer_in};

use crate::FoldOp;
use lists::Duplicate;
use rows::{Value, compare};
use std::alloc::{AllocError, Global};
use std::cmp::Ordering;

// A sum is kept as how many of these it holds, and what is left.
pub(crate) const SUM_UNIT: i64 = 1 << 62;

// A copy of the value at a place, and null where there is none.
pub(crate) fn copy_at(alloc: Global, values: &[Value], place: usize) -> Result<Value, AllocError>
    ensures { IfOk result (λ value. value ≡ column_of values.now place) }
{
    match values.get(place) {
        Some(value) => value.duplicate(alloc),
        None => Ok(Value::Null),
    }
}

// The number at a place, and 0 where there is none.
pub(crate) fn number_at(values: &[Value], place: usize) -> i64
    ensures value { result ≡ integer_in (column_of values.now place) }
    ensures stored { IsStored (column_of values.now place) }
{
    match values.get(place) {
        Some(Value::Number(number)) => *number,
        _ => 0,
    }
}

// Whether null stands at a place, or nothing.
pub(crate) fn is_null_at(values: &[Value], place: usize) -> bool
    ensures { result ≡ is_null (column_of values.now place) }
{
    matches!(values.get(place), None | Some(Value::Null))
}

// The values behind the first ones.
pub(crate) fn behind(values: &[Value], count: usize) -> &[Value]
    ensures { result.now ≡ drop count values.now }
{
    &values[count.min(values.len())..]
}

// The sum of the numbers at a place. It doesn't leave 64 bits where both are of parts.
pub(crate) fn added(left: &[Value], right: &[Value], place: usize) -> i64
    ensures { result ≡ added (column_of left.now place) (column_of right.now place) }
{
    number_at(left, place).saturating_add(number_at(right, place))
}

// The order of the first values of two lists.
fn first_order(left: &[Value], right: &[Value]) -> Ordering
    ensures { result ≡ value_cmp (column_of left.now 0) (column_of right.now 0) }
{
    match (left.first(), right.first()) {
        (Some(a), Some(b)) => compare(a, b),
        (Some(a), None) => compare(a, &Value::Null),
        (None, Some(b)) => compare(&Value::Null, b),
        (None, None) => Ordering::Equal,
    }
}

// The list that begins with the lesser value, null passed over.
pub(crate) fn lesser<'a>(left: &'a [Value], right: &'a [Value]) -> &'a [Value]
    ensures { column_of result.now 0 ≡ lesser (column_of left.now 0) (column_of right.now 0) }
{
    if is_null_at(left, 0) {
        return right;
    }
    if is_null_at(right, 0) || !first_order(left, right).is_gt() {
        return left;
    }
    right
}

// The list that begins with the greater value.
pub(crate) fn greater<'a>(left: &'a [Value], right: &'a [Value]) -> &'a [Value]
    ensures { column_of result.now 0 ≡ greater (column_of left.now 0) (column_of right.now 0) }
{
    if first_order(left, right).is_lt() {
        right
    } else {
        left
    }
}

// How many values an op's part has.
pub(crate) fn part_width(op: FoldOp) -> usize
    ensures { result ≡ part_width op }
{
    match op {
        FoldOp::Sum => 3,
        FoldOp::Count | FoldOp::Min | FoldOp::Max => 1,
    }
}

// Carries over what is left of a sum where it holds the unit once more.
pub(crate) fn carried(high: i64, low: i64) -> (i64, i64)
    ensures { Number result.0 ∷ Number result.1 ∷ [] ≡ carried high low }
{
    if low < SUM_UNIT {
        (high, low)
    } else {
        (high.saturating_add(1), low - SUM_UNIT)
    }
}

// Adds the part of a sum: how many values it has, how often it holds the unit, and what is left.
pub(crate) fn put_sum(
    parts: &mut Vec<Value>,
    count: i64,
    high: i64,
    low: i64,
) -> Result<(), AllocError>
    ensures { OnOk result (parts.new.items
        ≡ parts.old.items ++ Number count ∷ Number high ∷ Number low ∷ []) }
{
    parts.push(Value::Number(count))?;
    parts.push(Value::Number(high))?;
    parts.push(Value::Number(low))?;
    Ok(())
}

// Adds the part of a sum of two parts, which stand at the front of two lists.
fn put_joined_sum(parts: &mut Vec<Value>, left: &[Value], right: &[Value]) -> Result<(), AllocError>
    ensures { OnOk result (parts.new.items
        ≡ parts.old.items ++ joined_part FoldOp.Sum left.now right.now) }
{
    let (high, low) = carried(added(left, right, 1), added(left, right, 2));
    put_sum(parts, added(left, right, 0), high, low)
}

// Adds an op's part of two parts, which stand at the front of two lists.
fn put_joined(
    parts: &mut Vec<Value>,
    alloc: Global,
    op: FoldOp,
    left: &[Value],
    right: &[Value],
) -> Result<(), AllocError>
    ensures { OnOk result (parts.new.items ≡ parts.old.items ++ joined_part op left.now right.now) }
{
    match op {
        FoldOp::Count => parts.push(Value::Number(added(left, right, 0)))?,
        FoldOp::Min => parts.push(copy_at(alloc, lesser(left, right), 0)?)?,
        FoldOp::Max => parts.push(copy_at(alloc, greater(left, right), 0)?)?,
        FoldOp::Sum => put_joined_sum(parts, left, right)?,
    }
    Ok(())
}

// Adds the part of each op of two lists of parts.
pub(crate) fn put_joined_parts(
    parts: &mut Vec<Value>,
    alloc: Global,
    ops: &[FoldOp],
    left: &[Value],
    right: &[Value],
) -> Result<(), AllocError>
    ensures { OnOk result (parts.new.items
        ≡ parts.old.items ++ joined_parts ops.now left.now right.now) }
{
    let Some((op, ops)) = ops.split_first() else {
        return Ok(());
    };
    put_joined(parts, alloc, *op, left, right)?;
    let width = part_width(*op);
    put_joined_parts(parts, alloc, ops, behind(left, width), behind(right, width))
}
