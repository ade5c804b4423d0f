//! Partials of two lists of rows as one.
ghost use Rattle.std.specs.Prelude.{◌≡◌, reverse, IfOk};
ghost use Rattle.aggregate_op.specs.Joined.{merged};
ghost use Rattle.aggregate_op.specs.Sides.{IsNextSide, IsTaken, TakesBoth};

use crate::Fold;
use crate::groups::group_order;
use crate::known::joined_row;
use rows::{Row, Value};
use std::alloc::{AllocError, Global};
use std::cmp::Ordering;

// The list whose last row comes next, or both where their last rows are of one group.
#[derive(Clone, Copy)]
enum Side {
    Left,
    Right,
    Both,
    Neither,
}

// The side whose last row has the least group.
fn next_side(left: &[Row], right: &[Row], fold: &Fold) -> Side
    ensures { IsNextSide fold.now (reverse left.now) (reverse right.now) result }
{
    match (left.split_last(), right.split_last()) {
        (None, None) => Side::Neither,
        (Some(_), None) => Side::Left,
        (None, Some(_)) => Side::Right,
        (Some((a, _rest)), Some((b, _others))) => match group_order(a, b, fold) {
            Ordering::Less => Side::Left,
            Ordering::Equal => Side::Both,
            Ordering::Greater => Side::Right,
        },
    }
}

// What is known of the group of the last rows, which are taken. What is in `known` before is lost.
fn take_both(
    alloc: Global,
    known: &mut Vec<Value>,
    left: &mut Vec<Row>,
    right: &mut Vec<Row>,
    fold: &Fold,
) -> Result<Option<Row>, AllocError>
    ensures { TakesBoth fold.now (reverse left.old.items) (reverse right.old.items)
        → IfOk result (IsTaken fold.now left.old.items right.old.items
        left.new.items right.new.items) }
{
    let first = left.pop();
    let other = right.pop();
    match (first, other) {
        (Some(first), Some(other)) => Ok(Some(joined_row(alloc, known, first, &other, fold)?)),
        (first, None) => Ok(first),
        (None, other) => Ok(other),
    }
}

// The next row of both lists, which is taken from them. What is in `known` before is lost.
fn take_next(
    alloc: Global,
    known: &mut Vec<Value>,
    left: &mut Vec<Row>,
    right: &mut Vec<Row>,
    fold: &Fold,
) -> Result<Option<Row>, AllocError>
    ensures { IfOk result (IsTaken fold.now left.old.items right.old.items
        left.new.items right.new.items) }
{
    match next_side(left.as_slice(), right.as_slice(), fold) {
        Side::Left => Ok(left.pop()),
        Side::Right => Ok(right.pop()),
        Side::Both => take_both(alloc, known, left, right, fold),
        Side::Neither => Ok(None),
    }
}

// The rows of two lists, each in ascending order of the groups, as one such list with one row for
// each group.
pub(crate) fn merge_rows(
    alloc: Global,
    mut left: Vec<Row>,
    mut right: Vec<Row>,
    fold: &Fold,
) -> Result<Vec<Row>, AllocError>
    ensures { IfOk result (λ rows. rows.items ≡ merged fold.now left.items right.items) }
{
    let mut known = Vec::new(alloc);
    let mut rows = Vec::with_capacity(alloc, left.len().saturating_add(right.len()))?;
    left.reverse();
    right.reverse();
    while let Some(row) = take_next(alloc, &mut known, &mut left, &mut right, fold)? {
        rows.push(row)?;
    }
    Ok(rows)
}
