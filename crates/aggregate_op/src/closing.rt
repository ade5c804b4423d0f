//! The answer of a fold by what is known of its groups.
ghost use Rattle.std.specs.Prelude.{◌≡◌, ◌++◌, ◌∷◌, [], List, map, IfOk, OnOk, Some, None};
ghost use Rattle.std.specs.Prelude.{if◌then◌else◌};
ghost use Rattle.std.specs.Option.{option_map};
ghost use Rattle.rows.specs.declared.value.Value.{Value};
ghost use Rattle.aggregate_op.specs.Closing.{closed_groups, closed_part, closed_parts, closed_row};
ghost use Rattle.aggregate_op.specs.Closing.{nothing_known, rows_in};
ghost use Rattle.aggregate_op.specs.FoldMeaning.{all_some, fold_answer, shown};
ghost use Rattle.aggregate_op.specs.Partials.{number};
ghost use Rattle.aggregate_op.specs.Stored.{IsPartialOf};

use crate::groups::front;
use crate::known::{MOST_ROWS, put_no_parts};
use crate::parts::{SUM_UNIT, behind, copy_at, number_at, part_width};
use crate::{Fold, FoldOp, FoldPlace};
use rows::{Row, Rows, Value};
use std::alloc::{AllocError, Global};

/// The answer of a fold. It is too large where a group has 2^48 rows or more, or a sum leaves 64
/// bits.
#[derive(Debug, Drop)]
pub enum Closed {
    Rows(Rows),
    TooLarge,
}

// A sum by its part, at the front of values. There is none where it leaves 64 bits.
fn closed_sum(parts: &[Value]) -> Option<Value>
    ensures { result ≡ closed_part FoldOp.Sum parts.now }
{
    if number_at(parts, 0) <= 0 {
        return Some(Value::Null);
    }
    let high = number_at(parts, 1);
    if high < -2 || high > 1 {
        return None;
    }
    let low = number_at(parts, 2);
    Some(Value::Number((high * SUM_UNIT).saturating_add(low)))
}

// An op's answer by its part, at the front of values. There is none where it is too large.
fn closed_part(alloc: Global, op: FoldOp, parts: &[Value]) -> Result<Option<Value>, AllocError>
    ensures { IfOk result (λ answer. answer ≡ closed_part op parts.now) }
{
    match op {
        FoldOp::Sum => Ok(closed_sum(parts)),
        FoldOp::Count | FoldOp::Min | FoldOp::Max => Ok(Some(copy_at(alloc, parts, 0)?)),
    }
}

// Adds the answer of each op by its part. False where one of them is too large.
fn put_answers(
    answers: &mut Vec<Value>,
    alloc: Global,
    ops: &[FoldOp],
    parts: &[Value],
) -> Result<bool, AllocError>
    ensures { IfOk result (λ whole. (if whole then Some answers.new.items else None)
        ≡ option_map (λ more. answers.old.items ++ more)
        (all_some (closed_parts ops.now parts.now))) }
{
    let Some((op, ops)) = ops.split_first() else {
        return Ok(true);
    };
    let Some(answer) = closed_part(alloc, *op, parts)? else {
        return Ok(false);
    };
    answers.push(answer)?;
    put_answers(answers, alloc, ops, behind(parts, part_width(*op)))
}

// A copy of the value that a column of the answer shows.
fn shown(
    alloc: Global,
    group: &[Value],
    answers: &[Value],
    place: FoldPlace,
) -> Result<Value, AllocError>
    ensures { IfOk result (λ value. value ≡ shown group.now answers.now place) }
{
    match place {
        FoldPlace::Group(number) => copy_at(alloc, group, number as usize),
        FoldPlace::Op(number) => copy_at(alloc, answers, number as usize),
    }
}

// The row of the answer by a group's values and the ops' answers.
fn placed(
    alloc: Global,
    group: &[Value],
    answers: &[Value],
    places: &[FoldPlace],
) -> Result<Row, AllocError>
    ensures { IfOk result (λ row. row ≡ map (shown group.now answers.now) places.now) }
{
    let mut row = Vec::with_capacity(alloc, places.len())?;
    for place in places {
        row.push(shown(alloc, group, answers, *place)?)?;
    }
    Ok(Row::from_vec(row))
}

// The row of the answer by what is known of a group. There is none where it is too large.
fn closed_row(alloc: Global, row: &[Value], fold: &Fold) -> Result<Option<Row>, AllocError>
    ensures { IfOk result (λ answer. answer ≡ closed_row fold.now row.now) }
{
    let groups = fold.groups as usize;
    if number_at(row, groups) >= MOST_ROWS {
        return Ok(None);
    }
    let mut answers = Vec::new(alloc);
    let parts = behind(row, groups + 1);
    if !put_answers(&mut answers, alloc, fold.ops.items(), parts)? {
        return Ok(None);
    }
    let group = front(row, groups);
    Ok(Some(placed(alloc, group, answers.as_slice(), fold.places.items())?))
}

// The answer by what is known of its groups.
fn close_rows(alloc: Global, groups: &[Row], fold: &Fold) -> Result<Closed, AllocError>
    ensures { IfOk result (λ closed.
        rows_in closed ≡ all_some (map (closed_row fold.now) groups.now)) }
{
    let mut rows = Vec::with_capacity(alloc, groups.len())?;
    for group in groups {
        match closed_row(alloc, group.items(), fold)? {
            Some(row) => rows.push(row)?,
            None => return Ok(Closed::TooLarge),
        }
    }
    Ok(Closed::Rows(Rows::from_vec(rows)))
}

// The answer where there is no row and there are no group values.
fn close_nothing(alloc: Global, fold: &Fold) -> Result<Closed, AllocError>
    ensures { IfOk result (λ closed.
        rows_in closed ≡ all_some (closed_row fold.now (nothing_known fold.now) ∷ [])) }
{
    let mut known = Vec::new(alloc);
    known.push(Value::Number(0))?;
    put_no_parts(&mut known, fold.ops.items())?;
    let mut groups = Vec::with_capacity(alloc, 1)?;
    groups.push(Row::from_vec(known))?;
    close_rows(alloc, groups.as_slice(), fold)
}

// The answer by what is known of its groups, of one group where there are no group values.
fn closed_groups(alloc: Global, groups: &Rows, fold: &Fold) -> Result<Closed, AllocError>
    ensures { IfOk result (λ closed. rows_in closed ≡ closed_groups fold.now groups.now) }
{
    if fold.groups == 0 && groups.is_empty() {
        close_nothing(alloc, fold)
    } else {
        close_rows(alloc, groups.items(), fold)
    }
}

/// The answer of a fold by the partial of its rows, in ascending order of the groups. It is too
/// large exactly where a group has 2^48 rows or more, or a sum leaves 64 bits. An error is want of
/// memory.
pub fn close_groups(alloc: Global, groups: &Rows, fold: &Fold) -> Result<Closed, AllocError>
    ensures { IfOk result (λ closed. (rows : List (List Value))
        → IsPartialOf fold.now rows groups.now → rows_in closed ≡ fold_answer fold.now rows) }
{
    closed_groups(alloc, groups, fold)
}
