//! Folds of rows in parts, as the positions of a scan give them.

use crate::errors::BenchErr;
use aggregate_op::{Closed, Fold, FoldOp, FoldPlace, close_groups, merge_all, partial};
use lists::Sequence;
use rows::{Row, Rows, Value};
use std::alloc::{AllocError, Global};
use std::sync::Arc;

// So many rows stand on a page.
const PART_ROWS: u32 = 330;

// So many groups the rows are of.
const GROUPS: u64 = 1000;

// A fold that counts and adds up a group's values.
fn count_and_sum(alloc: Global) -> Result<Fold, AllocError> {
    let ops = Sequence::from_vec(vec![in alloc; FoldOp::Count, FoldOp::Sum]?);
    let places = Sequence::from_vec(vec![in alloc;
        FoldPlace::Group(0),
        FoldPlace::Op(0),
        FoldPlace::Op(1),
    ]?);
    Ok(Fold {
        groups: 1,
        ops,
        places,
    })
}

// A row of a group and a value.
fn row_of(alloc: Global, group: i64, value: i64) -> Result<Row, AllocError> {
    let values = vec![in alloc;
        Value::Number(group),
        Value::Number(value),
        Value::Number(value),
    ]?;
    Ok(Row::from_vec(values))
}

// The next of the random numbers.
fn next(state: u64) -> u64 {
    state
        .wrapping_mul(6_364_136_223_846_793_005)
        .wrapping_add(1_442_695_040_888_963_407)
}

// Rows of random groups.
fn part_of(alloc: Global, count: u32, seed: u64) -> Result<Rows, AllocError> {
    let mut rows = Vec::new(alloc);
    let mut state = seed;
    for _row in 0..count {
        state = next(state);
        let group = ((state >> 33) % GROUPS) as i64;
        rows.push(row_of(alloc, group, 1)?)?;
    }
    Ok(Rows::from_vec(rows))
}

// How many rows the part of a number has.
fn rows_in(rows: u32, number: u32) -> u32 {
    let before = number.saturating_mul(PART_ROWS);
    rows.saturating_sub(before).min(PART_ROWS)
}

/// Makes so many rows, in parts, and gives their number.
pub fn make_rows(alloc: Global, rows: u32) -> Result<u64, BenchErr> {
    let mut made = 0u64;
    for number in 0..rows.div_ceil(PART_ROWS) {
        let part = part_of(alloc, rows_in(rows, number), u64::from(number))?;
        made = made.saturating_add(part.len() as u64);
    }
    Ok(made)
}

/// Makes so many rows, in parts, and folds them. Gives the number of the answer's rows.
pub fn fold_rows(alloc: Global, rows: u32) -> Result<u64, BenchErr> {
    let fold = count_and_sum(alloc)?;
    let mut parts = Vec::new(alloc);
    for number in 0..rows.div_ceil(PART_ROWS) {
        let part = part_of(alloc, rows_in(rows, number), u64::from(number))?;
        parts.push(Arc::new(alloc, partial(alloc, &part, &fold)?)?)?;
    }
    let groups = merge_all(alloc, parts, &fold)?;
    match close_groups(alloc, &groups, &fold)? {
        Closed::Rows(rows) => Ok(rows.len() as u64),
        Closed::TooLarge => Ok(0),
    }
}
