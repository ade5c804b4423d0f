//! The key of a row.
ghost use Rattle.std.specs.Prelude.{◌≡◌, map, IfOk};
ghost use Rattle.std.specs.List.{list_any};
ghost use Rattle.std.specs.Cmp.Lexicographic.{slice_cmp};
ghost use Rattle.rows.specs.Values.{value_cmp, column_of, is_null};
ghost use Rattle.rows.specs.Layouts.{column_place};
ghost use Rattle.hash_join.specs.Table.{key_of, places_of, row_at};

use crate::RowPlace;
use rows::{ColumnRef, LayoutPart, Rows, Value, compare};
use std::alloc::{AllocError, Global};
use std::cmp::Ordering;
use std::sync::Arc;

// The place of a column in a row of the layout. An error is want of memory: a row has fewer than 2^64 columns.
fn place_of(layout: &[LayoutPart], key: ColumnRef) -> Result<Option<usize>, AllocError>
    ensures { IfOk result (λ place. place ≡ column_place layout.now key.var key.col) }
{
    let Some((part, parts)) = layout.split_first() else {
        return Ok(None);
    };
    let width = part.columns.len();
    if part.var == key.var {
        let place = key.col as usize;
        return Ok(if place < width { Some(place) } else { None });
    }
    match place_of(parts, key)? {
        None => Ok(None),
        Some(place) => match width.checked_add(place) {
            Some(place) => Ok(Some(place)),
            None => Err(AllocError),
        },
    }
}

// The places of the columns of a key in a row of the layout.
pub(crate) fn key_places(
    alloc: Global,
    layout: &[LayoutPart],
    keys: &[ColumnRef],
) -> Result<Vec<usize>, AllocError>
    ensures { IfOk result (λ columns. columns.items ≡ places_of layout.now keys.now) }
{
    let mut columns = Vec::new(alloc);
    for key in keys {
        if let Some(place) = place_of(layout, *key)? {
            columns.push(place)?;
        }
    }
    Ok(columns)
}

// Whether a key holds null.
pub(crate) fn holds_null(key: &[Value]) -> bool
    ensures { result ≡ list_any is_null key.now }
{
    key.iter().any(|value| matches!(value, Value::Null))
}

// Whether a row's values in columns hold null.
pub(crate) fn null_within(row: &[Value], columns: &[usize]) -> bool
    ensures { result ≡ list_any is_null (key_of columns.now row.now) }
{
    let Some((column, columns)) = columns.split_first() else {
        return false;
    };
    match row.get(*column) {
        None | Some(Value::Null) => true,
        Some(_) => null_within(row, columns),
    }
}

// The row at a place, and the empty row where there is none.
pub(crate) fn row_at(parts: &[Arc<Rows>], at: RowPlace) -> &[Value]
    ensures { result.now ≡ row_at (map (λ x. x.value) parts.now) at }
{
    match parts.get(at.position) {
        Some(rows) => match rows.items().get(at.place) {
            Some(row) => row.items(),
            None => &[],
        },
        None => &[],
    }
}

// The order of a row's value in a column and another value. A row has null past its last column.
fn value_order(row: &[Value], column: usize, value: &Value) -> Ordering
    ensures { result ≡ value_cmp (column_of row.now column) value.now }
{
    match row.get(column) {
        Some(own) => compare(own, value),
        None => compare(&Value::Null, value),
    }
}

// The order of two rows by a column of each.
fn columns_order(a: &[Value], column: usize, b: &[Value], other: usize) -> Ordering
    ensures { result ≡ value_cmp (column_of a.now column) (column_of b.now other) }
{
    match b.get(other) {
        Some(value) => value_order(a, column, value),
        None => value_order(a, column, &Value::Null),
    }
}

// The order of a row's values in columns and another row's values in columns of its own.
pub(crate) fn sides_order(a: &[Value], columns: &[usize], b: &[Value], others: &[usize]) -> Ordering
    ensures { result ≡ slice_cmp value_cmp (key_of columns.now a.now) (key_of others.now b.now) }
{
    let Some((column, columns)) = columns.split_first() else {
        return if others.is_empty() {
            Ordering::Equal
        } else {
            Ordering::Less
        };
    };
    let Some((other, others)) = others.split_first() else {
        return Ordering::Greater;
    };
    match columns_order(a, *column, b, *other) {
        Ordering::Equal => sides_order(a, columns, b, others),
        order => order,
    }
}

// The order of two rows by their keys.
pub(crate) fn keys_order(a: &[Value], b: &[Value], columns: &[usize]) -> Ordering
    ensures { result ≡ slice_cmp value_cmp (key_of columns.now a.now) (key_of columns.now b.now) }
{
    for column in columns {
        match columns_order(a, *column, b, *column) {
            Ordering::Equal => {}
            order => return order,
        }
    }
    Ordering::Equal
}

// The order of a row's key and another key.
pub(crate) fn key_order(row: &[Value], columns: &[usize], key: &[Value]) -> Ordering
    ensures { result ≡ slice_cmp value_cmp (key_of columns.now row.now) key.now }
{
    let Some((column, columns)) = columns.split_first() else {
        return if key.is_empty() {
            Ordering::Equal
        } else {
            Ordering::Less
        };
    };
    let Some((value, key)) = key.split_first() else {
        return Ordering::Greater;
    };
    match value_order(row, *column, value) {
        Ordering::Equal => key_order(row, columns, key),
        order => order,
    }
}
