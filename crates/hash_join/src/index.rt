//! The places of rows, in the order of their keys.
ghost use Rattle.std.specs.Prelude.{◌≡◌, ◌++◌, map, filter, IfOk, OnOk};
ghost use Rattle.std.specs.List.{range_with_len};
ghost use Rattle.std.specs.List.Sorted.{IsSortedBy};
ghost use Rattle.hash_join.specs.Table.{Table, place_at, places, has_key, key_of};
ghost use Rattle.hash_join.specs.Found.{is_below};

use crate::RowPlace;
use crate::key::{key_order, row_at, sides_order};
use rows::{Rows, Value};
use std::alloc::{AllocError, Global};
use std::sync::Arc;

// Adds the places of the rows of one position.
fn put_places(index: &mut Vec<RowPlace>, position: usize, count: usize) -> Result<(), AllocError>
    ensures { OnOk result (index.new.items ≡ index.old.items ++ map (place_at position) (range_with_len 0 count)) }
{
    for place in 0..count {
        index.push(RowPlace { position, place })?;
    }
    Ok(())
}

// The places of all rows.
pub(crate) fn all_places(alloc: Global, parts: &[Arc<Rows>]) -> Result<Vec<RowPlace>, AllocError>
    ensures { IfOk result (λ index. index.items ≡ places (map (λ x. x.value) parts.now)) }
{
    let mut index = Vec::new(alloc);
    for position in 0..parts.len() {
        put_places(&mut index, position, parts[position].len())?;
    }
    Ok(index)
}

// The places of the rows with a key, out of places in the order of their keys.
pub(crate) fn run_with<'a>(
    parts: &[Arc<Rows>],
    columns: &[usize],
    index: &'a [RowPlace],
    key: &[Value],
) -> &'a [RowPlace]
    requires { let table : Table = record { lists = map (λ x. x.value) parts.now; columns = columns.now } in IsSortedBy (is_below table) index.now }
    ensures { let table : Table = record { lists = map (λ x. x.value) parts.now; columns = columns.now } in result.now ≡ filter (has_key table key.now) index.now }
{
    let start = index.partition_point(|at| key_order(row_at(parts, *at), columns, key).is_lt());
    let rest = &index[start..];
    let count = rest.partition_point(|at| key_order(row_at(parts, *at), columns, key).is_le());
    &rest[..count]
}

// The places of the rows with another row's values in columns, out of places in the order of their keys.
pub(crate) fn run_for<'a>(
    parts: &[Arc<Rows>],
    columns: &[usize],
    index: &'a [RowPlace],
    row: &[Value],
    others: &[usize],
) -> &'a [RowPlace]
    requires { let table : Table = record { lists = map (λ x. x.value) parts.now; columns = columns.now } in IsSortedBy (is_below table) index.now }
    ensures { let table : Table = record { lists = map (λ x. x.value) parts.now; columns = columns.now } in result.now ≡ filter (has_key table (key_of others.now row.now)) index.now }
{
    let start = index.partition_point(|at| sides_order(
        row_at(parts, *at),
        columns,
        row,
        others,
    ).is_lt());
    let rest = &index[start..];
    let size = rest.partition_point(|at| sides_order(
        row_at(parts, *at),
        columns,
        row,
        others,
    ).is_le());
    &rest[..size]
}
