//! Making a table of rows.
ghost use Rattle.std.specs.Prelude.{◌≡◌, [], ◌∷◌, ◌++◌, map, IfOk, OnOk};
ghost use Rattle.std.specs.List.{All};
ghost use Rattle.rows.specs.Values.{arranged};
ghost use Rattle.hash_join.specs.Table.{HasKeys, IsColumn, Table, places_of, rows_of};

use crate::buckets::buckets_of;
use crate::key::key_places;
use crate::{Built, Parts};
use lists::Duplicate;
use rows::{ColumnRefList, Layout, Row, Rows, SortKeyList, arrange_rows};
use std::alloc::{AllocError, Global};
use std::sync::Arc;

// A table with its places in the order of their keys.
fn indexed(alloc: Global, parts: Parts, columns: Vec<usize>) -> Result<Built, AllocError>
    ensures { IfOk result (λ built. built ≡ record { lists = parts; columns = columns.items }) }
{
    let buckets = buckets_of(alloc, parts.items(), columns.as_slice())?;
    Ok(Built {
        parts,
        columns,
        buckets,
    })
}

// The rows by position, with the columns of their key.
fn keyed(
    alloc: Global,
    parts: Parts,
    layout: &Layout,
    keys: &ColumnRefList,
) -> Result<Built, AllocError>
    ensures { IfOk result (λ built. built ≡ record { lists = parts; columns = places_of layout.now keys.now }) }
{
    let columns = key_places(alloc, layout.items(), keys.items())?;
    indexed(alloc, parts, columns)
}

/// The rows by position, to be found by their values in key columns of the layout, whose rows they are. Where each key is a
/// column of the layout, a row's key has its values in these columns; one that is no column is passed over. An error is
/// want of memory.
pub fn build(
    alloc: Global,
    parts: Parts,
    layout: &Layout,
    keys: &ColumnRefList,
) -> Result<Built, AllocError>
    ensures table { IfOk result (λ built. built ≡ record { lists = parts; columns = places_of layout.now keys.now }) }
    ensures keys { All (IsColumn layout.now) keys.now → IfOk result (HasKeys layout.now keys.now) }
{
    keyed(alloc, parts, layout, keys)
}

// Adds copies of rows.
fn put_rows(out: &mut Vec<Row>, alloc: Global, rows: &[Row]) -> Result<(), AllocError>
    ensures { OnOk result (out.new.items ≡ out.old.items ++ rows.now) }
{
    for row in rows {
        out.push(row.duplicate(alloc)?)?;
    }
    Ok(())
}

// Adds the rows of a part. They are moved where nothing else shares them, and copied else.
fn add_part(out: &mut Vec<Row>, alloc: Global, part: Arc<Rows>) -> Result<(), AllocError>
    ensures { OnOk result (out.new.items ≡ out.old.items ++ part.value) }
{
    match Arc::try_unwrap(part) {
        Ok(rows) => {
            let mut rows = rows.into_vec();
            out.append(&mut rows)
        }
        Err(shared) => put_rows(out, alloc, shared.items()),
    }
}

// All rows, by position.
fn joined(alloc: Global, parts: Parts) -> Result<Vec<Row>, AllocError>
    ensures { IfOk result (λ rows. rows.items ≡ rows_of parts) }
{
    let mut out = Vec::new(alloc);
    for part in parts.into_vec() {
        add_part(&mut out, alloc, part)?;
    }
    Ok(out)
}

// One list of rows, at position 0.
fn one_list(alloc: Global, rows: Vec<Row>) -> Result<Parts, AllocError>
    ensures { IfOk result (λ parts. parts ≡ rows.items ∷ []) }
{
    let mut parts = Parts::new(alloc);
    match parts.push(Arc::new(alloc, Rows::from_vec(rows))?) {
        Ok(()) => Ok(parts),
        Err(_) => Err(AllocError),
    }
}

/// The rows of all positions in the order of an answer, by the sort keys and then by all columns, and one of equal rows
/// where `unique`. They stand in one list, at position 0. The rows of a list that nothing else shares are moved, and not
/// copied. An error is want of memory.
pub fn arrange(
    alloc: Global,
    parts: Parts,
    unique: bool,
    keys: &SortKeyList,
) -> Result<Built, AllocError>
    ensures { IfOk result (λ built. built ≡ record { lists = arranged unique keys.now (rows_of parts) ∷ []; columns = [] }) }
{
    let mut rows = joined(alloc, parts)?;
    arrange_rows(&mut rows, unique, keys.items())?;
    indexed(alloc, one_list(alloc, rows)?, Vec::new(alloc))
}
