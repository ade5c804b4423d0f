ghost use Rattle.std.specs.Prelude.{◌≡◌, OnOk, OnErr};
ghost use Rattle.std.specs.List.{dedup};
ghost use Rattle.std.specs.Ordering.{is_eq};
ghost use Rattle.lists.specs.Arranged.{sort_by};
ghost use Rattle.rows.specs.Values.{value_cmp, column_of, key_cmp, row_cmp, arranged};

use crate::{Row, Value};
use lists::{Duplicate, Sequence};
use std::alloc::{AllocError, Global};
use std::cmp::Ordering;

/// A column to sort by, up or down.
#[derive(Clone, Copy, Debug, PartialEq, Eq)]
pub struct SortKey {
    pub column: u32,
    pub down: bool,
}

impl Duplicate for SortKey {
    fn duplicate(&self, _alloc: Global) -> Result<SortKey, AllocError> {
        Ok(*self)
    }
}

pub type SortKeyList = Sequence<SortKey>;

/// The order of values.
pub fn compare(a: &Value, b: &Value) -> Ordering
    ensures { result ≡ value_cmp a.now b.now }
{
    a.cmp(b)
}

/// The order of two rows by one column, where a row has null past its last one.
fn column_order(a: &Row, b: &Row, place: usize) -> Ordering
    ensures { result ≡ value_cmp (column_of a.now place) (column_of b.now place) }
{
    match (a.items().get(place), b.items().get(place)) {
        (Some(first), Some(second)) => compare(first, second),
        (Some(first), None) => compare(first, &Value::Null),
        (None, Some(second)) => compare(&Value::Null, second),
        (None, None) => Ordering::Equal,
    }
}

/// The order of two rows by one key.
fn key_order(a: &Row, b: &Row, key: SortKey) -> Ordering
    ensures { result ≡ key_cmp key a.now b.now }
{
    let place = key.column as usize;
    if key.down {
        column_order(b, a, place)
    } else {
        column_order(a, b, place)
    }
}

/// The order of rows of an answer: by the keys in turn, then by all columns from left to right.
pub fn row_order(a: &Row, b: &Row, keys: &[SortKey]) -> Ordering
    ensures { result ≡ row_cmp keys.now a.now b.now }
{
    for key in keys {
        match key_order(a, b, *key) {
            Ordering::Equal => {}
            order => return order,
        }
    }
    a.items().cmp(b.items())
}

// Puts rows in order.
fn sort_rows(rows: &mut Vec<Row>, keys: &[SortKey]) -> Result<(), AllocError>
    ensures ok { OnOk result (rows.new.items ≡ sort_by (row_cmp keys.now) rows.old.items) }
    ensures err { OnErr result (rows.new.items ≡ rows.old.items) }
{
    rows.sort_by(|a, b| row_order(a, b, keys))?;
    Ok(())
}

// Keeps the first of rows that follow each other and are equal.
fn drop_repeats(rows: &mut Vec<Row>, keys: &[SortKey])
    ensures { rows.new.items ≡ dedup (λ next kept. is_eq (row_cmp keys.now next kept)) rows.old.items }
{
    rows.dedup_by(|next, kept| row_order(next, kept, keys).is_eq());
}

/// Puts rows in the order of an answer, and keeps one of equal rows where `unique`. An `Err` changes nothing.
pub fn arrange_rows(rows: &mut Vec<Row>, unique: bool, keys: &[SortKey]) -> Result<(), AllocError>
    ensures ok { OnOk result (rows.new.items ≡ arranged unique keys.now rows.old.items) }
    ensures err { OnErr result (rows.new.items ≡ rows.old.items) }
{
    sort_rows(rows, keys)?;
    if unique {
        drop_repeats(rows, keys);
    }
    Ok(())
}
