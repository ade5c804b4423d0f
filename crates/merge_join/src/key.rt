//! The keys of the rows of both sides.
ghost use Rattle.std.specs.Prelude.{◌≡◌, ◌<◌, ◌^◌, length, IfSome, MatchOption};
ghost use Rattle.std.specs.List.{list_any};
ghost use Rattle.rows.specs.Values.{is_null, value_cmp};
ghost use Rattle.rows.specs.declared.value.Value.TheVariants.{Null};
ghost use Rattle.rows.specs.Layouts.{IsRowIn, all_columns, column_in, column_place};
ghost use Rattle.hash_join.specs.Table.{row_key};
ghost use Rattle.merge_join.specs.Sides.{key_order, left_columns};

use rows::{ColumnRef, KeyPair, Layout, LayoutPart, Row, Value, compare};
use std::cmp::Ordering;

// The place of a variable's column in a row of the layout.
pub(crate) fn place_of(layout: &[LayoutPart], var: u32, col: usize) -> Option<usize>
    requires { length (all_columns layout.now) < 2 ^ 64 }
    ensures place { result ≡ column_place layout.now var col }
    ensures within { IfSome result (λ place. place < length (all_columns layout.now)) }
{
    let (part, parts) = layout.split_first()?;
    let width = part.columns.len();
    if part.var == var {
        if col < width { Some(col) } else { None }
    } else {
        Some(width + place_of(parts, var, col)?)
    }
}

// The value of a variable's column in a row of the layout. There is none where there is no such
// column.
pub(crate) fn value_in<'a>(row: &'a Row, layout: &Layout, var: u32, col: usize) -> Option<&'a Value>
    requires { IsRowIn layout.now row.now }
    ensures { MatchOption result (column_in layout.now row.now var col ≡ Null)
        (λ value. value.now ≡ column_in layout.now row.now var col) }
{
    let _width = row.len();
    match place_of(layout.items(), var, col) {
        Some(place) => Some(row.get(place)),
        None => None,
    }
}

// The order of the values of a right row and a left row in the columns of one key.
fn column_order(a: &Row, b: &Row, first: &Layout, second: &Layout, key: KeyPair) -> Ordering
    requires left { IsRowIn first.now a.now }
    requires right { IsRowIn second.now b.now }
    ensures { result ≡ value_cmp (column_in second.now b.now key.probe.var key.probe.col)
        (column_in first.now a.now key.build.var key.build.col) }
{
    let own = value_in(b, second, key.probe.var, key.probe.col as usize);
    let other = value_in(a, first, key.build.var, key.build.col as usize);
    match (own, other) {
        (Some(first), Some(second)) => compare(first, second),
        (Some(first), None) => compare(first, &Value::Null),
        (None, Some(second)) => compare(&Value::Null, second),
        (None, None) => Ordering::Equal,
    }
}

// The order of the key of a right row and that of a left row.
pub(crate) fn keys_order(
    a: &Row,
    b: &Row,
    first: &Layout,
    second: &Layout,
    keys: &[KeyPair],
) -> Ordering
    requires left { IsRowIn first.now a.now }
    requires right { IsRowIn second.now b.now }
    ensures { result ≡ key_order first.now second.now keys.now a.now b.now }
{
    let Some((key, keys)) = keys.split_first() else {
        return Ordering::Equal;
    };
    match column_order(a, b, first, second, *key) {
        Ordering::Equal => keys_order(a, b, first, second, keys),
        order => order,
    }
}

// Whether a row has null in a column.
fn is_null_in(row: &Row, layout: &Layout, column: ColumnRef) -> bool
    requires { IsRowIn layout.now row.now }
    ensures { result ≡ is_null (column_in layout.now row.now column.var column.col) }
{
    match value_in(row, layout, column.var, column.col as usize) {
        Some(value) => matches!(value, Value::Null),
        None => true,
    }
}

// Whether the key of a left row holds null.
pub(crate) fn holds_null(row: &Row, layout: &Layout, keys: &[KeyPair]) -> bool
    requires { IsRowIn layout.now row.now }
    ensures { result ≡ list_any is_null (row_key layout.now (left_columns keys.now) row.now) }
{
    let Some((key, keys)) = keys.split_first() else {
        return false;
    };
    is_null_in(row, layout, key.build) || holds_null(row, layout, keys)
}
