ghost use Rattle.std.specs.Prelude.{◌≡◌, ◌<◌, ◌^◌, true, map, length, IfOk};
ghost use Rattle.std.specs.List.{AllByRecursion};
ghost use Rattle.rows.specs.Layouts.{FitsColumns, HasType, IsRowIn, all_columns};
ghost use Rattle.hash_join.specs.Table.{IsColumn, rows_of};
ghost use Rattle.plan_tree.specs.WellFormed.{sort_key};
ghost use Rattle.merge_join.specs.Sides.{IsSide, left_columns, right_columns};

use crate::key::place_of;
use crate::merge_slice;
use hash_join::{Built, Parts, arrange};
use lists::{Duplicate, Sequence};
use rows::{
    ColType, ColumnRef, KeyPair, KeyPairList, Layout, LayoutColumn, LayoutPart, Row, Rows, SortKey,
    SortKeyList, Text, Value,
};
use std::alloc::{AllocError, Global};
use std::sync::Arc;
use std::test::Fail;

// A number, null for a dash, and else a word.
fn value(alloc: Global, text: &str) -> Result<Value, AllocError> {
    if text == "-" {
        return Ok(Value::Null);
    }
    match text.parse::<i64>() {
        Ok(number) => Ok(Value::Number(number)),
        Err(_) => Ok(Value::Word(Text::from_slice(alloc, text.as_bytes())?)),
    }
}

// The values between commas.
fn row(alloc: Global, text: &str) -> Result<Row, AllocError> {
    let mut values = Vec::new(alloc);
    for field in text.split(',') {
        values.push(value(alloc, field)?)?;
    }
    Ok(Sequence::from_vec(values))
}

// The rows between semicolons.
fn rows(alloc: Global, text: &str) -> Result<Rows, AllocError> {
    let mut rows = Vec::new(alloc);
    for line in text.split(';') {
        rows.push(row(alloc, line)?)?;
    }
    Ok(Sequence::from_vec(rows))
}

// So many rows of one key, numbered from 0.
fn numbered(alloc: Global, count: i64) -> Result<Rows, AllocError> {
    let mut rows = Vec::new(alloc);
    for number in 0..count {
        let values = vec![in alloc; Value::Number(7), Value::Number(number)]?;
        rows.push(Sequence::from_vec(values))?;
    }
    Ok(Sequence::from_vec(rows))
}

// One variable with these columns.
fn layout(alloc: Global, var: u32, columns: &[LayoutColumn]) -> Result<Layout, AllocError>
    ensures { IfOk result (λ layout. all_columns layout ≡ columns.now) }
{
    let mut copies = Vec::new(alloc);
    for column in columns {
        copies.push(*column)?;
    }
    let part = LayoutPart {
        var,
        columns: Sequence::from_vec(copies),
    };
    Ok(Sequence::from_vec(vec![in alloc; part]?))
}

// The columns of a key on the left side.
fn build_columns(alloc: Global, keys: &[KeyPair]) -> Result<Vec<ColumnRef>, AllocError>
    ensures { IfOk result (λ columns. columns.items ≡ left_columns keys.now) }
{
    let mut columns = Vec::new(alloc);
    for key in keys {
        columns.push(key.build)?;
    }
    Ok(columns)
}

// The columns of a key on the right side.
fn probe_columns(alloc: Global, keys: &[KeyPair]) -> Result<Vec<ColumnRef>, AllocError>
    ensures { IfOk result (λ columns. columns.items ≡ right_columns keys.now) }
{
    let mut columns = Vec::new(alloc);
    for key in keys {
        columns.push(key.probe)?;
    }
    Ok(columns)
}

// Up by a column of the layout.
fn sort_key(layout: &Layout, column: ColumnRef) -> Result<SortKey, AllocError>
    requires { length (all_columns layout.now) < 2 ^ 64 }
    ensures { IfOk result (λ key. key ≡ sort_key layout.now column) }
{
    match place_of(layout.items(), column.var, column.col as usize) {
        Some(place) => match u32::try_from(place) {
            Ok(column) => Ok(SortKey {
                column,
                down: false,
            }),
            Err(_) => Err(AllocError),
        },
        None => Err(AllocError),
    }
}

// Up by columns of the layout.
fn sort_keys(
    alloc: Global,
    layout: &Layout,
    columns: &[ColumnRef],
) -> Result<SortKeyList, AllocError>
    requires { length (all_columns layout.now) < 2 ^ 64 }
    ensures { IfOk result (λ keys. keys ≡ map (sort_key layout.now) columns.now) }
{
    let mut keys = Vec::new(alloc);
    for column in columns {
        keys.push(sort_key(layout, *column)?)?;
    }
    Ok(Sequence::from_vec(keys))
}

// Whether all are columns of the layout.
fn are_there(layout: &Layout, columns: &[ColumnRef]) -> bool
    requires { length (all_columns layout.now) < 2 ^ 64 }
    ensures { result ≡ true → AllByRecursion (IsColumn layout.now) columns.now }
{
    let Some((column, columns)) = columns.split_first() else {
        return true;
    };
    match place_of(layout.items(), column.var, column.col as usize) {
        Some(_) => are_there(layout, columns),
        None => false,
    }
}

// Whether a value is of a column.
fn value_fits(column: LayoutColumn, value: &Value) -> bool
    ensures { result ≡ true → HasType value.now column }
{
    match value {
        Value::Null => true,
        Value::Number(number) => {
            column.col_type == ColType::Int4 && number.unsigned_abs() <= column.bound
        }
        Value::Word(_) => column.col_type == ColType::Text,
        Value::Truth(_) => column.col_type == ColType::Bool,
    }
}

// Whether values are of columns.
fn values_fit(columns: &[LayoutColumn], values: &[Value]) -> bool
    ensures { result ≡ true → FitsColumns columns.now values.now }
{
    let Some((column, columns)) = columns.split_first() else {
        return values.is_empty();
    };
    match values.split_first() {
        Some((value, values)) => value_fits(*column, value) && values_fit(columns, values),
        None => false,
    }
}

// Whether the rows of a table are of the columns.
fn rows_fit(layout: &Layout, columns: &[LayoutColumn], built: &Built) -> bool
    requires one { length built.now.lists ≡ 1 }
    requires columns { all_columns layout.now ≡ columns.now }
    ensures { result ≡ true → AllByRecursion (IsRowIn layout.now) (rows_of built.now.lists) }
{
    for number in 0..built.rows() {
        if !values_fit(columns, built.nth(number).items()) {
            return false;
        }
    }
    true
}

// Rows in the order of columns of the layout.
fn side(
    alloc: Global,
    layout: &Layout,
    columns: &[LayoutColumn],
    keys: &[ColumnRef],
    rows: Rows,
) -> Result<Built, AllocError>
    requires { all_columns layout.now ≡ columns.now }
    ensures { IfOk result (λ built. IsSide layout.now keys.now built.lists) }
{
    let _width = columns.len();
    let sort = sort_keys(alloc, layout, keys)?;
    let mut parts = Parts::new(alloc);
    if parts.push(Arc::new(alloc, rows)?).is_err() {
        return Err(AllocError);
    }
    let built = arrange(alloc, parts, false, &sort)?;
    if are_there(layout, keys) && rows_fit(layout, columns, &built) {
        Ok(built)
    } else {
        Err(AllocError)
    }
}

// The rows of all slices, one after the other.
fn all_slices(
    alloc: Global,
    left: &Built,
    right: &Built,
    left_layout: &Layout,
    right_layout: &Layout,
    keys: &KeyPairList,
) -> Result<Vec<Row>, AllocError>
    requires left { IsSide left_layout.now (left_columns keys.now) left.now.lists }
    requires right { IsSide right_layout.now (right_columns keys.now) right.now.lists }
{
    let mut out = Vec::new(alloc);
    for slice in 0..64 {
        let rows = merge_slice(alloc, left, right, left_layout, right_layout, keys, slice)?;
        for row in rows.items() {
            out.push(row.duplicate(alloc)?)?;
        }
    }
    Ok(out)
}

// Tables of two variables, the left one with the greater number, merged by pairs of columns.
fn joined(
    alloc: Global,
    columns: &[LayoutColumn],
    pairs: &[(u32, u32)],
    left: Rows,
    right: Rows,
) -> Result<Vec<Row>, AllocError> {
    let mut keys = Vec::new(alloc);
    for (build, probe) in pairs {
        keys.push(KeyPair {
            build: ColumnRef {
                var: 5,
                col: *build,
            },
            probe: ColumnRef {
                var: 2,
                col: *probe,
            },
        })?;
    }
    let builds = build_columns(alloc, keys.as_slice())?;
    let probes = probe_columns(alloc, keys.as_slice())?;
    let first = layout(alloc, 5, columns)?;
    let second = layout(alloc, 2, columns)?;
    let left = side(alloc, &first, columns, builds.as_slice(), left)?;
    let right = side(alloc, &second, columns, probes.as_slice(), right)?;
    all_slices(
        alloc,
        &left,
        &right,
        &first,
        &second,
        &Sequence::from_vec(keys),
    )
}

fn column(col_type: ColType) -> LayoutColumn {
    LayoutColumn {
        col_type,
        bound: u64::MAX,
    }
}

// Whether the rows of all slices are these.
fn are_joined(
    alloc: Global,
    pairs: &[(u32, u32)],
    left: &str,
    right: &str,
    wanted: &str,
) -> Result<bool, AllocError> {
    let columns = [column(ColType::Text), column(ColType::Int4)];
    let found = joined(
        alloc,
        &columns,
        pairs,
        rows(alloc, left)?,
        rows(alloc, right)?,
    )?;
    let wanted = rows(alloc, wanted)?;
    for (a, b) in found.as_slice().iter().zip(wanted.items()) {
        if a.items() != b.items() {
            return Ok(false);
        }
    }
    Ok(found.len() == wanted.len())
}

#[test]
fn rows_of_equal_keys_are_combined(rt: HostRuntime) -> Result<(), Fail> {
    let table: [(&[(u32, u32)], &str, &str, &str); 5] = [
        (
            &[(0, 0)],
            "b,1;a,2;-,3;b,4",
            "-,5;b,6;c,7;b,8",
            "b,6,b,1;b,8,b,1;b,6,b,4;b,8,b,4",
        ),
        (
            &[(1, 1)],
            "x,2;y,-;z,1",
            "-,-;p,2;q,1;r,1",
            "q,1,z,1;r,1,z,1;p,2,x,2",
        ),
        (
            &[(0, 0), (1, 1)],
            "a,1;a,-;b,1;-,1",
            "a,1;a,2;b,1;b,-;-,1",
            "a,1,a,1;b,1,b,1",
        ),
        (
            &[(1, 1), (0, 0)],
            "b,1;a,2;b,0",
            "b,1;a,2;a,0",
            "b,1,b,1;a,2,a,2",
        ),
        (&[], "a,1;b,2", "c,3;d,4", "c,3,a,1;d,4,a,1;c,3,b,2;d,4,b,2"),
    ];
    for (pairs, left, right, wanted) in table {
        let same = are_joined(rt.alloc(), pairs, left, right, wanted)?;
        assert!(rt; same, "{left} and {right}");
    }
    Ok(())
}

#[test]
fn the_slices_make_up_the_left_side(rt: HostRuntime) -> Result<(), Fail> {
    let alloc = rt.alloc();
    let columns = [column(ColType::Int4), column(ColType::Int4)];
    for (left, right) in [(0, 3), (1, 3), (63, 2), (64, 2), (65, 2), (100, 100)] {
        let (lefts, rights) = (numbered(alloc, left)?, numbered(alloc, right)?);
        let found = joined(alloc, &columns, &[(0, 0)], lefts, rights)?;
        let mut at = found.as_slice().iter();
        for a in 0..left {
            for b in 0..right {
                let wanted = [7, b, 7, a].map(Value::Number);
                assert!(rt;
                    at.next()
                        .is_some_and(|row| row.items() == wanted.as_slice()),
                    "{left} {a} {b}"
                );
            }
        }
        assert!(rt; at.next().is_none(), "{left}");
    }
    Ok(())
}
