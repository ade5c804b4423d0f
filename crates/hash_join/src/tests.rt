ghost use Rattle.std.specs.Prelude.{◌≡◌, length};

use crate::{Built, Parts, arrange, build};
use lists::Sequence;
use rows::{ColType, ColumnRef, Layout, LayoutColumn, LayoutPart, Row, Rows, SortKey, Value};
use std::alloc::{AllocError, Global};
use std::sync::Arc;
use std::test::Fail;

// Numbers between commas; what is no number is null.
fn row(alloc: Global, text: &str) -> Result<Row, AllocError> {
    let mut values = Vec::new(alloc);
    for field in text.split(',') {
        let value = match field.parse::<i64>() {
            Ok(number) => Value::Number(number),
            Err(_) => Value::Null,
        };
        values.push(value)?;
    }
    Ok(Sequence::from_vec(values))
}

fn rows(alloc: Global, text: &str) -> Result<Rows, AllocError> {
    let mut rows = Vec::new(alloc);
    for line in text.split(';') {
        rows.push(row(alloc, line)?)?;
    }
    Ok(Sequence::from_vec(rows))
}

// Lists of rows between bars.
fn parts(alloc: Global, text: &str) -> Result<Parts, AllocError> {
    let mut parts = Parts::new(alloc);
    for list in text.split('|') {
        let item = Arc::new(alloc, rows(alloc, list)?)?;
        if parts.push(item).is_err() {
            return Err(AllocError);
        }
    }
    Ok(parts)
}

// A variable with one column.
fn part(alloc: Global, var: u32) -> Result<LayoutPart, AllocError> {
    let column = LayoutColumn {
        col_type: ColType::Int4,
        bound: 9,
    };
    Ok(LayoutPart {
        var,
        columns: Sequence::from_vec(vec![in alloc; column]?),
    })
}

fn layout(alloc: Global) -> Result<Layout, AllocError> {
    let mut parts = Vec::new(alloc);
    parts.push(part(alloc, 0)?)?;
    parts.push(part(alloc, 4)?)?;
    Ok(Sequence::from_vec(parts))
}

// A table whose key is the columns of these variables.
fn keyed(alloc: Global, vars: &[u32]) -> Result<Built, AllocError> {
    let mut keys = Sequence::new(alloc);
    for var in vars {
        if keys.push(ColumnRef { var: *var, col: 0 }).is_err() {
            return Err(AllocError);
        }
    }
    let layout = layout(alloc)?;
    let parts = parts(alloc, "1,7;-,6;2,5;1,4|1,3;2,-;-,2;1,1")?;
    build(alloc, parts, &layout, &keys)
}

// The values of a row, where null is 0.
fn spell(out: &mut Vec<i64>, row: &Row) -> Result<(), AllocError> {
    for value in row.items() {
        match value {
            Value::Number(number) => out.push(*number)?,
            _ => out.push(0)?,
        }
    }
    Ok(())
}

// The rows that match a key, one after the other.
fn found(alloc: Global, built: &Built, key: &Row) -> Result<Vec<i64>, AllocError> {
    let mut out = Vec::new(alloc);
    for at in built.matches(key) {
        spell(&mut out, built.row(*at))?;
    }
    Ok(out)
}

fn matched(alloc: Global, vars: &[u32], key: &str) -> Result<Vec<i64>, AllocError> {
    let key = row(alloc, key)?;
    let built = keyed(alloc, vars)?;
    found(alloc, &built, &key)
}

// The rows that match another row's values in columns, one after the other.
fn found_in(
    alloc: Global,
    vars: &[u32],
    text: &str,
    columns: &[usize],
) -> Result<Vec<i64>, AllocError> {
    let mut out = Vec::new(alloc);
    let other = row(alloc, text)?;
    let built = keyed(alloc, vars)?;
    for at in built.matches_in(other.items(), columns) {
        spell(&mut out, built.row(*at))?;
    }
    Ok(out)
}

// The rows of an arranged value, one after the other.
fn all(alloc: Global, built: &Built) -> Result<Vec<i64>, AllocError>
    requires { length built.now.lists ≡ 1 }
{
    let mut out = Vec::new(alloc);
    for number in 0..built.rows() {
        spell(&mut out, built.nth(number))?;
    }
    Ok(out)
}

// Rows by their second column, as the empty key finds them and as they stand.
fn ordered(alloc: Global, unique: bool) -> Result<[Vec<i64>; 2], AllocError> {
    let mut keys = Sequence::new(alloc);
    let by_second = SortKey {
        column: 1,
        down: false,
    };
    if keys.push(by_second).is_err() {
        return Err(AllocError);
    }
    let parts = parts(alloc, "1,2;3,1|1,2;-,9;2,1")?;
    let built = arrange(alloc, parts, unique, &keys)?;
    let every = found(alloc, &built, &Sequence::new(alloc))?;
    Ok([every, all(alloc, &built)?])
}

#[test]
fn rows_match_by_their_keys(rt: HostRuntime) -> Result<(), Fail> {
    let table: [(&[u32], &str, &[i64]); 5] = [
        (&[0], "1", &[1, 7, 1, 4, 1, 3, 1, 1]),
        (&[0], "3", &[]),
        (&[0], "-", &[]),
        (&[0], "1,7", &[]),
        (&[4, 0], "3,1", &[1, 3]),
    ];
    for (vars, key, wanted) in table {
        assert_eq!(rt; matched(rt.alloc(), vars, key)?.as_slice(), wanted);
    }
    Ok(())
}

#[test]
fn rows_match_by_columns_of_another_row(rt: HostRuntime) -> Result<(), Fail> {
    let table: [(&[u32], &str, &[usize], &[i64]); 5] = [
        (&[0], "9,1", &[1], &[1, 7, 1, 4, 1, 3, 1, 1]),
        (&[0], "9,-", &[1], &[]),
        (&[0], "9,1", &[2], &[]),
        (&[4, 0], "1,9,3", &[2, 0], &[1, 3]),
        (
            &[],
            "9",
            &[],
            &[1, 7, 0, 6, 2, 5, 1, 4, 1, 3, 2, 0, 0, 2, 1, 1],
        ),
    ];
    for (vars, other, columns, wanted) in table {
        assert_eq!(rt;
            found_in(rt.alloc(), vars, other, columns)?.as_slice(),
            wanted
        );
    }
    Ok(())
}

#[test]
fn parts_turn_into_lists_and_back(rt: HostRuntime) -> Result<(), Fail> {
    let alloc = rt.alloc();
    let lists = parts(alloc, "1,2;3,1|1,2")?.into_vec();
    assert_eq!(rt; lists.len(), 2);
    let again = Parts::from_vec(lists);
    let mut out = Vec::new(alloc);
    for rows in again.items() {
        for row in rows.items() {
            spell(&mut out, row)?;
        }
    }
    assert_eq!(rt; out.as_slice(), [1, 2, 3, 1, 1, 2].as_slice());
    Ok(())
}

#[test]
fn rows_are_arranged_over_all_positions(rt: HostRuntime) -> Result<(), Fail> {
    let table: [(bool, &[i64]); 2] = [
        (false, &[2, 1, 3, 1, 1, 2, 1, 2, 0, 9]),
        (true, &[2, 1, 3, 1, 1, 2, 0, 9]),
    ];
    for (unique, wanted) in table {
        let [every, all] = ordered(rt.alloc(), unique)?;
        assert_eq!(rt; every.as_slice(), wanted);
        assert_eq!(rt; all.as_slice(), wanted);
    }
    Ok(())
}
