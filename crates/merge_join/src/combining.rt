//! Two rows as one.
ghost use Rattle.std.specs.Prelude.{◌≡◌, ◌++◌, IfOk, OnOk};
ghost use Rattle.rows.specs.Layouts.{IsRowIn, column_in};
ghost use Rattle.plan_tree.specs.Combining.{combined, has_part, over, values_of};

use crate::key::value_in;
use lists::Duplicate;
use rows::{Layout, LayoutPart, Row, Value};
use std::alloc::{AllocError, Global};

// Whether a variable has a part.
fn has_part(layout: &[LayoutPart], var: u32) -> bool
    ensures { result ≡ has_part layout.now var }
{
    match layout.split_first() {
        Some((part, parts)) => part.var == var || has_part(parts, var),
        None => false,
    }
}

// A copy of a value of the first row where it has the variable, and else of the second.
fn value_over(
    alloc: Global,
    first: &Layout,
    second: &Layout,
    a: &Row,
    b: &Row,
    var: u32,
    col: usize,
) -> Result<Value, AllocError>
    requires first { IsRowIn first.now a.now }
    requires second { IsRowIn second.now b.now }
    ensures { IfOk result (λ value. value ≡ over first.now a.now (column_in second.now b.now) var
        col) }
{
    let found = if has_part(first.items(), var) {
        value_in(a, first, var, col)
    } else {
        value_in(b, second, var, col)
    };
    match found {
        Some(value) => value.duplicate(alloc),
        None => Ok(Value::Null),
    }
}

// Adds the values of a part.
fn put_part(
    values: &mut Vec<Value>,
    alloc: Global,
    part: &LayoutPart,
    first: &Layout,
    second: &Layout,
    a: &Row,
    b: &Row,
) -> Result<(), AllocError>
    requires first { IsRowIn first.now a.now }
    requires second { IsRowIn second.now b.now }
    ensures { OnOk result (values.new.items ≡ values.old.items
        ++ values_of (over first.now a.now (column_in second.now b.now)) part.now.var 0
        part.now.columns) }
{
    for col in 0..part.columns.len() {
        values.push(value_over(alloc, first, second, a, b, part.var, col)?)?;
    }
    Ok(())
}

// Two rows as one of a layout.
pub(crate) fn combined_row(
    alloc: Global,
    layout: &Layout,
    first: &Layout,
    second: &Layout,
    a: &Row,
    b: &Row,
) -> Result<Row, AllocError>
    requires first { IsRowIn first.now a.now }
    requires second { IsRowIn second.now b.now }
    ensures { IfOk result (λ row. row ≡ combined layout.now first.now second.now a.now b.now) }
{
    let mut values = Vec::new(alloc);
    for part in layout.items() {
        put_part(&mut values, alloc, part, first, second, a, b)?;
    }
    Ok(Row::from_vec(values))
}
