//! Two rows as one of a layout.
ghost use Rattle.std.specs.Prelude.{◌≡◌, ◌++◌, IfOk, MatchOption, OnOk, map};
ghost use Rattle.rows.specs.declared.value.Value.TheVariants.{Null};
ghost use Rattle.rows.specs.Layouts.{column_place, value_at};
ghost use Rattle.plan_tree.specs.Combining.{has_part};
ghost use Rattle.pipeline.specs.Taking.{taken_columns, taken_from, taken_part, taken_value};

use lists::Duplicate;
use rows::{Layout, LayoutPart, Row, Value};
use std::alloc::{AllocError, Global};

/// Where a value of a combined row stands: whether in the built row, else in the probing one, and its place there. Without a
/// place it is null.
#[derive(Clone, Copy, Debug)]
pub(crate) struct Taken {
    pub built: bool,
    pub place: Option<usize>,
}

// The place of a variable's column in a row of the layout. An error is want of memory: a row has fewer than 2^64 columns.
pub(crate) fn place_of(
    layout: &[LayoutPart],
    var: u32,
    column: usize,
) -> Result<Option<usize>, AllocError>
    ensures { IfOk result (λ place. place ≡ column_place layout.now var column) }
{
    let Some((part, parts)) = layout.split_first() else {
        return Ok(None);
    };
    let width = part.columns.len();
    if part.var == var {
        return Ok(if column < width { Some(column) } else { None });
    }
    match place_of(parts, var, column)? {
        None => Ok(None),
        Some(place) => match width.checked_add(place) {
            Some(place) => Ok(Some(place)),
            None => Err(AllocError),
        },
    }
}

// Whether a variable has a part.
pub(crate) fn has_part(layout: &[LayoutPart], var: u32) -> bool
    ensures { result ≡ has_part layout.now var }
{
    match layout.split_first() {
        Some((part, parts)) => part.var == var || has_part(parts, var),
        None => false,
    }
}

// Where a variable's column stands.
fn taken_from(first: &Layout, second: &Layout, var: u32, column: usize) -> Result<Taken, AllocError>
    ensures { IfOk result (λ taken. taken ≡ taken_from first.now second.now var column) }
{
    let built = has_part(first.items(), var);
    let place = if built {
        place_of(first.items(), var, column)?
    } else {
        place_of(second.items(), var, column)?
    };
    Ok(Taken { built, place })
}

// Adds where the columns of a part stand.
fn put_part(
    taken: &mut Vec<Taken>,
    part: &LayoutPart,
    first: &Layout,
    second: &Layout,
) -> Result<(), AllocError>
    ensures { OnOk result (taken.new.items ≡ taken.old.items ++ taken_part first.now second.now part.now.var 0 part.now.columns) }
{
    for column in 0..part.columns.len() {
        taken.push(taken_from(first, second, part.var, column)?)?;
    }
    Ok(())
}

// Where the values of a row of the layout stand, which is made of a row of each of the others.
pub(crate) fn taken_columns(
    alloc: Global,
    layout: &Layout,
    first: &Layout,
    second: &Layout,
) -> Result<Vec<Taken>, AllocError>
    ensures { IfOk result (λ taken. taken.items ≡ taken_columns layout.now first.now second.now) }
{
    let mut taken = Vec::new(alloc);
    for part in layout.items() {
        put_part(&mut taken, part, first, second)?;
    }
    Ok(taken)
}

// A copy of the value at a place of a row, and null where there is none.
fn copy_at(alloc: Global, row: &[Value], place: Option<usize>) -> Result<Value, AllocError>
    ensures { IfOk result (λ value. value ≡ value_at row.now place) }
{
    let Some(place) = place else {
        return Ok(Value::Null);
    };
    match row.get(place) {
        Some(value) => value.duplicate(alloc),
        None => Ok(Value::Null),
    }
}

// A copy of the value that stands there.
fn take_value(alloc: Global, taken: Taken, a: &[Value], b: &[Value]) -> Result<Value, AllocError>
    ensures { IfOk result (λ value. value ≡ taken_value taken a.now b.now) }
{
    if taken.built {
        copy_at(alloc, a, taken.place)
    } else {
        copy_at(alloc, b, taken.place)
    }
}

// A row of the values that stand there.
pub(crate) fn combined_row(
    alloc: Global,
    taken: &[Taken],
    a: &[Value],
    b: &[Value],
) -> Result<Row, AllocError>
    ensures { IfOk result (λ row. row ≡ map (λ t. taken_value t a.now b.now) taken.now) }
{
    let mut values = Vec::with_capacity(alloc, taken.len())?;
    for from in taken {
        values.push(take_value(alloc, *from, a, b)?)?;
    }
    Ok(Row::from_vec(values))
}
