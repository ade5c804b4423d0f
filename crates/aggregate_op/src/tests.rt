use crate::{
    Closed, Fold, FoldOp, FoldOpList, FoldPlace, FoldPlaceList, close_groups, merge, merge_all,
    partial,
};
use lists::Sequence;
use rows::{Row, Rows, Text, Value};
use std::alloc::{AllocError, Global};
use std::sync::Arc;
use std::test::Fail;

#[test]
fn lists_of_ops_and_places_are_copied(rt: HostRuntime) -> Result<(), Fail> {
    let alloc = rt.alloc();
    let ops: FoldOpList = Sequence::from_vec(vec![in alloc; FoldOp::Sum, FoldOp::Min]?);
    let places: FoldPlaceList = Sequence::from_vec(vec![in alloc;
        FoldPlace::Op(1),
        FoldPlace::Group(0),
    ]?);
    assert_eq!(rt;
        ops.copy(alloc)?.items(),
        [FoldOp::Sum, FoldOp::Min].as_slice()
    );
    assert_eq!(rt; places.copy(alloc)?.items(), places.items());
    Ok(())
}

#[derive(Clone, Copy)]
enum Cell {
    Nothing,
    Number(i64),
    Text(&'static [u8]),
}

fn value_of(alloc: Global, cell: Cell) -> Result<Value, AllocError> {
    match cell {
        Cell::Nothing => Ok(Value::Null),
        Cell::Number(number) => Ok(Value::Number(number)),
        Cell::Text(text) => Ok(Value::Word(Text::from_slice(alloc, text)?)),
    }
}

fn row_of(alloc: Global, cells: &[Cell]) -> Result<Row, AllocError> {
    let mut row = Vec::new(alloc);
    for cell in cells {
        row.push(value_of(alloc, *cell)?)?;
    }
    Ok(Row::from_vec(row))
}

fn rows_of(alloc: Global, table: &[&[Cell]]) -> Result<Rows, AllocError> {
    let mut rows = Vec::new(alloc);
    for cells in table {
        rows.push(row_of(alloc, cells)?)?;
    }
    Ok(Rows::from_vec(rows))
}

// The first columns are the groups, and then comes each op.
fn fold_of(alloc: Global, groups: u32, ops: &[FoldOp]) -> Result<Fold, AllocError> {
    let mut places = Vec::new(alloc);
    for place in 0..groups {
        places.push(FoldPlace::Group(place))?;
    }
    let mut count = 0u32;
    for _op in ops {
        places.push(FoldPlace::Op(count))?;
        count = count.saturating_add(1);
    }
    Ok(Fold {
        groups,
        ops: Sequence::from_vec(Vec::from_slice(alloc, ops)?),
        places: Sequence::from_vec(places),
    })
}

fn are_rows(rows: &Rows, wanted: &Rows) -> bool {
    rows.len() == wanted.len()
        && rows
            .items()
            .iter()
            .zip(wanted.items())
            .all(|(row, other)| row.items() == other.items())
}

// What is known of the groups of two parts, if it is the same by `merge` and by `merge_all`.
fn groups_of(alloc: Global, fold: &Fold, left: Rows, right: Rows) -> Result<Rows, AllocError> {
    let both = merge(alloc, &left, &right, fold)?;
    let mut parts = Vec::new(alloc);
    parts.push(Arc::new(alloc, left)?)?;
    parts.push(Arc::new(alloc, right)?)?;
    let groups = merge_all(alloc, parts, fold)?;
    if are_rows(&both, &groups) {
        Ok(groups)
    } else {
        Ok(Rows::new(alloc))
    }
}

fn answer(
    alloc: Global,
    fold: &Fold,
    first: &[&[Cell]],
    second: &[&[Cell]],
) -> Result<Closed, AllocError> {
    let left = partial(alloc, &rows_of(alloc, first)?, fold)?;
    let right = partial(alloc, &rows_of(alloc, second)?, fold)?;
    let groups = groups_of(alloc, fold, left, right)?;
    close_groups(alloc, &groups, fold)
}

// Whether the rows of two tables are folded to these.
fn gives(
    alloc: Global,
    fold: &Fold,
    first: &[&[Cell]],
    second: &[&[Cell]],
    wanted: &[&[Cell]],
) -> Result<bool, AllocError> {
    match answer(alloc, fold, first, second)? {
        Closed::Rows(rows) => Ok(are_rows(&rows, &rows_of(alloc, wanted)?)),
        Closed::TooLarge => Ok(false),
    }
}

const TOY: Cell = Cell::Text(b"toy");

const SHOE: Cell = Cell::Text(b"shoe");

#[test]
fn departments_are_counted_and_added_up(rt: HostRuntime) -> Result<(), Fail> {
    let alloc = rt.alloc();
    let fold = fold_of(alloc, 1, &[FoldOp::Count, FoldOp::Sum, FoldOp::Min])?;
    let ann = [
        TOY,
        Cell::Text(b"Ann"),
        Cell::Number(1200),
        Cell::Number(1200),
    ];
    let bob = [
        TOY,
        Cell::Text(b"Bob"),
        Cell::Number(900),
        Cell::Number(900),
    ];
    let cid = [
        SHOE,
        Cell::Text(b"Cid"),
        Cell::Number(1500),
        Cell::Number(1500),
    ];
    let toys = [TOY, Cell::Number(2), Cell::Number(2100), Cell::Number(900)];
    let shoes = [
        SHOE,
        Cell::Number(1),
        Cell::Number(1500),
        Cell::Number(1500),
    ];
    assert!(rt; gives(alloc, &fold, &[&ann], &[&bob, &cid], &[&shoes, &toys])?);
    Ok(())
}

// A value for each of two ops.
fn twice(value: i64) -> [Cell; 2] {
    [Cell::Number(value), Cell::Number(value)]
}

const BIG: i64 = 4_611_686_018_427_387_904;

#[test]
fn sums_may_pass_what_they_may_not_end_at(rt: HostRuntime) -> Result<(), Fail> {
    let alloc = rt.alloc();
    let fold = fold_of(alloc, 0, &[FoldOp::Count, FoldOp::Sum])?;
    let (big, low) = (twice(BIG), twice(-BIG));
    let nothing = [Cell::Number(0), Cell::Nothing];
    assert!(rt; gives(alloc, &fold, &[], &[], &[&nothing])?);
    let nulls = [Cell::Nothing, Cell::Nothing];
    assert!(rt; gives(alloc, &fold, &[&nulls], &[&nulls], &[&nothing])?);
    let back = [Cell::Number(3), Cell::Number(BIG)];
    assert!(rt; gives(alloc, &fold, &[&big, &big], &[&low], &[&back])?);
    let least = [Cell::Number(2), Cell::Number(i64::MIN)];
    assert!(rt; gives(alloc, &fold, &[&low], &[&low], &[&least])?);
    assert!(rt; matches!(answer(alloc, &fold, &[&big], &[&big])?, Closed::TooLarge));
    Ok(())
}

#[test]
fn groups_may_be_null_or_of_two_texts(rt: HostRuntime) -> Result<(), Fail> {
    let alloc = rt.alloc();
    let fold = fold_of(alloc, 2, &[FoldOp::Max])?;
    let toys = [TOY, SHOE, Cell::Number(1)];
    let none = [TOY, TOY, Cell::Nothing];
    let less = [Cell::Nothing, SHOE, Cell::Number(2)];
    let more = [Cell::Nothing, SHOE, Cell::Number(3)];
    assert!(rt;
        gives(
            alloc,
            &fold,
            &[&toys, &less],
            &[&none, &more],
            &[&more, &toys, &none]
        )?
    );
    Ok(())
}
