ghost use Rattle.std.specs.Prelude.{◌≡◌, ◌<◌, ◌^◌, ◌++◌, [], ◌∷◌, All, IfOk, IsSome, IsTrue, OnOk, length, map, filter, ◌+◌, MatchOption};
ghost use Rattle.std.specs.Option.{option_map};
ghost use Rattle.rel_meaning.specs.Expression.{expression_of, output_of, question_of};
ghost use Rattle.rel_meaning.specs.Joined.{answers, joined, row_of};
ghost use Rattle.rows.specs.Layouts.{column_in, column_type, IsRowIn};
ghost use Rattle.rel_meaning.specs.Meaning.{layout_over, layout_column, listed, meaning, passes, project, CanBeAsked, IsResolved};
ghost use Rattle.rel_meaning.specs.Typing.{type_of, is_truth};

use crate::{Database, Expr, Query, Table, Target, Var, evaluate};
use lists::{Duplicate, Sequence};
use rows::{
    ColType, Column, Layout, LayoutColumn, LayoutColumnList, LayoutPart, Row, Rows, Value,
    arrange_rows,
};
use std::alloc::{AllocError, Global};

/// The type and the bound that a column has in a layout: the bound of an integer is 2^31.
pub fn column_layout(column: &Column) -> LayoutColumn
    ensures { result ≡ layout_column column.now }
{
    LayoutColumn {
        col_type: column.col_type,
        bound: match column.col_type {
            ColType::Int4 => 1 << 31,
            ColType::Text | ColType::Bool => 0,
        },
    }
}

fn column_layouts(alloc: Global, columns: &[Column]) -> Result<Vec<LayoutColumn>, AllocError>
    ensures { IfOk result (λ v. v.items ≡ map layout_column columns.now) }
{
    columns.iter().map(column_layout).collect(alloc)
}

// A choice of rows for some variables, as one row.
#[derive(Drop)]
enum Choice<'a> {
    One(&'a Row),
    Several(Row),
}

impl Choice<'_> {
    fn row(&self) -> &Row
        ensures { result.now ≡ row_of self.now }
    {
        match self {
            Choice::One(row) => row,
            Choice::Several(row) => row,
        }
    }
}

// A row with a second one behind it.
fn with_row(alloc: Global, first: &Row, second: &Row) -> Result<Row, AllocError>
    ensures { IfOk result (λ row. row ≡ first.now ++ second.now) }
{
    let mut values = first.copy(alloc)?.into_vec();
    for value in second.items() {
        values.push(value.duplicate(alloc)?)?;
    }
    Ok(Sequence::from_vec(values))
}

// A choice with a further row. A first row is borrowed, so that a query over one table copies none.
fn with_choice<'a>(alloc: Global, front: &Row, row: &'a Row) -> Result<Choice<'a>, AllocError>
    ensures { IfOk result (λ choice. row_of choice ≡ front.now ++ row.now) }
{
    if front.is_empty() {
        Ok(Choice::One(row))
    } else {
        Ok(Choice::Several(with_row(alloc, front, row)?))
    }
}

/// The values of the targets under a row of the layout.
pub fn target_values(
    alloc: Global,
    targets: &[Target],
    row: &Row,
    layout: &Layout,
) -> Result<Row, AllocError>
    requires typed { All (λ target. IsSome (type_of (expression_of target.expr) (column_type layout.now))) targets.now }
    requires row { IsRowIn layout.now row.now }
    ensures { IfOk result (λ v. v ≡ project (map output_of targets.now) (column_in layout.now row.now)) }
{
    let mut values = Vec::new(alloc);
    for target in targets {
        values.push(evaluate(alloc, &target.expr, row, layout)?)?;
    }
    Ok(Sequence::from_vec(values))
}

// Whether the test is true or absent.
fn is_kept(
    alloc: Global,
    test: &Option<Expr>,
    row: &Row,
    layout: &Layout,
) -> Result<bool, AllocError>
    requires typed { MatchOption test.now (Unit {0}) (λ e. IsTrue (is_truth (type_of (expression_of e) (column_type layout.now)))) }
    requires row { IsRowIn layout.now row.now }
    ensures { IfOk result (λ kept. kept ≡ passes (option_map expression_of test.now) (column_in layout.now row.now)) }
{
    match test {
        None => Ok(true),
        Some(test) => Ok(matches!(evaluate(alloc, test, row, layout)?, Value::Truth(true))),
    }
}

// The columns of each table as those of a layout.
fn table_layouts(alloc: Global, tables: &[Table]) -> Result<Vec<LayoutColumnList>, AllocError>
    ensures { IfOk result (λ v. v.items ≡ map (λ t. map layout_column t.columns) tables.now) }
{
    let mut layouts = Vec::new(alloc);
    for table in tables {
        layouts.push(Sequence::from_vec(column_layouts(alloc, table.columns.items())?))?;
    }
    Ok(layouts)
}

// The layout of the range variables, where the relations have these columns.
fn query_layout(
    alloc: Global,
    columns: &[LayoutColumnList],
    vars: &[Var],
) -> Result<Layout, AllocError>
    requires few { length vars.now < 2 ^ 32 }
    requires relations { All (λ v. v.relation < length columns.now) vars.now }
    ensures { IfOk result (λ layout. layout ≡ layout_over (listed columns.now) 0 vars.now) }
{
    let mut parts = Vec::new(alloc);
    for (number, var) in vars.iter().enumerate() {
        parts.push(LayoutPart {
            var: number as u32,
            columns: columns[var.relation as usize].copy(alloc)?,
        })?;
    }
    Ok(Sequence::from_vec(parts))
}

// Adds the answer that a whole row gives, if it passes the test.
fn add_answer(
    alloc: Global,
    query: &Query,
    layout: &Layout,
    row: &Row,
    out: &mut Vec<Row>,
) -> Result<(), AllocError>
    requires row { IsRowIn layout.now row.now }
    requires targets { All (λ target. IsSome (type_of (expression_of target.expr) (column_type layout.now))) query.now.targets }
    requires test { MatchOption query.now.test (Unit {0}) (λ e. IsTrue (is_truth (type_of (expression_of e) (column_type layout.now)))) }
    ensures { OnOk result (out.new.items ≡ out.old.items ++ answers (question_of query.now) layout.now (row.now ∷ [])) }
{
    if is_kept(alloc, &query.test, row, layout)? {
        out.push(target_values(alloc, query.targets.items(), row, layout)?)?;
    }
    Ok(())
}

// Adds the answers whose choices begin with the row.
fn visit(
    alloc: Global,
    db: &Database,
    query: &Query,
    layout: &Layout,
    front: &Row,
    vars: &[Var],
    out: &mut Vec<Row>,
) -> Result<(), AllocError>
    requires relations { All (λ v. v.relation < length db.now) vars.now }
    requires rows { All (IsRowIn layout.now) (joined db.now front.now vars.now) }
    requires targets { All (λ target. IsSome (type_of (expression_of target.expr) (column_type layout.now))) query.now.targets }
    requires test { MatchOption query.now.test (Unit {0}) (λ e. IsTrue (is_truth (type_of (expression_of e) (column_type layout.now)))) }
    ensures { OnOk result (out.new.items ≡ out.old.items ++ answers (question_of query.now) layout.now (joined db.now front.now vars.now)) }
{
    let Some((var, others)) = vars.split_first() else {
        return add_answer(alloc, query, layout, front, out);
    };
    let rows = db.get(var.relation as usize).rows.items();
    for row in rows {
        let longer = with_choice(alloc, front, row)?;
        visit(alloc, db, query, layout, longer.row(), others, out)?;
    }
    Ok(())
}

/// The rows that answer a query, where the rows of each relation fit the columns that are given for it, of whatever
/// bounds: its relational meaning, in the order of its keys and then of its targets. An `Err` is want of memory.
pub fn answer_over(
    alloc: Global,
    db: &Database,
    columns: &[LayoutColumnList],
    query: &Query,
) -> Result<Rows, AllocError>
    requires each { length columns.now ≡ length db.now }
    requires asked { CanBeAsked (listed columns.now) db.now (question_of query.now) }
    ensures { IfOk result (λ rows. rows ≡ meaning db.now (question_of query.now)) }
{
    let layout = query_layout(alloc, columns, query.vars.items())?;
    let front = Sequence::new(alloc);
    let mut rows = Vec::new(alloc);
    visit(
        alloc,
        db,
        query,
        &layout,
        &front,
        query.vars.items(),
        &mut rows,
    )?;
    arrange_rows(&mut rows, query.unique, query.keys.items())?;
    Ok(Sequence::from_vec(rows))
}

/// The rows that answer a query of tables whose integers have 32 bits: its relational meaning, in the order of its keys and
/// then of its targets. An `Err` is want of memory.
pub fn answer_plain(alloc: Global, db: &Database, query: &Query) -> Result<Rows, AllocError>
    requires { IsResolved db.now (question_of query.now) }
    ensures { IfOk result (λ rows. rows ≡ meaning db.now (question_of query.now)) }
{
    let columns = table_layouts(alloc, db.items())?;
    answer_over(alloc, db, columns.as_slice(), query)
}
