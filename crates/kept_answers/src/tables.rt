//! The tables so far, with the columns that their relations have in layouts.
ghost use Rattle.std.specs.Prelude.{◌≡◌, ◌++◌, [], ◌∷◌, IfOk, OnOk, length, map, Some};
ghost use Rattle.rel_meaning.specs.Meaning.{layout_column};
ghost use Rattle.kept_answers.specs.KeptAnswers.{columns_behind, database_columns, tables_behind};

use kept_relations::{Kept, kept_layout};
use lists::Sequence;
use rel_meaning::{Database, Table, column_layout};
use rows::{Column, LayoutColumn, LayoutColumnList, Rows};
use std::alloc::{AllocError, Global};

// Tables, and the columns of each in layouts.
#[derive(Drop)]
pub(crate) struct Relations {
    pub tables: Database,
    pub columns: Vec<LayoutColumnList>,
}

fn column_layouts(alloc: Global, columns: &[Column]) -> Result<Vec<LayoutColumn>, AllocError>
    ensures { IfOk result (λ v. v.items ≡ map layout_column columns.now) }
{
    columns
        .iter()
        .map(|column| column_layout(column))
        .collect(alloc)
}

// The columns of each table as those of a layout.
fn table_layouts(alloc: Global, tables: &[Table]) -> Result<Vec<LayoutColumnList>, AllocError>
    ensures { IfOk result (λ v. v.items ≡ database_columns tables.now) }
{
    let mut layouts = Vec::new(alloc);
    for table in tables {
        layouts.push(Sequence::from_vec(column_layouts(alloc, table.columns.items())?))?;
    }
    Ok(layouts)
}

// The tables of a database.
pub(crate) fn relations_of(alloc: Global, db: Database) -> Result<Relations, AllocError>
    ensures tables { IfOk result (λ r. r.tables ≡ db) }
    ensures columns { IfOk result (λ r. r.columns.items ≡ database_columns db) }
{
    let columns = table_layouts(alloc, db.items())?;
    Ok(Relations {
        tables: db,
        columns,
    })
}

// Puts a table behind the others.
fn add_table(tables: &mut Database, table: Table) -> Result<(), AllocError>
    ensures { OnOk result (tables.new ≡ tables.old ++ table ∷ []) }
{
    match tables.push(table) {
        Ok(()) => Ok(()),
        Err(_) => Err(AllocError),
    }
}

// Puts the answer of a statement behind the other tables, as a table of what it keeps.
pub(crate) fn add_answer(
    alloc: Global,
    relations: &mut Relations,
    kept: &Kept,
    rows: &Rows,
) -> Result<(), AllocError>
    requires { length kept.now.bounds ≡ length kept.now.columns }
    ensures tables { OnOk result (
        relations.new.tables ≡ tables_behind relations.old.tables (Some kept.now) rows.now) }
    ensures columns { OnOk result (relations.new.columns.items
        ≡ columns_behind relations.old.columns.items (Some kept.now)) }
{
    let table = Table {
        columns: kept.columns.copy(alloc)?,
        rows: rows.copy(alloc)?,
    };
    add_table(&mut relations.tables, table)?;
    relations.columns.push(kept_layout(alloc, kept)?)?;
    Ok(())
}
