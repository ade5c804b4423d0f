//! Databases read back from drives.
ghost use Rattle.std.specs.Prelude.{◌≡◌, ◌<◌, ℕ, List, [], Some, Err, IfOk, IfErr, MatchOption, All, length, map, slice_get};
ghost use Rattle.heap_page.specs.declared.errors.BadPage.{BadPage};
ghost use Rattle.heap_page.specs.declared.errors.FetchErr.TheVariants as fetch;
ghost use Rattle.heap_page.specs.Maps.{IsMap};
ghost use Rattle.heap_page.specs.Stores.{AreQuiet, AreRead, HaveRoom, fetch_fault};
ghost use Rattle.rows.specs.declared.plain.Column.{Column};
ghost use Rattle.rows.specs.declared.value.Value.{Value};
ghost use Rattle.rows.specs.RowBytes.{IsRowOf};
ghost use Rattle.rel_meaning.specs.declared.query.Table.{Table};
ghost use Rattle.table_store.specs.Databases.{ReadCause, TellTables};
ghost use Rattle.table_store.specs.Readings.{TableCause, TellRows};

use crate::database::Laid;
use crate::reading::read_table;
use heap_page::FetchErr;
use lists::Sequence;
use rel_meaning::{Database, Table};
use rows::{Catalog, Relation, Rows};
use std::alloc::Global;
use xp_outside::Drive;

// The table of a relation, from its heap file.
fn read_relation<D: Drive>(
    alloc: Global,
    drives: &mut [D],
    laid: &Laid,
    heap: u32,
    relation: &Relation,
    spent: Rows,
) -> Result<Table, FetchErr>
    requires map { IsMap laid.now.map }
    requires drives { length drives.old ≡ laid.now.map.drives }
    requires heap { heap < length laid.now.map.files.items }
    requires room { HaveRoom D.Drive laid.now.map drives.old }
    ensures read { AreRead D.Drive drives.old drives.new }
    ensures quiet { AreQuiet D.Drive (fetch_fault result) drives.old drives.new }
    ensures room { HaveRoom D.Drive laid.now.map drives.new }
    ensures columns { IfOk result (λ table. table.columns ≡ relation.now.columns) }
    ensures typed { IfOk result (λ table. All (IsRowOf table.columns) table.rows) }
    ensures again { (rows : List (List Value)) → TellRows D.Drive laid.now.map heap relation.now.columns rows drives.old → IfOk result (λ table. table.rows ≡ rows) }
    ensures accepted { (rows : List (List Value)) (bad : BadPage) → TellRows D.Drive laid.now.map heap relation.now.columns rows drives.old → result ≡ Err (fetch.BadPage bad) → ⊥ }
    ensures err { IfErr result (TableCause D.Drive laid.now.map heap relation.now.columns drives.old drives.new) }
{
    let rows = read_table(alloc, drives, &laid.map, heap, &relation.columns, spent)?;
    Ok(Table {
        columns: relation.columns.copy(alloc)?,
        rows,
    })
}

// The rows of a table, and no row where there is none.
fn rows_of(alloc: Global, table: Option<Table>) -> Rows
    ensures { MatchOption table (result ≡ []) (λ t. result ≡ t.rows) }
{
    match table {
        Some(table) => table.rows,
        None => Sequence::new(alloc),
    }
}

/// The tables of a database that was laid on drives, read back page by page. They have the columns of the relations, and
/// their rows are of these columns, whatever the drives tell. Drives that tell the rows of a database give just that
/// database, and no `BadPage`. `DriveFault` comes only where that drive's count rises, and no other count does. `BadPage` has a
/// page of a relation's heap file and the first rule that what was read of it breaks: the told page where its drive tells.
/// Each drive keeps its number of pages and all that it tells. The rows take the places of those
/// of `spent`, whatever these are: each of them is given up when a row is read, so that its memory serves the next one.
pub fn read_database<D: Drive>(
    alloc: Global,
    drives: &mut [D],
    laid: &Laid,
    catalog: &Catalog,
    spent: Database,
) -> Result<Database, FetchErr>
    requires map { IsMap laid.now.map }
    requires drives { length drives.old ≡ laid.now.map.drives }
    requires count { length laid.now.heaps.items ≡ length catalog.now }
    requires heaps { All (λ heap. heap < length laid.now.map.files.items) laid.now.heaps.items }
    requires room { HaveRoom D.Drive laid.now.map drives.old }
    ensures read { AreRead D.Drive drives.old drives.new }
    ensures quiet { AreQuiet D.Drive (fetch_fault result) drives.old drives.new }
    ensures columns { IfOk result (λ db. map (λ t. t.columns) db ≡ map (λ r. r.columns) catalog.now) }
    ensures typed { IfOk result (All (λ t. All (IsRowOf t.columns) t.rows)) }
    ensures again { (db : List Table) → map (λ t. t.columns) db ≡ map (λ r. r.columns) catalog.now → TellTables D.Drive laid.now db drives.old → IfOk result (λ found. found ≡ db) }
    ensures accepted { (db : List Table) (bad : BadPage) → map (λ t. t.columns) db ≡ map (λ r. r.columns) catalog.now → TellTables D.Drive laid.now db drives.old → result ≡ Err (fetch.BadPage bad) → ⊥ }
    ensures err { IfErr result (ReadCause D.Drive laid.now catalog.now drives.old drives.new) }
{
    let mut spent = spent.into_vec().into_iter();
    let mut tables = Vec::new(alloc);
    for (place, relation) in catalog.items().iter().enumerate() {
        let heap = laid.heaps[place];
        let places = rows_of(alloc, spent.next());
        tables.push(read_relation(alloc, drives, laid, heap, relation, places)?)?;
    }
    Ok(Sequence::from_vec(tables))
}
