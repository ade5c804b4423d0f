//! Databases on drives.
ghost use Rattle.std.specs.Prelude.{◌≡◌, ◌<◌, ◌≤◌, ◌^◌, ℕ, List, Some, None, Option, IfOk, IfErr, All, length, slice_get};
ghost use Rattle.heap_page.specs.Stores.{AreQuiet, HaveRoom, store_fault};
ghost use Rattle.rows.specs.declared.plain.Column.{Column};
ghost use Rattle.rows.specs.declared.plain.KeyIndex.{KeyIndex};
ghost use Rattle.rows.specs.declared.value.Value.{Value};
ghost use Rattle.rows.specs.RowBytes.{IsRowOf};
ghost use Rattle.table_store.specs.declared.files.StoredTable.{StoredTable};
ghost use Rattle.table_store.specs.Databases.{AllFresh, AreKept, AreStored, IsLaid, IsLaidOut, IsStored, IsTableOf, LayCause, LayoutCause, MayStore};
ghost use Rattle.table_store.specs.Files.{IsStorable, encodings, file_number, files_of, index_numbers};
ghost use Rattle.table_store.specs.Images.{HoldImage};
ghost use Rattle.table_store.specs.Readings.{AllTell, TellRows};

use crate::entries::entries_of;
use crate::files::index_numbers;
use crate::{StoredIndex, StoredTable, file_map, heap_file_number, items_of, write_tables};
use heap_page::{FileMap, StoreErr};
use rel_meaning::{Database, Table};
use rows::{Catalog, KeyIndex, Relation};
use std::alloc::Global;
use xp_outside::{Drive, NoMemory};

/// Where tables stand on drives: their files, the number of each table's heap file, and the numbers of each table's index
/// where it has one.
#[derive(Debug, Drop)]
pub struct Laid {
    pub map: FileMap,
    pub heaps: Vec<u32>,
    pub indexes: Vec<Option<KeyIndex>>,
}

// A table that has an index on a column, as it is stored.
fn indexed_table(
    alloc: Global,
    relation: &Relation,
    table: &Table,
    column: u32,
) -> Result<StoredTable, NoMemory>
    requires table { IsTableOf relation.now table.now }
    requires column { relation.now.index ≡ Some column }
    ensures stored { IfOk result (IsStored relation.now table.now) }
    ensures storable { IfOk result IsStorable }
{
    let items = items_of(alloc, &table.rows, &table.columns)?;
    let key_type = table.columns.get(column as usize).col_type;
    let entries = entries_of(alloc, &table.rows, &table.columns, column, &items)?;
    let index = Some(StoredIndex { key_type, entries });
    Ok(StoredTable { items, index })
}

// A table that has no index, as it is stored.
fn plain_table(alloc: Global, relation: &Relation, table: &Table) -> Result<StoredTable, NoMemory>
    requires table { IsTableOf relation.now table.now }
    requires none { relation.now.index ≡ None }
    ensures stored { IfOk result (IsStored relation.now table.now) }
    ensures storable { IfOk result IsStorable }
{
    let items = items_of(alloc, &table.rows, &table.columns)?;
    Ok(StoredTable { items, index: None })
}

// A table as it is stored.
fn stored_table(alloc: Global, relation: &Relation, table: &Table) -> Result<StoredTable, NoMemory>
    requires { IsTableOf relation.now table.now }
    ensures stored { IfOk result (IsStored relation.now table.now) }
    ensures storable { IfOk result IsStorable }
{
    match relation.index {
        Some(column) => indexed_table(alloc, relation, table, column),
        None => plain_table(alloc, relation, table),
    }
}

// The tables of a database as they are stored.
fn stored_tables(
    alloc: Global,
    catalog: &Catalog,
    db: &Database,
) -> Result<Vec<StoredTable>, NoMemory>
    requires { MayStore catalog.now db.now }
    ensures stored { IfOk result (λ tables. AreStored catalog.now db.now tables.items) }
    ensures storable { IfOk result (λ tables. All IsStorable tables.items) }
{
    let mut tables = Vec::new(alloc);
    for (place, relation) in catalog.items().iter().enumerate() {
        tables.push(stored_table(alloc, relation, db.get(place))?)?;
    }
    Ok(tables)
}

// The number of each table's heap file.
fn heap_files(alloc: Global, tables: &[StoredTable]) -> Result<Vec<u32>, NoMemory>
    requires { length tables.now ≤ 16 }
    ensures count { IfOk result (λ heaps. length heaps.items ≡ length tables.now) }
    ensures heaps { IfOk result (λ heaps. (i heap : ℕ) → slice_get heaps.items i ≡ Some heap → heap ≡ file_number tables.now i) }
    ensures within { IfOk result (λ heaps. All (λ heap. heap < length (files_of tables.now)) heaps.items) }
{
    let mut heaps = Vec::new(alloc);
    for table in 0..tables.len() as u32 {
        heaps.push(heap_file_number(tables, table))?;
    }
    Ok(heaps)
}

// The numbers of each table's index.
fn index_list(alloc: Global, tables: &[StoredTable]) -> Result<Vec<Option<KeyIndex>>, NoMemory>
    requires few { length tables.now ≤ 16 }
    requires tables { All IsStorable tables.now }
    ensures count { IfOk result (λ indexes. length indexes.items ≡ length tables.now) }
    ensures indexes { IfOk result (λ indexes. (i : ℕ) (table : StoredTable) (index : Option KeyIndex) → slice_get tables.now i ≡ Some table → slice_get indexes.items i ≡ Some index → index ≡ index_numbers tables.now i table) }
{
    let mut indexes = Vec::new(alloc);
    for table in 0..tables.len() as u32 {
        let file = heap_file_number(tables, table) + 1;
        indexes.push(index_numbers(alloc, &tables[table as usize], file)?)?;
    }
    Ok(indexes)
}

// Lays tables on drives.
fn lay<D: Drive>(alloc: Global, drives: &mut [D], tables: &[StoredTable]) -> Result<Laid, StoreErr>
    requires some { 0 < length drives.old }
    requires count { length drives.old < 2 ^ 32 }
    requires few { length tables.now ≤ 16 }
    requires tables { All IsStorable tables.now }
    ensures kept { AreKept D.Drive drives.old drives.new }
    ensures quiet { AreQuiet D.Drive (store_fault result) drives.old drives.new }
    ensures laid { IfOk result (IsLaid tables.now (length drives.old)) }
    ensures room { IfOk result (λ laid. HaveRoom D.Drive laid.map drives.new) }
    ensures image { AllFresh D.Drive drives.old → IfOk result (λ laid. HoldImage D.Drive laid.map tables.now drives.new) }
    ensures tell { (number : ℕ) (table : StoredTable) (columns : List Column) (rows : List (List Value)) → slice_get tables.now number ≡ Some table → table.items ≡ encodings columns rows → length columns ≤ 32 → All (IsRowOf columns) rows → AllTell D.Drive drives.old → IfOk result (λ laid. TellRows D.Drive laid.map (file_number tables.now number) columns rows drives.new) }
    ensures err { IfErr result (LayCause D.Drive tables.now drives.old drives.new) }
{
    let map = file_map(alloc, tables, drives.len() as u32)?;
    let heaps = heap_files(alloc, tables)?;
    let indexes = index_list(alloc, tables)?;
    write_tables(alloc, drives, &map, tables)?;
    Ok(Laid {
        map,
        heaps,
        indexes,
    })
}

/// Lays a database on drives: each relation's rows in the pages of its heap file and, where it has an index, the entries
/// of the index in the pages of the file behind it, file after file, striped over the drives. There are 1 to 4,294,967,295 drives, at most 16 relations and a table of each, with at most 1,000,000 rows whose
/// encodings have at most 8,168 bytes. `DriveFull` comes exactly where some drive is smaller than the files need there, with
/// the first such drive, before any write. `DriveFault` comes only where that drive's count rises, and no other count does. After an `Ok` each drive
/// that was new and tells holds exactly its part of the files, and zeros elsewhere; drives that all tell, tell the rows of
/// each table. Whatever the answer, each drive keeps its number of pages and tells exactly where it told.
pub fn lay_database<D: Drive>(
    alloc: Global,
    drives: &mut [D],
    catalog: &Catalog,
    db: &Database,
) -> Result<Laid, StoreErr>
    requires some { 0 < length drives.old }
    requires count { length drives.old < 2 ^ 32 }
    requires stored { MayStore catalog.now db.now }
    ensures kept { AreKept D.Drive drives.old drives.new }
    ensures quiet { AreQuiet D.Drive (store_fault result) drives.old drives.new }
    ensures laid { IfOk result (IsLaidOut D.Drive catalog.now db.now drives.old drives.new) }
    ensures err { IfErr result (LayoutCause D.Drive catalog.now db.now drives.old drives.new) }
{
    let tables = stored_tables(alloc, catalog, db)?;
    lay(alloc, drives, tables.as_slice())
}
