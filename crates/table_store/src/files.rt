//! The items of a table, and the files of tables.
ghost use Rattle.std.specs.Prelude.{◌≡◌, ◌<◌, ◌≤◌, ◌++◌, [], ◌∷◌, IfOk, OnOk, length, All};
ghost use Rattle.heap_page.specs.Maps.{IsMap};
ghost use Rattle.key_index.specs.Files.{index_pages};
ghost use Rattle.rows.specs.RowBytes.{IsRowOf, row_bytes};
ghost use Rattle.table_store.specs.Files.{IsStorable, IsStorableIndex, encodings, file_number, files_of, files_of_table, numbers_in, table_blocks};

use heap_page::{FileKind, FileMap, ItemList, PageFile, pages_of};
use key_index::{index_laws, plan_index};
use rows::{ColType, ColumnList, KeyEntryList, KeyIndex, Row, Rows, put_row};
use std::alloc::Global;
use xp_outside::NoMemory;

/// An index to be laid on drives: the type of its keys, and its entries in order.
#[derive(Debug, Drop)]
pub struct StoredIndex {
    pub key_type: ColType,
    pub entries: KeyEntryList,
}

/// A table to be laid on drives: the bytes of its rows, and its index where it has one.
#[derive(Debug, Drop)]
pub struct StoredTable {
    pub items: ItemList,
    pub index: Option<StoredIndex>,
}

// Puts the bytes of a row behind the other items. They are made in `scratch`, whatever it held.
fn push_row(
    items: &mut ItemList,
    scratch: &mut Vec<u8>,
    row: &Row,
    columns: &ColumnList,
) -> Result<(), NoMemory>
    requires few { length columns.now ≤ 32 }
    requires row { IsRowOf columns.now row.now }
    ensures { OnOk result (items.new ≡ items.old ++ row_bytes columns.now row.now ∷ []) }
{
    scratch.clear();
    put_row(scratch, row, columns)?;
    items.push(scratch)
}

/// The bytes of each row, in order. The rows are of the columns, at most 32.
pub fn items_of(alloc: Global, rows: &Rows, columns: &ColumnList) -> Result<ItemList, NoMemory>
    requires few { length columns.now ≤ 32 }
    requires rows { All (IsRowOf columns.now) rows.now }
    ensures { IfOk result (λ items. items ≡ encodings columns.now rows.now) }
{
    let mut items = ItemList::new(alloc);
    let mut scratch = Vec::new(alloc);
    for row in rows.items() {
        push_row(&mut items, &mut scratch, row, columns)?;
    }
    Ok(items)
}

// How many pages a table's heap file has.
pub(crate) fn heap_pages(table: &StoredTable) -> u32
    requires { IsStorable table.now }
    ensures { result ≡ length (table_blocks table.now) }
{
    pages_of(&table.items)
}

// How many pages an index file has.
fn index_file_pages(alloc: Global, index: &StoredIndex, heap_pages: u32) -> Result<u32, NoMemory>
    requires { IsStorableIndex heap_pages index.now }
    ensures { IfOk result (λ pages. pages ≡ length (index_pages 0 index.now.entries)) }
{
    let numbers = plan_index(alloc, &index.entries, index.key_type, 0, heap_pages)?;
    Ok(numbers.pages)
}

// The numbers of a table's index, where it has one. Its file has this number.
pub(crate) fn index_numbers(
    alloc: Global,
    table: &StoredTable,
    file: u32,
) -> Result<Option<KeyIndex>, NoMemory>
    requires { IsStorable table.now }
    ensures { IfOk result (λ numbers. numbers ≡ numbers_in file (length (table_blocks table.now)) table.now.index) }
{
    match &table.index {
        Some(index) => {
            let heap_pages = heap_pages(table);
            let numbers = plan_index(alloc, &index.entries, index.key_type, file, heap_pages)?;
            Ok(Some(numbers))
        }
        None => Ok(None),
    }
}

// Adds the files of a table.
fn add_files(alloc: Global, files: &mut Vec<PageFile>, table: &StoredTable) -> Result<(), NoMemory>
    requires { IsStorable table.now }
    ensures { OnOk result (files.new.items ≡ files.old.items ++ files_of_table table.now) }
{
    let pages = heap_pages(table);
    files.push(PageFile {
        kind: FileKind::Heap,
        pages,
    })?;
    if let Some(index) = &table.index {
        let pages = index_file_pages(alloc, index, pages)?;
        files.push(PageFile {
            kind: FileKind::Index,
            pages,
        })?;
    }
    Ok(())
}

/// The files of tables in their order, over so many drives: for each table a heap file with as many pages as its items
/// need, and behind it, where the table has an index, an index file with as many pages as its entries need. There are at
/// most 16 tables, each of at most 1,000,000 items that fit an empty page; an index has at most 1,000,000 entries, in
/// order, with keys of its type, pages of the heap file and slots below 65,536.
pub fn file_map(alloc: Global, tables: &[StoredTable], drives: u32) -> Result<FileMap, NoMemory>
    requires drives { 0 < drives }
    requires few { length tables.now ≤ 16 }
    requires tables { All IsStorable tables.now }
    ensures drives { IfOk result (λ map. map.drives ≡ drives) }
    ensures files { IfOk result (λ map. map.files.items ≡ files_of tables.now) }
    ensures map { IfOk result (λ map. IsMap map) }
{
    index_laws();
    let mut files = Vec::new(alloc);
    for table in tables {
        add_files(alloc, &mut files, table)?;
    }
    Ok(FileMap { files, drives })
}

// How many files a table has.
pub(crate) fn file_count(table: &StoredTable) -> u32
    ensures { result ≡ length (files_of_table table.now) }
{
    match table.index {
        Some(_) => 2,
        None => 1,
    }
}

/// The number of a table's heap file in the files of tables, at most 16. The table is counted from 0.
pub fn heap_file_number(tables: &[StoredTable], table: u32) -> u32
    requires few { length tables.now ≤ 16 }
    requires table { table < length tables.now }
    ensures number { result ≡ file_number tables.now table }
    ensures within { result < length (files_of tables.now) }
{
    let mut file = 0u32;
    for earlier in 0..table {
        file += file_count(&tables[earlier as usize]);
    }
    file
}
