//! Reading the rows of a table.
ghost use Rattle.std.specs.Prelude.{◌≡◌, ◌<◌, ℕ, List, IfOk, IfErr, OnOk, Err, All, length};
ghost use Rattle.heap_page.specs.declared.errors.BadPage.{BadPage};
ghost use Rattle.heap_page.specs.declared.errors.FetchErr.TheVariants as fetch;
ghost use Rattle.heap_page.specs.Maps.{IsMap, HasPage, HasPages};
ghost use Rattle.rows.specs.declared.plain.Column.{Column};
ghost use Rattle.rows.specs.declared.value.Value.{Value};
ghost use Rattle.rows.specs.RowBytes.{IsRowOf};
ghost use Rattle.heap_page.specs.Stores.{AreQuiet, AreRead, HaveRoom, fetch_fault};
ghost use Rattle.table_store.specs.Readings.{AreFileRows, TableCause, TellRows};
ghost use Rattle.table_store.specs.Steps.{IsStep};

use crate::page_rows::add_page;
use crate::row_buffer::RowBuffer;
use heap_page::{FetchErr, FileMap, block_laws, read_relation_page};
use lists::Sequence;
use rows::{ColumnList, Row, Rows};
use std::alloc::Global;
use xp_outside::Drive;

// Adds the rows of one page of a file.
fn read_page_rows<D: Drive>(
    alloc: Global,
    drives: &mut [D],
    map: &FileMap,
    file: u32,
    number: u32,
    columns: &ColumnList,
    rows: &mut RowBuffer,
) -> Result<(), FetchErr>
    requires map { IsMap map.now }
    requires drives { length drives.old ≡ map.now.drives }
    requires page { HasPage map.now.files.items file number }
    requires room { HaveRoom D.Drive map.now drives.old }
    ensures read { AreRead D.Drive drives.old drives.new }
    ensures quiet { AreQuiet D.Drive (fetch_fault result) drives.old drives.new }
    ensures ok { OnOk result (IsStep D.Drive map.now file columns.now drives.old number rows.old rows.new) }
    ensures err { IfErr result (TableCause D.Drive map.now file columns.now drives.old drives.new) }
{
    let page = read_relation_page(alloc, drives, map, file, number)?;
    add_page(alloc, &page, file, number, columns, rows)
}

// The rows of the pages of a file.
fn read_pages<D: Drive>(
    alloc: Global,
    drives: &mut [D],
    map: &FileMap,
    file: u32,
    count: u32,
    columns: &ColumnList,
    spent: Vec<Row>,
) -> Result<Vec<Row>, FetchErr>
    requires map { IsMap map.now }
    requires drives { length drives.old ≡ map.now.drives }
    requires pages { HasPages map.now.files.items file count }
    requires room { HaveRoom D.Drive map.now drives.old }
    ensures read { AreRead D.Drive drives.old drives.new }
    ensures quiet { AreQuiet D.Drive (fetch_fault result) drives.old drives.new }
    ensures ok { IfOk result (λ rows. AreFileRows D.Drive map.now file columns.now drives.old rows.items) }
    ensures err { IfErr result (TableCause D.Drive map.now file columns.now drives.old drives.new) }
{
    let mut rows = RowBuffer::over(spent);
    for number in 0..count {
        read_page_rows(alloc, drives, map, file, number, columns, &mut rows)?;
    }
    Ok(rows.into_vec())
}

/// The rows of a table's file, read page by page in order. They are rows of the columns, whatever the drives tell; each
/// page breaks none of a heap page's rules, its items are the encodings of its rows (rule 9), and it is the page at its
/// address, where the drive tells. `DriveFault` comes only where that drive's count rises, and no other count does. `BadPage` has the first rule
/// that a page of the file breaks. Drives that tell the pages of some rows give just these rows, and no `BadPage`. Each drive
/// keeps its number of pages and all that it tells. The rows take the places of `spent`, whatever these are: each of them
/// is given up when a row is read, so that its memory serves the next one.
pub fn read_table<D: Drive>(
    alloc: Global,
    drives: &mut [D],
    map: &FileMap,
    file: u32,
    columns: &ColumnList,
    spent: Rows,
) -> Result<Rows, FetchErr>
    requires map { IsMap map.now }
    requires drives { length drives.old ≡ map.now.drives }
    requires file { file < length map.now.files.items }
    requires room { HaveRoom D.Drive map.now drives.old }
    ensures read { AreRead D.Drive drives.old drives.new }
    ensures quiet { AreQuiet D.Drive (fetch_fault result) drives.old drives.new }
    ensures room { HaveRoom D.Drive map.now drives.new }
    ensures kept { (other : ℕ) (columns : List Column) (rows : List (List Value)) → TellRows D.Drive map.now other columns rows drives.old → TellRows D.Drive map.now other columns rows drives.new }
    ensures rows { IfOk result (AreFileRows D.Drive map.now file columns.now drives.old) }
    ensures typed { IfOk result (All (IsRowOf columns.now)) }
    ensures again { (rows : List (List Value)) → TellRows D.Drive map.now file columns.now rows drives.old → IfOk result (λ found. found ≡ rows) }
    ensures accepted { (rows : List (List Value)) (bad : BadPage) → TellRows D.Drive map.now file columns.now rows drives.old → result ≡ Err (fetch.BadPage bad) → ⊥ }
    ensures err { IfErr result (TableCause D.Drive map.now file columns.now drives.old drives.new) }
{
    block_laws();
    let count = map.files[file as usize].pages;
    let rows = read_pages(alloc, drives, map, file, count, columns, spent.into_vec())?;
    Ok(Sequence::from_vec(rows))
}
