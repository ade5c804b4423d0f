//! Writing tables.
ghost use Rattle.std.specs.Prelude.{◌≡◌, ◌+◌, ◌<◌, ◌≤◌, ◌^◌, ℕ, List, Some, OnOk, IfErr, length, slice_get, All};
ghost use Rattle.heap_page.specs.Blocks.{ArePages};
ghost use Rattle.heap_page.specs.Maps.{HasPages, IsMap, IsPlace};
ghost use Rattle.heap_page.specs.Stores.{AreQuiet, AreWritten, HaveRoom, StoreCause, store_fault};
ghost use Rattle.key_index.specs.Files.{index_pages};
ghost use Rattle.key_index.specs.Written.{AllStand};
ghost use Rattle.rows.specs.declared.plain.Column.{Column};
ghost use Rattle.rows.specs.declared.value.Value.{Value};
ghost use Rattle.rows.specs.RowBytes.{IsRowOf};
ghost use Rattle.table_store.specs.declared.files.StoredIndex.{StoredIndex};
ghost use Rattle.table_store.specs.declared.files.StoredTable.{StoredTable};
ghost use Rattle.table_store.specs.Files.{IsStorable, IsStorableIndex, encodings, file_number, files_of};
ghost use Rattle.table_store.specs.Images.{HoldTable, HoldTables, IsPlaceOf, IsTablePlace};
ghost use Rattle.table_store.specs.Readings.{AllTell, TellRows};

use crate::files::{file_count, heap_pages};
use crate::{StoredIndex, StoredTable};
use heap_page::{FileMap, StoreErr, place_laws, write_relation};
use key_index::{plan_index, write_index};
use std::alloc::Global;
use xp_outside::Drive;

// Writes the pages of an index at the places of its file.
fn write_index_file<D: Drive>(
    alloc: Global,
    drives: &mut [D],
    map: &FileMap,
    file: u32,
    index: &StoredIndex,
    heap_pages: u32,
) -> Result<(), StoreErr>
    requires map { IsMap map.now }
    requires drives { length drives.old ≡ map.now.drives }
    requires room { HaveRoom D.Drive map.now drives.old }
    requires index { IsStorableIndex heap_pages index.now }
    requires pages { HasPages map.now.files.items file (length (index_pages file index.now.entries)) }
    ensures written { AreWritten D.Drive (IsPlace map.now file) drives.old drives.new }
    ensures quiet { AreQuiet D.Drive (store_fault result) drives.old drives.new }
    ensures ok { OnOk result (AllStand D.Drive map.now file (index_pages file index.now.entries) drives.new) }
    ensures err { IfErr result (StoreCause D.Drive map.now drives.old drives.new) }
{
    let numbers = plan_index(alloc, &index.entries, index.key_type, file, heap_pages)?;
    write_index(alloc, drives, map, &numbers, &index.entries)
}

// Writes the pages of a table at the places of its heap file, which has this number, and those of its index behind it.
fn write_table<D: Drive>(
    alloc: Global,
    drives: &mut [D],
    map: &FileMap,
    file: u32,
    table: &StoredTable,
) -> Result<(), StoreErr>
    requires map { IsMap map.now }
    requires drives { length drives.old ≡ map.now.drives }
    requires table { IsStorable table.now }
    requires small { file + 1 < 2 ^ 32 }
    requires heap { (blocks : List (List (List ℕ))) → ArePages table.now.items blocks → HasPages map.now.files.items file (length blocks) }
    requires index { (index : StoredIndex) → table.now.index ≡ Some index → HasPages map.now.files.items (file + 1) (length (index_pages (file + 1) index.entries)) }
    ensures written { AreWritten D.Drive (IsPlaceOf map.now file table.now) drives.old drives.new }
    ensures quiet { AreQuiet D.Drive (store_fault result) drives.old drives.new }
    ensures room { OnOk result (HaveRoom D.Drive map.now drives.old) }
    ensures ok { OnOk result (HoldTable D.Drive map.now file table.now drives.new) }
    ensures err { IfErr result (StoreCause D.Drive map.now drives.old drives.new) }
{
    place_laws();
    write_relation(alloc, drives, map, file, &table.items)?;
    match &table.index {
        Some(index) => {
            let heap_pages = heap_pages(table);
            write_index_file(alloc, drives, map, file + 1, index, heap_pages)
        }
        None => Ok(()),
    }
}

/// Writes the pages of tables, each at the places of its heap file in the map, which is that of these tables, and the pages
/// of its index at the places of the file behind it. `DriveFull`
/// comes exactly where some drive is smaller than the files need there, with the first such drive, its need and its number
/// of pages, before any write. `DriveFault` comes only where that drive's count rises, and no other count does. After an `Ok` the pages stand at
/// their places, where a drive tells them: so drives that all tell, tell the rows of each table. Whatever the answer, each
/// drive keeps its number of pages, tells exactly where it told, and tells the same at every other address.
pub fn write_tables<D: Drive>(
    alloc: Global,
    drives: &mut [D],
    map: &FileMap,
    tables: &[StoredTable],
) -> Result<(), StoreErr>
    requires map { IsMap map.now }
    requires files { map.now.files.items ≡ files_of tables.now }
    requires few { length tables.now ≤ 16 }
    requires tables { All IsStorable tables.now }
    requires drives { length drives.old ≡ map.now.drives }
    ensures written { AreWritten D.Drive (IsTablePlace map.now tables.now) drives.old drives.new }
    ensures quiet { AreQuiet D.Drive (store_fault result) drives.old drives.new }
    ensures room { OnOk result (HaveRoom D.Drive map.now drives.old) }
    ensures room_left { OnOk result (HaveRoom D.Drive map.now drives.new) }
    ensures ok { OnOk result (HoldTables D.Drive map.now tables.now drives.new) }
    ensures rows { (number : ℕ) (table : StoredTable) (columns : List Column) (rows : List (List Value)) → slice_get tables.now number ≡ Some table → table.items ≡ encodings columns rows → length columns ≤ 32 → All (IsRowOf columns) rows → AllTell D.Drive drives.old → OnOk result (TellRows D.Drive map.now (file_number tables.now number) columns rows drives.new) }
    ensures err { IfErr result (StoreCause D.Drive map.now drives.old drives.new) }
{
    place_laws();
    let mut file = 0u32;
    for table in tables {
        write_table(alloc, drives, map, file, table)?;
        file += file_count(table);
    }
    Ok(())
}
