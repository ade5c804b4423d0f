ghost use Rattle.std.specs.Prelude.{◌≡◌, ◌<◌, ◌≤◌, ◌+◌, IfOk, OnOk, All, length, true};
ghost use Rattle.heap_page.specs.Blocks.{FitsAlone};
ghost use Rattle.rows.specs.RowBytes.{IsRowOf};
ghost use Rattle.table_store.specs.Files.{IsStorable};

use crate::entries::entries_of;
use crate::files::heap_pages;
use crate::{
    StoredIndex, StoredTable, file_map, heap_file_number, items_of, read_table, write_tables,
};
use heap_page::{BadPage, FetchErr, ItemList, StoreErr};
use key_index::are_entries;
use lists::Sequence;
use rows::{ColType, Column, ColumnList, KeyEntry, Rows, Text, Value, decode_row};
use std::alloc::Global;
use std::test::Fail;
use xp_outside::{Drive, MemDrive, NoMemory, Rack, WildRack};

fn column(alloc: Global, name: &[u8], col_type: ColType) -> Result<Column, NoMemory> {
    Ok(Column {
        name: Text::from_slice(alloc, name)?,
        col_type,
        nullable: false,
    })
}

// A name, a department and a number.
fn columns(alloc: Global) -> Result<ColumnList, NoMemory>
    ensures { IfOk result (λ columns. length columns ≤ 32) }
{
    let name = column(alloc, b"name", ColType::Text)?;
    let dept = column(alloc, b"dept", ColType::Text)?;
    let sal = column(alloc, b"sal", ColType::Int4)?;
    Ok(Sequence::from_vec(vec![in alloc; name, dept, sal]?))
}

// Adds an item, where it fits an empty page.
fn add(items: &mut ItemList, bytes: &[u8]) -> Result<(), NoMemory>
    requires { All FitsAlone items.old }
    ensures fit { OnOk result (All FitsAlone items.new) }
    ensures count { OnOk result (length items.new ≤ length items.old + 1) }
{
    if bytes.len() <= 8168 {
        items.push(bytes)
    } else {
        Ok(())
    }
}

fn plain_table(items: ItemList) -> StoredTable
    requires few { length items ≤ 1000000 }
    requires fit { All FitsAlone items }
    ensures { IsStorable result }
{
    StoredTable { items, index: None }
}

// A table of three rows with an index on their numbers, 1,200, 900 and 1,500.
fn indexed_table(alloc: Global, items: ItemList) -> Result<StoredTable, NoMemory>
    requires few { length items ≤ 1000000 }
    requires fit { All FitsAlone items }
    ensures { IfOk result IsStorable }
{
    let mut entries = Vec::with_capacity(alloc, 3)?;
    for (number, slot) in [(900i64, 1u32), (1200, 0), (1500, 2)] {
        entries.push(KeyEntry {
            key: Value::Number(number),
            page: 0,
            slot,
        })?;
    }
    let table = plain_table(items);
    let entries = Sequence::from_vec(entries);
    let key_type = ColType::Int4;
    if !are_entries(&entries, key_type, heap_pages(&table)) {
        return Ok(table);
    }
    Ok(StoredTable {
        items: table.items,
        index: Some(StoredIndex { key_type, entries }),
    })
}

// Three tables: the first has three rows and an index, the second no row, the third one row.
fn tables(alloc: Global) -> Result<Vec<StoredTable>, NoMemory>
    ensures few { IfOk result (λ tables. length tables.items ≤ 16) }
    ensures each { IfOk result (λ tables. All IsStorable tables.items) }
{
    let mut three = ItemList::new(alloc);
    add(&mut three, b"\x00\x03Ann\x00\x03toy\x00\x00\x04\xb0")?;
    add(&mut three, b"\x00\x03Bob\x00\x03toy\x00\x00\x03\x84")?;
    add(&mut three, b"\x00\x03Cid\x00\x04shoe\x00\x00\x05\xdc")?;
    let mut one = ItemList::new(alloc);
    add(&mut one, b"\x00\x03Dan\x00\x00\xff\xff\xff\xff")?;
    let first = indexed_table(alloc, three)?;
    let second = plain_table(ItemList::new(alloc));
    let third = plain_table(one);
    Ok(vec![in alloc; first, second, third]?)
}

// Writes tables on so many drives, reads a file, and gives the bytes of the rows that were read.
fn write_and_read<D: Drive>(
    alloc: Global,
    drives: &mut [D],
    count: u32,
    tables: &[StoredTable],
    file: u32,
) -> Result<Result<ItemList, FetchErr>, StoreErr>
    requires drives { length drives.old ≡ count }
    requires some { 0 < count }
    requires few { length tables.now ≤ 16 }
    requires each { All IsStorable tables.now }
{
    let columns = columns(alloc)?;
    let map = file_map(alloc, tables, count)?;
    write_tables(alloc, drives, &map, tables)?;
    if file as usize >= map.files.len() {
        return Ok(Err(FetchErr::NoMemory));
    }
    match read_table(alloc, drives, &map, file, &columns, Rows::new(alloc)) {
        Ok(rows) => Ok(Ok(items_of(alloc, &rows, &columns)?)),
        Err(error) => Ok(Err(error)),
    }
}

// Two drives of which the second one has no page.
fn two_drives(alloc: Global, pages: u32) -> Result<Vec<MemDrive>, NoMemory>
    ensures { IfOk result (λ drives. length drives.items ≡ 2) }
{
    let first = MemDrive::new(alloc, pages, Sequence::new(alloc), Sequence::new(alloc))?;
    let second = MemDrive::new(alloc, 0, Sequence::new(alloc), Sequence::new(alloc))?;
    Ok(vec![in alloc; first, second]?)
}

fn are_same(left: &ItemList, right: &ItemList) -> bool {
    if left.len() != right.len() {
        return false;
    }
    for number in 0..left.len() {
        if left.get(number) != right.get(number) {
            return false;
        }
    }
    true
}

#[test]
fn tables_are_written_and_read_back(rt: HostRuntime) -> Result<(), Fail> {
    let alloc = rt.alloc();
    let tables = tables(alloc)?;
    // the number of a table, and that of its heap file
    for (table, file) in [(0u32, 0u32), (1, 2), (2, 3)] {
        assert!(rt; (table as usize) < tables.len());
        assert_eq!(rt; heap_file_number(&tables, table), file);
        let mut drives = two_drives(alloc, 3)?;
        let read = write_and_read(alloc, &mut drives, 2, &tables, file);
        let items = &tables[table as usize].items;
        assert!(rt; matches!(&read, Ok(Ok(found)) if are_same(found, items)));
    }
    let mut small = two_drives(alloc, 2)?;
    let full = StoreErr::DriveFull {
        drive: 0,
        needs: 3,
        capacity: 2,
    };
    let read = write_and_read(alloc, &mut small, 2, &tables, 0);
    assert!(rt; matches!(read, Err(found) if found == full));
    Ok(())
}

#[test]
fn the_page_of_an_index_stands_behind_its_table(rt: HostRuntime) -> Result<(), Fail> {
    let alloc = rt.alloc();
    let tables = tables(alloc)?;
    let mut drives = two_drives(alloc, 3)?;
    assert!(rt; write_and_read(alloc, &mut drives, 2, &tables, 0).is_ok());
    assert!(rt; drives.len() == 2 && drives[0].capacity() == 3);
    let page = drives[0].page(1);
    // three entries of file 1, each with its key, heap page and slot
    let head = b"\x00\x01\x00\x03\x00\x00\x00\x01\x00\x00\x00\x00\x00\x00\x00\x00";
    let entries =
        b"\x00\x00\x03\x84\x00\x00\x00\x00\x00\x01\x00\x00\x04\xb0\x00\x00\x00\x00\x00\x00\x00\x00\x05\xdc\x00\x00\x00\x00\x00\x02\x00\x00";
    assert!(rt; page[4..20] == head[..]);
    assert!(rt; page[20..52] == entries[..]);
    Ok(())
}

// The items that are read of the first table, where each read has a bit changed.
fn read_changed(alloc: Global, byte: u32) -> Result<Result<ItemList, FetchErr>, StoreErr>
    requires { byte < 8192 }
{
    let tables = tables(alloc)?;
    match WildRack::new(3, byte, 1).mount(alloc, 1) {
        Ok(mut drives) => write_and_read(alloc, &mut drives, 1, &tables, 0),
        Err(_) => Err(StoreErr::NoMemory),
    }
}

#[test]
fn a_changed_bit_breaks_rule_9_or_changes_a_value(rt: HostRuntime) {
    let bad = BadPage {
        file: 0,
        page: 0,
        rule: 9,
    };
    let broken = read_changed(rt.alloc(), 8179);
    assert!(rt; matches!(broken, Ok(Err(error)) if error == FetchErr::BadPage(bad)));
    let raised = b"\x00\x03Ann\x00\x03toy\x00\x00\x04\xb1";
    let changed = read_changed(rt.alloc(), 8191);
    assert!(rt;
        matches!(&changed, Ok(Ok(items)) if items.len() == 3 && items.get(0) == raised.as_slice())
    );
}

// A number that may be null, and a text.
fn wide_columns(alloc: Global) -> Result<ColumnList, NoMemory>
    ensures { IfOk result (λ columns. length columns ≡ 2) }
{
    let key = Column {
        name: Text::from_slice(alloc, b"key")?,
        col_type: ColType::Int4,
        nullable: true,
    };
    let text = column(alloc, b"text", ColType::Text)?;
    Ok(Sequence::from_vec(vec![in alloc; key, text]?))
}

// The bytes of a row of such columns, with a text of 2,000 bytes: four of them fit a page, and five don't.
fn wide_row(alloc: Global, key: Option<u8>) -> Result<Vec<u8>, NoMemory> {
    let mut bytes = Vec::new(alloc);
    match key {
        Some(number) => bytes.extend_from_slice(&[0, 0, 0, 0, number])?,
        None => bytes.push(1)?,
    }
    bytes.extend_from_slice(&[7, 208])?;
    for _ in 0..2000u32 {
        bytes.push(b'x')?;
    }
    Ok(bytes)
}

// The rows with these keys.
fn wide_rows(alloc: Global, keys: &[Option<u8>], columns: &ColumnList) -> Result<Rows, NoMemory>
    ensures { IfOk result (All (IsRowOf columns.now)) }
{
    let mut rows = Vec::new(alloc);
    for key in keys {
        let bytes = wide_row(alloc, *key)?;
        if let Some(row) = decode_row(alloc, &bytes, columns)? {
            rows.push(row)?;
        }
    }
    Ok(Sequence::from_vec(rows))
}

// Whether each item fits an empty page.
fn all_fit(items: &ItemList) -> bool
    ensures { result ≡ true → All FitsAlone items.now }
{
    for number in 0..items.len() {
        if items.get(number).len() > 8168 {
            return false;
        }
    }
    true
}

fn is_entry(entry: &KeyEntry, wanted: (i64, u32, u32)) -> bool {
    let (key, page, slot) = wanted;
    matches!(entry.key, Value::Number(number) if number == key)
        && entry.page == page
        && entry.slot == slot
}

#[test]
fn entries_stand_in_order_of_key_page_and_slot_without_nulls(rt: HostRuntime) -> Result<(), Fail> {
    let alloc = rt.alloc();
    let columns = wide_columns(alloc)?;
    let keys = [Some(7), None, Some(5), Some(7), Some(5), Some(7)];
    let rows = wide_rows(alloc, &keys, &columns)?;
    let items = items_of(alloc, &rows, &columns)?;
    assert!(rt; items.len() <= 1_000_000 && all_fit(&items));
    let entries = entries_of(alloc, &rows, &columns, 0, &items)?;
    let wanted = [(5, 0, 2), (5, 1, 0), (7, 0, 0), (7, 0, 3), (7, 1, 1)];
    assert_eq!(rt; entries.len(), wanted.len());
    for (entry, found) in entries.items().iter().zip(wanted) {
        assert!(rt; is_entry(entry, found));
    }
    Ok(())
}
