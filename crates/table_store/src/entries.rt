//! The entries of an index on a column of a table.
ghost use Rattle.std.specs.Prelude.{◌≡◌, ◌<◌, ◌≤◌, ◌++◌, [], ◌∷◌, IfOk, OnOk, All, length};
ghost use Rattle.std.specs.List.Sorted.{IsPermutation};
ghost use Rattle.lists.specs.Arranged.{Ascends};
ghost use Rattle.heap_page.specs.Blocks.{FitsAlone, blocks_of, item_weight};
ghost use Rattle.key_index.specs.Entries.{AreEntries, entry_cmp};
ghost use Rattle.rows.specs.RowBytes.{IsRowOf};
ghost use Rattle.rows.specs.Values.{column_of};
ghost use Rattle.table_store.specs.Entries.{IsIndexOf, behind, keyed, placed, put_at, type_at};
ghost use Rattle.table_store.specs.Files.{encodings};

use heap_page::ItemList;
use key_index::compare_entries;
use lists::{Duplicate, Sequence};
use rows::{ColumnList, KeyEntry, KeyEntryList, Row, Rows, Value};
use std::alloc::{AllocError, Global};
use xp_outside::{NoMemory, PAGE};

// A page that is being filled: its number, the next slot, and how many of the bytes behind its head are taken.
#[derive(Clone, Copy, Debug)]
struct Filling {
    page: u32,
    slot: u32,
    used: usize,
}

// Where an item is put: on the page being filled where it fits there, and else first on the next page.
fn put_at(filling: Filling, item: &[u8]) -> Filling
    requires item { FitsAlone item.now }
    requires used { filling.used ≤ 8172 }
    requires page { filling.page ≤ 1000000 }
    ensures { result ≡ put_at filling item.now }
{
    if filling.used + (4 + item.len()) <= PAGE - 20 {
        filling
    } else {
        Filling {
            page: filling.page + 1,
            slot: 0,
            used: 0,
        }
    }
}

// The page behind an item that was put there.
fn behind(filling: Filling, item: &[u8]) -> Filling
    requires item { FitsAlone item.now }
    requires used { filling.used ≤ 8172 }
    requires slot { filling.slot ≤ 8172 }
    ensures { result ≡ behind filling item.now }
{
    Filling {
        page: filling.page,
        slot: filling.slot + 1,
        used: filling.used + (4 + item.len()),
    }
}

// Adds the entry of a row that stands at a place, where its key isn't null.
fn push_entry(
    alloc: Global,
    entries: &mut Vec<KeyEntry>,
    row: &Row,
    column: u32,
    at: Filling,
) -> Result<(), NoMemory>
    ensures { OnOk result (entries.new.items ≡ entries.old.items ++ keyed (record { key = column_of row.now column; page = at.page; slot = at.slot } ∷ [])) }
{
    match row.items().get(column as usize) {
        None => Ok(()),
        Some(Value::Null) => Ok(()),
        Some(value) => {
            let key = value.duplicate(alloc)?;
            entries.push(KeyEntry {
                key,
                page: at.page,
                slot: at.slot,
            })?;
            Ok(())
        }
    }
}

// The entries of the rows whose key isn't null, in the order of the rows.
fn placed_entries(
    alloc: Global,
    rows: &Rows,
    column: u32,
    items: &ItemList,
) -> Result<Vec<KeyEntry>, NoMemory>
    requires count { length rows.now ≡ length items.now }
    requires few { length items.now ≤ 1000000 }
    requires items { All FitsAlone items.now }
    ensures { IfOk result (λ entries. entries.items ≡ placed column rows.now (blocks_of item_weight 8172 items.now)) }
{
    let mut entries = Vec::new(alloc);
    let mut filling = Filling {
        page: 0,
        slot: 0,
        used: 0,
    };
    for (number, row) in rows.items().iter().enumerate() {
        let item = items.get(number);
        let at = put_at(filling, item);
        push_entry(alloc, &mut entries, row, column, at)?;
        filling = behind(at, item);
    }
    Ok(entries)
}

// Puts entries in order.
fn sort_entries(entries: &mut Vec<KeyEntry>) -> Result<(), AllocError>
    ensures same { OnOk result (IsPermutation entries.old.items entries.new.items) }
    ensures ordered { OnOk result (Ascends entry_cmp entries.new.items) }
{
    entries.sort_by(|a, b| compare_entries(a, b))?;
    Ok(())
}

/// The entries of an index on a column of a table whose items stand in pages: for each row whose key isn't null its key,
/// page and slot, in order of key, page and slot. The items are those of the rows, at most 1,000,000, and each fits an
/// empty page. The only error is want of memory.
pub(crate) fn entries_of(
    alloc: Global,
    rows: &Rows,
    columns: &ColumnList,
    column: u32,
    items: &ItemList,
) -> Result<KeyEntryList, NoMemory>
    requires rows { All (IsRowOf columns.now) rows.now }
    requires column { column < length columns.now }
    requires items { items.now ≡ encodings columns.now rows.now }
    requires storable { (length items.now ≤ 1000000) × All FitsAlone items.now }
    ensures entries { IfOk result (IsIndexOf column rows.now (blocks_of item_weight 8172 items.now)) }
    ensures are { IfOk result (AreEntries (type_at columns.now column) (length (blocks_of item_weight 8172 items.now))) }
{
    let mut entries = placed_entries(alloc, rows, column, items)?;
    sort_entries(&mut entries)?;
    Ok(Sequence::from_vec(entries))
}
