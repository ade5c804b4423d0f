//! A heap file of rows that are one number each.
ghost use Rattle.std.specs.Prelude.{◌≡◌, ◌≤◌, ◌∷◌, [], IfOk, All, length};
ghost use Rattle.heap_page.specs.Blocks.{FitsAlone};
ghost use Rattle.engine_bench.specs.Laid.{IsHeapFile};

use crate::disk::{drives_for, one_file};
use crate::errors::BenchErr;
use heap_page::{FileKind, FileMap, ItemList, pages_of, write_relation};
use std::alloc::Global;
use xp_outside::{MemDrive, NoMemory};

/// A heap file, which is the only one of its map, on the drives.
#[derive(Drop)]
pub struct HeapFile {
    pub map: FileMap,
    pub drives: Vec<MemDrive>,
    pub pages: u32,
}

// The bytes of so many rows: the numbers from 0 on.
#[tactic(auto, using(crate::proofs::Items::none, crate::proofs::Items::one_more))]
fn rows_of_numbers(alloc: Global, rows: u32) -> Result<ItemList, NoMemory>
    ensures count { IfOk result (λ items. length items ≡ rows) }
    ensures fit { IfOk result (All FitsAlone) }
{
    let mut items = ItemList::new(alloc);
    for number in 0..rows {
        items.push(&number.to_be_bytes())?;
    }
    Ok(items)
}

/// Writes the heap file of so many rows. It answers `TooMany` where there are more than 1,000,000.
#[tactic(auto, using(crate::proofs::Files::has_pages))]
pub fn write_heap(alloc: Global, rows: u32) -> Result<HeapFile, BenchErr>
    ensures { IfOk result IsHeapFile }
{
    if rows > 1_000_000 {
        return Err(BenchErr::TooMany);
    }
    let items = rows_of_numbers(alloc, rows)?;
    let pages = pages_of(&items);
    let map = one_file(alloc, FileKind::Heap, pages)?;
    let mut drives = drives_for(alloc, pages)?;
    write_relation(alloc, &mut drives, &map, 0, &items)?;
    Ok(HeapFile { map, drives, pages })
}
