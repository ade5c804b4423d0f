//! An index file over entries whose places are computed from their numbers.
ghost use Rattle.std.specs.Prelude.{◌≡◌, IfOk};
ghost use Rattle.rows.specs.declared.field.ColType.TheVariants.{Int4};
ghost use Rattle.key_index.specs.Entries.{AreEntries};
ghost use Rattle.engine_bench.specs.Laid.{IsIndexFile};

use crate::disk::{drives_for, one_file};
use crate::errors::BenchErr;
use heap_page::{FileKind, FileMap};
use key_index::{are_entries, plan_index, write_index};
use lists::Sequence;
use rows::{ColType, KeyEntry, KeyEntryList, KeyIndex, Value};
use std::alloc::Global;
use xp_outside::{MemDrive, NoMemory};

// How many entries stand on each heap page.
const SLOTS: u32 = 1000;

/// An index, whose file is the only one of its map, on the drives.
#[derive(Drop)]
pub struct IndexFile {
    pub index: KeyIndex,
    pub map: FileMap,
    pub drives: Vec<MemDrive>,
}

/// The heap page and the slot of the entry of this number.
pub fn place_of(number: u32) -> (u32, u32) {
    (number / SLOTS, number % SLOTS)
}

// So many entries, each of which has its number as its key.
fn numbered_entries(alloc: Global, count: u32) -> Result<KeyEntryList, NoMemory> {
    let mut entries = Vec::with_capacity(alloc, count as usize)?;
    for number in 0..count {
        let (page, slot) = place_of(number);
        entries.push(KeyEntry {
            key: Value::Number(i64::from(number)),
            page,
            slot,
        })?;
    }
    Ok(Sequence::from_vec(entries))
}

// Writes the index over these entries.
#[tactic(auto, using(crate::proofs::Files::has_pages))]
fn lay(alloc: Global, entries: &KeyEntryList, heap_pages: u32) -> Result<IndexFile, BenchErr>
    requires { AreEntries Int4 heap_pages entries.now }
    ensures { IfOk result IsIndexFile }
{
    let index = plan_index(alloc, entries, ColType::Int4, 0, heap_pages)?;
    let map = one_file(alloc, FileKind::Index, index.pages)?;
    let mut drives = drives_for(alloc, index.pages)?;
    write_index(alloc, &mut drives, &map, &index, entries)?;
    Ok(IndexFile { index, map, drives })
}

/// Plans and writes the index over so many entries. It answers `TooMany` where there are more than 1,000,000.
pub fn write_entries(alloc: Global, count: u32) -> Result<IndexFile, BenchErr>
    ensures { IfOk result IsIndexFile }
{
    if count > 1_000_000 {
        return Err(BenchErr::TooMany);
    }
    let entries = numbered_entries(alloc, count)?;
    let heap_pages = count / SLOTS + 1;
    if !are_entries(&entries, ColType::Int4, heap_pages) {
        return Err(BenchErr::NotInOrder);
    }
    lay(alloc, &entries, heap_pages)
}
