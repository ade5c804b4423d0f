//! Writing the pages of an index.
ghost use Rattle.std.specs.Prelude.{◌≡◌, ◌+◌, ◌^◌, ◌<◌, ◌≤◌, Some, OnOk, IfErr, IfOk, length, slice_get, slice_index_or, slice_range, []};
ghost use Rattle.std.specs.List.{All};
ghost use Rattle.heap_page.specs.Maps.{IsMap, IsPlace, HasPage, HasPages, drive_of, address_of};
ghost use Rattle.heap_page.specs.Stores.{AreQuiet, AreWritten, HaveRoom, StoreCause, TellsAt, store_fault};
ghost use Rattle.key_index.specs.Bytes.{page_of};
ghost use Rattle.key_index.specs.Entries.{AreEntries};
ghost use Rattle.key_index.specs.Files.{index_of, index_pages};
ghost use Rattle.key_index.specs.Nodes.{AreKeys, IsLevel, level_blocks};
ghost use Rattle.key_index.specs.Written.{AllStand, FirstStand};

use crate::index_page::page_with;
use crate::level::{first_level, level_above};
use crate::node::{Level, Node};
use heap_page::{FileMap, Page, StoreErr, check_room, store_page};
use rows::{KeyEntry, KeyEntryList, KeyIndex};
use std::alloc::Global;
use xp_outside::{Drive, NoMemory};

// The place behind the items of a page.
fn end_of(level: &Level, place: usize) -> usize
    requires { place < length level.now.starts.items }
    ensures { result ≡ slice_index_or level.now.starts.items (place + 1) (length level.now.nodes.items) }
{
    match level.starts.get(place + 1) {
        Some(start) => *start as usize,
        None => level.nodes.len(),
    }
}

// The items from one place up to another one.
fn part(nodes: &[Node], from: usize, upto: usize) -> &[Node]
    requires order { from ≤ upto }
    requires within { upto ≤ length nodes.now }
    ensures { result.now ≡ slice_range nodes.now from upto }
{
    &nodes[from..upto]
}

// One page of a level.
fn level_page(
    alloc: Global,
    entries: &[KeyEntry],
    level: &Level,
    file: u32,
    place: usize,
) -> Result<Page, NoMemory>
    requires keys { AreKeys entries.now }
    requires few { length entries.now ≤ 1000000 }
    requires level { IsLevel entries.now level.now }
    requires place { place < length level.now.starts.items }
    ensures { IfOk result (λ page. page ≡ page_of file (level.now.base + place) level.now.number (slice_index_or (level_blocks entries.now level.now.nodes.items level.now.number) place [])) }
{
    let number = level.base + place as u32;
    let starts = level.starts.as_slice();
    let nodes = level.nodes.as_slice();
    let from = starts[place] as usize;
    let upto = end_of(level, place);
    page_with(
        alloc,
        entries,
        part(nodes, from, upto),
        file,
        number,
        level.number,
    )
}

// Writes one page of a level.
fn write_page<D: Drive>(
    alloc: Global,
    drives: &mut [D],
    map: &FileMap,
    file: u32,
    entries: &[KeyEntry],
    level: &Level,
    place: usize,
) -> Result<(), StoreErr>
    requires map { IsMap map.now }
    requires drives { length drives.old ≡ map.now.drives }
    requires room { HaveRoom D.Drive map.now drives.old }
    requires page { HasPage map.now.files.items file (level.now.base + place) }
    requires small { level.now.base + place < 2 ^ 32 }
    requires keys { AreKeys entries.now }
    requires few { length entries.now ≤ 1000000 }
    requires level { IsLevel entries.now level.now }
    requires place { place < length level.now.starts.items }
    ensures written { AreWritten D.Drive (λ d a. (d ≡ drive_of map.now (level.now.base + place)) × (a ≡ address_of map.now file (level.now.base + place))) drives.old drives.new }
    ensures quiet { AreQuiet D.Drive (store_fault result) drives.old drives.new }
    ensures ok { OnOk result ((drive : _) → slice_get drives.new (drive_of map.now (level.now.base + place)) ≡ Some drive → TellsAt (D.pages drive) (address_of map.now file (level.now.base + place)) (page_of file (level.now.base + place) level.now.number (slice_index_or (level_blocks entries.now level.now.nodes.items level.now.number) place []))) }
    ensures err { IfErr result (StoreCause D.Drive map.now drives.old drives.new) }
{
    let page = level_page(alloc, entries, level, file, place)?;
    store_page(drives, map, file, level.base + place as u32, &page)
}

// Writes the pages of a level.
fn write_level<D: Drive>(
    alloc: Global,
    drives: &mut [D],
    map: &FileMap,
    file: u32,
    entries: &[KeyEntry],
    level: &Level,
) -> Result<(), StoreErr>
    requires map { IsMap map.now }
    requires drives { length drives.old ≡ map.now.drives }
    requires room { HaveRoom D.Drive map.now drives.old }
    requires pages { HasPages map.now.files.items file (length (index_pages file entries.now)) }
    requires keys { AreKeys entries.now }
    requires few { length entries.now ≤ 1000000 }
    requires level { IsLevel entries.now level.now }
    ensures written { AreWritten D.Drive (IsPlace map.now file) drives.old drives.new }
    ensures quiet { AreQuiet D.Drive (store_fault result) drives.old drives.new }
    ensures ok { FirstStand D.Drive map.now file (index_pages file entries.now) level.now.base drives.old → OnOk result (FirstStand D.Drive map.now file (index_pages file entries.now) (level.now.base + length level.now.starts.items) drives.new) }
    ensures err { IfErr result (StoreCause D.Drive map.now drives.old drives.new) }
{
    for place in 0..level.starts.len() {
        write_page(alloc, drives, map, file, entries, level, place)?;
    }
    Ok(())
}

// Writes the pages of all levels.
fn write_levels<D: Drive>(
    alloc: Global,
    drives: &mut [D],
    map: &FileMap,
    file: u32,
    entries: &[KeyEntry],
) -> Result<(), StoreErr>
    requires map { IsMap map.now }
    requires drives { length drives.old ≡ map.now.drives }
    requires room { HaveRoom D.Drive map.now drives.old }
    requires pages { HasPages map.now.files.items file (length (index_pages file entries.now)) }
    requires keys { AreKeys entries.now }
    requires slots { All (λ e. e.slot < 65536) entries.now }
    requires some { 0 < length entries.now }
    requires few { length entries.now ≤ 1000000 }
    ensures written { AreWritten D.Drive (IsPlace map.now file) drives.old drives.new }
    ensures quiet { AreQuiet D.Drive (store_fault result) drives.old drives.new }
    ensures ok { OnOk result (AllStand D.Drive map.now file (index_pages file entries.now) drives.new) }
    ensures err { IfErr result (StoreCause D.Drive map.now drives.old drives.new) }
{
    let mut level = first_level(alloc, entries)?;
    while level.starts.len() > 1 {
        write_level(alloc, drives, map, file, entries, &level)?;
        level = level_above(alloc, entries, &level)?;
    }
    write_level(alloc, drives, map, file, entries, &level)
}

/// Writes the pages of the index over these entries, which are as for `plan_index` and whose numbers the index has; the map
/// gives its file as many pages. `DriveFull` comes exactly where some drive is smaller than its files need, with the first
/// such drive, its need and its number of pages, before any write. `DriveFault` comes only where that drive's count rises,
/// and no other count does. After an `Ok` the pages stand at the file's addresses, where a drive tells them. Whatever the answer, each drive keeps
/// its number of pages, tells exactly where it told, and tells the same at every address that is none of the file's.
pub fn write_index<D: Drive>(
    alloc: Global,
    drives: &mut [D],
    map: &FileMap,
    index: &KeyIndex,
    entries: &KeyEntryList,
) -> Result<(), StoreErr>
    requires map { IsMap map.now }
    requires drives { length drives.old ≡ map.now.drives }
    requires entries { AreEntries index.now.key_type index.now.heap_pages entries.now }
    requires index { index.now ≡ index_of index.now.file index.now.key_type index.now.heap_pages entries.now }
    requires pages { HasPages map.now.files.items index.now.file index.now.pages }
    ensures written { AreWritten D.Drive (IsPlace map.now index.now.file) drives.old drives.new }
    ensures quiet { AreQuiet D.Drive (store_fault result) drives.old drives.new }
    ensures room { OnOk result (HaveRoom D.Drive map.now drives.old) }
    ensures ok { OnOk result (AllStand D.Drive map.now index.now.file (index_pages index.now.file entries.now) drives.new) }
    ensures err { IfErr result (StoreCause D.Drive map.now drives.old drives.new) }
{
    check_room(drives, map)?;
    if entries.is_empty() {
        return Ok(());
    }
    write_levels(alloc, drives, map, index.file, entries.items())
}
