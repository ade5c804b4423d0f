//! Writing the pages of a table.
ghost use Rattle.std.specs.Prelude.{◌≡◌, ◌+◌, ◌^◌, ◌<◌, ◌∷◌, [], ℕ, List, Some, OnOk, IfErr, IfOk, length, slice_get};
ghost use Rattle.std.specs.List.{All};
ghost use Rattle.heap_page.specs.Blocks.{ArePages, FitsAlone, blocks_of, item_weight};
ghost use Rattle.heap_page.specs.Maps.{IsMap, IsPlace, HasPage, HasPages, drive_of, address_of};
ghost use Rattle.heap_page.specs.Pages.{page_of};
ghost use Rattle.heap_page.specs.Stores.{AreQuiet, AreWritten, HaveRoom, Stand, StoreCause, TellsAt, store_fault};

use crate::{FileMap, ItemList, Page, Push, StoreErr, check_room, store_page};
use std::alloc::Global;
use xp_outside::{Drive, NoMemory};

// A page with one item.
fn start_page(alloc: Global, file: u32, number: u32, item: &[u8]) -> Result<Page, NoMemory>
    requires { FitsAlone item.now }
    ensures { IfOk result (λ page. page ≡ page_of file number (item.now ∷ [])) }
{
    let mut page = Page::empty(alloc, file, number)?;
    match page.push(item) {
        Push::Pushed => Ok(page),
        Push::NoRoom => unreachable!(),
    }
}

// Writes a page, and starts the next one with an item.
fn turn_page<D: Drive>(
    alloc: Global,
    drives: &mut [D],
    map: &FileMap,
    file: u32,
    number: u32,
    page: &mut Page,
    item: &[u8],
) -> Result<(), StoreErr>
    requires map { IsMap map.now }
    requires drives { length drives.old ≡ map.now.drives }
    requires page { HasPage map.now.files.items file number }
    requires room { HaveRoom D.Drive map.now drives.old }
    requires next { number + 1 < 2 ^ 32 }
    requires item { FitsAlone item.now }
    ensures written { AreWritten D.Drive (λ d a. (d ≡ drive_of map.now number) × (a ≡ address_of map.now file number)) drives.old drives.new }
    ensures quiet { AreQuiet D.Drive (store_fault result) drives.old drives.new }
    ensures ok { OnOk result ((drive : _) → slice_get drives.new (drive_of map.now number) ≡ Some drive → TellsAt (D.pages drive) (address_of map.now file number) page.old) }
    ensures page { OnOk result (page.new ≡ page_of file (number + 1) (item.now ∷ [])) }
    ensures err { IfErr result (StoreCause D.Drive map.now drives.old drives.new) }
{
    store_page(drives, map, file, number, page)?;
    *page = start_page(alloc, file, number + 1, item)?;
    Ok(())
}

// Writes the pages of a table that has an item.
fn write_pages<D: Drive>(
    alloc: Global,
    drives: &mut [D],
    map: &FileMap,
    file: u32,
    items: &ItemList,
) -> Result<(), StoreErr>
    requires map { IsMap map.now }
    requires drives { length drives.old ≡ map.now.drives }
    requires room { HaveRoom D.Drive map.now drives.old }
    requires some { 0 < length items.now }
    requires items { All FitsAlone items.now }
    requires pages { HasPages map.now.files.items file (length (blocks_of item_weight 8172 items.now)) }
    ensures written { AreWritten D.Drive (IsPlace map.now file) drives.old drives.new }
    ensures quiet { AreQuiet D.Drive (store_fault result) drives.old drives.new }
    ensures ok { OnOk result (Stand D.Drive map.now file (blocks_of item_weight 8172 items.now) drives.new) }
    ensures err { IfErr result (StoreCause D.Drive map.now drives.old drives.new) }
{
    let mut number = 0u32;
    let mut page = start_page(alloc, file, number, items.get(0))?;
    for place in 1..items.len() {
        let item = items.get(place);
        match page.push(item) {
            Push::Pushed => {}
            Push::NoRoom => {
                turn_page(alloc, drives, map, file, number, &mut page, item)?;
                number += 1;
            }
        }
    }
    store_page(drives, map, file, number, &page)
}

/// Writes the pages of a table, a new one exactly where the next item doesn't fit. The map gives the file as many pages
/// as the items need. `DriveFull` comes exactly where some drive is smaller than its files need, with the first such
/// drive, its need and its number of pages, before any write. `DriveFault` comes only where that drive's count rises, and no other count does.
/// After an `Ok` the pages stand at the file's addresses, where a drive tells them. Whatever the answer, each drive keeps
/// its number of pages, tells exactly where it told, and tells the same at every address that is none of the file's.
pub fn write_relation<D: Drive>(
    alloc: Global,
    drives: &mut [D],
    map: &FileMap,
    file: u32,
    items: &ItemList,
) -> Result<(), StoreErr>
    requires map { IsMap map.now }
    requires drives { length drives.old ≡ map.now.drives }
    requires items { All FitsAlone items.now }
    requires pages { (blocks : List (List (List ℕ))) → ArePages items.now blocks → HasPages map.now.files.items file (length blocks) }
    ensures written { AreWritten D.Drive (IsPlace map.now file) drives.old drives.new }
    ensures quiet { AreQuiet D.Drive (store_fault result) drives.old drives.new }
    ensures room { OnOk result (HaveRoom D.Drive map.now drives.old) }
    ensures ok { (blocks : List (List (List ℕ))) → ArePages items.now blocks → OnOk result (Stand D.Drive map.now file blocks drives.new) }
    ensures err { IfErr result (StoreCause D.Drive map.now drives.old drives.new) }
{
    check_room(drives, map)?;
    if items.is_empty() {
        return Ok(());
    }
    write_pages(alloc, drives, map, file, items)
}
