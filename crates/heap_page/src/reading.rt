//! Reading one page of a table.
ghost use Rattle.std.specs.Prelude.{◌≡◌, ◌<◌, ℕ, None, Some, IfErr, IfOk, OnOk, MatchResult, length, slice_get};
ghost use Rattle.xp_outside.specs.Drives.{ReadsPage};
ghost use Rattle.heap_page.specs.declared.errors.FetchErr.TheVariants as fetch;
ghost use Rattle.heap_page.specs.declared.head.FileKind.TheVariants.{Heap};
ghost use Rattle.heap_page.specs.Maps.{IsMap, HasPage, drive_of, address_of};
ghost use Rattle.heap_page.specs.Pages.{head_fault};
ghost use Rattle.heap_page.specs.Stores.{AreQuiet, AreRead, IsBad, IsFault, ReadCause, fetch_fault};

use crate::{BadPage, FetchErr, FileKind, FileMap, Page, check_head};
use std::alloc::Global;
use xp_outside::{Drive, PAGE};

// Reads the bytes of one page. An `Err` is the number of a drive that failed.
fn read_bytes<D: Drive>(
    drives: &mut [D],
    map: &FileMap,
    file: u32,
    number: u32,
    into: &mut [u8],
) -> Result<(), u32>
    requires map { IsMap map.now }
    requires drives { length drives.old ≡ map.now.drives }
    requires page { HasPage map.now.files.items file number }
    requires room { (drive : _) → slice_get drives.old (drive_of map.now number) ≡ Some drive → address_of map.now file number < D.size drive }
    requires whole { length into.old ≡ 8192 }
    ensures read { AreRead D.Drive drives.old drives.new }
    ensures quiet { MatchResult result (λ _. AreQuiet D.Drive None drives.old drives.new) (λ place. AreQuiet D.Drive (Some place) drives.old drives.new) }
    ensures told { OnOk result ((drive : _) → slice_get drives.old (drive_of map.now number) ≡ Some drive → ReadsPage (D.pages drive) (address_of map.now file number) into.new) }
    ensures err { IfErr result (λ place. (place ≡ drive_of map.now number) × IsFault D.Drive place drives.old drives.new) }
{
    let (place, address) = map.place(file, number);
    let drive = &mut drives[place as usize];
    match drive.read(address, into) {
        Ok(()) => Ok(()),
        Err(_) => Err(place),
    }
}

// The bytes of one page.
fn read_vec<D: Drive>(
    alloc: Global,
    drives: &mut [D],
    map: &FileMap,
    file: u32,
    page: u32,
) -> Result<Vec<u8>, FetchErr>
    requires map { IsMap map.now }
    requires drives { length drives.old ≡ map.now.drives }
    requires page { HasPage map.now.files.items file page }
    requires room { (drive : _) → slice_get drives.old (drive_of map.now page) ≡ Some drive → address_of map.now file page < D.size drive }
    ensures read { AreRead D.Drive drives.old drives.new }
    ensures quiet { AreQuiet D.Drive (fetch_fault result) drives.old drives.new }
    ensures told { (drive : _) → slice_get drives.old (drive_of map.now page) ≡ Some drive → IfOk result (λ found. ReadsPage (D.pages drive) (address_of map.now file page) found.items) }
    ensures whole { IfOk result (λ found. length found.items ≡ 8192) }
    ensures err { IfErr result (ReadCause D.Drive map.now file page drives.old drives.new) }
{
    let mut bytes = vec![in alloc; 0u8; PAGE]?;
    match read_bytes(drives, map, file, page, &mut bytes) {
        Ok(()) => Ok(bytes),
        Err(place) => Err(FetchErr::DriveFault(place)),
    }
}

// The page of these bytes, where its head breaks no rule.
fn accept(bytes: Vec<u8>, file: u32, page: u32) -> Result<Page, FetchErr>
    requires { length bytes.items ≡ 8192 }
    ensures { MatchResult result (λ found. (head_fault Heap file page bytes.items ≡ None) × (found ≡ bytes.items)) (λ e. IsBad file page bytes.items e) }
{
    match check_head(&bytes, FileKind::Heap, file, page) {
        Ok(()) => Ok(Page::of_vec(bytes)),
        Err(rule) => Err(FetchErr::BadPage(BadPage { file, page, rule })),
    }
}

/// Reads a page of a table. An `Ok` has a head that breaks no rule and is the page at its address, where the drive
/// tells. `DriveFault` comes only where the count of that drive rises, and no other count does. `BadPage` comes exactly where the head of what was
/// read breaks a rule, with the first one. Each drive keeps its number of pages and all that it tells.
pub fn read_relation_page<D: Drive>(
    alloc: Global,
    drives: &mut [D],
    map: &FileMap,
    file: u32,
    page: u32,
) -> Result<Page, FetchErr>
    requires map { IsMap map.now }
    requires drives { length drives.old ≡ map.now.drives }
    requires page { HasPage map.now.files.items file page }
    requires room { (drive : _) → slice_get drives.old (drive_of map.now page) ≡ Some drive → address_of map.now file page < D.size drive }
    ensures read { AreRead D.Drive drives.old drives.new }
    ensures quiet { AreQuiet D.Drive (fetch_fault result) drives.old drives.new }
    ensures told { (drive : _) → slice_get drives.old (drive_of map.now page) ≡ Some drive → IfOk result (λ found. ReadsPage (D.pages drive) (address_of map.now file page) found) }
    ensures head { IfOk result (λ found. head_fault Heap file page found ≡ None) }
    ensures err { IfErr result (ReadCause D.Drive map.now file page drives.old drives.new) }
{
    let bytes = read_vec(alloc, drives, map, file, page)?;
    accept(bytes, file, page)
}
